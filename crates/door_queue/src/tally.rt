// Who put and took what.
use crossbeam_queue::Pass;
use crossbeam_queue::protocol::{Join, Lesson, Outcome, Protocol, Split};
use std::collections::LinkedList;
use std::marker::Model;

// What a pass knows: how many of the parts of the whole it has, and what was put and taken with it. No value of it is made.
// Contracts alone see it; the whole has 2^64 parts.
pub struct Hand<T> {
    pub parts: u64,
    pub put: LinkedList<T>,
    pub taken: LinkedList<T>,
}

/// The items that one caller of a queue put and took, in order. It has no bytes. A queue is made with a whole tally, of which
/// others are split off and to which they are joined again: the whole one knows that each item that was put was taken or is left.
#[derive(Drop)]
pub struct Tally<T> {
    pub(crate) pass: Pass<T, Hand<T>>,
}

impl<T> Model for Tally<T> {
    ghost use Rattle.std.specs.Prelude.{◌≡◌, []};
    ghost use Rattle.door_queue.specs.Tallies.{Tallied, tallied};

    ghost Value = { Tallied T };

    ghost view = { λ t. tallied t.pass.table_id t.pass.me.0.client };

    ghost invariant = { λ t. t.pass.me.1 ≡ [] };
}

// The rule of the queue.
pub(crate) struct Fair;

impl<T> Protocol<T, Hand<T>> for Fair {
    ghost use Rattle.door_queue.specs.Tallies.{IsBalanced, whole_hand};

    ghost holds = { IsBalanced };

    ghost first = { whole_hand };
}

// A part is split off, with which nothing was put or taken.
pub(crate) struct Part;

impl<T> Split<Hand<T>> for Part {
    ghost use Rattle.std.specs.Prelude.{[]};
    ghost use Rattle.door_queue.specs.Tallies.{hand, without_part};

    ghost left = { without_part };

    ghost right = { λ v. hand 1 [] [] };
}

// Two become one.
pub(crate) struct Both;

impl<T> Join<Hand<T>> for Both {
    ghost use Rattle.std.specs.Prelude.{[]};
    ghost use Rattle.door_queue.specs.Tallies.{both_hands, hand};

    ghost both = { both_hands };

    ghost spent = { hand 0 [] [] };
}

// An item is put.
pub(crate) struct Puts;

impl<T> Outcome<T, Hand<T>> for Puts {
    ghost use Rattle.std.specs.Prelude.{◌≡◌};
    ghost use Rattle.door_queue.specs.Tallies.{with_put};

    ghost then = { λ v x w. w ≡ with_put v x };
}

// An item is taken; and what the whole tally knows where none is left.
pub(crate) struct Takes;

impl<T> Outcome<T, Hand<T>> for Takes {
    ghost use Rattle.std.specs.Prelude.{◌≡◌};
    ghost use Rattle.door_queue.specs.Tallies.{with_taken};

    ghost then = { λ v x w. w ≡ with_taken v x };
}

impl<T> Lesson<T, Hand<T>> for Takes {
    ghost use Rattle.door_queue.specs.Tallies.{WhatIsLeft};

    ghost fact = { WhatIsLeft };
}
