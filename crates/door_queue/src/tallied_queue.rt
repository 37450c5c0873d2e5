// Queues between threads that tell what became of each item.
ghost use Rattle.std.specs.Prelude.{◌≡◌, ◌<◌, ◌≤◌, true, IfOk, MatchOption, MatchResult};
ghost use Rattle.door_queue.specs.Tallies.{EachOnce, all_parts, joined, parted, put_in, taken_out, tally_of};

use crate::closing::Closing;
use crate::tally::{Both, Fair, Hand, Part, Puts, Takes, Tally};
use crossbeam_queue::RuledArrayQueue;
use out_of_memory::OutOfMemory;
use std::alloc::Global;
use std::marker::Model;
use std::snapshot::Snapshot;
use std::sync::{Condvar, Mutex, OnceToken, Wait};

/// The items of a queue, and whether all are put.
#[derive(Drop)]
struct Kept<T> {
    items: RuledArrayQueue<T, Hand<T>, Fair>,
    closing: Closing,
}

/// A queue as `DoorQueue`, whose callers each have a tally of what they put and took. Contracts see which queue it is.
#[derive(Drop)]
pub struct TalliedQueue<T> {
    kept: Kept<T>,
    /// Who puts an item, takes one or closes the queue has this lock.
    turn: Mutex<()>,
    /// An item was taken: there is room for one.
    has_room: Condvar,
    /// An item was kept.
    has_item: Condvar,
}

impl<T> Model for TalliedQueue<T> {
    ghost use Rattle.atomic_table.specs.Seated.{TableId};

    ghost Value = { TableId };

    ghost view = { λ q. q.kept.items.table.shared.table_id };
}

/// A token of a queue that `take` found closed and empty. `take` alone makes it, so that whoever has to hand one over takes until
/// then. It is made only of a queue that was closed; that none was left then no clause says. Whoever closes a queue says that all
/// items are put; `put` does not look at it. It has no bytes. Contracts see which queue it is of.
#[derive(Drop)]
pub struct Drained<T> {
    queue: Snapshot<Kept<T>>,
}

impl<T> Model for Drained<T> {
    ghost use Rattle.atomic_table.specs.Seated.{TableId};

    ghost Value = { TableId };

    ghost view = { λ d. d.queue.value.items.table.shared.table_id };
}

impl<T> Kept<T> {
    /// Makes the token of the queue. Who asks for it has seen that the queue is closed, and says that no item was found.
    fn token(&self, _seen: &OnceToken<'_, ()>, _is_empty: bool) -> Drained<T>
        requires shut { _seen.now.of ≡ self.now.closing }
        requires empty { _is_empty ≡ true }
        ensures { result ≡ self.now.items.table.shared.table_id }
    {
        Drained {
            queue: Snapshot::of(self),
        }
    }
}

impl<T> TalliedQueue<T> {
    /// Makes a queue of no items, with room for so many, which is reserved, and its whole tally. Linear in the room.
    ///
    /// `OutOfMemory`: none was found for the room.
    pub fn new(alloc: Global, most: usize) -> Result<(TalliedQueue<T>, Tally<T>), OutOfMemory>
        requires { 1 ≤ most }
        ensures { IfOk result (λ made. made.1 ≡ tally_of made.0 all_parts) }
    {
        let (items, pass) = RuledArrayQueue::ruled(alloc, most)?;
        let closing = Closing::new();
        let queue = TalliedQueue {
            kept: Kept { items, closing },
            turn: Mutex::new(()),
            has_room: Condvar::new(),
            has_item: Condvar::new(),
        };
        Ok((queue, Tally { pass }))
    }

    /// Splits off a tally for another caller, with which nothing was put or taken.
    pub fn split(&self, tally: &mut Tally<T>) -> Tally<T>
        requires queue { tally.old.queue ≡ self.now }
        requires parts { 1 < tally.old.parts }
        ensures left { tally.new ≡ parted tally.old }
        ensures right { result ≡ tally_of self.now 1 }
    {
        let pass = self.kept.items.another::<Part>(&mut tally.pass);
        Tally { pass }
    }

    /// Adds to a tally what was put and taken with another.
    pub fn join(&self, tally: &mut Tally<T>, other: Tally<T>)
        requires queue { tally.old.queue ≡ self.now }
        requires other { other.queue ≡ self.now }
        requires parts { 0 < tally.old.parts }
        ensures { tally.new ≡ joined tally.old other }
    {
        self.kept.items.absorb::<Both>(&mut tally.pass, other.pass)
    }

    /// Puts an item in, and waits while there is no room, also where the queue is closed: who puts items closes it when all are
    /// put. It takes no memory.
    pub fn put<R: Wait>(&self, rt: &R, tally: &mut Tally<T>, item: T)
        requires queue { tally.old.queue ≡ self.now }
        requires parts { 0 < tally.old.parts }
        ensures { tally.new ≡ put_in tally.old item }
    {
        let mut turn = self.turn.lock(rt);
        let mut item = item;
        for _ in rt.forever() {
            match self.kept.items.try_push_as::<Puts>(&mut tally.pass, item) {
                Ok(()) => {
                    self.has_item.notify_one();
                    return;
                }
                Err(back) => item = back,
            }
            turn = self.has_room.wait(rt, turn);
        }
        unreachable!()
    }

    /// Takes out the item that was kept first, and waits while there is none. `Drained`: the queue was closed, and was empty then,
    /// which no clause says.
    pub fn take<R: Wait>(&self, rt: &R, tally: &mut Tally<T>) -> Result<T, Drained<T>>
        requires queue { tally.old.queue ≡ self.now }
        requires parts { 0 < tally.old.parts }
        ensures { MatchResult result (λ item. tally.new ≡ taken_out tally.old item) (λ drained. (tally.new ≡ tally.old) × (drained ≡ self.now)) }
    {
        let mut turn = self.turn.lock(rt);
        for _ in rt.forever() {
            let is_empty = match self.kept.items.try_pop_as::<Takes>(&mut tally.pass) {
                Some(item) => {
                    self.has_room.notify_one();
                    return Ok(item);
                }
                None => true,
            };
            if let Some(seen) = self.kept.closing.seen() {
                return Err(self.kept.token(&seen, is_empty));
            }
            turn = self.has_item.wait(rt, turn);
        }
        unreachable!()
    }

    /// Takes out the item that was kept first of those that are left when all tallies are joined to one, and does not wait for one
    /// to be put; it may wait for the lock. None where none is left: each item that was put was taken once.
    pub fn take_left<R: Wait>(&self, rt: &R, tally: &mut Tally<T>) -> Option<T>
        requires queue { tally.old.queue ≡ self.now }
        requires whole { tally.old.parts ≡ all_parts }
        ensures { MatchOption result ((tally.new ≡ tally.old) × EachOnce tally.old.put tally.old.taken) (λ item. tally.new ≡ taken_out tally.old item) }
    {
        self.kept.items.pop_as::<Takes, R>(rt, &mut tally.pass)
    }

    /// Tells that all items are put. All who wait to take one go on, and find what is left.
    pub fn close<R: Wait>(&self, rt: &R) {
        let _turn = self.turn.lock(rt);
        self.kept.closing.close();
        self.has_item.notify_all();
    }
}
