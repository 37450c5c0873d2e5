// What a bell keeps behind its lock.
ghost use Rattle.std.specs.Prelude.{◌≡◌, true, false};
ghost use Rattle.door_queue.specs.Bells.{after_hearing, bell, closed, heard_of, rung};

use std::marker::Model;

/// Whether a bell was rung since it was heard, and whether it is closed.
#[derive(Drop)]
pub struct BellState {
    rung: bool,
    closed: bool,
}

impl Model for BellState {
    ghost use Rattle.door_queue.specs.Bells.{BellView, bell};

    ghost Value = { BellView };

    ghost view = { λ b. bell b.rung b.closed };
}

/// What is heard.
#[derive(Clone, Copy, Debug, PartialEq, Eq)]
pub enum Heard {
    /// The bell is closed.
    Closed,
    /// It is open and was rung, which ends the ring.
    Work,
    /// It is open, and was not rung.
    Quiet,
}

impl BellState {
    /// A bell that was not rung. Open.
    pub fn new() -> BellState
        ensures { result ≡ bell false false }
    {
        BellState {
            rung: false,
            closed: false,
        }
    }

    /// Rings it.
    pub fn ring(&mut self)
        ensures { self.new ≡ rung self.old }
    {
        self.rung = true;
    }

    /// Whether it is closed, or else was rung. A ring is heard once.
    pub fn hear(&mut self) -> Heard
        ensures answer { result ≡ heard_of self.old }
        ensures state { self.new ≡ after_hearing self.old }
    {
        if self.closed {
            return Heard::Closed;
        }
        if !self.rung {
            return Heard::Quiet;
        }
        self.rung = false;
        Heard::Work
    }

    /// Closes it.
    pub fn close(&mut self)
        ensures { self.new ≡ closed self.old }
    {
        self.closed = true;
    }
}
