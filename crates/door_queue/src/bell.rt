// Bells between threads.
use crate::bell_state::{BellState, Heard};
use std::sync::{Condvar, Mutex, Wait};

/// A bell that threads ring, and on which one waits.
#[derive(Drop)]
pub struct Bell {
    state: Mutex<BellState>,
    was_rung: Condvar,
}

/// Why a wait for a bell ended.
#[derive(Clone, Copy, Debug, PartialEq, Eq)]
pub enum Rung {
    /// The bell is closed.
    Closed,
    /// It was rung since the last wait that ended so.
    Work,
}

impl Bell {
    /// A bell that was not rung.
    pub fn new() -> Bell {
        Bell {
            state: Mutex::new(BellState::new()),
            was_rung: Condvar::new(),
        }
    }

    /// Rings it. One who waits goes on.
    pub fn ring<R: Wait>(&self, rt: &R) {
        self.state.lock(rt).ring();
        self.was_rung.notify_one();
    }

    /// Waits until the bell is rung or closed.
    pub fn wait<R: Wait>(&self, rt: &R) -> Rung {
        let mut state = self.state.lock(rt);
        for _ in rt.forever() {
            match state.hear() {
                Heard::Closed => return Rung::Closed,
                Heard::Work => return Rung::Work,
                Heard::Quiet => {}
            }
            state = self.was_rung.wait(rt, state);
        }
        unreachable!()
    }

    /// Closes it. All who wait go on.
    pub fn close<R: Wait>(&self, rt: &R) {
        self.state.lock(rt).close();
        self.was_rung.notify_all();
    }
}
