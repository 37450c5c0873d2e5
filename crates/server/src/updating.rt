// Bringing kept ranges forward, on a thread of its own.
use base_shards::Naming;
use door_queue::{Bell, Rung};
use pequod_cache::{Turn, Updater};
use pq_io::Gate;
use request_codec::{Reply, Request};
use session::Service;
use std::sync::Wait;
use std::thread;

/// A service that rings a bell after each write that is acknowledged.
#[derive(Drop)]
pub(crate) struct Ringing<'a, R, S> {
    /// With what it waits.
    pub rt: &'a R,
    /// The bell.
    pub bell: &'a Bell,
    /// What answers.
    pub service: S,
}

impl<'a, R: Wait, S: Service> Service for Ringing<'a, R, S> {
    ghost number = { λ r. S.number r.service };

    ghost view = { λ r. S.view r.service };

    fn answer(&mut self, request: Request) -> Reply {
        let reply = self.service.answer(request);
        if matches!(&reply, Reply::Done(_)) {
            self.bell.ring(self.rt);
        }
        reply
    }

    fn make_room(&self) -> bool {
        self.service.make_room()
    }
}

/// Takes turns until no cell is marked, or there is no memory for one. After each it lets other threads have the processor: whoever
/// waits for a reply goes first.
fn take_turns<N: Naming, G: Gate, R: Wait>(rt: &R, updater: &mut Updater<'_, N, G>) {
    for _ in rt.forever() {
        match updater.turn(rt) {
            Turn::Brought { .. } => thread::yield_now(),
            Turn::TooWide { .. } => thread::yield_now(),
            Turn::Idle => return,
            Turn::OutOfMemory(_) => return,
        }
    }
    unreachable!()
}

/// Each time that the bell was rung takes turns until no cell is marked, or there is no memory for one. It returns when the bell
/// is closed.
pub fn update<N: Naming, G: Gate, R: Wait>(rt: &R, bell: &Bell, updater: Updater<'_, N, G>) {
    let mut updater = updater;
    for _ in rt.forever() {
        match bell.wait(rt) {
            Rung::Work => take_turns(rt, &mut updater),
            Rung::Closed => return,
        }
    }
    unreachable!()
}
