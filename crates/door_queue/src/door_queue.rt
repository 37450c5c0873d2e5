// Queues between threads.
ghost use Rattle.std.specs.Prelude.{◌≡◌, ◌≤◌, IfErr};

use crate::door_state::{DoorState, Next, Offered};
use out_of_memory::OutOfMemory;
use std::alloc::Global;
use std::sync::{Condvar, Mutex, Wait};

/// A queue that threads put items into and take them from. It has room for so many. Each item that is kept is taken once, in
/// the order of keeping, or is left.
#[derive(Drop)]
pub struct DoorQueue<T> {
    state: Mutex<DoorState<T>>,
    /// An item was taken: there is room for one.
    has_room: Condvar,
    /// An item was kept.
    has_item: Condvar,
}

impl<T> DoorQueue<T> {
    /// No items, and room for so many, which is reserved.
    pub fn new(alloc: Global, most: usize) -> Result<DoorQueue<T>, OutOfMemory>
        requires { 1 ≤ most }
    {
        let state = DoorState::new(alloc, most)?;
        Ok(DoorQueue {
            state: Mutex::new(state),
            has_room: Condvar::new(),
            has_item: Condvar::new(),
        })
    }

    /// Puts an item in, and waits while there is no room. It comes back where the queue was closed. It takes no memory.
    pub fn put<R: Wait>(&self, rt: &R, item: T) -> Result<(), T>
        ensures { IfErr result (λ back. back ≡ item) }
    {
        let mut state = self.state.lock(rt);
        let mut item = item;
        for _ in rt.forever() {
            match state.offer(item) {
                Offered::Kept => {
                    self.has_item.notify_one();
                    return Ok(());
                }
                Offered::Closed(back) => return Err(back),
                Offered::Full(back) => item = back,
            }
            state = self.has_room.wait(rt, state);
        }
        unreachable!()
    }

    /// Takes out the item that was kept first, and waits while there is none. None where the queue is closed and empty.
    pub fn take<R: Wait>(&self, rt: &R) -> Option<T> {
        let mut state = self.state.lock(rt);
        for _ in rt.forever() {
            match state.next() {
                Next::Item(item) => {
                    self.has_room.notify_one();
                    return Some(item);
                }
                Next::Closed => return None,
                Next::Empty => {}
            }
            state = self.has_item.wait(rt, state);
        }
        unreachable!()
    }

    /// Keeps no more items. All who wait go on: those who put have their items back, and those who take find what is left.
    pub fn close<R: Wait>(&self, rt: &R) {
        self.state.lock(rt).close();
        self.has_room.notify_all();
        self.has_item.notify_all();
    }
}
