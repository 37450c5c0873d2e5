// What a queue keeps behind its lock.
ghost use Rattle.std.specs.Prelude.{◌≡◌, ◌≤◌, [], IfOk, false};
ghost use Rattle.door_queue.specs.Doors.{answer_to, closed, door, next_of, with_offer, without_next};

use circular_buffer::HeapCircularBuffer;
use out_of_memory::OutOfMemory;
use std::alloc::Global;
use std::marker::Model;

/// Items in the order in which they were kept, of which there is room for so many, and whether no more are kept.
#[derive(Drop)]
pub struct DoorState<T> {
    items: HeapCircularBuffer<T>,
    closed: bool,
}

impl<T> Model for DoorState<T> {
    ghost use Rattle.door_queue.specs.Doors.{Door, door};

    ghost Value = { Door T };

    ghost view = { λ s. door s.items.items s.items.capacity s.closed };
}

/// What comes of an item that is offered.
#[derive(Debug, Drop)]
pub enum Offered<T> {
    /// It is kept, as the last.
    Kept,
    /// There is no room: it comes back.
    Full(T),
    /// No more are kept: it comes back.
    Closed(T),
}

/// What is next.
#[derive(Debug, Drop)]
pub enum Next<T> {
    /// The item that was kept first, which is taken out.
    Item(T),
    /// There is none yet.
    Empty,
    /// There is none, and none will come.
    Closed,
}

impl<T> DoorState<T> {
    /// No items, and room for so many, which is reserved. Open.
    pub fn new(alloc: Global, most: usize) -> Result<DoorState<T>, OutOfMemory>
        requires { 1 ≤ most }
        ensures { IfOk result (λ state. state ≡ door [] most false) }
    {
        let items = HeapCircularBuffer::with_capacity(alloc, most)?;
        Ok(DoorState {
            items,
            closed: false,
        })
    }

    /// Keeps the item as the last, unless it is closed or there is no room. It takes constant time and no memory.
    pub fn offer(&mut self, item: T) -> Offered<T>
        ensures answer { result ≡ answer_to item self.old }
        ensures state { self.new ≡ with_offer item self.old }
    {
        if self.closed {
            return Offered::Closed(item);
        }
        match self.items.try_push_back(item) {
            Ok(()) => Offered::Kept,
            Err(item) => Offered::Full(item),
        }
    }

    /// Takes out the item that was kept first. It takes constant time.
    pub fn next(&mut self) -> Next<T>
        ensures answer { result ≡ next_of self.old }
        ensures state { self.new ≡ without_next self.old }
    {
        match self.items.pop_front() {
            Some(item) => Next::Item(item),
            None if self.closed => Next::Closed,
            None => Next::Empty,
        }
    }

    /// Keeps no more items. Those that are kept are left.
    pub fn close(&mut self)
        ensures { self.new ≡ closed self.old }
    {
        self.closed = true;
    }
}
