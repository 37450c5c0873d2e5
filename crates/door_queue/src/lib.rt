// A queue between threads that has room for so many items, and a bell that wakes a thread.
//
// The layers above may use `TalliedQueue`, `DoorQueue` and `Bell`, whose calls may wait. Of what a `TalliedQueue` keeps behind its
// lock the tallies of its callers tell: when they are joined, each item that was put was taken once or is left. `take` alone makes
// a `Drained`, and only where it has seen that the queue is closed; that it was empty then no clause says. Of the other two
// contracts say what each call makes of `DoorState` and `BellState`, which they keep behind a lock. No contract can say when a call
// that waits returns.
#![tactic(auto)]

pub mod bell;
pub mod bell_state;
mod closing;
pub mod door_queue;
pub mod door_state;
pub mod laws;
pub mod tallied_queue;
pub mod tally;

pub use bell::{Bell, Rung};
pub use bell_state::{BellState, Heard};
pub use door_queue::DoorQueue;
pub use door_state::{DoorState, Next, Offered};
pub use tallied_queue::{Drained, TalliedQueue};
pub use tally::Tally;
