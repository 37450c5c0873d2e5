// Serving links from doors: an acceptor takes them, and workers serve them, each with a client of its own of one cache; beside
// them an updater brings forward what the cache keeps. Each worker and the updater has a thread, and no door is opened before.
//
// The layer above may use `serve`, which does all of it and may wait; `staff` makes the client that declares the joins and those of
// the workers, and `serve_doors` opens the doors and serves links with them, where `Declaring` names the joins. When serving ends,
// the clients meet, so that nothing is in the history that none of them wrote, and the receipts of all links go back to the doors.
#![tactic(auto)]

mod accepting;
mod beside;
pub mod declaring;
pub mod opening;
pub mod serving;
mod settling;
pub mod staffing;
mod updating;
mod worker;
mod working;

pub use declaring::Declaring;
pub use opening::{Size, serve};
pub use serving::{Ended, serve_doors};
pub use staffing::staff;
