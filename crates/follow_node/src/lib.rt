// What a follower takes of its home.
//
// The layers above give a `Feeder` a link to the home and a `Replica`. The feeder asks for the entries after those that the replica
// has, and gives it the writes of the entries that come, in order. Contracts speak of what the home's bytes feed: over all pulls of a
// feeder the replica's writes are a beginning of that.
//
// Dangerous here: a pull waits for the home as long as its link does, and no type says so. The replica has to be the feeder's own: a
// write that it has from elsewhere breaks the condition of `pull`.
#![tactic(auto)]

mod asking;
mod entries;
pub mod fed_law;
pub mod fed_rows;
pub mod feeder;
mod home_line;
pub mod pulled;
mod reading;
pub mod replica;
pub mod rows;

pub use feeder::Feeder;
pub use pulled::Pulled;
pub use replica::{Replica, Taken};
