// The lowest reader of a history that threads share, and what a layer asks of the reader that it stands on.
//
// The layers above may use `SharedReader`, which contracts see as the pass that it reads with, the trait `Stacked`: a reader
// whose list is what a pass has seen, and `Followed`: the ranges of base pairs that a cell follows.
#![tactic(auto)]

pub mod followed;
mod known;
mod noted;
pub mod reader;
pub mod stacked;

pub use followed::Followed;
pub use reader::SharedReader;
pub use stacked::{Stacked, Use};
