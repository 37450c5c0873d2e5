// Which updaters a written key concerns: ids with the source ranges that each has registered, and the ids that are marked,
// in the order of marking.
//
// The layers above may use `UpdaterIndex`: contracts see it as the list of the ranges of each id, and the list of the marked
// ids. Below it, `forks` finds the ranges that contain a key by the place where the bounds of each range part.
#![tactic(auto)]

mod bounds;
mod fork;
mod forks;
pub mod index;
mod marks;
mod registered;
mod side;

pub use index::UpdaterIndex;
