// The cells of the core: the slots of kept ranges, a directory of their places, and the order of their last use.
//
// The layer above may use `CellTable`: contracts see it as what its cells hold, how much that may weigh together, and what the
// book knows of it.
#![tactic(auto)]

mod directory;
mod lending;
mod parts;
mod slots;
pub mod table;

pub use table::CellTable;
