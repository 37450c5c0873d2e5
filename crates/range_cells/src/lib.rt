// Reading the state after any number of entries that a pass has seen, from cells and base pairs that threads share.
//
// The layer above may use `RangeCells`, whose calls may wait.
#![tactic(auto)]

mod asked;
mod changing;
mod comparing;
pub mod range_cells;
pub mod stack;
pub mod turning;

pub use range_cells::RangeCells;
pub use turning::Turn;
