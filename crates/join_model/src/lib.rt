// The state after a history by plain evaluation: slow, and exact.
//
// The layers above may use `state`, `afresh`, `value_afresh` and, of what stands below a rank, `state_below` and
// `afresh_below`, what `replay` finds that entries leave, the names of the types below that stand here again, and of the
// numbers that values write `whole` and `decimal`: contracts see a history as the list of its entries, and the state as the
// list of its pairs, keys ascending.
#![tactic(auto)]

pub mod evaluation;
mod hiding;
mod outputs;
pub mod replay;

pub use evaluation::{afresh, afresh_below, state, state_below, value_afresh};
pub use join_rows::Table;
pub use join_set::{AddFault, JoinSet, Standing};
pub use join_types::{Cause, Entry, Join, JoinSource, Kind, Op, Pair, Positions, Write};
pub use operators::{decimal, whole};
