// Joins, writes, entries and pairs as values; what changed in a range from one position to another, as keys with their values;
// and the trait of what takes rows one by one.
//
// The layers above may use all that is public here: contracts see each type as the plain data of the definitions.
#![tactic(auto)]

pub mod cause;
pub mod change;
pub mod join;
pub mod row_sink;
pub mod write;

pub use cause::{Cause, Positions};
pub use change::{Change, copy_value, keys_of};
pub use join::{Join, JoinSource, Kind, Op};
pub use row_sink::RowSink;
pub use write::{Entry, Pair, Write};
