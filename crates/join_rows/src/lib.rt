// What is kept of a join's output over a range: its rows, and the needs from which they come; and tables of pairs.
//
// The layers above may use all that is public here: contracts see a table and rows as the list of their pairs, keys ascending,
// a need as the record of the definitions, and rows with their needs as the record of both.
//
// Rows are packed in leaves: the texts of many rows lie one behind another in one block of memory, so that a walk over a range
// reads it in a row, and to keep a row takes no block of its own. `PackedRows` hands the rows of a range to a `RowSink`, which
// is lent their texts one by one. Below it, a leaf has the bytes of its rows and where each lies, `search` finds the place of a
// key among them, and `entry` writes the texts of one row.
//
// Dangerous here: `push_need` adds a need though an equal one is there. The copies of the needs that `add_need`, `merge` and
// `merge_behind` put in order take memory until `forget_order` is called, or needs are dropped or replaced.
#![tactic(auto)]

mod dropping;
mod entry;
mod key_set;
mod laying;
pub mod leaf;
mod leaves;
pub mod need;
mod need_list;
mod need_order;
pub mod packed;
mod refusing;
pub mod rows;
mod search;
pub mod table;
mod text;

pub use leaf::{Leaf, Span};
pub use need::{Need, are_same_ranges, copy_keys};
pub use packed::PackedRows;
pub use rows::Rows;
pub use table::Table;
