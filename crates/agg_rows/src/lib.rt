// The source pairs that are listed at each output key of an aggregate join, one by one, and the answer of each group.
//
// The layers above may use `AggRows`: contracts see it as the record of the operator and of the groups, output keys ascending,
// each with the table of its listed pairs. No total is kept beside the pairs, so that one which is replaced or taken out leaves
// nothing behind.
#![tactic(auto)]

mod groups;
pub mod laws;
pub mod rows;

pub use rows::AggRows;
