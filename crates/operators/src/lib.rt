// What the operators of joins make of values: the numbers that values write, and the result of the values that are listed at
// one key or at each of many; and the output of one join over a table, evaluated as it is defined: slow, and exact.
//
// The layers above may use all that is public here: contracts see a table as the list of its pairs, its keys ascending.
#![tactic(auto)]

pub mod evaluation;
pub mod group;
pub mod number;
pub mod operator;
pub mod pairs;

pub use evaluation::{contributions, output};
pub use group::gather;
pub use number::{decimal, whole};
pub use operator::result_of;
pub use pairs::result_of_pairs;
