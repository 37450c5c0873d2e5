// Files of joins: what they declare, and what is written about them.
//
// The layers above may declare the joins of a file with `declare`, and write about one with `report`.
#![tactic(auto)]

pub mod declaring;
mod lines;
pub mod reporting;
mod rows;

pub use declaring::{Declared, RefusedLine, declare};
pub use reporting::{FileReport, report};
