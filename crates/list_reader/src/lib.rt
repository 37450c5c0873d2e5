// The plain reader, over a list of entries in memory: slow, and exact.
//
// The layers above may use `ListReader`.
#![tactic(auto)]

mod comparing;
pub mod listed;
mod valuing;
mod writing;

pub use listed::ListReader;

#[cfg(test)]
mod tests;
#[cfg(test)]
mod value_tests;
