// A history whose requests are answered with nothing kept: a list of entries, and the state evaluated afresh after all of them or
// after a beginning. It is slow, and the yardstick that tests hold clients against.
//
// The layers above may use `PlainHistory` in their tests: contracts see it as its entries.
#![tactic(auto)]

mod changing;
pub mod history;

pub use history::PlainHistory;
