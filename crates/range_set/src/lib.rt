// Ranges of one table that are kept, each with an item, and how a range is covered by them and the gaps between.
//
// The layers above may use `RangeSet`, which contracts see as the list of its ranges with their items, ascending; `Piece`, a
// part of a range that is asked for; and the laws of `laws`.
#![tactic(auto)]

pub mod laws;
pub mod piece;
pub mod range_set;

pub use piece::Piece;
pub use range_set::RangeSet;
