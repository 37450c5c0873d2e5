// One changed source pair, applied to the kept rows of a copy join through one of their needs.
//
// The layers above may use `output_key`, which finds the row, or the group of an aggregate, that a source key gives; `apply`,
// which sets the row of a copy join alone; and the law: contracts see rows as the record of their pairs and needs.
#![tactic(auto)]

pub mod applying;
pub mod laws;

pub use applying::{apply, output_key, source_of};
