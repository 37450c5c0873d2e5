// The base pairs of some tables at every position of a history from a start on, and what changed between two of them.
//
// The layers above may use `BaseVersions`: contracts see it as what it keeps, and a relation says which histories that stands
// for. They hand it entries, or only those of its own tables as `Placed`, with their positions.
#![tactic(auto)]

pub mod base;
mod changes;
mod group;
mod groups;
pub mod laws;
mod older;
mod placed;
mod room;
mod table;
mod versions;

pub use base::{BaseVersions, shard_of, shard_written};
pub use placed::Placed;
