// Replies.
use crate::request::LineFault;
use crate::written::WrittenPairs;
use join_types::{Cause, Change, Entry, Pair};
use key_space::Value;
use out_of_memory::OutOfMemory;

/// What a line is answered. Each number is a position of the history.
#[derive(Debug, Drop)]
pub enum Reply {
    /// The write is the entry at this position.
    Done(u64),
    /// The value at the key after so many entries.
    Found(u64, Value),
    /// Nothing stands at the key after so many entries.
    Absent(u64),
    /// The pairs in the range after so many entries, in key order.
    Pairs(u64, Vec<Pair>),
    /// The pairs in the range after so many entries, in key order, as the line of the reply already.
    Written(WrittenPairs),
    /// The write has this verdict after so many entries.
    Refused(u64, Cause),
    /// The position that was asked for lies too far back: so many entries there are.
    Gone(u64),
    /// The position that was asked for lies ahead: so many entries there are.
    Ahead(u64),
    /// What changed in the range from the first position to the second, in key order.
    Changes(u64, u64, Vec<Change>),
    /// The first entries after the first position, of so many as the second says: as many as a line has room for.
    Entries(u64, u64, Vec<Entry>),
    /// The line is no request.
    Unread(LineFault),
    /// The line is too long.
    Long,
    /// No memory was found for the answer.
    Memory(OutOfMemory),
    /// The session ends.
    Bye,
}
