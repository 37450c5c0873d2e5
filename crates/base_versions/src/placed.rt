// Entries with their positions.
use join_types::Entry;

/// An entry, and the position at which it entered, counted from 1.
#[derive(Debug, Drop)]
pub struct Placed {
    pub position: u64,
    pub entry: Entry,
}
