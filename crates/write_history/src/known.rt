// What the rule of the table speaks of: how many passes there are of each kind, and what a seat knows. No value of a
// seat's knowledge is ever made.
use join_types::Entry;
use std::collections::LinkedList;

/// How many passes there are of each kind.
#[derive(Debug, Drop)]
pub struct Kinds {
    /// Those that may write, with the least numbers. Each has a pin.
    pub writers: u32,
    /// Those that only read and have a pin, with the next numbers.
    pub pinned: u32,
    /// Those that note a position, with the next numbers.
    pub shards: u32,
}

/// What the word of a pass says, where it has one.
#[derive(Debug, Drop)]
pub enum Mark {
    /// It has no word.
    Plain,
    /// It has a pin, and is not pinned.
    Free,
    /// It is pinned after so many entries.
    Pinned(u64),
    /// It has noted so many entries.
    Noted(u64),
}

/// What a seat may do.
pub enum Role {
    /// It deals the numbers, of which this is the next.
    Deals(u32),
    /// It is the seat of a pass with this number.
    Numbered(u32),
    /// It carries what another seat has seen.
    Notes,
}

/// What a seat knows.
pub struct Known {
    /// What it may do.
    pub role: Role,
    /// How many passes there are of each kind.
    pub kinds: Kinds,
    /// What its word says.
    pub mark: Mark,
    /// A number of first entries that the log lacks, at least, as the pass has noticed.
    pub floor: u64,
    /// The entries that it has seen.
    pub seen: LinkedList<Entry>,
    /// Entries that another seat had seen.
    pub told: LinkedList<Entry>,
    /// All entries, while it has the turn.
    pub held: Option<LinkedList<Entry>>,
    /// How many first entries the log lacks, while it has the turn.
    pub lacks: u64,
    /// How many of the passes' words it has looked at since it took the turn.
    pub passed: u64,
    /// A floor that the number of entries and these words allow.
    pub low: u64,
}
