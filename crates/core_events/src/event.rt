// Events and answers.
ghost use Rattle.std.specs.Prelude.{◌≡◌};
ghost use Rattle.core_events.specs.Events.{is_cell_event};
ghost use Rattle.core_events.specs.PlainEvents.{plain_event};

use crate::bound::ScanBound;
use join_types::{Cause, Pair, Write};
use key_space::Range;

/// What is done to the core.
#[derive(Debug, Drop)]
pub enum Event {
    /// A client, by its number, writes.
    Append {
        /// The client's number.
        client: u32,
        /// What it changes.
        write: Write,
    },
    /// A scan with a number begins over a range.
    Begin {
        /// The scan's number.
        scan: u32,
        /// What it reads.
        range: Range,
    },
    /// A scan is answered up to a bound.
    Piece {
        /// The scan's number.
        scan: u32,
        /// Up to where.
        upto: ScanBound,
    },
    /// A cell is brought to a position of the history.
    Advance {
        /// The cell's number.
        cell: u32,
        /// The position.
        to: u64,
    },
    /// What is pending in a range of a cell is found anew.
    Mend {
        /// The cell's number.
        cell: u32,
        /// The range.
        range: Range,
    },
    /// A cell forgets what it keeps.
    Evict {
        /// The cell's number.
        cell: u32,
    },
    /// A scan ends, and its pairs are told.
    Finish {
        /// The scan's number.
        scan: u32,
    },
}

/// What an event is answered.
#[derive(Debug, Drop)]
pub enum Done {
    /// The write is the entry at this position.
    Entered(u64),
    /// The write has this verdict after so many entries.
    Refused(u64, Cause),
    /// The scan began at this position.
    Begun(u64),
    /// The scan is answered up to the bound.
    Answered,
    /// The cell stands at the position.
    Brought,
    /// Nothing is pending in the range of the cell.
    Mended,
    /// The cell is free.
    Evicted,
    /// The scan has ended.
    Finished {
        /// The position at which it began.
        position: u64,
        /// The pairs of its range after so many entries, in key order.
        pairs: Vec<Pair>,
    },
    /// There was nothing to do.
    Nothing,
}

impl Event {
    /// Whether it is done to a cell: it advances, mends or evicts one. It takes constant time.
    pub fn is_of_cell(&self) -> bool
        ensures { result ≡ is_cell_event (plain_event self.now) }
    {
        match self {
            Event::Advance { .. } | Event::Mend { .. } | Event::Evict { .. } => true,
            Event::Append { .. }
            | Event::Begin { .. }
            | Event::Piece { .. }
            | Event::Finish { .. } => false,
        }
    }
}
