// The core with nothing kept: plain evaluation of the state where a scan begins.
ghost use Rattle.std.specs.Prelude.{◌<◌, length, IfSome};

use crate::showing::show_done;
use core_events::{Done, Event, ScanBound};
use join_types::{Pair, Write};
use key_space::Range;
use plain_history::PlainHistory;
use request_codec::Reply;
use std::alloc::Global;
use std::test::Fail;

/// A scan under way.
#[derive(Drop)]
struct PlainScan {
    number: u32,
    range: Range,
    /// Up to where it is answered.
    place: ScanBound,
    /// How many entries there were where it began.
    position: u64,
    /// The pairs of its range that stood there.
    pairs: Vec<Pair>,
}

/// A core that keeps nothing but the entries, and what it will answer to the scans under way.
#[derive(Drop)]
struct PlainCore {
    history: PlainHistory,
    scans: Vec<PlainScan>,
}

/// Where the scan with a number stands among those under way, if there is one.
fn find(scans: &[PlainScan], number: u32) -> Option<usize>
    ensures { IfSome result (λ i. i < length scans.now) }
{
    for (i, scan) in scans.iter().enumerate() {
        if scan.number == number {
            return Some(i);
        }
    }
    None
}

impl PlainCore {
    /// A write enters where nothing is against it.
    fn append(&mut self, write: Write) -> Result<Done, Fail> {
        match self.history.write(write)? {
            Reply::Done(position) => Ok(Done::Entered(position)),
            Reply::Refused(position, cause) => Ok(Done::Refused(position, cause)),
            _ => Err(Fail::from("a write is not answered")),
        }
    }

    /// A scan begins after all entries, unless one with its number is under way.
    fn begin(&mut self, number: u32, range: Range) -> Result<Done, Fail> {
        if find(self.scans.as_slice(), number).is_some() {
            return Ok(Done::Nothing);
        }
        let place = ScanBound::first_of(&range)?;
        let position = self.history.len();
        let pairs = self.history.pairs_at(&range, position)?;
        self.scans.push(PlainScan {
            number,
            range,
            place,
            position,
            pairs,
        })?;
        Ok(Done::Begun(position))
    }

    /// The place of a scan moves to a bound above it, up to the scan's last bound.
    fn piece(&mut self, number: u32, upto: ScanBound) -> Done {
        let Some(i) = find(self.scans.as_slice(), number) else {
            return Done::Nothing;
        };
        let scan = &mut self.scans[i];
        if upto.text() <= scan.place.text() || scan.range.hi() < upto.text() {
            return Done::Nothing;
        }
        scan.place = upto;
        Done::Answered
    }

    /// A scan that has come to its last bound ends with its pairs.
    fn finish(&mut self, number: u32) -> Done {
        let Some(i) = find(self.scans.as_slice(), number) else {
            return Done::Nothing;
        };
        let scan = &self.scans[i];
        if scan.place.text() < scan.range.hi() {
            return Done::Nothing;
        }
        let PlainScan {
            position,
            pairs,
            ..
        } = self.scans.remove(i);
        Done::Finished { position, pairs }
    }

    /// The answer to an event, none where it is of a cell.
    fn step(&mut self, event: Event) -> Result<Option<Done>, Fail> {
        match event {
            Event::Append { write, .. } => Ok(Some(self.append(write)?)),
            Event::Begin { scan, range } => Ok(Some(self.begin(scan, range)?)),
            Event::Piece { scan, upto } => Ok(Some(self.piece(scan, upto))),
            Event::Finish { scan } => Ok(Some(self.finish(scan))),
            Event::Advance { .. } | Event::Mend { .. } | Event::Evict { .. } => Ok(None),
        }
    }
}

/// The answers to the events that are of no cell with nothing kept, as lines.
pub fn show_plain(alloc: Global, events: Vec<Event>) -> Result<String, Fail> {
    let mut core = PlainCore {
        history: PlainHistory::new(alloc),
        scans: Vec::new(alloc),
    };
    let mut text = String::new(alloc);
    for event in events {
        if let Some(done) = core.step(event)? {
            show_done(alloc, &mut text, &done)?;
        }
    }
    Ok(text)
}
