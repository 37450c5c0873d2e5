// Scans of the parts of a cache at any position, into a sink of a test. All with ample memory.
ghost use Rattle.std.specs.Prelude.{◌≡◌, ◌<◌};
ghost use Rattle.cache_trials.specs.Passes.{IsWriter};

use crate::kept::{Kept, joins_near, pin_near, unpin};
use base_shards::Naming;
use join_types::{Pair, RowSink};
use key_space::Range;
use out_of_memory::OutOfMemory;
use pq_io::Gate;
use std::alloc::Global;
use std::process::Abort;
use std::sync::Wait;
use std::sync::ledger::{Blank, Ledger};
use steps::Steps;
use write_history::Pass;

/// By which call a range is looked at.
#[derive(Clone, Copy, Drop)]
pub enum Look {
    /// By a read.
    Read,
    /// By a scan.
    Scan,
}

/// The rows that a look found, as text, and how many steps it took.
#[derive(Drop)]
pub struct Looked {
    /// Each row after a blank: its key, an equals sign and its value.
    pub rows: String,
    /// The steps.
    pub steps: u64,
}

/// A sink that writes the rows as text. Contracts say nothing of what it has: that is held to what is wanted.
#[derive(Drop)]
struct RowTexts {
    text: String,
}

impl RowSink for RowTexts {
    ghost got = { λ a b rows. Unit {0} };

    ghost got_none = { λ a. tt };

    ghost got_more = { λ a b c rows more first next. tt };

    fn push(&mut self, key: &str, value: &str) -> Result<(), OutOfMemory> {
        self.text.push(' ')?;
        self.text.push_str(key)?;
        self.text.push('=')?;
        self.text.push_str(value)?;
        Ok(())
    }
}

/// The pairs as the sink writes them.
pub fn show_pairs(alloc: Global, pairs: &[Pair]) -> Result<String, OutOfMemory> {
    let mut shown = RowTexts {
        text: String::new(alloc),
    };
    for pair in pairs {
        shown.push(pair.key.text(), pair.value.text())?;
    }
    Ok(shown.text)
}

/// Scans the range after so many entries, both of which a place is. The pass is pinned meanwhile.
pub fn scan_at<N: Naming, G: Gate, L: Ledger, R: Wait + Abort>(
    rt: &R,
    alloc: Global,
    kept: &Kept<N>,
    mut pass: Pass,
    place: &(u64, Range),
    gate: &G,
    blank: Blank,
) -> (Pass, Looked)
    requires name { blank.name ≡ L.name }
    requires parts { blank.parts ≡ L.parts }
    requires some { 0 < blank.parts }
    requires may { IsWriter N.history pass }
    ensures { IsWriter N.history result.0 }
{
    let (p, range) = place;
    let history = &*kept.history;
    let at = pin_near(rt, history, &mut pass, *p);
    let joins = joins_near(rt, history, &mut pass, *p, at).expect(rt, "memory");
    let mut steps: Steps<L> = Steps::open(blank);
    let mut sink = RowTexts {
        text: String::new(alloc),
    };
    let cells = &kept.cells;
    let found = cells.scan(
        rt, &mut pass, &joins, *p, range, gate, &mut sink, &mut steps,
    );
    let rows = match found.expect(rt, "memory") {
        None => sink.text,
        Some(pairs) => show_pairs(alloc, pairs.as_slice()).expect(rt, "memory"),
    };
    let steps = steps.taken();
    (unpin(rt, history, pass, at), Looked { rows, steps })
}
