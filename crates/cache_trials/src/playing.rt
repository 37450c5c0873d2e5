// What is kept, evicted and read again, seen by a gate that counts and by the steps of reads. All with ample memory.
ghost use Rattle.std.specs.Prelude.{◌≤◌, IfOk};
ghost use Rattle.cache_trials.specs.Passes.{IsWriter};
ghost use Rattle.cache_trials.specs.Seated.{AreSeats};

use crate::far_rows::FAR_ROWS;
use crate::fed_rows::FED_ROWS;
use crate::feed_cost::feed_since;
use crate::kept::{Kept, keep_seats, pop_pass, read_at, turn_at_end, write};
use crate::kept_rows::{ROWS, Row};
use crate::scanning::{Look, Looked, scan_at, show_pairs};
use crate::seated::make_seats;
use crate::wide_rows::WIDE_ROWS;
use base_shards::Naming;
use join_types::Change;
use key_space::Range;
use pequod_cache::Seats;
use pq_io::{Gate, OpenGate};
use range_cells::Turn;
use std::alloc::Global;
use std::cell::Cell;
use std::marker::Brand;
use std::process::Abort;
use std::sync::Wait;
use std::sync::ledger::Blank;
use std::test::Fail;
use write_history::Pass;

/// A gate that counts how often it is passed: a read that does not pass it fills and mends nothing.
#[derive(Drop)]
pub struct Counter {
    passed: Cell<u64>,
}

impl Counter {
    /// It was not passed yet.
    pub fn new() -> Counter {
        Counter {
            passed: Cell::new(0),
        }
    }

    /// How often it was passed.
    pub fn passed(&self) -> u64 {
        self.passed.get()
    }
}

impl Gate for Counter {
    fn pass(&self, _table: &str) {
        self.passed.set(self.passed.get().saturating_add(1));
    }
}

/// Adds what a turn did, as a line.
fn show_turn(alloc: Global, text: &mut String, turn: Turn) -> Result<(), Fail> {
    match turn {
        Turn::Brought { id, position } => match position {
            Some(at) => text.push_str(format!(in alloc; "brought {id} to {at}\n")?.as_str())?,
            None => text.push_str(format!(in alloc; "brought {id}\n")?.as_str())?,
        },
        Turn::TooWide { id } => {
            text.push_str(format!(in alloc; "too wide {id}\n")?.as_str())?;
        }
        Turn::Idle => text.push_str("idle\n")?,
        Turn::OutOfMemory(_) => text.push_str("memory\n")?,
    }
    Ok(())
}

/// Adds how often the gate was passed, and the rows, as a line.
fn show(alloc: Global, text: &mut String, passed: u64, rows: &str) -> Result<(), Fail> {
    text.push_str(format!(in alloc; "{passed}:{rows}\n")?.as_str())?;
    Ok(())
}

/// Adds what changed, as a line: each key with its value, or alone where its pair has gone.
fn show_changes(text: &mut String, changes: Vec<Change>) -> Result<(), Fail> {
    text.push_str("changed:")?;
    for change in changes {
        text.push(' ')?;
        text.push_str(change.key.text())?;
        if let Some(value) = &change.value {
            text.push('=')?;
            text.push_str(value.text())?;
        }
    }
    text.push('\n')?;
    Ok(())
}

/// The position and the range that a text is: three words.
fn read_place(rt: &impl Abort, alloc: Global, text: &str) -> (u64, Range) {
    let (p, bounds) = text.split_once(' ').expect(rt, "a position");
    let p = p.parse::<u64>().expect(rt, "a position");
    let (low, high) = bounds.split_once(' ').expect(rt, "two bounds");
    (p, Range::read(alloc, low, high).expect(rt, "a range"))
}

/// Reads or scans at the place that a text is.
fn look_there<N: Naming, R: Wait + Abort>(
    rt: &R,
    alloc: Global,
    kept: &Kept<N>,
    pass: Pass,
    place: &str,
    gate: &Counter,
    look: Look,
) -> (Pass, Looked)
    requires { IsWriter N.history pass }
    ensures { IsWriter N.history result.0 }
{
    let place = read_place(rt, alloc, place);
    let blank = Blank::new(1);
    match look {
        Look::Scan => scan_at::<N, Counter, Brand, R>(rt, alloc, kept, pass, &place, gate, blank),
        Look::Read => {
            let (p, range) = place;
            let (pass, seen) = read_at::<N, Counter, Brand, R>(
                rt, kept, pass, p, &range, gate, blank,
            );
            let rows = show_pairs(alloc, seen.pairs.as_slice()).expect(rt, "memory");
            let steps = seen.steps;
            (pass, Looked { rows, steps })
        }
    }
}

/// A look that takes at most, or at least, so many steps, as the name says.
fn expect_cost(rt: &impl Abort, name: &str, bound: &str, steps: u64) {
    let bound = bound.parse::<u64>().expect(rt, "a number of steps");
    match name {
        "most" => assert!(rt; steps <= bound, "{steps} steps, at most {bound} wanted"),
        _ => assert!(rt; bound <= steps, "{steps} steps, at least {bound} wanted"),
    }
}

/// Writes so often what a text says: how often, and the write.
fn write_often<N: Naming, R: Wait + Abort>(
    rt: &R,
    alloc: Global,
    kept: &Kept<N>,
    pass: &mut Pass,
    text: &str,
)
    requires { IsWriter N.history pass.old }
    ensures { IsWriter N.history pass.new }
{
    let (count, about) = text.split_once(' ').expect(rt, "how often");
    for _ in 0..count.parse::<u32>().expect(rt, "a number") {
        write(rt, alloc, &kept.history, pass, about);
    }
}

/// Settles the base pairs, and adds how many entries are kept then, as a line.
fn settle<N: Naming, R: Wait + Abort>(
    rt: &R,
    alloc: Global,
    kept: &Kept<N>,
    pass: &mut Pass,
    text: &mut String,
) -> Result<(), Fail>
    requires { IsWriter N.history pass.old }
    ensures { IsWriter N.history pass.new }
{
    kept.shards.settle(rt, pass);
    let stored = kept.history.kept(rt, pass);
    text.push_str(format!(in alloc; "{stored} kept\n")?.as_str())?;
    Ok(())
}

/// Does what a line says: it writes, once or often, settles the base pairs, which adds a line, evicts a cell, makes room, which
/// adds a line, takes a turn, which adds a line, asks what changed in a range since so many entries, which adds a line, reads a
/// range after so many, or scans it, as is said, which adds a line, or does that with `most` or `least` so many steps.
fn play_line<N: Naming, R: Wait + Abort>(
    rt: &R,
    alloc: Global,
    kept: &Kept<N>,
    mut pass: Pass,
    line: &str,
    text: &mut String,
    look: Look,
) -> Result<Pass, Fail>
    requires { IsWriter N.history pass }
    ensures { IfOk result (IsWriter N.history) }
{
    let (name, about) = line.split_once(' ').expect(rt, "a name");
    match name {
        "write" => {
            write(rt, alloc, &kept.history, &mut pass, about);
            Ok(pass)
        }
        "often" => {
            write_often(rt, alloc, kept, &mut pass, about);
            Ok(pass)
        }
        "settle" => {
            settle(rt, alloc, kept, &mut pass, text)?;
            Ok(pass)
        }
        "evict" => {
            kept.cells
                .evict(rt, about.parse::<u32>().expect(rt, "a number"));
            Ok(pass)
        }
        "room" => {
            let has_gone = kept.cells.make_room(rt);
            text.push_str(if has_gone { "some went\n" } else { "none\n" })?;
            Ok(pass)
        }
        "turn" => {
            let gate = &OpenGate;
            let blank = Blank::new(1);
            let (pass, turn) = turn_at_end::<N, OpenGate, Brand, R>(rt, kept, pass, gate, blank);
            show_turn(alloc, text, turn)?;
            Ok(pass)
        }
        "changes" => {
            let (q, range) = read_place(rt, alloc, about);
            let blank = Blank::new(1);
            let (pass, fed) = feed_since::<N, Brand, R>(rt, kept, pass, q, &range, blank);
            show_changes(text, fed.changes)?;
            Ok(pass)
        }
        "read" => {
            let gate = Counter::new();
            let (pass, looked) = look_there(rt, alloc, kept, pass, about, &gate, look);
            show(alloc, text, gate.passed(), looked.rows.as_str())?;
            Ok(pass)
        }
        _ => {
            let (bound, place) = about.split_once(' ').expect(rt, "a bound");
            let gate = Counter::new();
            let (pass, looked) = look_there(rt, alloc, kept, pass, place, &gate, look);
            expect_cost(rt, name, bound, looked.steps);
            Ok(pass)
        }
    }
}

/// What the lines of a row add, where its ranges are looked at so.
fn play<N: Naming, R: Wait + Abort>(
    rt: &R,
    alloc: Global,
    seats: Seats,
    row: &Row,
    look: Look,
) -> Result<String, Fail>
    requires seats { AreSeats N.history seats }
    requires limit { 1 ≤ row.now.limit }
{
    let (kept, mut passes) = keep_seats::<N>(alloc, seats, row.limit)?;
    let mut pass = pop_pass::<N, R>(rt, &mut passes);
    let mut text = String::new(alloc);
    for line in row.lines.lines() {
        pass = play_line(rt, alloc, &kept, pass, line, &mut text, look)?;
    }
    Ok(text)
}

/// What the lines of a row add, over a history of its own.
fn play_row<R: Wait + Abort>(rt: &R, alloc: Global, row: &Row, look: Look) -> Result<String, Fail> {
    assert!(rt; 1 <= row.cells && row.cells <= 4 && 1 <= row.limit);
    let seats = make_seats(alloc, 1, row.cells)?;
    play::<Brand, R>(rt, alloc, seats, row, look)
}

/// Each row adds what is wanted, where its ranges are looked at so.
fn play_all<R: Wait + Abort>(rt: &R, alloc: Global, rows: &[Row], look: Look) -> Result<(), Fail> {
    for row in rows {
        let shown = play_row(rt, alloc, row, look)?;
        assert!(rt; shown.as_str() == row.wanted);
    }
    Ok(())
}

#[test]
fn one_thread_reads_what_is_kept(rt: HostRuntime) -> Result<(), Fail> {
    play_all(&rt, rt.alloc(), &ROWS, Look::Read)
}

#[test]
fn one_thread_scans_what_is_kept(rt: HostRuntime) -> Result<(), Fail> {
    play_all(&rt, rt.alloc(), &ROWS, Look::Scan)
}

#[test]
fn one_thread_reads_what_is_far_behind(rt: HostRuntime) -> Result<(), Fail> {
    play_all(&rt, rt.alloc(), &FAR_ROWS, Look::Read)
}

#[test]
fn one_thread_scans_what_is_far_behind(rt: HostRuntime) -> Result<(), Fail> {
    play_all(&rt, rt.alloc(), &FAR_ROWS, Look::Scan)
}

#[test]
fn one_thread_is_told_what_changed(rt: HostRuntime) -> Result<(), Fail> {
    play_all(&rt, rt.alloc(), &FED_ROWS, Look::Read)
}

#[test]
fn one_thread_is_told_what_changed_between_scans(rt: HostRuntime) -> Result<(), Fail> {
    play_all(&rt, rt.alloc(), &FED_ROWS, Look::Scan)
}

#[test]
fn one_thread_reads_wide_ranges(rt: HostRuntime) -> Result<(), Fail> {
    play_all(&rt, rt.alloc(), &WIDE_ROWS, Look::Read)
}

#[test]
fn one_thread_scans_wide_ranges(rt: HostRuntime) -> Result<(), Fail> {
    play_all(&rt, rt.alloc(), &WIDE_ROWS, Look::Scan)
}
