// The ways in which a case is run.
use crate::case::Case;
use crate::plain::answer_lines;
use pequod_commands::pequod;
use pq_io::{Gate, MemDoors, MemLink, MemShelf, MemSink, MemSource};
use std::alloc::{AllocError, Global};
use std::str;
use std::sync::Wait;
use std::sync::atomic::AtomicU64;
use std::sync::atomic::Ordering::SeqCst;
use std::thread::Threads;

/// Counts its calls for the table `t`.
#[derive(Drop)]
struct Counting {
    passed: AtomicU64,
}

impl Gate for Counting {
    fn pass(&self, table: &str) {
        if table == "t" {
            self.passed.fetch_add(1, SeqCst);
        }
    }
}

/// Returns what was written, and how it ended behind it.
fn told(alloc: Global, bytes: &[u8], ended: &str) -> Result<String, AllocError> {
    let mut text = String::from_str(alloc, str::from_utf8(bytes).unwrap_or("no text\n"))?;
    text.push_str("-> ")?;
    text.push_str(ended)?;
    text.push('\n')?;
    Ok(text)
}

/// How a case is run.
#[derive(Clone, Copy, PartialEq, Eq)]
enum How {
    /// By the top call, each read as large as there is room for.
    AtOnce,
    /// By the top call, each read of one byte.
    InBytes,
    /// By the top call, with whether a range of the table `t` passed the gate.
    TellsGate,
    /// By plain evaluation of the joins.
    Plainly,
}

/// Reads how a case is run. None where the text names no way.
fn read_how(text: &str) -> Option<How> {
    match text {
        "" => Some(How::AtOnce),
        "bytes" => Some(How::InBytes),
        "gate" => Some(How::TellsGate),
        "plain" => Some(How::Plainly),
        _ => None,
    }
}

/// Runs the top call, and returns what it wrote with its status behind it, and with whether a range of the table `t` passed the
/// gate where that is asked for.
fn run_top<R: AllocGlobal + Threads + Wait + Sync>(
    rt: &R,
    case: &Case,
    how: How,
) -> Result<String, AllocError> {
    let alloc: Global = rt.alloc();
    let count = if how == How::InBytes {
        case.given.len()
    } else {
        0
    };
    let cuts = vec![in alloc; 1; count]?;
    let mut source = MemSource::new(case.given.clone()?, cuts, case.reads.clone()?);
    let mut sink = MemSink::new(alloc, case.writes.clone()?);
    let files = vec![in alloc; (String::from_str(alloc, "j")?, case.given.clone()?)]?;
    let mut shelf = MemShelf::new(files, case.shelf.clone()?);
    let mut doors: MemDoors<MemLink> = MemDoors::new(Vec::new(alloc), case.doors.clone()?);
    let gate = Counting {
        passed: AtomicU64::new(0),
    };
    let status = pequod(
        rt,
        alloc,
        case.words.as_slice(),
        &mut source,
        &mut sink,
        &mut shelf,
        &mut doors,
        &gate,
    );
    let passed = how == How::TellsGate && gate.passed.load(SeqCst) > 0;
    let number = status.number();
    let behind = if passed { ", by way of the gate" } else { "" };
    let ended = format!(in alloc; "{number}{behind}")?;
    told(alloc, sink.bytes(), ended.as_str())
}

/// Answers the lines by plain evaluation, and returns the replies.
fn run_plain(alloc: Global, case: &Case) -> Result<String, AllocError> {
    let text = str::from_utf8(case.given.as_slice()).unwrap_or("no text\n");
    match answer_lines(alloc, text) {
        Ok(replies) => told(alloc, replies.as_slice(), "answered"),
        Err(_) => told(alloc, b"", "memory"),
    }
}

/// Runs the case in the way that is asked for, and returns what is written and how it ends.
pub fn run<R: AllocGlobal + Threads + Wait + Sync>(
    rt: &R,
    case: &Case,
    how: &str,
) -> Result<String, AllocError> {
    match read_how(how) {
        Some(How::Plainly) => run_plain(rt.alloc(), case),
        Some(how) => run_top(rt, case, how),
        None => told(rt.alloc(), b"", "no such way"),
    }
}
