// Runs of the top call over sources, sinks, shelves and doors in memory, as a transcript. It has no contract of its own: the file
// `stdout` holds what is wanted, line by line.
//
// A line of `stdin` that begins with one of these marks is taken; every other line is a heading or a remark. Each is printed again.
//     $ WORDS   begins a case with these words, blanks between them, and '' for an empty one
//     < TEXT    gives a line to the source and to the file `j` on the shelf
//     <~ TEXT   gives a text with escapes, as `test_rows` reads them, and no end of line
//     <x HEX    gives bytes
//     ! KIND N  has the call with this number fail: of `read`, `write`, `shelf` or `doors`
//     = HOW     runs the case: all at once where nothing follows, each read one byte by `bytes`, with a count of gates by `gate`,
// and
//               by plain evaluation of the joins by `plain`. What is written follows, and how it ended.
//     ? WORD    asks whether the text on how the program is called has the word
//
// Dangerous here: nothing is compared. A case is only as good as its lines of `stdout`, which are written by hand from what the
// documents say and never taken from what the program prints.
#![tactic(auto)]

mod case;
mod plain;
mod runs;

use crate::case::Case;
use crate::runs::run;
use pequod_commands::usage::usage;
use std::alloc::{AllocError, Global};
use std::io;
use std::sync::Wait;
use std::thread::Threads;

/// Returns whether the text on how the program is called has the word.
fn usage_has(alloc: Global, word: &str) -> Result<String, AllocError> {
    match usage(alloc) {
        Ok(text) if text.as_str().contains(word) => String::from_str(alloc, "yes\n"),
        Ok(_) => String::from_str(alloc, "no\n"),
        Err(_) => String::from_str(alloc, "memory\n"),
    }
}

/// Takes a line, and returns what is printed after it.
fn take<R: AllocGlobal + Threads + Wait + Sync>(
    rt: &R,
    case: &mut Case,
    line: &str,
) -> Result<String, AllocError> {
    let alloc: Global = rt.alloc();
    let (mark, text) = line.split_once(' ').unwrap_or((line, ""));
    match mark {
        "$" => *case = Case::of(alloc, text)?,
        "<" => case.give_line(text)?,
        "<~" => case.give_escaped(text)?,
        "<x" => case.give_hex(text)?,
        "!" => case.fail(text)?,
        "=" => return run(rt, case, text),
        "?" => return usage_has(alloc, text),
        _ => {}
    }
    Ok(String::new(alloc))
}

fn main(rt: HostRuntime) -> io::Result<()> {
    let alloc = rt.alloc();
    let mut case = Case::of(alloc, "")?;
    for line in rt.lines(alloc) {
        let line = line?;
        let told = take(&rt, &mut case, line.as_str())?;
        print!(rt; "{}\n{}", line.as_str(), told.as_str())?;
    }
    Ok(())
}
