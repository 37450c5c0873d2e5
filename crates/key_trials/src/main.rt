// Trials of keys, ranges, patterns, and what is kept by these: each line of `stdin` is a case, which is printed again with its
// answer, and `stdout` has the answers that are wanted. A line that begins with `#` is a heading. A new row costs no proof.
//
// Dangerous here: nothing is compared. A row is only as good as its line of `stdout`, which is written by hand from the
// specification and never taken from what the program prints.
//
// Trials of what knows no key: ranks of readings, books of ids, command lines, queues and bells. Each line of `stdin` is
// a case, which is printed again with its answer, and `stdout` has the answers that are wanted. A line that begins with `#` is a
// heading. A new row costs no proof.
//
// Dangerous here: nothing is compared. A row is only as good as its line of `stdout`, which is written by hand from the
// specification and never taken from what the program prints.
#![tactic(auto)]

mod books;
mod commands;
mod doors;
mod escapes;
mod keys;
mod logs;
mod patterns;
mod ranges;
mod ranks;
mod readers;
mod sets;
mod stabs;
mod updaters;

use std::alloc::Global;
use std::io;
use test_rows::{Answer, Fields};

/// Adds what a row's call answers. Nothing where the row writes no call.
fn answer(alloc: Global, row: &str, out: &mut Answer) -> Option<()> {
    let mut fields = Fields::of(row);
    match fields.next() {
        "text" => escapes::answer(alloc, fields, out),
        "key" => keys::answer(alloc, fields, out),
        "range" => ranges::answer(alloc, fields, out),
        "pattern" => patterns::answer(alloc, fields, out),
        "updaters" => updaters::answer(alloc, fields, out),
        "stabs" => stabs::answer(alloc, fields, out),
        "set" => sets::answer(alloc, fields, out),
        "log" => logs::answer(alloc, fields, out),
        "ranks" => ranks::answer(alloc, fields, out),
        "book" => books::answer(alloc, fields, out),
        "command" => commands::answer(alloc, fields, out),
        "door" => doors::answer_door(alloc, fields, out),
        "bell" => doors::answer_bell(fields, out),
        _ => None,
    }
}

/// Adds a heading as it is, and a row with its answer.
fn answer_line(alloc: Global, line: &str, out: &mut Answer) {
    out.word(line);
    if line.starts_with('#') {
        return;
    }
    out.word("->");
    if answer(alloc, line, out).is_none() {
        out.word("unread");
    }
}

fn main(rt: HostRuntime) -> io::Result<()> {
    let alloc = rt.alloc();
    for line in rt.lines(alloc) {
        let line = line?;
        let mut out = Answer::new(alloc);
        answer_line(alloc, line.as_str(), &mut out);
        println!(rt; "{}", out.text())?;
    }
    Ok(())
}
