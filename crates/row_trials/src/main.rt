// Rows of data over tables, rows with their needs, operators, what a join gives over a table, gaps, groups, and single changes.
//
// A line of `stdin` is a kind and its fields, between `;`, and is printed again with what its calls answer; the file `stdout` holds
// the answers that are wanted. Most kinds take many calls, and each that answers writes its answer with a `;` behind it: a
// list with a space before each of its items. `unread` is the answer of a row that was mistyped. A row costs no proof.
//
// Dangerous here: nothing is compared. A row is only as good as its line of `stdout`, which is written by hand from the
// definitions and never taken from what the program prints.
#![tactic(auto)]

mod changes;
mod gaps;
mod groups;
mod operating;
mod outputs;
mod row_lists;
mod scans;
mod tables;

use row_texts::Unread;
use std::alloc::Global;
use std::io;
use test_rows::Fields;

/// Writes what the calls of a row answer.
fn answer(alloc: Global, row: &str, text: &mut String) -> Result<(), Unread> {
    let mut fields = Fields::of(row);
    match fields.next() {
        "table" => tables::play(alloc, fields.rest(), text),
        "rows" => row_lists::play(alloc, fields.rest(), text),
        "result" => operating::results(alloc, &mut fields, text),
        "gather" => operating::gathered(alloc, &mut fields, text),
        "whole" => operating::number(alloc, &mut fields, text),
        "least number" => operating::least_number(alloc, text),
        "output" => outputs::output_of(alloc, &mut fields, text),
        "matches" => outputs::count_matches(alloc, &mut fields, text),
        "gap" => gaps::part_of(alloc, &mut fields, text),
        "group" => groups::play(alloc, &mut fields, text),
        "change" => changes::play(alloc, &mut fields, text),
        _ => answer_history(alloc, row, text),
    }
}

/// Writes what the calls of a row over a history answer.
fn answer_history(alloc: Global, row: &str, text: &mut String) -> Result<(), Unread> {
    let mut fields = Fields::of(row);
    match fields.next() {
        "scan" => scans::scan(alloc, &mut fields, text),
        "value" => scans::value(alloc, &mut fields, text),
        "count" => scans::count(alloc, &mut fields, text),
        _ => Err(Unread),
    }
}

/// Returns the answer of a row, or `unread`.
fn answered(alloc: Global, row: &str) -> Result<String, Unread> {
    let mut text = String::new(alloc);
    match answer(alloc, row, &mut text) {
        Ok(()) => Ok(text),
        Err(Unread) => Ok(String::from_str(alloc, " unread")?),
    }
}

fn main(rt: HostRuntime) -> io::Result<()> {
    let alloc = rt.alloc();
    for line in rt.lines(alloc) {
        let row = line?;
        if row.as_str().starts_with('#') {
            println!(rt; "{}", row.as_str())?;
        } else if let Ok(answer) = answered(alloc, row.as_str()) {
            println!(rt; "{} ->{answer}", row.as_str())?;
        }
    }
    Ok(())
}
