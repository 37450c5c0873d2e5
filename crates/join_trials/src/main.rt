// Runs rows of text over the public calls that joins and lines go through: joins as values, their texts, the sets that they stand
// in, files of joins, lines of requests, replies and feeds, links that are served, events and the load. Each line names what it tries
// and gives it its arguments, between `;`, and is printed again with its answer: the file `stdout` has the answers that are
// wanted. A line that begins with `#` is a heading. A row costs no proof.
//
// Dangerous here: nothing is compared. A row is as good as its line of `stdout`, which is written from what the specification says
// and never taken from what the program prints.
#![tactic(auto)]

mod answer;
mod events;
mod feeds;
mod files;
mod links;
mod load;
mod pieces;
mod replies;
mod requests;
mod sets;
mod texts;
mod values;
mod words;

use crate::answer::Answer;
use std::alloc::Global;
use std::io;
use test_rows::Fields;

/// Adds the answer of the module that the first field names; nothing where a field is not what it has to be.
fn run(alloc: Global, fields: &mut Fields<'_>, answer: &mut Answer) -> Option<()> {
    let subject = fields.next();
    let kind = fields.next();
    match subject {
        "value" => values::run(alloc, kind, fields, answer),
        "text" => texts::run(alloc, kind, fields, answer),
        "set" => sets::run(alloc, kind, fields, answer),
        "file" => files::run(alloc, kind, fields, answer),
        "request" => requests::run(alloc, kind, fields, answer),
        "reply" => replies::run(alloc, kind, fields, answer),
        "feed" => feeds::run(alloc, kind, fields, answer),
        "piece" => pieces::run(alloc, kind, fields, answer),
        "link" => links::run(alloc, kind, fields, answer),
        "event" => events::run(alloc, kind, fields, answer),
        "load" => load::run(alloc, kind, fields, answer),
        _ => None,
    }
}

/// Returns the answer to a row, and no words for a heading.
fn answer_row(alloc: Global, row: &str) -> Answer {
    let mut answer = Answer::new(alloc);
    let mut fields = Fields::of(row);
    if !row.starts_with('#') && run(alloc, &mut fields, &mut answer).is_none() {
        answer.say("unread");
    }
    answer
}

fn main(rt: HostRuntime) -> io::Result<()> {
    let alloc = rt.alloc();
    for line in rt.lines(alloc) {
        let row = line?;
        let answer = answer_row(alloc, row.as_str());
        println!(rt; "{}{}", row.as_str(), answer.text())?;
    }
    Ok(())
}
