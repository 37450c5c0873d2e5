// Events of the core and scripts of them: bounds of scans, which events are done to cells, and what is printed.
//
// A bound has at most 513 bytes, and for a table's name `T` of 1 to 64 bytes it begins with `T|` or is `T}`. The first line of a
// script that is refused has the only row. Nothing is printed for an event of a cell.
use crate::answer::Answer;
use crate::words::read_pairs;
use core_events::{Done, Event, ScanBound};
use event_script::{Script, answers_text, marks_of_cells, read_script, refused_text};
use join_types::Cause;
use key_space::Range;
use std::alloc::Global;
use test_rows::{Fields, unescape};

/// Reads a bound and copies it.
fn tell_bound(alloc: Global, fields: &mut Fields<'_>, answer: &mut Answer) -> Option<()> {
    let text = unescape(alloc, fields.next()).ok()?;
    match ScanBound::read(alloc, text.as_str()) {
        Ok(bound) => {
            let copy = bound.copy().ok()?;
            answer.say(bound.text());
            answer.say(copy.place().text());
        }
        Err(fault) => answer.show(&fault),
    }
    Some(())
}

/// Tells the bounds of a range.
fn tell_range(alloc: Global, fields: &mut Fields<'_>, answer: &mut Answer) -> Option<()> {
    let low = fields.next();
    let range = Range::read(alloc, low, fields.next()).ok()?;
    let first = ScanBound::first_of(&range).ok()?;
    let last = ScanBound::last_of(&range).ok()?;
    answer.say(first.text());
    answer.say(last.text());
    Some(())
}

/// Tells the number of events of a script and which of them are done to cells, or the row of the line that is refused.
fn tell_script(alloc: Global, fields: &mut Fields<'_>, answer: &mut Answer) -> Option<()> {
    let script = unescape(alloc, fields.next()).ok()?;
    match read_script(alloc, script.as_bytes()).ok()? {
        Script::Events(events) => {
            let marks = marks_of_cells(alloc, events.as_slice()).ok()?;
            answer.tell(&events.len());
            answer.show(&marks);
        }
        Script::Refused(line) => {
            let row = refused_text(alloc, line).ok()?;
            answer.say_bytes(row.as_slice());
        }
    }
    Some(())
}

/// Returns the events of a script that has no refused line.
fn read_events(alloc: Global, script: &str) -> Option<Vec<Event>> {
    let script = unescape(alloc, script).ok()?;
    match read_script(alloc, script.as_bytes()).ok()? {
        Script::Events(events) => Some(events),
        Script::Refused(_) => None,
    }
}

/// Tells each event, and whether it is done to a cell.
fn tell_events(alloc: Global, fields: &mut Fields<'_>, answer: &mut Answer) -> Option<()> {
    for event in read_events(alloc, fields.next())? {
        answer.show(&event);
        answer.tell(&event.is_of_cell());
    }
    Some(())
}

/// Returns the answer to an event that a field writes: a word, a position, and pairs.
fn read_done(alloc: Global, field: &str) -> Option<Done> {
    let (word, others) = field.split_once(' ').unwrap_or((field, ""));
    let (number, pairs) = others.split_once(' ').unwrap_or((others, ""));
    let position = number.parse::<u64>().unwrap_or(0);
    let pairs = read_pairs(alloc, pairs)?;
    match word {
        "entered" => Some(Done::Entered(position)),
        "nojoin" => Some(Done::Refused(position, Cause::NoJoin)),
        "begun" => Some(Done::Begun(position)),
        "answered" => Some(Done::Answered),
        "brought" => Some(Done::Brought),
        "finished" => Some(Done::Finished { position, pairs }),
        "nothing" => Some(Done::Nothing),
        _ => None,
    }
}

/// Returns the answers that are left in the fields of a row.
fn read_answers(alloc: Global, fields: &mut Fields<'_>) -> Option<Vec<Done>> {
    let mut answers = Vec::new(alloc);
    for field in fields.rest().split(';') {
        answers.push(read_done(alloc, field)?).ok()?;
    }
    Some(answers)
}

/// Tells what is printed for the answers to the events of a script.
fn tell_answers(alloc: Global, fields: &mut Fields<'_>, answer: &mut Answer) -> Option<()> {
    let events = read_events(alloc, fields.next())?;
    let marks = marks_of_cells(alloc, events.as_slice()).ok()?;
    let answers = read_answers(alloc, fields)?;
    let text = answers_text(alloc, marks.as_slice(), answers).ok()?;
    answer.say_bytes(text.as_slice());
    Some(())
}

/// Runs a row of this kind.
pub fn run(alloc: Global, kind: &str, fields: &mut Fields<'_>, answer: &mut Answer) -> Option<()> {
    match kind {
        "bound" => tell_bound(alloc, fields, answer),
        "range" => tell_range(alloc, fields, answer),
        "script" => tell_script(alloc, fields, answer),
        "events" => tell_events(alloc, fields, answer),
        "answers" => tell_answers(alloc, fields, answer),
        _ => None,
    }
}
