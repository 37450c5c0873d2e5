// Events that are written as lines.
use core_events::{Event, ScanBound};
use join_lang::parse;
use join_types::Write;
use key_space::{Key, Range, Value};
use std::alloc::Global;
use std::process::Abort;
use std::test::Fail;

/// The write that a text is: the text of a join, `drop` and a position, `key=value` for a put, or a key for a remove.
fn read_write(rt: &impl Abort, alloc: Global, text: &str) -> Write {
    if text.contains(" = ") {
        return Write::Declare(parse(alloc, text).expect(rt, "a join"));
    }
    if let Some(position) = text.strip_prefix("drop ") {
        return Write::Drop(position.parse::<u64>().expect(rt, "a position"));
    }
    match text.split_once('=') {
        None => Write::Remove(Key::read(alloc, text).expect(rt, "a key")),
        Some((key, value)) => Write::Put(
            Key::read(alloc, key).expect(rt, "a key"),
            Value::read(alloc, value).expect(rt, "a value"),
        ),
    }
}

/// The range between the two texts that stand with a space between them.
fn read_range(rt: &impl Abort, alloc: Global, bounds: &str) -> Range {
    let (low, high) = bounds.split_once(' ').expect(rt, "two bounds");
    Range::read(alloc, low, high).expect(rt, "a range")
}

/// The event that a line is: its name, the number of its scan or cell, and what else it has. A write has no number: it is
/// of client 1.
fn read_event(rt: &impl Abort, alloc: Global, line: &str) -> Event {
    let (name, about) = line.split_once(' ').expect(rt, "an event");
    if name == "write" {
        return Event::Append {
            client: 1,
            write: read_write(rt, alloc, about),
        };
    }
    let (number, others) = about.split_once(' ').unwrap_or((about, ""));
    let number = number.parse::<u32>().expect(rt, "a number");
    match name {
        "begin" => Event::Begin {
            scan: number,
            range: read_range(rt, alloc, others),
        },
        "piece" => Event::Piece {
            scan: number,
            upto: ScanBound::read(alloc, others).expect(rt, "a bound"),
        },
        "advance" => Event::Advance {
            cell: number,
            to: others.parse::<u64>().expect(rt, "a position"),
        },
        "mend" => Event::Mend {
            cell: number,
            range: read_range(rt, alloc, others),
        },
        "evict" => Event::Evict { cell: number },
        "finish" => Event::Finish { scan: number },
        _ => panic!(rt; "no such event"),
    }
}

/// The events that the lines are.
pub fn read_events(rt: &impl Abort, alloc: Global, lines: &str) -> Result<Vec<Event>, Fail> {
    let mut events = Vec::new(alloc);
    for line in lines.lines() {
        events.push(read_event(rt, alloc, line))?;
    }
    Ok(events)
}
