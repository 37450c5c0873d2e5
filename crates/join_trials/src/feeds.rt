// Lines of feeds: what is written of entries, how many one line has room for, and which entries a line has.
//
// A line has at most 1,000 entries, and at most 1,048,576 bytes before its byte 10.
use crate::answer::Answer;
use crate::words::{read_write, tell_write};
use join_types::{Entry, Write};
use key_space::{Key, Value};
use request_codec::{Reply, feed_reply, read_entries, write_entries_line};
use std::alloc::Global;
use test_rows::{Fields, unescape};

/// The most entries of a line.
const MOST_ENTRIES: usize = 1_000;

/// Returns the entries that the fields left are: the number of a client, and a write, each.
fn read_listed(alloc: Global, fields: &mut Fields<'_>) -> Option<Vec<Entry>> {
    let mut entries = Vec::new(alloc);
    for _ in 0..fields.rest().len() {
        if !fields.has_more() {
            break;
        }
        let client = fields.id();
        let write = read_write(alloc, fields.next())?;
        entries.push(Entry { client, write }).ok()?;
    }
    Some(entries)
}

/// Tells the line of entries.
fn tell_line(alloc: Global, fields: &mut Fields<'_>, answer: &mut Answer) -> Option<()> {
    let from = fields.number();
    let position = fields.number();
    let entries = read_listed(alloc, fields)?;
    let line = write_entries_line(alloc, from, position, entries.as_slice()).ok()?;
    answer.say_bytes(line.as_slice());
    Some(())
}

/// Returns so many entries of a client, each of which puts the value at the key.
fn put_often(alloc: Global, count: u64, client: u32, key: &str, value: &str) -> Option<Vec<Entry>> {
    let mut entries = Vec::new(alloc);
    for _ in 0..count {
        let key = Key::read(alloc, key).ok()?;
        let value = Value::read(alloc, value).ok()?;
        let write = Write::Put(key, value);
        entries.push(Entry { client, write }).ok()?;
    }
    Some(entries)
}

/// Tells how many of so many entries that put one value at one key a line has room for, and how many bytes it has.
fn tell_room(alloc: Global, fields: &mut Fields<'_>, answer: &mut Answer) -> Option<()> {
    let from = fields.number();
    let position = fields.number();
    let count = fields.number();
    let client = fields.id();
    let key = fields.text(alloc);
    let value = fields.text(alloc);
    let entries = put_often(alloc, count, client, key.as_str(), value.as_str())?;
    if entries.len() > MOST_ENTRIES {
        return None;
    }
    let Reply::Entries(_, _, fed) = feed_reply(alloc, from, position, entries).ok()? else {
        return None;
    };
    let line = write_entries_line(alloc, from, position, fed.as_slice()).ok()?;
    answer.tell(&fed.len());
    answer.tell(&line.len());
    Some(())
}

/// Tells the entries that a line has, or why it has none.
fn tell_read(alloc: Global, fields: &mut Fields<'_>, answer: &mut Answer) -> Option<()> {
    let line = unescape(alloc, fields.next()).ok()?;
    match read_entries(alloc, line.as_bytes()) {
        Ok((from, position, entries)) => {
            answer.tell(&from);
            answer.tell(&position);
            for entry in &entries {
                answer.say("by");
                answer.tell(&entry.client);
                tell_write(alloc, &entry.write, answer)?;
            }
        }
        Err(fault) => answer.show(&fault),
    }
    Some(())
}

/// Runs a row of this kind.
pub fn run(alloc: Global, kind: &str, fields: &mut Fields<'_>, answer: &mut Answer) -> Option<()> {
    match kind {
        "line" => tell_line(alloc, fields, answer),
        "room" => tell_room(alloc, fields, answer),
        "read" => tell_read(alloc, fields, answer),
        _ => None,
    }
}
