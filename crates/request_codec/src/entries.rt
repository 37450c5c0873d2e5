// The line of a feed: entries of the history, as many as it has room for.
ghost use Rattle.std.specs.Prelude.{◌≡◌, ◌+◌, ◌≤◌, ◌∷◌, [], IfOk, OnOk, length, map, take};
ghost use Rattle.serde_json.specs.Written.{compact_text};
ghost use Rattle.join_types.specs.Writes.{plain_write};
ghost use Rattle.protocol.specs.Rows.{whole_number, list_of};
ghost use Rattle.protocol.specs.Replies.{fed, write_items, entry_item, entries_items, reply_text};
ghost use Rattle.protocol.specs.Feeds.{longest, most_entries};
ghost use Rattle.protocol.proofs.FeedRuns.{IsFarEnough};
ghost use Rattle.request_codec.specs.Plain.{plain_reply};
ghost use Rattle.request_codec.specs.Tokens.{Appends};

use crate::lines::{LINE_END, MAX_LINE_BYTES};
use crate::reply::Reply;
use crate::writing::{FRAME_ROOM, write_numbered};
use join_lang::print;
use join_types::{Entry, Write};
use json::Writer;
use out_of_memory::OutOfMemory;
use std::alloc::Global;

/// The most entries of a line.
const MOST_ENTRIES: u64 = 1_000;

/// Room for what an entry has around its texts: brackets, quotes, commas, its client's number and a word.
const ENTRY_FRAME_ROOM: usize = 32;

/// Room for the texts of a write, but for that of a join. It takes constant time.
fn write_room(write: &Write) -> usize {
    match write {
        Write::Put(key, value) => key.text().len().saturating_add(value.text().len()),
        Write::Remove(key) => key.text().len(),
        Write::Declare(_) | Write::Drop(_) => 0,
    }
}

/// Room for a line of entries, to which joins and escapes may add. Linear in their number.
fn line_room(entries: &[Entry]) -> usize {
    let mut room = FRAME_ROOM;
    for entry in entries {
        room = room
            .saturating_add(write_room(&entry.write))
            .saturating_add(ENTRY_FRAME_ROOM);
    }
    room
}

/// Writes the items of the request that a write is. Linear in its texts.
fn write_write_items(alloc: Global, writer: &mut Writer, write: &Write) -> Result<(), OutOfMemory>
    ensures { OnOk result (Appends writer.old writer.new (write_items (plain_write write.now))) }
{
    match write {
        Write::Put(key, value) => {
            writer.string("put")?;
            writer.string(key.text())?;
            writer.string(value.text())?;
        }
        Write::Remove(key) => {
            writer.string("remove")?;
            writer.string(key.text())?;
        }
        Write::Declare(join) => {
            let text = print(alloc, join)?;
            writer.string("join")?;
            writer.string(text.as_str())?;
        }
        Write::Drop(position) => {
            write_numbered(writer, "drop", *position)?;
        }
    }
    Ok(())
}

/// Writes the request that a write is, as an array. Linear in its texts.
fn write_write(alloc: Global, writer: &mut Writer, write: &Write) -> Result<(), OutOfMemory>
    ensures { OnOk result (Appends writer.old writer.new (list_of (write_items (plain_write write.now)) ∷ [])) }
{
    writer.begin_array()?;
    write_write_items(alloc, writer, write)?;
    writer.end_array()?;
    Ok(())
}

/// Writes the items of an entry: its client's number, and the request that it is. Linear in its texts.
fn write_entry_items(alloc: Global, writer: &mut Writer, entry: &Entry) -> Result<(), OutOfMemory>
    ensures { OnOk result (Appends writer.old writer.new (whole_number entry.now.client ∷ list_of (write_items entry.now.write) ∷ [])) }
{
    writer.u64(u64::from(entry.client))?;
    write_write(alloc, writer, &entry.write)
}

/// Writes an entry as an array. Linear in its texts.
fn write_entry(alloc: Global, writer: &mut Writer, entry: &Entry) -> Result<(), OutOfMemory>
    ensures { OnOk result (Appends writer.old writer.new (entry_item entry.now ∷ [])) }
{
    writer.begin_array()?;
    write_entry_items(alloc, writer, entry)?;
    writer.end_array()?;
    Ok(())
}

/// Writes entries as an array of arrays. Linear in their texts.
fn write_entries(alloc: Global, writer: &mut Writer, entries: &[Entry]) -> Result<(), OutOfMemory>
    ensures { OnOk result (Appends writer.old writer.new (list_of (map entry_item entries.now) ∷ [])) }
{
    writer.begin_array()?;
    for entry in entries {
        write_entry(alloc, writer, entry)?;
    }
    writer.end_array()?;
    Ok(())
}

/// Writes the items of the answer to a feed. Linear in the texts of the entries.
fn write_entries_items(
    alloc: Global,
    writer: &mut Writer,
    from: u64,
    position: u64,
    entries: &[Entry],
) -> Result<(), OutOfMemory>
    ensures { OnOk result (Appends writer.old writer.new (entries_items from position entries.now)) }
{
    write_numbered(writer, "entries", from)?;
    writer.u64(position)?;
    write_entries(alloc, writer, entries)
}

/// Writes the array that the answer to a feed is. Linear in its text.
fn write_entries_array(
    alloc: Global,
    writer: &mut Writer,
    from: u64,
    position: u64,
    entries: &[Entry],
) -> Result<(), OutOfMemory>
    ensures { OnOk result (Appends writer.old writer.new (list_of (entries_items from position entries.now) ∷ [])) }
{
    writer.begin_array()?;
    write_entries_items(alloc, writer, from, position, entries)?;
    writer.end_array()?;
    Ok(())
}

/// The line of the answer to a feed. Linear in it.
///
/// `OutOfMemory` comes only where none is found for the line, or for the text of a join in it.
pub fn write_entries_line(
    alloc: Global,
    from: u64,
    position: u64,
    entries: &[Entry],
) -> Result<Vec<u8>, OutOfMemory>
    ensures { IfOk result (λ line. line.items ≡ reply_text (fed from position entries.now)) }
{
    let mut writer = Writer::new(Vec::with_capacity(alloc, line_room(entries))?);
    write_entries_array(alloc, &mut writer, from, position, entries)?;
    let mut line = writer.into_inner();
    line.push(LINE_END)?;
    Ok(line)
}

/// The text of an entry, in the room of bytes that are let go. Linear in it.
fn entry_text(alloc: Global, mut room: Vec<u8>, entry: &Entry) -> Result<Vec<u8>, OutOfMemory>
    ensures { IfOk result (λ text. text.items ≡ compact_text (entry_item entry.now)) }
{
    room.clear();
    let mut writer = Writer::new(room);
    write_entry(alloc, &mut writer, entry)?;
    Ok(writer.into_inner())
}

/// How many of the entries, from the first on, one line of a feed has room for. Linear in their texts: each is written once, to be
/// measured.
///
/// `OutOfMemory` comes only where none is found to measure an entry.
pub fn count_fitting(
    alloc: Global,
    from: u64,
    position: u64,
    entries: &[Entry],
) -> Result<usize, OutOfMemory>
    requires { length entries.now ≤ most_entries }
    ensures count { IfOk result (λ count. count ≤ length entries.now) }
    ensures longest { IfOk result (λ count. longest from position entries.now most_entries ≡ take count entries.now) }
{
    let mut text = write_entries_line(alloc, from, position, &[])?;
    // The line has a byte 10 behind it, and its first entry no comma before it.
    let mut room = (MAX_LINE_BYTES + 2).saturating_sub(text.len());
    let mut count = 0;
    for entry in entries {
        text = entry_text(alloc, text, entry)?;
        if text.len() >= room {
            return Ok(count);
        }
        room -= text.len() + 1;
        count += 1;
    }
    Ok(count)
}

/// Up to which entry those after a position need to be looked at, so that the line of a feed is full or ends with the last of all.
/// It takes constant time.
pub fn far_enough(from: u64, position: u64) -> u64
    requires { from ≤ position }
    ensures far { IsFarEnough from position result }
    ensures order { from ≤ result }
    ensures within { result ≤ position }
    ensures few { result ≤ from + most_entries }
{
    if position - from > MOST_ENTRIES {
        from + MOST_ENTRIES
    } else {
        position
    }
}

/// The reply that feeds as many of the entries, from the first on, as a line has room for. Linear in their texts.
///
/// `OutOfMemory` comes only where none is found to measure an entry.
pub fn feed_reply(
    alloc: Global,
    from: u64,
    position: u64,
    entries: Vec<Entry>,
) -> Result<Reply, OutOfMemory>
    requires { length entries.items ≤ most_entries }
    ensures { IfOk result (λ reply. plain_reply reply ≡ fed from position (longest from position entries.items most_entries)) }
{
    let mut entries = entries;
    let count = count_fitting(alloc, from, position, entries.as_slice())?;
    entries.truncate(count);
    Ok(Reply::Entries(from, position, entries))
}
