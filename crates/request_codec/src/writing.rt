// Replies as lines, token by token.
ghost use Rattle.std.specs.Prelude.{◌≡◌, ◌≢◌, ◌∷◌, [], IfOk, OnOk, map};
ghost use Rattle.serde_json.specs.Data.{string};
ghost use Rattle.protocol.specs.Rows.{whole_number, list_of};
ghost use Rattle.protocol.specs.JoinsFile.{cause_name};
ghost use Rattle.protocol.specs.Replies.{pair_item, value_items, change_item, changed_items, error_items, cause_items, reply_items, reply_text};
ghost use Rattle.join_types.specs.Causes.{plain_cause};
ghost use Rattle.request_codec.specs.Plain.{IsUnwritten, plain_reply};
ghost use Rattle.request_codec.specs.Tokens.{Appends};

use crate::entries::write_entries_line;
use crate::lines::LINE_END;
use crate::reply::Reply;
use crate::request::LineFault;
use join_types::{Cause, Change, Pair};
use json::Writer;
use out_of_memory::OutOfMemory;
use std::alloc::{AllocError, Global};

/// Room for what a line has around its texts: its words, numbers and brackets.
pub(crate) const FRAME_ROOM: usize = 64;

/// Room for what a pair or a change has around its texts: brackets, quotes and commas.
const PAIR_FRAME_ROOM: usize = 8;

/// Room for pairs, which is all they need where no byte of theirs is escaped. Linear in their number.
fn pairs_room(pairs: &[Pair]) -> usize {
    let mut room = 0usize;
    for pair in pairs {
        room = room
            .saturating_add(pair.key.text().len())
            .saturating_add(pair.value.text().len())
            .saturating_add(PAIR_FRAME_ROOM);
    }
    room
}

/// Room for changes, which is all they need where no byte of theirs is escaped. Linear in their number.
fn changes_room(changes: &[Change]) -> usize {
    let mut room = 0usize;
    for change in changes {
        let text = match &change.value {
            Some(value) => value.text().len(),
            None => 0,
        };
        room = room
            .saturating_add(change.key.text().len())
            .saturating_add(text)
            .saturating_add(PAIR_FRAME_ROOM);
    }
    room
}

/// Room for the line of a reply, to which escapes may add. Linear in the number of its pairs or changes.
fn reply_room(reply: &Reply) -> usize {
    let texts = match reply {
        Reply::Found(_, value) => value.text().len(),
        Reply::Pairs(_, pairs) => pairs_room(pairs.as_slice()),
        Reply::Changes(_, _, changes) => changes_room(changes.as_slice()),
        _ => 0,
    };
    texts.saturating_add(FRAME_ROOM)
}

/// Writes a key and its value as an array of both. Linear in both.
pub(crate) fn write_texts(writer: &mut Writer, key: &str, value: &str) -> Result<(), AllocError>
    ensures { OnOk result (Appends writer.old writer.new (pair_item (key.now, value.now) ∷ [])) }
{
    writer.begin_array()?;
    writer.string(key)?;
    writer.string(value)?;
    writer.end_array()
}

/// Writes a pair as an array of its key and its value. Linear in both.
fn write_pair(writer: &mut Writer, pair: &Pair) -> Result<(), AllocError>
    ensures { OnOk result (Appends writer.old writer.new (pair_item pair.now ∷ [])) }
{
    write_texts(writer, pair.key.text(), pair.value.text())
}

/// Writes pairs as an array of arrays. Linear in their texts.
fn write_pairs(writer: &mut Writer, pairs: &[Pair]) -> Result<(), AllocError>
    ensures { OnOk result (Appends writer.old writer.new (list_of (map pair_item pairs.now) ∷ [])) }
{
    writer.begin_array()?;
    for pair in pairs {
        write_pair(writer, pair)?;
    }
    writer.end_array()
}

/// Writes the items of a change: its key, and its value if it has one. Linear in both.
fn write_change_items(writer: &mut Writer, change: &Change) -> Result<(), AllocError>
    ensures { OnOk result (Appends writer.old writer.new (string change.now.key ∷ value_items change.now.value)) }
{
    writer.string(change.key.text())?;
    match &change.value {
        Some(value) => writer.string(value.text()),
        None => Ok(()),
    }
}

/// Writes a change as an array. Linear in its texts.
fn write_change(writer: &mut Writer, change: &Change) -> Result<(), AllocError>
    ensures { OnOk result (Appends writer.old writer.new (change_item change.now ∷ [])) }
{
    writer.begin_array()?;
    write_change_items(writer, change)?;
    writer.end_array()
}

/// Writes changes as an array of arrays. Linear in their texts.
fn write_changes(writer: &mut Writer, changes: &[Change]) -> Result<(), AllocError>
    ensures { OnOk result (Appends writer.old writer.new (list_of (map change_item changes.now) ∷ [])) }
{
    writer.begin_array()?;
    for change in changes {
        write_change(writer, change)?;
    }
    writer.end_array()
}

/// Writes numbers as an array. Linear in how many there are.
fn write_numbers(writer: &mut Writer, numbers: &[u64]) -> Result<(), AllocError>
    ensures { OnOk result (Appends writer.old writer.new (list_of (map whole_number numbers.now) ∷ [])) }
{
    writer.begin_array()?;
    for number in numbers {
        writer.u64(*number)?;
    }
    writer.end_array()
}

/// Writes a word and a number. Linear in the word.
pub(crate) fn write_numbered(writer: &mut Writer, word: &str, number: u64) -> Result<(), AllocError>
    ensures { OnOk result (Appends writer.old writer.new (string word.now ∷ whole_number number ∷ [])) }
{
    writer.string(word)?;
    writer.u64(number)
}

/// Writes the items of the answer to what changed from one position to another. Linear in the texts of the changes.
fn write_changed(
    writer: &mut Writer,
    from: u64,
    position: u64,
    changes: &[Change],
) -> Result<(), AllocError>
    ensures { OnOk result (Appends writer.old writer.new (changed_items from position changes.now)) }
{
    write_numbered(writer, "changes", from)?;
    writer.u64(position)?;
    write_changes(writer, changes)
}

/// Writes the items of an error without a number. Linear in its name.
fn write_error(writer: &mut Writer, name: &str) -> Result<(), AllocError>
    ensures { OnOk result (Appends writer.old writer.new (error_items name.now [])) }
{
    writer.string("error")?;
    writer.string(name)
}

/// Writes the items of a refusal: the word `error`, its name, and its position. Linear in the name.
fn write_refusal(writer: &mut Writer, name: &str, position: u64) -> Result<(), AllocError>
    ensures { OnOk result (Appends writer.old writer.new (error_items name.now (whole_number position ∷ []))) }
{
    writer.string("error")?;
    write_numbered(writer, name, position)
}

/// The name that a cause has in a reply and in the row of a refused line. It takes constant time.
pub fn cause_name(cause: &Cause) -> &'static str
    ensures { result.now ≡ cause_name (plain_cause cause.now) }
{
    match cause {
        Cause::Computed(_) => "computed",
        Cause::Full => "full",
        Cause::NoJoin => "nojoin",
        Cause::Slots => "slots",
        Cause::Sources => "sources",
        Cause::Clash(_) => "clash",
        Cause::Cycle(_) => "cycle",
        Cause::Deep => "deep",
        Cause::Many => "many",
    }
}

/// Writes the items of a refused write. Linear in the positions of a cycle, and constant otherwise.
fn write_cause(writer: &mut Writer, position: u64, cause: &Cause) -> Result<(), AllocError>
    ensures { OnOk result (Appends writer.old writer.new (error_items (cause_name (plain_cause cause.now)) (whole_number position ∷ cause_items (plain_cause cause.now)))) }
{
    write_refusal(writer, cause_name(cause), position)?;
    match cause {
        Cause::Computed(other) | Cause::Clash(other) => writer.u64(*other),
        Cause::Cycle(positions) => write_numbers(writer, positions.as_slice()),
        Cause::Full | Cause::NoJoin | Cause::Slots | Cause::Sources | Cause::Deep | Cause::Many =>
            Ok(()),
    }
}

/// Writes the items of the answer to a line that is no request. It takes constant time.
fn write_fault(writer: &mut Writer, fault: &LineFault) -> Result<(), AllocError>
    requires { fault.now ≢ LineFault.OutOfMemory tt }
    ensures { OnOk result (Appends writer.old writer.new (reply_items (plain_reply (Reply.Unread fault.now)))) }
{
    match fault {
        LineFault::Json => write_error(writer, "json"),
        LineFault::Form => write_error(writer, "form"),
        LineFault::Key => write_error(writer, "key"),
        LineFault::Value => write_error(writer, "value"),
        LineFault::Range => write_error(writer, "range"),
        LineFault::Syntax(at) => write_refusal(writer, "syntax", *at as u64),
        LineFault::OutOfMemory(_) => unreachable!(),
    }
}

/// Writes the items of the array that a reply is. Linear in them.
fn write_items(writer: &mut Writer, reply: &Reply) -> Result<(), AllocError>
    requires has_text { reply.now ≢ Reply.Unread (LineFault.OutOfMemory tt) }
    requires unwritten { IsUnwritten reply.now }
    ensures { OnOk result (Appends writer.old writer.new (reply_items (plain_reply reply.now))) }
{
    match reply {
        Reply::Done(position) => write_numbered(writer, "ok", *position),
        Reply::Found(position, value) => {
            write_numbered(writer, "value", *position)?;
            writer.string(value.text())
        }
        Reply::Absent(position) => write_numbered(writer, "none", *position),
        Reply::Pairs(position, pairs) => {
            write_numbered(writer, "pairs", *position)?;
            write_pairs(writer, pairs.as_slice())
        }
        Reply::Written(_) | Reply::Entries(_, _, _) => unreachable!(),
        Reply::Refused(position, cause) => write_cause(writer, *position, cause),
        Reply::Gone(position) => write_refusal(writer, "gone", *position),
        Reply::Ahead(position) => write_refusal(writer, "ahead", *position),
        Reply::Changes(from, position, changes) => {
            write_changed(writer, *from, *position, changes.as_slice())
        }
        Reply::Unread(fault) => write_fault(writer, fault),
        Reply::Long => write_error(writer, "long"),
        Reply::Memory(_) => write_error(writer, "memory"),
        Reply::Bye => writer.string("bye"),
    }
}

/// Writes the array that a reply is. Linear in its text.
fn write_reply(writer: &mut Writer, reply: &Reply) -> Result<(), AllocError>
    requires has_text { reply.now ≢ Reply.Unread (LineFault.OutOfMemory tt) }
    requires unwritten { IsUnwritten reply.now }
    ensures { OnOk result (Appends writer.old writer.new (list_of (reply_items (plain_reply reply.now)) ∷ [])) }
{
    writer.begin_array()?;
    write_items(writer, reply)?;
    writer.end_array()
}

/// The line of a reply that is not there yet. Linear in it: each text is copied once, into the line.
fn write_line(alloc: Global, reply: &Reply) -> Result<Vec<u8>, OutOfMemory>
    requires has_text { reply.now ≢ Reply.Unread (LineFault.OutOfMemory tt) }
    requires unwritten { IsUnwritten reply.now }
    ensures { IfOk result (λ line. line.items ≡ reply_text (plain_reply reply.now)) }
{
    let mut writer = Writer::new(Vec::with_capacity(alloc, reply_room(reply))?);
    write_reply(&mut writer, reply)?;
    let mut line = writer.into_inner();
    line.push(LINE_END)?;
    Ok(line)
}

/// A copy of bytes. Linear in them.
fn copy_of(alloc: Global, bytes: &[u8]) -> Result<Vec<u8>, OutOfMemory>
    ensures { IfOk result (λ copy. copy.items ≡ bytes.now) }
{
    let mut copy = Vec::with_capacity(alloc, bytes.len())?;
    copy.extend_from_slice(bytes)?;
    Ok(copy)
}

/// The line of a reply: the compact text of its array (RFC 8259), and the byte 10. Linear in it: each text is copied
/// once, into the line, and where the line is there already, it is copied.
///
/// `Unread` of `OutOfMemory` has no line of its own: what is answered for such a line is `Memory`. `OutOfMemory` comes
/// only where none is found for the line.
pub fn write(alloc: Global, reply: &Reply) -> Result<Vec<u8>, OutOfMemory>
    requires { reply.now ≢ Reply.Unread (LineFault.OutOfMemory tt) }
    ensures { IfOk result (λ line. line.items ≡ reply_text (plain_reply reply.now)) }
{
    match reply {
        Reply::Written(scan) => copy_of(alloc, scan.line()),
        Reply::Entries(from, position, entries) => {
            write_entries_line(alloc, *from, *position, entries.as_slice())
        }
        reply => write_line(alloc, reply),
    }
}
