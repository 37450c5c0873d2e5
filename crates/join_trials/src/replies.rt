// Replies and rows: the line of each.
//
// The line of a reply is the compact text of its JSON array, and the byte 10. The lines of `Done`, `Memory` and `Long` are also
// written without memory.
ghost use Rattle.std.specs.Prelude.{◌≢◌};

use crate::answer::Answer;
use crate::words::{read_cause, read_changes, read_pairs};
use join_types::{Pair, RowSink};
use key_space::Value;
use out_of_memory::OutOfMemory;
use request_codec::{
    LONG_LINE, LineFault, PairsWriter, Reply, WrittenPairs, cause_name, long_line, memory_line,
    number_value, text_value, write, write_ok, write_row,
};
use std::alloc::{AllocError, Global};
use test_rows::Fields;

/// The first number that is no position of a history.
const NO_POSITION: u64 = 281_474_976_710_656;

/// Adds the line of a reply.
fn tell_line(alloc: Global, reply: &Reply, answer: &mut Answer) -> Option<()>
    requires { reply.now ≢ Reply.Unread (LineFault.OutOfMemory tt) }
{
    let line = write(alloc, reply).ok()?;
    answer.say_bytes(line.as_slice());
    Some(())
}

/// Tells the line of a fault of a request's line.
fn tell_unread(alloc: Global, fields: &mut Fields<'_>, answer: &mut Answer) -> Option<()> {
    match fields.next() {
        "json" => tell_line(alloc, &Reply::Unread(LineFault::Json), answer),
        "form" => tell_line(alloc, &Reply::Unread(LineFault::Form), answer),
        "key" => tell_line(alloc, &Reply::Unread(LineFault::Key), answer),
        "value" => tell_line(alloc, &Reply::Unread(LineFault::Value), answer),
        "range" => tell_line(alloc, &Reply::Unread(LineFault::Range), answer),
        "syntax" => {
            let at = usize::try_from(fields.number()).ok()?;
            tell_line(alloc, &Reply::Unread(LineFault::Syntax(at)), answer)
        }
        _ => None,
    }
}

/// Tells the name of a cause, and the line of a write that it refuses.
fn tell_refused(alloc: Global, fields: &mut Fields<'_>, answer: &mut Answer) -> Option<()> {
    let position = fields.number();
    let name = fields.next();
    let cause = read_cause(alloc, name, fields.next())?;
    answer.say(cause_name(&cause));
    tell_line(alloc, &Reply::Refused(position, cause), answer)
}

/// Tells the line of a value that is found.
fn tell_found(alloc: Global, fields: &mut Fields<'_>, answer: &mut Answer) -> Option<()> {
    let position = fields.number();
    let value = Value::read(alloc, fields.next()).ok()?;
    tell_line(alloc, &Reply::Found(position, value), answer)
}

/// Tells the line of pairs.
fn tell_pairs(alloc: Global, fields: &mut Fields<'_>, answer: &mut Answer) -> Option<()> {
    let position = fields.number();
    let pairs = read_pairs(alloc, fields.next())?;
    tell_line(alloc, &Reply::Pairs(position, pairs), answer)
}

/// The line of the answer to a scan with these pairs, written pair by pair.
fn written(alloc: Global, position: u64, pairs: &[Pair]) -> Result<WrittenPairs, OutOfMemory> {
    let mut writer = PairsWriter::begin(alloc, position)?;
    for pair in pairs {
        writer.push(pair.key.text(), pair.value.text())?;
    }
    writer.end(position)
}

/// Tells the line of pairs that is written pair by pair, and the number of entries that the reply names.
fn tell_written(alloc: Global, fields: &mut Fields<'_>, answer: &mut Answer) -> Option<()> {
    let position = fields.number();
    let pairs = read_pairs(alloc, fields.next())?;
    let scan = written(alloc, position, pairs.as_slice()).ok()?;
    answer.show(&scan.position());
    tell_line(alloc, &Reply::Written(scan), answer)
}

/// Tells the line of changes.
fn tell_changes(alloc: Global, fields: &mut Fields<'_>, answer: &mut Answer) -> Option<()> {
    let from = fields.number();
    let position = fields.number();
    let changes = read_changes(alloc, fields.next())?;
    tell_line(alloc, &Reply::Changes(from, position, changes), answer)
}

/// Tells the line of an entry, as it is written with memory and without.
fn tell_done(alloc: Global, fields: &mut Fields<'_>, answer: &mut Answer) -> Option<()> {
    let position = fields.number();
    if position >= NO_POSITION {
        return None;
    }
    tell_line(alloc, &Reply::Done(position), answer)?;
    let line = write_ok(position);
    answer.say_bytes(&line.bytes[..line.len]);
    Some(())
}

/// Tells the lines that are fixed.
fn tell_fixed(alloc: Global, answer: &mut Answer) -> Option<()> {
    tell_line(alloc, &Reply::Bye, answer)?;
    tell_line(alloc, &Reply::Memory(AllocError.into()), answer)?;
    answer.say_bytes(memory_line(&AllocError.into()));
    tell_line(alloc, &Reply::Long, answer)?;
    answer.say_bytes(long_line());
    answer.say_bytes(LONG_LINE);
    Some(())
}

/// Tells the row of a text and a number, and the row of nothing.
fn tell_row(alloc: Global, fields: &mut Fields<'_>, answer: &mut Answer) -> Option<()> {
    let text = text_value(alloc, fields.next()).ok()?;
    answer.show(&text.as_str());
    let items = vec![in alloc; text, number_value(fields.number())].ok()?;
    let row = write_row(alloc, items).ok()?;
    answer.say_bytes(row.as_slice());
    let row = write_row(alloc, Vec::new(alloc)).ok()?;
    answer.say_bytes(row.as_slice());
    Some(())
}

/// Runs a row of this kind.
pub fn run(alloc: Global, kind: &str, fields: &mut Fields<'_>, answer: &mut Answer) -> Option<()> {
    match kind {
        "done" => tell_done(alloc, fields, answer),
        "found" => tell_found(alloc, fields, answer),
        "absent" => tell_line(alloc, &Reply::Absent(fields.number()), answer),
        "pairs" => tell_pairs(alloc, fields, answer),
        "written" => tell_written(alloc, fields, answer),
        "gone" => tell_line(alloc, &Reply::Gone(fields.number()), answer),
        "ahead" => tell_line(alloc, &Reply::Ahead(fields.number()), answer),
        "changes" => tell_changes(alloc, fields, answer),
        "refused" => tell_refused(alloc, fields, answer),
        "unread" => tell_unread(alloc, fields, answer),
        "fixed" => tell_fixed(alloc, answer),
        "row" => tell_row(alloc, fields, answer),
        _ => None,
    }
}
