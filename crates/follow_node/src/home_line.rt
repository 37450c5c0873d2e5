// What a line of a home is.
ghost use Rattle.std.specs.Prelude.{◌≡◌, IfOk, codes};
ghost use Rattle.serde_json.specs.Data.{item, no_items};
ghost use Rattle.serde_json.specs.View.{view, items_view};
ghost use Rattle.protocol.specs.Requests.{json_of, text_of, position_of};
ghost use Rattle.protocol.specs.Batches.{is_text};
ghost use Rattle.follow_node.specs.FedLines.{fed_line, refusal_named, refusal_numbered, refusal_of, refusal_of_items, refusal_in};
ghost use Rattle.follow_node.specs.HomeLines.{plain_line};

use join_types::Entry;
use out_of_memory::OutOfMemory;
use request_codec::{FeedFault, LineFault, position_of, read_entries, read_json, text_of};
use serde_json::Value as Json;
use std::alloc::Global;

/// What a line of a home is.
#[derive(Debug, Drop)]
pub enum HomeLine {
    /// The position before the entries, the number of all, and the entries.
    Entries(u64, u64, Vec<Entry>),
    /// The home found no memory.
    Memory,
    /// The home keeps none that lie so far back.
    Gone(u64),
    /// The home has only so many.
    Ahead(u64),
    /// None of these.
    Other,
}

/// Whether the value is this text. It takes constant time, beside the comparison.
fn is_word(value: &Json, word: &str) -> bool
    ensures { result ≡ is_text word.now (text_of (view value.now)) }
{
    match text_of(value) {
        Some(text) => text == word,
        None => false,
    }
}

/// The refusal that a name alone is.
fn read_named(name: &Json) -> HomeLine
    ensures { plain_line result ≡ refusal_named (text_of (view name.now)) }
{
    if is_word(name, "memory") {
        HomeLine::Memory
    } else {
        HomeLine::Other
    }
}

/// The refusal that a name with the number of entries is.
fn read_numbered(name: &Json, number: &Json) -> HomeLine
    ensures { plain_line result ≡ refusal_numbered (text_of (view name.now)) (position_of (view number.now)) }
{
    let Some(position) = position_of(number) else {
        return HomeLine::Other;
    };
    if is_word(name, "gone") {
        HomeLine::Gone(position)
    } else if is_word(name, "ahead") {
        HomeLine::Ahead(position)
    } else {
        HomeLine::Other
    }
}

/// The refusal that two items are.
fn read_two(word: &Json, name: &Json) -> HomeLine
    ensures { plain_line result ≡ refusal_of_items (item (view word.now) (item (view name.now) no_items)) }
{
    if is_word(word, "error") {
        read_named(name)
    } else {
        HomeLine::Other
    }
}

/// The refusal that three items are.
fn read_three(word: &Json, name: &Json, number: &Json) -> HomeLine
    ensures { plain_line result ≡ refusal_of_items (item (view word.now) (item (view name.now) (item (view number.now) no_items))) }
{
    if is_word(word, "error") {
        read_numbered(name, number)
    } else {
        HomeLine::Other
    }
}

/// The refusal that items are.
fn read_refusal_items(items: &[Json]) -> HomeLine
    ensures { plain_line result ≡ refusal_of_items (items_view items.now) }
{
    match items {
        [] => HomeLine::Other,
        [_] => HomeLine::Other,
        [word, name] => read_two(word, name),
        [word, name, number] => read_three(word, name, number),
        _ => HomeLine::Other,
    }
}

/// The refusal that a value is.
fn read_refusal(value: &Json) -> HomeLine
    ensures { plain_line result ≡ refusal_of (view value.now) }
{
    match value.as_array() {
        Some(items) => read_refusal_items(items.as_slice()),
        None => HomeLine::Other,
    }
}

/// What a line is that has no entries.
fn read_other(alloc: Global, line: &[u8]) -> Result<HomeLine, OutOfMemory>
    ensures { IfOk result (λ found. plain_line found ≡ refusal_in (json_of line.now)) }
{
    match read_json(alloc, line) {
        Ok(value) => Ok(read_refusal(&value)),
        Err(LineFault::OutOfMemory(memory)) => Err(memory),
        Err(_) => Ok(HomeLine::Other),
    }
}

/// What a line is, given without its byte 10. Linear in it. `OutOfMemory` comes only where none is found for its JSON or its entries,
/// and says nothing of the line.
pub fn read_home_line(alloc: Global, line: &[u8]) -> Result<HomeLine, OutOfMemory>
    ensures { IfOk result (λ found. plain_line found ≡ fed_line line.now) }
{
    match read_entries(alloc, line) {
        Ok((from, position, entries)) => Ok(HomeLine::Entries(from, position, entries)),
        Err(FeedFault::Bad) => read_other(alloc, line),
        Err(FeedFault::OutOfMemory(memory)) => Err(memory),
    }
}
