// Entries from the lines of a feed.
ghost use Rattle.std.specs.Prelude.{◌≡◌, ◌++◌, ◌∷◌, [], OnOk, IfOk, IfErr, Ok, Some, None, option_map, option_and_then, codes};
ghost use Rattle.serde_json.specs.Data.{item, no_items};
ghost use Rattle.serde_json.specs.Find.{as_array};
ghost use Rattle.serde_json.specs.View.{view, items_view};
ghost use Rattle.semantics.specs.Histories.{declare};
ghost use Rattle.join_types.specs.Writes.{plain_write};
ghost use Rattle.protocol.specs.Requests.{json_of, text_of, position_of, write};
ghost use Rattle.protocol.specs.Batches.{second_text, write_of, write_of_request, client_of, entry_by, entry_of, entry_of_items, entries_of, batch_by, batch_of, batch_of_items, is_text};
ghost use Rattle.request_codec.specs.FeedFaults.{IsNone};

use crate::items::{position_of, text_of};
use crate::reading::{read_json, read_value};
use crate::request::{LineFault, Request};
use join_lang::print;
use join_types::{Entry, Join, Write};
use out_of_memory::OutOfMemory;
use serde_json::Value as Json;
use std::alloc::Global;

/// What a number of a client is below.
const CLIENT_LIMIT: u64 = 1 << 32;

/// Why a line was not read as entries.
#[derive(Debug, Drop)]
pub enum FeedFault {
    /// It is no line of entries.
    Bad,
    /// No memory was found for the entries. This says nothing of the line.
    OutOfMemory(OutOfMemory),
}

/// The number of a client, where the value is a whole number below 2^32. It takes constant time.
fn client_of(value: &Json) -> Option<u32>
    ensures { result ≡ client_of (view value.now) }
{
    match value.as_u64() {
        Some(client) if client < CLIENT_LIMIT => Some(client as u32),
        _ => None,
    }
}

/// The second item, where it is a text. It takes constant time.
fn second_of(items: &[Json]) -> Option<&str>
    ensures { option_map (λ text. text.now) result ≡ second_text (items_view items.now) }
{
    match items {
        [] => None,
        [_] => None,
        [_, second, ..] => text_of(second),
    }
}

/// The second item of an array, where it is a text. It takes constant time.
fn second_text(value: &Json) -> Option<&str>
    ensures { option_map (λ text. text.now) result ≡ option_and_then second_text (as_array (view value.now)) }
{
    match value.as_array() {
        Some(items) => second_of(items.as_slice()),
        None => None,
    }
}

/// The join, where the second item is its canonical text. Linear in it.
fn keep_join(alloc: Global, value: &Json, join: Join) -> Result<Write, FeedFault>
    ensures kept { IfOk result (λ kept. write_of_request (Ok (write (declare join))) (option_and_then second_text (as_array (view value.now))) ≡ Some (plain_write kept)) }
    ensures fault { IfErr result (IsNone (write_of_request (Ok (write (declare join))) (option_and_then second_text (as_array (view value.now))))) }
{
    let Some(second) = second_text(value) else {
        return Err(FeedFault::Bad);
    };
    match print(alloc, &join) {
        Ok(text) if text.as_str() == second => Ok(Write::Declare(join)),
        Ok(_) => Err(FeedFault::Bad),
        Err(memory) => Err(FeedFault::OutOfMemory(memory)),
    }
}

/// The write that a value is the request of. Linear in its texts, with the names of a join for each of its slots.
fn read_write(alloc: Global, value: &Json) -> Result<Write, FeedFault>
    ensures found { IfOk result (λ found. write_of (view value.now) ≡ Some (plain_write found)) }
    ensures fault { IfErr result (IsNone (write_of (view value.now))) }
{
    match read_value(alloc, value) {
        Ok(Request::Put(key, value)) => Ok(Write::Put(key, value)),
        Ok(Request::Remove(key)) => Ok(Write::Remove(key)),
        Ok(Request::Declare(join)) => keep_join(alloc, value, join),
        Ok(Request::Drop(position)) => Ok(Write::Drop(position)),
        Err(LineFault::OutOfMemory(memory)) => Err(FeedFault::OutOfMemory(memory)),
        _ => Err(FeedFault::Bad),
    }
}

/// The entry of a client's number and a request.
fn read_client_and_write(alloc: Global, client: &Json, write: &Json) -> Result<Entry, FeedFault>
    ensures entry { IfOk result (λ entry. entry_by (client_of (view client.now)) (write_of (view write.now)) ≡ Some entry) }
    ensures fault { IfErr result (IsNone (entry_by (client_of (view client.now)) (write_of (view write.now)))) }
{
    let Some(client) = client_of(client) else {
        return Err(FeedFault::Bad);
    };
    match read_write(alloc, write) {
        Ok(write) => Ok(Entry { client, write }),
        Err(fault) => Err(fault),
    }
}

/// The entry that items are.
fn read_entry_items(alloc: Global, items: &[Json]) -> Result<Entry, FeedFault>
    ensures entry { IfOk result (λ entry. entry_of_items (items_view items.now) ≡ Some entry) }
    ensures fault { IfErr result (IsNone (entry_of_items (items_view items.now))) }
{
    match items {
        [] => Err(FeedFault::Bad),
        [_] => Err(FeedFault::Bad),
        [client, write] => read_client_and_write(alloc, client, write),
        _ => Err(FeedFault::Bad),
    }
}

/// The entry that a value is.
fn read_entry(alloc: Global, value: &Json) -> Result<Entry, FeedFault>
    ensures entry { IfOk result (λ entry. entry_of (view value.now) ≡ Some entry) }
    ensures fault { IfErr result (IsNone (entry_of (view value.now))) }
{
    match value.as_array() {
        Some(items) => read_entry_items(alloc, items.as_slice()),
        None => Err(FeedFault::Bad),
    }
}

/// Puts an entry behind the others.
fn push_entry(entries: &mut Vec<Entry>, entry: Entry) -> Result<(), OutOfMemory>
    ensures { OnOk result (entries.new.items ≡ entries.old.items ++ entry ∷ []) }
{
    entries.push(entry)?;
    Ok(())
}

/// The entries that values are. Linear in their texts.
fn read_list(alloc: Global, list: &[Json]) -> Result<Vec<Entry>, FeedFault>
    ensures entries { IfOk result (λ entries. entries_of (items_view list.now) ≡ Some entries.items) }
    ensures fault { IfErr result (IsNone (entries_of (items_view list.now))) }
{
    let mut entries = Vec::new(alloc);
    for value in list {
        let entry = match read_entry(alloc, value) {
            Ok(entry) => entry,
            Err(fault) => return Err(fault),
        };
        match push_entry(&mut entries, entry) {
            Ok(()) => {}
            Err(memory) => return Err(FeedFault::OutOfMemory(memory)),
        }
    }
    Ok(entries)
}

/// The entries that an array is.
fn read_array(alloc: Global, value: &Json) -> Result<Vec<Entry>, FeedFault>
    ensures entries { IfOk result (λ entries. option_and_then entries_of (as_array (view value.now)) ≡ Some entries.items) }
    ensures fault { IfErr result (IsNone (option_and_then entries_of (as_array (view value.now)))) }
{
    match value.as_array() {
        Some(list) => read_list(alloc, list.as_slice()),
        None => Err(FeedFault::Bad),
    }
}

/// The entries behind two positions.
fn read_placed(
    alloc: Global,
    from: &Json,
    position: &Json,
    list: &Json,
) -> Result<(u64, u64, Vec<Entry>), FeedFault>
    ensures entries { IfOk result (λ found. batch_by (position_of (view from.now)) (position_of (view position.now)) (option_and_then entries_of (as_array (view list.now))) ≡ Some (record { from = found.0; position = found.1; entries = found.2.items })) }
    ensures fault { IfErr result (IsNone (batch_by (position_of (view from.now)) (position_of (view position.now)) (option_and_then entries_of (as_array (view list.now))))) }
{
    let Some(from) = position_of(from) else {
        return Err(FeedFault::Bad);
    };
    let Some(position) = position_of(position) else {
        return Err(FeedFault::Bad);
    };
    match read_array(alloc, list) {
        Ok(entries) => Ok((from, position, entries)),
        Err(fault) => Err(fault),
    }
}

/// Whether the value is the word of a feed's answer. It takes constant time.
fn is_entries(word: &Json) -> bool
    ensures { result ≡ is_text (codes "entries") (text_of (view word.now)) }
{
    match text_of(word) {
        Some(word) => word == "entries",
        None => false,
    }
}

/// The entries behind two positions, where four items are those of a feed's answer.
fn read_batch(
    alloc: Global,
    word: &Json,
    from: &Json,
    position: &Json,
    list: &Json,
) -> Result<(u64, u64, Vec<Entry>), FeedFault>
    ensures entries { IfOk result (λ found. batch_of_items (item (view word.now) (item (view from.now) (item (view position.now) (item (view list.now) no_items)))) ≡ Some (record { from = found.0; position = found.1; entries = found.2.items })) }
    ensures fault { IfErr result (IsNone (batch_of_items (item (view word.now) (item (view from.now) (item (view position.now) (item (view list.now) no_items)))))) }
{
    if is_entries(word) {
        read_placed(alloc, from, position, list)
    } else {
        Err(FeedFault::Bad)
    }
}

/// The entries that items are.
fn read_batch_items(alloc: Global, items: &[Json]) -> Result<(u64, u64, Vec<Entry>), FeedFault>
    ensures entries { IfOk result (λ found. batch_of_items (items_view items.now) ≡ Some (record { from = found.0; position = found.1; entries = found.2.items })) }
    ensures fault { IfErr result (IsNone (batch_of_items (items_view items.now))) }
{
    match items {
        [] => Err(FeedFault::Bad),
        [_] => Err(FeedFault::Bad),
        [_, _] => Err(FeedFault::Bad),
        [_, _, _] => Err(FeedFault::Bad),
        [word, from, position, list] => read_batch(alloc, word, from, position, list),
        _ => Err(FeedFault::Bad),
    }
}

/// The JSON value of a line.
fn read_line(alloc: Global, line: &[u8]) -> Result<Json, FeedFault>
    ensures value { IfOk result (λ value. json_of line.now ≡ Some (view value)) }
    ensures fault { IfErr result (IsNone (json_of line.now)) }
{
    match read_json(alloc, line) {
        Ok(value) => Ok(value),
        Err(LineFault::OutOfMemory(memory)) => Err(FeedFault::OutOfMemory(memory)),
        Err(_) => Err(FeedFault::Bad),
    }
}

/// The entries that a line of a feed has, given without the byte 10 that ends it, behind the position after which they stand and the
/// number of all entries. Linear in the line, with the names of a join for each of its slots.
///
/// `Bad` comes exactly where the line is none of a feed. `OutOfMemory` comes only where none is found for its JSON or its entries, and
/// says nothing of the line.
pub fn read_entries(alloc: Global, line: &[u8]) -> Result<(u64, u64, Vec<Entry>), FeedFault>
    ensures entries { IfOk result (λ found. batch_of line.now ≡ Some (record { from = found.0; position = found.1; entries = found.2.items })) }
    ensures fault { IfErr result (IsNone (batch_of line.now)) }
{
    let value = read_line(alloc, line)?;
    match value.as_array() {
        Some(items) => read_batch_items(alloc, items.as_slice()),
        None => Err(FeedFault::Bad),
    }
}
