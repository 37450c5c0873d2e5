// Requests from lines.
ghost use Rattle.std.specs.Prelude.{◌≡◌, IfOk, IfErr, Some, None, Ok};
ghost use Rattle.serde_json.specs.Data.{item, no_items};
ghost use Rattle.serde_json.specs.View.{view, items_view};
ghost use Rattle.protocol.specs.Requests.{json_of, text_of, position_of, put_request, remove_request, get_request, scan_request, earlier_request, scan_at, changes_since, bounds_request, join_or_syntax, request_of_one, request_of_two, request_of_three, request_of_value, request_of};
ghost use Rattle.protocol.specs.JoinText.{read_join};
ghost use Rattle.request_codec.specs.Items.{request_of_items, request_of_numbered};
ghost use Rattle.request_codec.specs.Plain.{plain_request, IsFaultOf, IsNoJson};

use crate::items::{position_of, text_of};
use crate::request::{LineFault, Request};
use join_lang::parse;
use key_space::{Key, Range, Value};
use serde_json::Value as Json;
use std::alloc::{AllocError, Global};

/// The request to put a value at a key. Linear in both texts.
fn read_put(alloc: Global, key: &str, value: &str) -> Result<Request, LineFault>
    ensures request { IfOk result (λ request. put_request key.now value.now ≡ Ok (plain_request request)) }
    ensures fault { IfErr result (IsFaultOf (put_request key.now value.now)) }
{
    let key = Key::read(alloc, key)?;
    let value = Value::read(alloc, value)?;
    Ok(Request::Put(key, value))
}

/// The request to remove a key. Linear in its text.
fn read_remove(alloc: Global, key: &str) -> Result<Request, LineFault>
    ensures request { IfOk result (λ request. remove_request key.now ≡ Ok (plain_request request)) }
    ensures fault { IfErr result (IsFaultOf (remove_request key.now)) }
{
    let key = Key::read(alloc, key)?;
    Ok(Request::Remove(key))
}

/// The request for the value at a key. Linear in its text.
fn read_get(alloc: Global, key: &str) -> Result<Request, LineFault>
    ensures request { IfOk result (λ request. get_request key.now ≡ Ok (plain_request request)) }
    ensures fault { IfErr result (IsFaultOf (get_request key.now)) }
{
    let key = Key::read(alloc, key)?;
    Ok(Request::Get(key))
}

/// The request for the pairs between two bounds. Linear in their texts.
fn read_scan(alloc: Global, low: &str, high: &str) -> Result<Request, LineFault>
    ensures request { IfOk result (λ request. scan_request low.now high.now ≡ Ok (plain_request request)) }
    ensures fault { IfErr result (IsFaultOf (scan_request low.now high.now)) }
{
    let range = Range::read(alloc, low, high)?;
    Ok(Request::Scan(range))
}

/// The request for the pairs between two bounds after so many entries. Linear in the bounds' texts.
fn read_scan_at(alloc: Global, low: &str, high: &str, at: u64) -> Result<Request, LineFault>
    ensures request { IfOk result (λ request. earlier_request scan_at low.now high.now at ≡ Ok (plain_request request)) }
    ensures fault { IfErr result (IsFaultOf (earlier_request scan_at low.now high.now at)) }
{
    let range = Range::read(alloc, low, high)?;
    Ok(Request::ScanAt(range, at))
}

/// The request for what changed between two bounds since the first so many entries. Linear in the bounds' texts.
fn read_changes(alloc: Global, low: &str, high: &str, from: u64) -> Result<Request, LineFault>
    ensures request { IfOk result (λ request. earlier_request changes_since low.now high.now from ≡ Ok (plain_request request)) }
    ensures fault { IfErr result (IsFaultOf (earlier_request changes_since low.now high.now from)) }
{
    let range = Range::read(alloc, low, high)?;
    Ok(Request::Changes(range, from))
}

/// The request to declare a join. Linear in its text, with its names for each slot.
fn read_declare(alloc: Global, text: &str) -> Result<Request, LineFault>
    ensures request { IfOk result (λ request. join_or_syntax (read_join text.now) ≡ Ok (plain_request request)) }
    ensures fault { IfErr result (IsFaultOf (join_or_syntax (read_join text.now))) }
{
    let join = parse(alloc, text)?;
    Ok(Request::Declare(join))
}

/// The request of one word.
fn read_one(word: &str) -> Result<Request, LineFault>
    ensures request { IfOk result (λ request. request_of_one word.now ≡ Ok (plain_request request)) }
    ensures fault { IfErr result (IsFaultOf (request_of_one word.now)) }
{
    if word == "quit" {
        Ok(Request::Quit)
    } else {
        Err(LineFault::Form)
    }
}

/// The request of a word and a text.
fn read_two(alloc: Global, word: &str, text: &str) -> Result<Request, LineFault>
    ensures request { IfOk result (λ request. request_of_two word.now text.now ≡ Ok (plain_request request)) }
    ensures fault { IfErr result (IsFaultOf (request_of_two word.now text.now)) }
{
    if word == "remove" {
        read_remove(alloc, text)
    } else if word == "join" {
        read_declare(alloc, text)
    } else if word == "get" {
        read_get(alloc, text)
    } else {
        Err(LineFault::Form)
    }
}

/// The request of a word and two texts.
fn read_three(alloc: Global, word: &str, first: &str, second: &str) -> Result<Request, LineFault>
    ensures request { IfOk result (λ request. request_of_three word.now first.now second.now ≡ Ok (plain_request request)) }
    ensures fault { IfErr result (IsFaultOf (request_of_three word.now first.now second.now)) }
{
    if word == "put" {
        read_put(alloc, first, second)
    } else if word == "scan" {
        read_scan(alloc, first, second)
    } else {
        Err(LineFault::Form)
    }
}

/// The request of a word and the position behind it.
fn read_numbered(word: &str, last: &Json) -> Result<Request, LineFault>
    ensures request { IfOk result (λ request. request_of_numbered word.now (position_of (view last.now)) ≡ Ok (plain_request request)) }
    ensures fault { IfErr result (IsFaultOf (request_of_numbered word.now (position_of (view last.now)))) }
{
    let Some(position) = position_of(last) else {
        return Err(LineFault::Form);
    };
    if word == "drop" {
        Ok(Request::Drop(position))
    } else if word == "feed" {
        Ok(Request::Feed(position))
    } else {
        Err(LineFault::Form)
    }
}

/// The request of a word, two bounds and the position behind them. Linear in the bounds' texts.
fn read_bounds(
    alloc: Global,
    word: &str,
    low: &str,
    high: &str,
    position: u64,
) -> Result<Request, LineFault>
    ensures request { IfOk result (λ request. bounds_request word.now low.now high.now position ≡ Ok (plain_request request)) }
    ensures fault { IfErr result (IsFaultOf (bounds_request word.now low.now high.now position)) }
{
    if word == "scan" {
        read_scan_at(alloc, low, high, position)
    } else if word == "changes" {
        read_changes(alloc, low, high, position)
    } else {
        Err(LineFault::Form)
    }
}

/// The text that an item is. `Form` comes exactly where it is none.
fn take_text(item: &Json) -> Result<&str, LineFault>
    ensures text { IfOk result (λ text. text_of (view item.now) ≡ Some text.now) }
    ensures fault { IfErr result (λ fault. (text_of (view item.now) ≡ None) × (fault ≡ LineFault.Form)) }
{
    match text_of(item) {
        Some(text) => Ok(text),
        None => Err(LineFault::Form),
    }
}

/// The request that one item is.
fn read_word(word: &Json) -> Result<Request, LineFault>
    ensures request { IfOk result (λ request. request_of_items (item (view word.now) no_items) ≡ Ok (plain_request request)) }
    ensures fault { IfErr result (IsFaultOf (request_of_items (item (view word.now) no_items))) }
{
    let word = take_text(word)?;
    read_one(word)
}

/// The request that two items are: a word, and a text or a position. Linear in the text.
fn read_word_and_last(alloc: Global, word: &Json, last: &Json) -> Result<Request, LineFault>
    ensures request { IfOk result (λ request. request_of_items (item (view word.now) (item (view last.now) no_items)) ≡ Ok (plain_request request)) }
    ensures fault { IfErr result (IsFaultOf (request_of_items (item (view word.now) (item (view last.now) no_items)))) }
{
    let word = take_text(word)?;
    match text_of(last) {
        Some(text) => read_two(alloc, word, text),
        None => read_numbered(word, last),
    }
}

/// The request that three items are. Linear in their texts.
fn read_word_and_texts(
    alloc: Global,
    word: &Json,
    first: &Json,
    second: &Json,
) -> Result<Request, LineFault>
    ensures request { IfOk result (λ request. request_of_items (item (view word.now) (item (view first.now) (item (view second.now) no_items))) ≡ Ok (plain_request request)) }
    ensures fault { IfErr result (IsFaultOf (request_of_items (item (view word.now) (item (view first.now) (item (view second.now) no_items))))) }
{
    let word = take_text(word)?;
    let first = take_text(first)?;
    let second = take_text(second)?;
    read_three(alloc, word, first, second)
}

/// The request that four items are: three texts and a position. Linear in the texts.
fn read_texts_and_position(
    alloc: Global,
    word: &Json,
    low: &Json,
    high: &Json,
    last: &Json,
) -> Result<Request, LineFault>
    ensures request { IfOk result (λ request. request_of_items (item (view word.now) (item (view low.now) (item (view high.now) (item (view last.now) no_items)))) ≡ Ok (plain_request request)) }
    ensures fault { IfErr result (IsFaultOf (request_of_items (item (view word.now) (item (view low.now) (item (view high.now) (item (view last.now) no_items)))))) }
{
    let word = take_text(word)?;
    let low = take_text(low)?;
    let high = take_text(high)?;
    let Some(position) = position_of(last) else {
        return Err(LineFault::Form);
    };
    read_bounds(alloc, word, low, high, position)
}

/// The request that the items of an array are.
fn read_items(alloc: Global, items: &[Json]) -> Result<Request, LineFault>
    ensures request { IfOk result (λ request. request_of_items (items_view items.now) ≡ Ok (plain_request request)) }
    ensures fault { IfErr result (IsFaultOf (request_of_items (items_view items.now))) }
{
    match items {
        [] => Err(LineFault::Form),
        [word] => read_word(word),
        [word, last] => read_word_and_last(alloc, word, last),
        [word, first, second] => read_word_and_texts(alloc, word, first, second),
        [word, low, high, last] => read_texts_and_position(alloc, word, low, high, last),
        _ => Err(LineFault::Form),
    }
}

/// The request that a JSON value is. Linear in its texts, with the names of a join for each of its slots.
///
/// Each fault but `OutOfMemory` comes exactly where it is the first of `Form`, `Key`, `Value`, `Range` and `Syntax` that
/// refuses the value. `OutOfMemory` comes only where none is found for the request, and says nothing of the value.
pub fn read_value(alloc: Global, value: &Json) -> Result<Request, LineFault>
    ensures request { IfOk result (λ request. request_of_value (view value.now) ≡ Ok (plain_request request)) }
    ensures fault { IfErr result (IsFaultOf (request_of_value (view value.now))) }
{
    match value.as_array() {
        Some(items) => read_items(alloc, items.as_slice()),
        None => Err(LineFault::Form),
    }
}

/// Gives the JSON value of a line (RFC 8259). `Json` comes only where it has none, and no other fault but `OutOfMemory`, which says
/// nothing of the line. Linear in the line.
pub fn read_json(alloc: Global, line: &[u8]) -> Result<Json, LineFault>
    ensures value { IfOk result (λ value. json_of line.now ≡ Some (view value)) }
    ensures fault { IfErr result (IsNoJson (json_of line.now)) }
{
    let Ok(text) = str::from_utf8(line) else {
        return Err(LineFault::Json);
    };
    match Json::from_str(alloc, text) {
        Ok(value) => Ok(value),
        Err(error) => {
            // It says that it is one, and carries no refusal.
            if error.is_memory() {
                Err(LineFault::OutOfMemory(AllocError.into()))
            } else {
                Err(LineFault::Json)
            }
        }
    }
}

/// The request that a line is, given without the byte 10 that ends it. Linear in the line, with the names of a join for
/// each of its slots.
///
/// Each fault but `OutOfMemory` comes exactly where it is the first of `Json`, `Form`, `Key`, `Value`, `Range` and
/// `Syntax` that refuses the line. `OutOfMemory` comes only where none is found for the line's JSON or its request, and
/// says nothing of the line.
pub fn read(alloc: Global, line: &[u8]) -> Result<Request, LineFault>
    ensures request { IfOk result (λ request. request_of line.now ≡ Ok (plain_request request)) }
    ensures fault { IfErr result (IsFaultOf (request_of line.now)) }
{
    let value = read_json(alloc, line)?;
    read_value(alloc, &value)
}
