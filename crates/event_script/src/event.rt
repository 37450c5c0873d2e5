// Events from lines.
ghost use Rattle.std.specs.Prelude.{◌≡◌, IfOk, IfErr, Ok, map};
ghost use Rattle.serde_json.specs.View.{view, items_view};
ghost use Rattle.protocol.specs.Requests.{request_of_value};
ghost use Rattle.core_events.specs.Scripts.{append_written, begin_event, piece_event, mend_event, ranged, event_of_one, event_of_two, event_of_three, event_of_word, event_of_items, event_of_value, event_of};
ghost use Rattle.core_events.specs.PlainEvents.{plain_event};
ghost use Rattle.request_codec.specs.Plain.{IsFaultOf};
ghost use Rattle.event_script.specs.Lines.{has_one_behind, are_write, is_write, append_event, piece_of, advance_of};

use crate::items::{is_word, number_of};
use core_events::{Event, ScanBound};
use join_types::Write;
use key_space::Range;
use request_codec::{LineFault, Request, position_of, read_json, read_value, text_of};
use serde_json::Value;
use std::alloc::Global;

/// The event that appends what is requested. Linear in it.
fn read_written(alloc: Global, client: u32, request: &Value) -> Result<Event, LineFault>
    ensures event { IfOk result (λ event. append_written client (request_of_value (view request.now)) ≡ Ok (plain_event event)) }
    ensures fault { IfErr result (IsFaultOf (append_written client (request_of_value (view request.now)))) }
{
    let write = match read_value(alloc, request)? {
        Request::Put(key, value) => Write::Put(key, value),
        Request::Remove(key) => Write::Remove(key),
        Request::Declare(join) => Write::Declare(join),
        Request::Drop(position) => Write::Drop(position),
        Request::Get(_)
        | Request::Scan(_)
        | Request::ScanAt(_, _)
        | Request::Changes(_, _)
        | Request::Feed(_)
        | Request::Quit => return Err(LineFault::Form),
    };
    Ok(Event::Append { client, write })
}

/// Whether the value is the word of a remove, a join or a drop, which have one item behind it.
fn has_one_behind(word: &Value) -> bool
    ensures { result ≡ has_one_behind (view word.now) }
{
    is_word(word, "remove") || is_word(word, "join") || is_word(word, "drop")
}

/// Whether items have the number and the word of a put, a remove, a join or a drop.
fn are_write(items: &[Value]) -> bool
    ensures { result ≡ are_write (items_view items.now) }
{
    match items {
        [] => false,
        [_] => false,
        [word, _] => has_one_behind(word),
        [word, _, _] => is_word(word, "put"),
        _ => false,
    }
}

/// Whether the value is an array with the number of items and the word of a put, a remove, a join or a drop.
fn is_write(value: &Value) -> bool
    ensures { result ≡ is_write (view value.now) }
{
    match value.as_array() {
        Some(items) => are_write(items.as_slice()),
        None => false,
    }
}

/// The event by which a client appends a write. Linear in the write.
fn read_append(alloc: Global, client: &Value, write: &Value) -> Result<Event, LineFault>
    ensures event { IfOk result (λ event. append_event (view client.now) (view write.now) ≡ Ok (plain_event event)) }
    ensures fault { IfErr result (IsFaultOf (append_event (view client.now) (view write.now))) }
{
    let Some(client) = number_of(client) else {
        return Err(LineFault::Form);
    };
    if !is_write(write) {
        return Err(LineFault::Form);
    }
    read_written(alloc, client, write)
}

/// The event that begins a scan over the range between two bounds. Linear in them.
fn begin_over(alloc: Global, scan: u32, low: &str, high: &str) -> Result<Event, LineFault>
    ensures event { IfOk result (λ event. begin_event scan low.now high.now ≡ Ok (plain_event event)) }
    ensures fault { IfErr result (IsFaultOf (begin_event scan low.now high.now)) }
{
    let range = Range::read(alloc, low, high)?;
    Ok(Event::Begin { scan, range })
}

/// The event that mends a cell in the range between two bounds. Linear in them.
fn mend_in(alloc: Global, cell: u32, low: &str, high: &str) -> Result<Event, LineFault>
    ensures event { IfOk result (λ event. mend_event cell low.now high.now ≡ Ok (plain_event event)) }
    ensures fault { IfErr result (IsFaultOf (mend_event cell low.now high.now)) }
{
    let range = Range::read(alloc, low, high)?;
    Ok(Event::Mend { cell, range })
}

/// The event that answers a scan up to a text. Linear in it.
fn piece_to(alloc: Global, scan: u32, upto: &str) -> Result<Event, LineFault>
    ensures event { IfOk result (λ event. piece_event scan upto.now ≡ Ok (plain_event event)) }
    ensures fault { IfErr result (IsFaultOf (piece_event scan upto.now)) }
{
    let upto = ScanBound::read(alloc, upto)?;
    Ok(Event::Piece { scan, upto })
}

/// The event of a word with one item behind it.
fn read_one(word: &str, item: &Value) -> Result<Event, LineFault>
    ensures event { IfOk result (λ event. event_of_one word.now (view item.now) ≡ Ok (plain_event event)) }
    ensures fault { IfErr result (IsFaultOf (event_of_one word.now (view item.now))) }
{
    let Some(number) = number_of(item) else {
        return Err(LineFault::Form);
    };
    if word == "evict" {
        Ok(Event::Evict { cell: number })
    } else if word == "finish" {
        Ok(Event::Finish { scan: number })
    } else {
        Err(LineFault::Form)
    }
}

/// The event that answers a scan up to a text. Linear in it.
fn read_piece(alloc: Global, scan: &Value, upto: &Value) -> Result<Event, LineFault>
    ensures event { IfOk result (λ event. piece_of (view scan.now) (view upto.now) ≡ Ok (plain_event event)) }
    ensures fault { IfErr result (IsFaultOf (piece_of (view scan.now) (view upto.now))) }
{
    let Some(scan) = number_of(scan) else {
        return Err(LineFault::Form);
    };
    let Some(upto) = text_of(upto) else {
        return Err(LineFault::Form);
    };
    piece_to(alloc, scan, upto)
}

/// The event that advances a cell to a position.
fn read_advance(cell: &Value, to: &Value) -> Result<Event, LineFault>
    ensures event { IfOk result (λ event. advance_of (view cell.now) (view to.now) ≡ Ok (plain_event event)) }
    ensures fault { IfErr result (IsFaultOf (advance_of (view cell.now) (view to.now))) }
{
    let Some(cell) = number_of(cell) else {
        return Err(LineFault::Form);
    };
    let Some(to) = position_of(to) else {
        return Err(LineFault::Form);
    };
    Ok(Event::Advance { cell, to })
}

/// The event of a word with two items behind it. Linear in them.
fn read_two(alloc: Global, word: &str, first: &Value, second: &Value) -> Result<Event, LineFault>
    ensures event { IfOk result (λ event. event_of_two word.now (view first.now) (view second.now) ≡ Ok (plain_event event)) }
    ensures fault { IfErr result (IsFaultOf (event_of_two word.now (view first.now) (view second.now))) }
{
    if word == "append" {
        read_append(alloc, first, second)
    } else if word == "piece" {
        read_piece(alloc, first, second)
    } else if word == "advance" {
        read_advance(first, second)
    } else {
        Err(LineFault::Form)
    }
}

/// The event that begins a scan. Linear in its bounds.
fn read_begin(alloc: Global, scan: &Value, low: &Value, high: &Value) -> Result<Event, LineFault>
    ensures event { IfOk result (λ event. ranged begin_event (view scan.now) (view low.now) (view high.now) ≡ Ok (plain_event event)) }
    ensures fault { IfErr result (IsFaultOf (ranged begin_event (view scan.now) (view low.now) (view high.now))) }
{
    let Some(scan) = number_of(scan) else {
        return Err(LineFault::Form);
    };
    let Some(low) = text_of(low) else {
        return Err(LineFault::Form);
    };
    let Some(high) = text_of(high) else {
        return Err(LineFault::Form);
    };
    begin_over(alloc, scan, low, high)
}

/// The event that mends a cell in a range. Linear in the range's bounds.
fn read_mend(alloc: Global, cell: &Value, low: &Value, high: &Value) -> Result<Event, LineFault>
    ensures event { IfOk result (λ event. ranged mend_event (view cell.now) (view low.now) (view high.now) ≡ Ok (plain_event event)) }
    ensures fault { IfErr result (IsFaultOf (ranged mend_event (view cell.now) (view low.now) (view high.now))) }
{
    let Some(cell) = number_of(cell) else {
        return Err(LineFault::Form);
    };
    let Some(low) = text_of(low) else {
        return Err(LineFault::Form);
    };
    let Some(high) = text_of(high) else {
        return Err(LineFault::Form);
    };
    mend_in(alloc, cell, low, high)
}

/// The event of a word with three items behind it. Linear in them.
fn read_three(
    alloc: Global,
    word: &str,
    first: &Value,
    second: &Value,
    third: &Value,
) -> Result<Event, LineFault>
    ensures event { IfOk result (λ event. event_of_three word.now (view first.now) (view second.now) (view third.now) ≡ Ok (plain_event event)) }
    ensures fault { IfErr result (IsFaultOf (event_of_three word.now (view first.now) (view second.now) (view third.now))) }
{
    if word == "begin" {
        read_begin(alloc, first, second, third)
    } else if word == "mend" {
        read_mend(alloc, first, second, third)
    } else {
        Err(LineFault::Form)
    }
}

/// The event that a word and the items behind it are. Linear in them.
fn read_word(alloc: Global, word: &str, items: &[Value]) -> Result<Event, LineFault>
    ensures event { IfOk result (λ event. event_of_word word.now (items_view items.now) ≡ Ok (plain_event event)) }
    ensures fault { IfErr result (IsFaultOf (event_of_word word.now (items_view items.now))) }
{
    match items {
        [] => Err(LineFault::Form),
        [first] => read_one(word, first),
        [first, second] => read_two(alloc, word, first, second),
        [first, second, third] => read_three(alloc, word, first, second, third),
        _ => Err(LineFault::Form),
    }
}

/// The event that the items of an array are. Linear in them.
fn read_items(alloc: Global, items: &[Value]) -> Result<Event, LineFault>
    ensures event { IfOk result (λ event. event_of_items (items_view items.now) ≡ Ok (plain_event event)) }
    ensures fault { IfErr result (IsFaultOf (event_of_items (items_view items.now))) }
{
    let Some((word, others)) = items.split_first() else {
        return Err(LineFault::Form);
    };
    let Some(word) = text_of(word) else {
        return Err(LineFault::Form);
    };
    read_word(alloc, word, others)
}

/// The event that a JSON value is. Linear in it.
fn read_json_event(alloc: Global, value: &Value) -> Result<Event, LineFault>
    ensures event { IfOk result (λ event. event_of_value (view value.now) ≡ Ok (plain_event event)) }
    ensures fault { IfErr result (IsFaultOf (event_of_value (view value.now))) }
{
    match value.as_array() {
        Some(items) => read_items(alloc, items.as_slice()),
        None => Err(LineFault::Form),
    }
}

/// The event that a line is, given without the byte 10 that ends it. Linear in the line, with the names of a join for each
/// of its slots.
///
/// Each fault but `OutOfMemory` comes exactly where it is the first of `Json`, `Form`, `Key`, `Value`, `Range` and
/// `Syntax` that refuses the line. `OutOfMemory` comes only where none is found for the line's JSON or its event, and
/// says nothing of the line.
pub fn read_event(alloc: Global, line: &[u8]) -> Result<Event, LineFault>
    ensures event { IfOk result (λ event. event_of line.now ≡ Ok (plain_event event)) }
    ensures fault { IfErr result (IsFaultOf (event_of line.now)) }
{
    let value = read_json(alloc, line)?;
    read_json_event(alloc, &value)
}
