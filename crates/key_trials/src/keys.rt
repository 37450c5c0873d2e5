// Keys, values, decimals, and maps of keys. A key has at most 512 bytes and begins with a table of 1 to 64 bytes, which stands
// before the first `|`. A value has at most 65,536 bytes. A decimal is positive where it has digits alone and no leading zero.
use crate::readers::read_key;
use key_space::{Key, KeyFault, Value, ValueFault, decimal};
use std::alloc::Global;
use std::collections::BTreeMap;
use test_rows::{Answer, Fields};

/// Answers `key;CALL;..`.
pub fn answer(alloc: Global, mut fields: Fields<'_>, out: &mut Answer) -> Option<()> {
    match fields.next() {
        "read" => answer_key(alloc, fields, out),
        "value" => answer_value(alloc, fields, out),
        "decimal" => answer_decimal(alloc, fields, out),
        "map" => answer_map(alloc, fields, out),
        _ => None,
    }
}

/// Answers `read;KEY`: the key's text and its table, or the fault.
fn answer_key(alloc: Global, mut fields: Fields<'_>, out: &mut Answer) -> Option<()> {
    let text = fields.text(alloc);
    match Key::read(alloc, text.as_str()) {
        Ok(key) => {
            out.escaped(key.text());
            out.escaped(key.table());
        }
        Err(KeyFault::BadKey) => out.word("BadKey"),
        Err(KeyFault::OutOfMemory(_)) => out.word("OutOfMemory"),
    }
    Some(())
}

/// Answers `value;VALUE`: the text of a copy of the value, or the fault.
fn answer_value(alloc: Global, mut fields: Fields<'_>, out: &mut Answer) -> Option<()> {
    let text = fields.text(alloc);
    match Value::read(alloc, text.as_str()) {
        Ok(value) => {
            out.word("text=");
            out.more_escaped(value.copy().ok()?.text());
        }
        Err(ValueFault::BadValue) => out.word("BadValue"),
        Err(ValueFault::OutOfMemory(_)) => out.word("OutOfMemory"),
    }
    Some(())
}

/// Answers `decimal;TEXT`: whether it has digits alone, and whether it is a positive decimal.
fn answer_decimal(alloc: Global, mut fields: Fields<'_>, out: &mut Answer) -> Option<()> {
    let text = fields.text(alloc);
    out.flag(decimal::are_digits(text.as_bytes()));
    out.flag(decimal::is_positive(text.as_bytes()));
    Some(())
}

/// Answers `map;KEY=VALUE;..;KEY`: the entries of a map of copies of the keys, in its order, and whether it has the last key.
fn answer_map(alloc: Global, fields: Fields<'_>, out: &mut Answer) -> Option<()> {
    let mut map = BTreeMap::new(alloc);
    let mut has_last = false;
    for entry in fields.rest().split(';') {
        match entry.split_once('=') {
            Some((key, value)) => {
                let key = read_key(alloc, key)?.copy().ok()?;
                map.insert(key, Value::read(alloc, value).ok()?).ok()?;
            }
            None => has_last = map.contains_key(&read_key(alloc, entry)?),
        }
    }
    show_map(&map, out);
    out.flag(has_last);
    Some(())
}

/// Adds the entries of a map, in its order.
fn show_map(map: &BTreeMap<Key, Value>, out: &mut Answer) {
    for (key, value) in map.iter() {
        out.escaped(key.text());
        out.more("=");
        out.more_escaped(value.text());
    }
}
