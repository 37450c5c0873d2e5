// Ranges of keys. Both bounds begin with the same table's name, but for a last bound of the name and `}`; the last is not below
// the first, and neither has more than 513 bytes. A range holds its first bound and not its last.
ghost use Rattle.std.specs.Prelude.{◌≡◌, IfOk};

use crate::readers::{next_range, read_key};
use key_space::{Key, Range, RangeFault};
use out_of_memory::OutOfMemory;
use std::alloc::Global;
use test_rows::{Answer, Fields};

/// Answers `range;CALL;..`.
pub fn answer(alloc: Global, mut fields: Fields<'_>, out: &mut Answer) -> Option<()> {
    match fields.next() {
        "read" => answer_range(alloc, fields, out),
        "between" => answer_between(alloc, fields, out),
        "contains" => answer_contains(alloc, fields, out),
        "common" => answer_common(alloc, fields, out),
        "prefix" => answer_prefix(alloc, fields, out),
        "just" => answer_just(alloc, fields, out),
        "single" => answer_single(alloc, fields, out),
        _ => None,
    }
}

/// Adds the bounds of a range.
pub fn show_range(range: &Range, out: &mut Answer) {
    out.bounds(range.lo(), range.hi());
}

/// Answers `read;LOW;HIGH`: the bounds, or the fault.
fn answer_range(alloc: Global, mut fields: Fields<'_>, out: &mut Answer) -> Option<()> {
    let low = fields.text(alloc);
    let high = fields.text(alloc);
    match Range::read(alloc, low.as_str(), high.as_str()) {
        Ok(range) => show_range(&range, out),
        Err(RangeFault::BadRange) => out.word("BadRange"),
        Err(RangeFault::OutOfMemory(_)) => out.word("OutOfMemory"),
    }
    Some(())
}

/// Makes a range between the texts of the bounds.
fn made_again(alloc: Global, range: &Range) -> Result<Range, OutOfMemory>
    ensures { IfOk result (λ again. again ≡ range.now) }
{
    let low = String::from_str(alloc, range.lo())?;
    let high = String::from_str(alloc, range.hi())?;
    Range::between(low, high)
}

/// Answers `between;LOW;HIGH`: the bounds of a range that is made between the bounds of a range.
fn answer_between(alloc: Global, mut fields: Fields<'_>, out: &mut Answer) -> Option<()> {
    let range = next_range(alloc, &mut fields)?;
    show_range(&made_again(alloc, &range).ok()?, out);
    Some(())
}

/// Answers `contains;LOW;HIGH;KEY;..`: whether a copy of the range contains each key.
fn answer_contains(alloc: Global, mut fields: Fields<'_>, out: &mut Answer) -> Option<()> {
    let range = next_range(alloc, &mut fields)?.copy().ok()?;
    for text in fields.rest().split(';') {
        out.flag(range.contains(&read_key(alloc, text)?));
    }
    Some(())
}

/// Adds whether the ranges meet, and what they have in common.
fn show_common(first: &Range, second: &Range, out: &mut Answer) -> Option<()> {
    out.flag(first.meets(second));
    match first.cut(second).ok()? {
        Some(part) => show_range(&part, out),
        None => out.word("none"),
    }
    Some(())
}

/// Answers `common;LOW;HIGH;LOW;HIGH`: whether the ranges meet and what they have in common, asked in both orders.
fn answer_common(alloc: Global, mut fields: Fields<'_>, out: &mut Answer) -> Option<()> {
    let first = next_range(alloc, &mut fields)?;
    let second = next_range(alloc, &mut fields)?;
    show_common(&first, &second, out)?;
    show_common(&second, &first, out)
}

/// Answers `prefix;KEY`: the range of all keys that begin with the key, which ends with `|`. It ends with `}` in place of that.
fn answer_prefix(alloc: Global, mut fields: Fields<'_>, out: &mut Answer) -> Option<()> {
    let prefix = fields.text(alloc);
    let prefix = prefix.as_str();
    if Key::read(alloc, prefix).is_err() || !prefix.as_bytes().ends_with(b"|") {
        return None;
    }
    show_range(&Range::prefix_range(alloc, prefix).ok()?, out);
    Some(())
}

/// Answers `just;KEY`: the range of this key alone, and whether it contains it.
fn answer_just(alloc: Global, mut fields: Fields<'_>, out: &mut Answer) -> Option<()> {
    let key = read_key(alloc, fields.next())?;
    let range = Range::just(alloc, &key).ok()?;
    show_range(&range, out);
    out.flag(range.contains(&key));
    Some(())
}

/// Answers `single;LOW;HIGH`: whether the range holds one key alone.
fn answer_single(alloc: Global, mut fields: Fields<'_>, out: &mut Answer) -> Option<()> {
    out.flag(next_range(alloc, &mut fields)?.is_single());
    Some(())
}
