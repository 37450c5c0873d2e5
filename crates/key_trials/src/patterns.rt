// Patterns: what is one, which keys fit it and with which slots, and what ranges and slots bind of one another.
ghost use Rattle.std.specs.Prelude.{◌≡◌, IfOk, IfSome, [], ◌∷◌};
ghost use Rattle.semantics.specs.Patterns.{literal, slot};
ghost use Rattle.key_pattern.specs.Plain.{plain_segments};

use crate::ranges::show_range;
use crate::readers::{next_range, read_key, read_pattern, read_segments};
use key_pattern::{Pattern, Segment, SlotTexts, Slots};
use key_space::{Key, Range};
use out_of_memory::OutOfMemory;
use std::alloc::Global;
use test_rows::{Answer, Fields};

/// Answers `pattern;CALL;..`.
pub fn answer(alloc: Global, mut fields: Fields<'_>, out: &mut Answer) -> Option<()> {
    match fields.next() {
        "make" => answer_make(alloc, fields, out),
        "fit" => answer_fit(alloc, fields, out),
        "agree" => answer_agree(alloc, fields, out),
        "move" => answer_move(alloc, fields, out),
        "fill" => answer_fill(alloc, fields, out),
        "overlap" => answer_overlap(alloc, fields, out),
        "bind" => answer_bind(alloc, fields, out),
        "slots" => answer_slots(alloc, fields, out),
        "only" => answer_only(alloc, fields, out),
        "contain" => answer_contain(alloc, fields, out),
        "prefix" => answer_prefix(alloc, fields, out),
        _ => None,
    }
}

/// Adds the word `slots` and each place that has a text, with the text.
fn show_slots(slots: &Slots<'_>, out: &mut Answer) {
    out.word("slots");
    for place in 0..=255u8 {
        if let Some(text) = slots.at(place) {
            out.number(u64::from(place));
            out.more("=");
            out.more_escaped(text);
        }
    }
}

/// Adds the slots, or the word `none`.
fn show_found(slots: Option<Slots<'_>>, out: &mut Answer) {
    match slots {
        Some(slots) => show_slots(&slots, out),
        None => out.word("none"),
    }
}

/// Adds the key, or the word `none`.
fn show_key(key: Option<Key>, out: &mut Answer) {
    match key {
        Some(key) => out.escaped(key.text()),
        None => out.word("none"),
    }
}

/// Answers `make;PATTERN`: whether the segments are a pattern.
fn answer_make(alloc: Global, mut fields: Fields<'_>, out: &mut Answer) -> Option<()> {
    let segments = read_segments(alloc, fields.next())?;
    out.flag(Pattern::make(segments).is_ok());
    Some(())
}

/// Answers `fit;PATTERN;KEY`: the slots that the key gives.
fn answer_fit(alloc: Global, mut fields: Fields<'_>, out: &mut Answer) -> Option<()> {
    let pattern = read_pattern(alloc, fields.next())?;
    let key = read_key(alloc, fields.next())?;
    show_found(pattern.matches(&key, &Slots::none()), out);
    Some(())
}

/// Answers `agree;PATTERN;KEY;PATTERN;KEY`: how many segments a copy of the second pattern has; a copy of the slots that the
/// second key gives under those of the first; and those of the first, which stay.
fn answer_agree(alloc: Global, mut fields: Fields<'_>, out: &mut Answer) -> Option<()> {
    let given_by = read_pattern(alloc, fields.next())?;
    let given_key = read_key(alloc, fields.next())?;
    let given = given_by.matches(&given_key, &Slots::none())?;
    let pattern = read_pattern(alloc, fields.next())?.copy(alloc).ok()?;
    let key = read_key(alloc, fields.next())?;
    out.number(pattern.segments().len() as u64);
    match pattern.matches(&key, &given) {
        Some(found) => {
            let kept = SlotTexts::of(alloc, &found).ok()?.copy(alloc).ok()?;
            show_slots(&kept.lend(), out);
        }
        None => out.word("none"),
    }
    show_slots(&given.copy(), out);
    Some(())
}

/// Makes the segments of a table and the slot of place 0.
fn table_and_slot(alloc: Global, table: &str) -> Result<Vec<Segment>, OutOfMemory>
    ensures { IfOk result (λ v. plain_segments v.items ≡ literal table.now ∷ slot 0 0 ∷ []) }
{
    let mut segments = Vec::new(alloc);
    segments.push(Segment::Literal(String::from_str(alloc, table)?))?;
    segments.push(Segment::Slot { place: 0, width: 0 })?;
    Ok(segments)
}

/// Makes the pattern of these segments, or nothing where the table's name is none.
fn table_pattern(alloc: Global, table: &str) -> Option<Pattern>
    ensures { IfSome result (λ p. p ≡ literal table.now ∷ slot 0 0 ∷ []) }
{
    let Ok(segments) = table_and_slot(alloc, table) else {
        return None;
    };
    match Pattern::make(segments) {
        Ok(pattern) => Some(pattern),
        Err(_) => None,
    }
}

/// Returns the key with its second segment in another table. None where it does not fit the first table's pattern, or where
/// that has more than 512 bytes.
fn moved(
    alloc: Global,
    from: &str,
    to: &str,
    from_pattern: &Pattern,
    to_pattern: &Pattern,
    key: &Key,
) -> Result<Option<Key>, OutOfMemory>
    requires first { from_pattern.now ≡ literal from.now ∷ slot 0 0 ∷ [] }
    requires second { to_pattern.now ≡ literal to.now ∷ slot 0 0 ∷ [] }
{
    let _from = from;
    let _to = to;
    match from_pattern.matches(key, &Slots::none()) {
        None => Ok(None),
        Some(slots) => to_pattern.fill(alloc, &slots),
    }
}

/// Adds the key with its second segment in another table, or `none` where that has more than 512 bytes.
fn show_moved(alloc: Global, from: &str, to: &str, key: &Key, out: &mut Answer) -> Option<()> {
    let from_pattern = table_pattern(alloc, from)?;
    let to_pattern = table_pattern(alloc, to)?;
    let moved = moved(alloc, from, to, &from_pattern, &to_pattern, key);
    show_key(moved.ok()?, out);
    Some(())
}

/// Answers `move;TABLE;TABLE;KEY`: the key of the first table and one slot, in the second table.
fn answer_move(alloc: Global, mut fields: Fields<'_>, out: &mut Answer) -> Option<()> {
    let from = fields.next();
    let to = fields.next();
    let key = read_key(alloc, fields.next())?;
    show_moved(alloc, from, to, &key, out)
}

/// Adds the key, from its slots.
fn show_filled(alloc: Global, pattern: &Pattern, key: &Key, out: &mut Answer) -> Option<()> {
    match pattern.matches(key, &Slots::none()) {
        None => out.word("unlike"),
        Some(slots) => show_key(pattern.fill(alloc, &slots).ok()?, out),
    }
    Some(())
}

/// Answers `fill;PATTERN;KEY`: the key, from its slots.
fn answer_fill(alloc: Global, mut fields: Fields<'_>, out: &mut Answer) -> Option<()> {
    let pattern = read_pattern(alloc, fields.next())?;
    let key = read_key(alloc, fields.next())?;
    show_filled(alloc, &pattern, &key, out)
}

/// Answers `overlap;PATTERN;PATTERN`: whether the patterns overlap, asked in both orders.
fn answer_overlap(alloc: Global, mut fields: Fields<'_>, out: &mut Answer) -> Option<()> {
    let one = read_pattern(alloc, fields.next())?;
    let other = read_pattern(alloc, fields.next())?;
    out.flag(one.overlaps(&other));
    out.flag(other.overlaps(&one));
    Some(())
}

/// Answers `bind;PATTERN;LOW;HIGH`: the slots that the keys of a range share.
fn answer_bind(alloc: Global, mut fields: Fields<'_>, out: &mut Answer) -> Option<()> {
    let pattern = read_pattern(alloc, fields.next())?;
    let range = next_range(alloc, &mut fields)?;
    show_found(pattern.bind_range(&range), out);
    Some(())
}

/// Answers `slots;PATTERN;LOW;HIGH`: the slots under which the range is filled.
fn answer_slots(alloc: Global, mut fields: Fields<'_>, out: &mut Answer) -> Option<()> {
    let pattern = read_pattern(alloc, fields.next())?;
    let range = next_range(alloc, &mut fields)?;
    show_found(pattern.range_slots(&range), out);
    Some(())
}

/// Answers `only;PATTERN;KEY;PATTERN`: of the slots that the key gives, those of the last pattern.
fn answer_only(alloc: Global, mut fields: Fields<'_>, out: &mut Answer) -> Option<()> {
    let pattern = read_pattern(alloc, fields.next())?;
    let key = read_key(alloc, fields.next())?;
    let slots = pattern.matches(&key, &Slots::none())?;
    let output = read_pattern(alloc, fields.next())?;
    show_slots(&slots.only(&output), out);
    Some(())
}

/// Adds the range, or the word `none`.
fn show_held(range: Option<Range>, out: &mut Answer) {
    match range {
        Some(range) => show_range(&range, out),
        None => out.word("none"),
    }
}

/// Answers `contain;PATTERN;PATTERN;LOW;HIGH`: the range that contains the source keys for a range of the output, the second
/// pattern, under the slots which that range binds.
fn answer_contain(alloc: Global, mut fields: Fields<'_>, out: &mut Answer) -> Option<()> {
    let source = read_pattern(alloc, fields.next())?;
    let output = read_pattern(alloc, fields.next())?;
    let range = next_range(alloc, &mut fields)?;
    let slots = output.bind_range(&range)?;
    show_held(source.containing(alloc, &slots, &output, &range).ok()?, out);
    Some(())
}

/// Answers `prefix;PATTERN;PATTERN;KEY`: the range of the first pattern's keys under the slots that the key gives the second.
fn answer_prefix(alloc: Global, mut fields: Fields<'_>, out: &mut Answer) -> Option<()> {
    let pattern = read_pattern(alloc, fields.next())?;
    let given_by = read_pattern(alloc, fields.next())?;
    let key = read_key(alloc, fields.next())?;
    let slots = given_by.matches(&key, &Slots::none())?;
    show_held(pattern.prefix_range(alloc, &slots).ok()?, out);
    Some(())
}
