// How a segment takes and gives a text, and how a key's text is cut into segments and joined of them.
ghost use Rattle.std.specs.Prelude.{◌≡◌, IfOk, IsSome, true, false, if◌then◌else◌, Some, None};
ghost use Rattle.std.specs.Option.{option_copied};
ghost use Rattle.std.specs.String.{string_bytes};
ghost use Rattle.semantics.specs.Texts.{has_bar};
ghost use Rattle.semantics.specs.Patterns.{is_segment, is_pattern, taken, bind, takes_width, segment_text};
ghost use Rattle.key_ranges.specs.Containing.{is_text, has_text};
ghost use Rattle.key_pattern.specs.Plain.{plain_segment, plain_segments};
ghost use Rattle.key_pattern.specs.Places.{AreSlots, CanFill};
ghost use Rattle.key_pattern.specs.Pieces.{CutsFirst, AddsSegment, Joins};

use crate::segment::Segment;
use crate::slots::Slots;
use out_of_memory::OutOfMemory;
use std::alloc::Global;

/// The first segment of a text, and what is left after its `|`, if there is one. Linear in the segment.
pub fn first_segment(text: &str) -> (&str, Option<&str>)
    ensures { CutsFirst text.now result.0.now result.1 }
{
    match text.split_once('|') {
        None => (text, None),
        Some((first, rest)) => (first, Some(rest)),
    }
}

/// Whether a slot of the width takes the text: it is not empty, and has the width where that is not 0.
fn takes_width(width: u8, text: &str) -> bool
    ensures { result ≡ takes_width width text.now }
{
    1 <= text.len() && (width == 0 || text.len() == usize::from(width))
}

/// Whether the text there, if there is one, is this one.
fn is_text(there: Option<&str>, text: &str) -> bool
    ensures { result ≡ is_text (option_copied there.entry) text.now }
{
    match there {
        None => false,
        Some(there) => there == text,
    }
}

/// Whether the segment has this text under the slots: a literal its own, and a slot that of its place, where it takes it.
pub fn has_text(segment: &Segment, text: &str, slots: &Slots<'_>) -> bool
    ensures { result ≡ has_text (plain_segment segment.now) text.now slots.now }
{
    match segment {
        Segment::Literal(literal) => literal.as_str() == text,
        Segment::Slot { place, width } => {
            takes_width(*width, text) && is_text(slots.at(*place), text)
        }
    }
}

/// Has the segment take the text, and says whether it does: then its slot has the text from now on. Where it does not, the
/// slots are unchanged.
pub fn take<'a>(segment: &Segment, text: &'a str, slots: &mut Slots<'a>) -> bool
    requires segment { is_segment (plain_segment segment.now) ≡ true }
    requires text { has_bar text.now ≡ false }
    ensures { (if result then Some slots.new else None) ≡ taken (plain_segment segment.now) text.now slots.old }
{
    match segment {
        Segment::Literal(literal) => literal.as_str() == text,
        Segment::Slot { place, width } => {
            if !takes_width(*width, text) {
                return false;
            }
            match slots.at(*place) {
                None => {
                    slots.set(*place, text);
                    true
                }
                Some(there) => there == text,
            }
        }
    }
}

/// The given slots with those added that the segments of the text set. None exactly where the pattern's segments do not take
/// them, one each, or one disagrees with a given slot. Linear in the text, and nothing is copied.
pub fn bind_text<'a>(segments: &[Segment], text: &'a str, given: &Slots<'a>) -> Option<Slots<'a>>
    requires { is_pattern (plain_segments segments.now) ≡ true }
    ensures binds { result ≡ bind (plain_segments segments.now) text.now given.now }
    ensures slots { AreSlots given.now }
{
    let mut found = given.copy();
    let mut left = Some(text);
    for segment in segments {
        let (text, rest) = first_segment(left?);
        if !take(segment, text, &mut found) {
            return None;
        }
        left = rest;
    }
    match left {
        None => Some(found),
        Some(_) => None,
    }
}

/// Appends the text that the segment has under the slots. Where no memory is found, any part of it may be appended.
fn push_segment(text: &mut String, segment: &Segment, slots: &Slots<'_>) -> Result<(), OutOfMemory>
    requires { IsSome (segment_text (plain_segment segment.now) slots.now) }
    ensures { IfOk result (λ _. AddsSegment (plain_segment segment.now) slots.now (string_bytes text.old) (string_bytes text.new)) }
{
    match segment {
        Segment::Literal(literal) => text.push_str(literal.as_str())?,
        Segment::Slot { place, .. } => text.push_str(slots.at(*place).unwrap())?,
    }
    Ok(())
}

/// The texts of the segments under the slots, with `|` between each two. Linear in the text.
pub fn join_texts(
    alloc: Global,
    segments: &[Segment],
    slots: &Slots<'_>,
) -> Result<String, OutOfMemory>
    requires { CanFill (plain_segments segments.now) slots.now }
    ensures { IfOk result (λ text. Joins (plain_segments segments.now) slots.now (string_bytes text)) }
{
    let mut text = String::new(alloc);
    let mut separator = "";
    for segment in segments {
        text.push_str(separator)?;
        push_segment(&mut text, segment, slots)?;
        separator = "|";
    }
    Ok(text)
}
