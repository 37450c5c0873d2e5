// The part of a range in which all keys are that fit an output.
//
// A kept range often ends right behind the keys with one text of a slot, as at `t|ann}`, and the next begins right before those
// with another, as at `t|bob|`. No key that fits the output lies in the gap between before the next text of as many bytes, `t|ano`,
// nor from `t|bob` on. With these bounds, which end with a whole text of the slot, what is read of the sources has nothing of `ann`
// nor of `bob`. A first bound keeps its bytes `|`, and a last one is lowered: so the bounds begin alike with as many segments as
// before.
ghost use Rattle.std.specs.Prelude.{◌≡◌, ◌⊎◌, ◌-◌, ◌<◌, ◌∷◌, ◌++◌, [], length, slice_get, IfOk, IfSome};
ghost use Rattle.std.specs.String.{string_bytes};
ghost use Rattle.key_pattern.specs.Plain.{plain_segments};
ghost use Rattle.cell_slots.specs.Gaps.{GiveSame, HoldSameFitting, is_above, is_whole, SplitAlike};

use crate::slots::open_slot;
use join_types::Join;
use key_pattern::{Pattern, Segment};
use key_space::{Range, RangeFault};
use out_of_memory::OutOfMemory;
use std::alloc::Global;

/// A text: what it begins with, and its last byte.
#[derive(Clone, Copy)]
struct NextText<'a> {
    front: &'a str,
    last: u8,
}

/// Gives the first byte of a text, if it has one. Constant.
fn first_byte(text: &str) -> Option<u8>
    ensures { result ≡ slice_get text.now 0 }
{
    text.as_bytes().first().copied()
}

/// Gives the last byte of a text, if it has one. Constant.
fn last_byte(text: &str) -> Option<u8>
    ensures { result ≡ slice_get text.now (length text.now - 1) }
{
    text.as_bytes().last().copied()
}

/// Says whether a text that begins with this byte is above all that follows a whole text of a slot in a key. Constant.
fn is_above(is_last: bool, first: u8) -> bool
    ensures { result ≡ is_above is_last first }
{
    is_last || b'|' < first
}

/// Gives the text, followed by an ASCII character. Linear in it.
fn followed(alloc: Global, front: &str, end: char) -> Result<String, OutOfMemory>
    requires { end < 128 }
    ensures { IfOk result (λ text. string_bytes text ≡ front.now ++ end ∷ []) }
{
    let mut text = String::with_capacity(alloc, front.len() + 1)?;
    text.push_str(front)?;
    text.push(end)?;
    Ok(text)
}

/// Says whether a rest is a whole text of a slot of this width, which another segment follows. Constant.
fn is_whole(is_last: bool, rest: &str, width: usize) -> bool
    ensures { result ≡ is_whole is_last rest.now width }
{
    !is_last && rest.len() == width
}

/// Gives what stands before the `|` with which a last bound ends, where it ends with a whole text of a slot that another segment of
/// the output follows. Linear in the bound.
fn before_bar<'a>(output: &[Segment], bound: &'a str) -> Option<&'a str>
    ensures { IfSome result (λ text. SplitAlike (plain_segments output.now) bound.now text.now) }
{
    let text = bound.strip_suffix('|')?;
    let slot = open_slot(output, text)?;
    if !is_whole(slot.is_last, slot.rest, slot.width) {
        return None;
    }
    Some(text)
}

/// Gives a last bound as it is lowered, where it is. Linear in it.
fn lowered<'a>(output: &[Segment], bound: &'a str) -> &'a str
    ensures { SplitAlike (plain_segments output.now) bound.now result.now }
{
    match before_bar(output, bound) {
        None => bound,
        Some(text) => text,
    }
}

/// Gives what a first bound is raised to, where it ends with a whole text of a slot and is above each key that has this text there:
/// that text with its last byte raised by one. None where it is not above them, and where the text does not end with an ASCII
/// character before the last.
fn next_text<'a>(output: &[Segment], bound: &'a str) -> Option<NextText<'a>>
    ensures { IfSome result (λ next. (next.last < 128) × SplitAlike (plain_segments output.now) bound.now (next.front.now ++ next.last ∷ [])) }
{
    let slot = open_slot(output, bound)?;
    let (text, behind) = slot.rest.split_at_checked(slot.width)?;
    let last = last_byte(text)?;
    let after = first_byte(behind)?;
    if last >= 127 {
        return None;
    }
    if !is_above(slot.is_last, after) {
        return None;
    }
    let cut = bound.len().saturating_sub(behind.len() + 1);
    let (front, _) = bound.split_at_checked(cut)?;
    Some(NextText {
        front,
        last: last + 1,
    })
}

/// Gives a copy of a text. Linear in it.
fn copied(alloc: Global, text: &str) -> Result<String, OutOfMemory>
    ensures { IfOk result (λ copy. string_bytes copy ≡ text.now) }
{
    Ok(String::from_str(alloc, text)?)
}

/// Gives a first bound as it is raised, where it is. Linear in it.
fn raised(alloc: Global, output: &[Segment], bound: &str) -> Result<String, OutOfMemory>
    ensures { IfOk result (λ text. SplitAlike (plain_segments output.now) bound.now (string_bytes text)) }
{
    match next_text(output, bound) {
        None => copied(alloc, bound),
        Some(next) => followed(alloc, next.front, char::from(next.last)),
    }
}

/// Gives the range between two bounds, and another one where they bound none. Linear in the bounds.
fn range_or(alloc: Global, low: &str, high: &str, other: &Range) -> Result<Range, OutOfMemory>
    ensures { IfOk result (λ range. (range ≡ record { low = low.now; high = high.now }) ⊎ (range ≡ other.now)) }
{
    match Range::read(alloc, low, high) {
        Ok(range) => Ok(range),
        Err(RangeFault::BadRange) => other.copy(),
        Err(RangeFault::OutOfMemory(memory)) => Err(memory),
    }
}

/// Gives a range that holds the same keys that fit the output, with bounds that end with a whole text of a slot where they lie next
/// to one. Linear in the bounds.
fn fitting_part(alloc: Global, output: &Pattern, range: &Range) -> Result<Range, OutOfMemory>
    ensures { IfOk result (HoldSameFitting output.now range.now) }
{
    let segments = output.segments();
    let low = raised(alloc, segments, range.lo())?;
    let high = lowered(segments, range.hi());
    range_or(alloc, low.as_str(), high, range)
}

/// Gives a range in which the join gives what it gives in this one. Where the first bound lies right behind the keys with one text
/// of a slot of fixed width, or the last one right before them, nothing of that text is in what is read of the sources for the
/// range that is given. Linear in the bounds.
pub fn output_part(alloc: Global, join: &Join, range: &Range) -> Result<Range, OutOfMemory>
    ensures { IfOk result (GiveSame join.now range.now) }
{
    fitting_part(alloc, &join.output, range)
}
