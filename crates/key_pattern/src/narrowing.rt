// Narrowing the range of a source by a slot of fixed width.
//
// Keys that fit a source together with an output key of a range have the text of a slot in common with it. Where this
// slot comes first behind what is fixed in both, and all its texts have one width, keys are in the order of its texts, and
// the bounds of the output's range bound the source's keys too.
ghost use Rattle.std.specs.Prelude.{◌≡◌, ◌+◌, ◌<◌, ◌∷◌, ◌++◌, [], IfOk, length, option_map, option_and_then, if◌then◌else◌, Some, None};
ghost use Rattle.std.specs.Option.{option_copied};
ghost use Rattle.std.specs.String.{string_bytes};
ghost use Rattle.semantics.specs.Texts.{bar, brace};
ghost use Rattle.semantics.specs.Patterns.{short};
ghost use Rattle.key_ranges.specs.Containing.{first_open, same_width, whole_beginning, narrowed_end, low_or};
ghost use Rattle.key_pattern.specs.Plain.{plain_segment, plain_segments};
ghost use Rattle.key_pattern.specs.Narrowing.{plain_slot, open_segment, end_text, GivesRests, Narrows, bound_or, bounds_with, EndsFit};

use crate::matching::has_text;
use crate::ranging::shared_segment;
use crate::segment::Segment;
use crate::slots::Slots;
use key_space::Range;
use key_space::key::MAX_KEY_BYTES;
use key_space::range::MAX_BOUND_BYTES;
use out_of_memory::OutOfMemory;
use std::alloc::Global;

/// A slot without a text.
#[derive(Clone, Copy)]
struct OpenSlot {
    place: u8,
    width: u8,
}

/// What follows in a range's bounds the beginning that they share: in the last bound only where that begins with it too.
#[derive(Clone, Copy)]
struct Rests<'a> {
    low: &'a str,
    high: Option<&'a str>,
}

/// What a last bound ends with: a text, and `}` behind it where it is closed.
#[derive(Clone, Copy)]
struct HighEnd<'a> {
    text: &'a str,
    is_closed: bool,
}

/// What the bounds of a narrowed range go on with; the last one only where it is narrowed.
#[derive(Clone, Copy)]
pub struct Narrowing<'a> {
    low: &'a str,
    high: Option<HighEnd<'a>>,
}

/// The segment, where it is a slot without a text.
fn open_slot(segment: &Segment, slots: &Slots<'_>) -> Option<OpenSlot>
    ensures { option_map plain_slot result ≡ open_segment (plain_segment segment.now) slots.now }
{
    match segment {
        Segment::Literal(_) => None,
        Segment::Slot { place, width } => match slots.at(*place) {
            None => Some(OpenSlot {
                place: *place,
                width: *width,
            }),
            Some(_) => None,
        },
    }
}

/// The first segment that is neither a literal nor a slot with a text.
fn first_open(segments: &[Segment], slots: &Slots<'_>) -> Option<OpenSlot>
    ensures { option_map plain_slot result ≡ first_open (plain_segments segments.now) slots.now }
{
    for segment in segments {
        match open_slot(segment, slots) {
            None => {}
            Some(slot) => return Some(slot),
        }
    }
    None
}

/// Whether a segment is this slot, which has a width.
fn is_same_slot(slot: OpenSlot, segment: &Segment) -> bool
    ensures { same_width (plain_slot slot) (plain_segment segment.now) ≡ (if result then Some slot.width else None) }
{
    match segment {
        Segment::Literal(_) => false,
        Segment::Slot { place, width } => {
            slot.place == *place && slot.width == *width && 1 <= slot.width
        }
    }
}

/// The rests of a range's bounds, where the slot is what follows in an output the segments that the bounds share, and these
/// have their texts under the slots. Linear in the bounds.
fn rests_at<'a>(
    output: &[Segment],
    slot: OpenSlot,
    slots: &Slots<'_>,
    range: &'a Range,
) -> Option<Rests<'a>>
    ensures { GivesRests (plain_segments output.now) slot slots.now range.now result }
{
    let mut low = range.lo();
    let mut high = Some(range.hi());
    for segment in output {
        match shared_segment(low, high) {
            None => {
                return if is_same_slot(slot, segment) {
                    Some(Rests { low, high })
                } else {
                    None
                };
            }
            Some(shared) => {
                if !has_text(segment, shared.text, slots) {
                    return None;
                }
                low = shared.low;
                high = shared.high;
            }
        }
    }
    None
}

/// The longest beginning of a text that has at most `width` bytes and ends at a character.
fn whole_beginning(rest: &str, width: usize) -> &str
    ensures { result.now ≡ whole_beginning width rest.now }
{
    let end = rest.floor_char_boundary(width);
    let (front, _) = rest.split_at(end);
    front
}

/// What a narrowed last bound ends with: the rest where it has at most `width` bytes, and otherwise its first bytes with `}`
/// behind them, where they end at a character.
fn high_end(rest: Option<&str>, width: usize) -> Option<HighEnd<'_>>
    ensures { option_map end_text result ≡ option_and_then (narrowed_end width) (option_copied rest.entry) }
{
    let rest = rest?;
    if rest.len() <= width {
        return Some(HighEnd {
            text: rest,
            is_closed: false,
        });
    }
    let (text, _) = rest.split_at_checked(width)?;
    Some(HighEnd {
        text,
        is_closed: true,
    })
}

/// What the bounds of a source's range go on with where the range of an output narrows them: the source's first segment
/// that is open under the slots is a slot with a width, and it follows in the output what the bounds of its range share
/// under these slots. Linear in the bounds, and nothing is copied.
pub fn narrow<'a>(
    source: &[Segment],
    slots: &Slots<'_>,
    output: &[Segment],
    range: &'a Range,
) -> Option<Narrowing<'a>>
    ensures { Narrows (plain_segments source.now) slots.now (plain_segments output.now) range.now result }
{
    let slot = first_open(source, slots)?;
    let rests = rests_at(output, slot, slots, range)?;
    let width = usize::from(slot.width);
    let low = whole_beginning(rests.low, width);
    let high = high_end(rests.high, width);
    Some(Narrowing { low, high })
}

/// A first bound: the text, `|` and what it goes on with, where that has at most 513 bytes, and otherwise without it.
fn first_bound(alloc: Global, front: &str, low: &str) -> Result<String, OutOfMemory>
    requires { length front.now < 512 }
    ensures { IfOk result (λ text. string_bytes text ≡ low_or ((front.now ++ bar ∷ []) ++ low.now) (front.now ++ bar ∷ [])) }
{
    let mut text = String::with_capacity(alloc, front.len() + 1 + low.len())?;
    text.push_str(front)?;
    text.push('|')?;
    if text.len() + low.len() <= MAX_BOUND_BYTES {
        text.push_str(low)?;
    }
    Ok(text)
}

/// The bytes of an end.
fn end_len(end: HighEnd<'_>) -> usize
    ensures { result ≡ length (end_text end.entry) }
{
    if end.is_closed {
        end.text.len() + 1
    } else {
        end.text.len()
    }
}

/// Appends an end. Where no memory is found, any part of it may be appended.
fn push_end(text: &mut String, end: HighEnd<'_>) -> Result<(), OutOfMemory>
    ensures { IfOk result (λ _. string_bytes text.new ≡ string_bytes text.old ++ end_text end.entry) }
{
    text.push_str(end.text)?;
    if end.is_closed {
        text.push('}')?;
    }
    Ok(())
}

/// A last bound: the text, `|` and its end, where there is one and that has at most 513 bytes, and otherwise the text and
/// `}`.
fn last_bound(mut front: String, high: Option<HighEnd<'_>>) -> Result<String, OutOfMemory>
    requires { length (string_bytes front) < 512 }
    ensures { IfOk result (λ text. string_bytes text ≡ bound_or (string_bytes front ++ brace ∷ []) (option_map (λ end. (string_bytes front ++ bar ∷ []) ++ end) (option_map end_text high.entry))) }
{
    match high {
        Some(end) if front.len() + 1 + end_len(end) <= MAX_BOUND_BYTES => {
            front.push('|')?;
            push_end(&mut front, end)?;
        }
        _ => front.push('}')?,
    }
    Ok(front)
}

/// The range of the bounds that go on from a text and `|`; none where that has more than 512 bytes. Linear in the bounds.
pub fn narrowed_range(
    alloc: Global,
    front: String,
    ends: Narrowing<'_>,
) -> Result<Option<Range>, OutOfMemory>
    requires { EndsFit (string_bytes front) ends }
    ensures { IfOk result (λ found. found ≡ option_map (λ _. bounds_with (string_bytes front) ends.entry) (short (string_bytes front ++ bar ∷ []))) }
{
    if front.len() >= MAX_KEY_BYTES {
        return Ok(None);
    }
    let low = first_bound(alloc, front.as_str(), ends.low)?;
    let high = last_bound(front, ends.high)?;
    Ok(Some(Range::between(low, high)?))
}
