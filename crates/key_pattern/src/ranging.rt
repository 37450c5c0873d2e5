// Slots that the keys of a range share, and the range that holds every key which fits a pattern under slots.
ghost use Rattle.std.specs.Prelude.{◌≡◌, ◌≤◌, IfOk, length, is_some, option_map, true, [], ◌∷◌, ◌++◌};
ghost use Rattle.std.specs.Option.{IsSomeAnd};
ghost use Rattle.std.specs.String.{string_bytes};
ghost use Rattle.semantics.specs.Texts.{Text, bar, names_table, within};
ghost use Rattle.semantics.specs.Patterns as plain;
ghost use Rattle.semantics.specs.Patterns.{bind, is_pattern, short};
ghost use Rattle.key_ranges.specs.Ranges.{just, prefix_range};
ghost use Rattle.key_ranges.specs.Containing.{bind_range, range_slots, pattern_range, containing};
ghost use Rattle.key_ranges.specs.ContainingLaws.{HoldsFitting, HoldsTogether};
ghost use Rattle.key_pattern.specs.Plain.{plain_segment, plain_segments};
ghost use Rattle.key_pattern.specs.Shared.{AscendBehind, Shares};
ghost use Rattle.key_pattern.specs.Fixed.{fixed_text, AddsFixed, JoinsFixed};

use crate::matching::{bind_text, take};
use crate::narrowing::{narrow, narrowed_range};
use crate::pattern::Pattern;
use crate::segment::Segment;
use crate::slots::Slots;
use key_space::key::MAX_KEY_BYTES;
use key_space::{Key, KeyFault, Range};
use out_of_memory::OutOfMemory;
use std::alloc::Global;

/// A segment that two bounds share, and what is left of each behind it; of the last bound nothing is left where it ends with
/// `}` behind the segment.
#[derive(Clone, Copy)]
pub struct SharedSegment<'a> {
    pub text: &'a str,
    pub low: &'a str,
    pub high: Option<&'a str>,
}

/// The first segment of two bounds, where both have `|` behind it, or the last one `}` and ends. None too where nothing is
/// left of the last bound. Linear in the segment.
pub fn shared_segment<'a>(low: &'a str, high: Option<&'a str>) -> Option<SharedSegment<'a>>
    requires ascend { AscendBehind low.now high }
    ensures { Shares low.now high.entry result }
{
    let high = high?;
    let (text, low) = low.split_once('|')?;
    let rest = high.strip_prefix(text)?;
    match rest.strip_prefix('|') {
        Some(high) => Some(SharedSegment {
            text,
            low,
            high: Some(high),
        }),
        None => if rest == "}" {
            Some(SharedSegment {
                text,
                low,
                high: None,
            })
        } else {
            None
        },
    }
}

/// The joined texts of the longest beginning of some segments in which each has a text, and whether that is all of them.
#[derive(Drop)]
struct FixedText {
    text: String,
    is_whole: bool,
}

/// Appends the separator and the text that the segment has under the slots, and says whether it has one: a literal has
/// its own, and a slot that of its place, if there is one. Where no memory is found, any part of both may be appended.
fn push_fixed(
    text: &mut String,
    separator: &str,
    segment: &Segment,
    slots: &Slots<'_>,
) -> Result<bool, OutOfMemory>
    ensures { IfOk result (λ had. AddsFixed (fixed_text (plain_segment segment.now) slots.now) separator.now (string_bytes text.old) (string_bytes text.new) had) }
{
    match segment {
        Segment::Literal(literal) => {
            text.push_str(separator)?;
            text.push_str(literal.as_str())?;
            Ok(true)
        }
        Segment::Slot { place, .. } => match slots.at(*place) {
            None => Ok(false),
            Some(part) => {
                text.push_str(separator)?;
                text.push_str(part)?;
                Ok(true)
            }
        },
    }
}

/// The texts of the longest beginning in which each segment has one, with `|` between each two. Linear in the text.
fn join_fixed(
    alloc: Global,
    segments: &[Segment],
    slots: &Slots<'_>,
) -> Result<FixedText, OutOfMemory>
    ensures { IfOk result (λ fixed. JoinsFixed (plain_segments segments.now) slots.now fixed) }
{
    let mut text = String::new(alloc);
    let mut separator = "";
    for segment in segments {
        if !push_fixed(&mut text, separator, segment, slots)? {
            return Ok(FixedText {
                text,
                is_whole: false,
            });
        }
        separator = "|";
    }
    Ok(FixedText {
        text,
        is_whole: true,
    })
}

/// The range of the key of this text alone; none where it has more than 512 bytes. Linear in the text.
fn key_range(alloc: Global, text: &str) -> Result<Option<Range>, OutOfMemory>
    requires { names_table text.now ≡ true }
    ensures { IfOk result (λ range. range ≡ option_map just (short text.now)) }
{
    match Key::read(alloc, text) {
        Ok(key) => Ok(Some(Range::just(alloc, &key)?)),
        Err(KeyFault::BadKey) => Ok(None),
        Err(KeyFault::OutOfMemory(memory)) => Err(memory),
    }
}

/// The range of all texts that begin with this one and `|`; none where that has more than 512 bytes. Linear in the
/// text.
fn beginning_range(alloc: Global, mut text: String) -> Result<Option<Range>, OutOfMemory>
    requires { names_table (string_bytes text ++ bar ∷ []) ≡ true }
    ensures { IfOk result (λ range. range ≡ option_map prefix_range (short (string_bytes text ++ bar ∷ []))) }
{
    text.push('|')?;
    if text.len() > MAX_KEY_BYTES {
        return Ok(None);
    }
    Ok(Some(Range::prefix_range(alloc, text.as_str())?))
}

impl Pattern {
    /// The slots that all keys of the range share which fit the pattern: those of the segments with which both bounds
    /// begin. None only where no key of the range fits. Linear in the bounds, and nothing is copied.
    pub fn bind_range<'a>(&self, range: &'a Range) -> Option<Slots<'a>>
        ensures binds { result ≡ bind_range self.now range.now }
        ensures is_pattern { is_pattern self.now ≡ true }
    {
        let mut low = range.lo();
        let mut high = Some(range.hi());
        let mut found = Slots::none();
        for segment in self.segments() {
            match shared_segment(low, high) {
                None => return Some(found),
                Some(shared) => {
                    if !take(segment, shared.text, &mut found) {
                        return None;
                    }
                    low = shared.low;
                    high = shared.high;
                }
            }
        }
        None
    }

    /// The slots under which a range of the pattern's keys is filled: those that its key sets where it holds one key alone,
    /// and otherwise those that all its keys share which fit the pattern. None only where no key of the range fits. Linear
    /// in the bounds, and nothing is copied.
    pub fn range_slots<'a>(&self, range: &'a Range) -> Option<Slots<'a>>
        ensures exact { result ≡ range_slots self.now range.now }
        ensures is_pattern { is_pattern self.now ≡ true }
    {
        if range.is_single() {
            bind_text(self.segments(), range.lo(), &Slots::none())
        } else {
            self.bind_range(range)
        }
    }

    /// The range that holds every key which fits the pattern under the slots, or under more: that of the one key where
    /// each segment is a literal or a set slot, and otherwise that of all keys that begin with the texts of the longest
    /// beginning of such segments. None only where each such key has more than 512 bytes. Linear in the texts.
    pub fn prefix_range(
        &self,
        alloc: Global,
        slots: &Slots<'_>,
    ) -> Result<Option<Range>, OutOfMemory>
        ensures exact { IfOk result (λ found. found ≡ pattern_range self.now slots.now) }
        ensures more { IfOk result (λ found. (more : plain.Slots) (key : Text) → HoldsFitting self.now slots.now found more key) }
        ensures holds { IfOk result (λ found. (key : Text) → length key ≤ 512 → is_some (bind self.now key slots.now) ≡ true → IsSomeAnd found (λ r. within r key ≡ true)) }
    {
        let fixed = join_fixed(alloc, self.segments(), &slots.copy())?;
        if fixed.is_whole {
            key_range(alloc, fixed.text.as_str())
        } else {
            beginning_range(alloc, fixed.text)
        }
    }

    /// The range that holds every key which fits the pattern together with an output key of the range, under the slots or
    /// under more. None only where there is no such key of at most 512 bytes. Linear in the bounds.
    ///
    /// It is the pattern's prefix range, narrowed where the pattern's first segment that is open under the slots is a slot
    /// with a width which also follows, in the output, what the bounds of its range share. Keys are in the order of the
    /// texts of such a slot, so the bounds of the output's range bound them.
    pub fn containing(
        &self,
        alloc: Global,
        slots: &Slots<'_>,
        out: &Pattern,
        range: &Range,
    ) -> Result<Option<Range>, OutOfMemory>
        ensures exact { IfOk result (λ found. found ≡ containing self.now slots.now out.now range.now) }
        ensures holds { IfOk result (λ found. (more : plain.Slots) (key output : Text) → HoldsTogether self.now slots.now out.now range.now found more key output) }
    {
        match narrow(self.segments(), slots, out.segments(), range) {
            None => self.prefix_range(alloc, slots),
            Some(ends) => {
                let fixed = join_fixed(alloc, self.segments(), slots)?;
                narrowed_range(alloc, fixed.text, ends)
            }
        }
    }
}
