// Patterns.
ghost use Rattle.std.specs.Prelude.{◌≡◌, IfOk, IfErr, true, false};
ghost use Rattle.std.specs.List.{list_all};
ghost use Rattle.semantics.specs.Patterns.{is_segment, is_pattern, begins_with_table, bind, fits, fill, overlaps};
ghost use Rattle.key_pattern.specs.Plain.{plain_segments};
ghost use Rattle.key_pattern.specs.Places.{AreSlots, CanFill};

use crate::matching::{bind_text, join_texts};
use crate::segment::Segment;
use crate::slots::Slots;
use key_space::table::MAX_TABLE_BYTES;
use key_space::{Key, KeyFault};
use out_of_memory::OutOfMemory;
use std::alloc::Global;
use std::marker::Model;

/// The most segments of a pattern.
pub const MAX_SEGMENTS: usize = 16;

/// A pattern of keys: 2 to 16 segments, the first of which is the name of a table.
#[derive(Debug, Drop)]
pub struct Pattern {
    segments: Vec<Segment>,
}

impl Model for Pattern {
    ghost use Rattle.std.specs.Prelude.{◌≡◌, true};
    ghost use Rattle.semantics.specs.Patterns as plain;
    ghost use Rattle.key_pattern.specs.Plain.{plain_segments};

    ghost Value = { plain.Pattern };

    ghost view = { λ p. plain_segments p.segments.items };

    ghost invariant = { λ p. plain.is_pattern (plain_segments p.segments.items) ≡ true };
}

/// Whether the first segment is a literal of at most 64 bytes.
fn begins_with_table(segments: &[Segment]) -> bool
    ensures { result ≡ begins_with_table (plain_segments segments.now) }
{
    match segments.first() {
        Some(Segment::Literal(text)) => text.len() <= MAX_TABLE_BYTES,
        _ => false,
    }
}

/// Whether the segments are a pattern.
fn is_pattern(segments: &[Segment]) -> bool
    ensures { result ≡ is_pattern (plain_segments segments.now) }
{
    2 <= segments.len()
        && segments.len() <= MAX_SEGMENTS
        && begins_with_table(segments)
        && are_segments(segments)
}

/// Whether each of the segments may stand in a pattern.
fn are_segments(segments: &[Segment]) -> bool
    ensures { result ≡ list_all is_segment (plain_segments segments.now) }
{
    segments.iter().all(|segment| segment.is_segment())
}

impl Pattern {
    /// The pattern of these segments. They are the error exactly where they are no pattern: a pattern has 2 to 16
    /// segments, the first is a literal of at most 64 bytes, and each may stand in a pattern. Linear in their texts.
    pub fn make(segments: Vec<Segment>) -> Result<Pattern, Vec<Segment>>
        ensures ok { IfOk result (λ pattern. (pattern ≡ plain_segments segments.items) × (is_pattern pattern ≡ true)) }
        ensures err { IfErr result (λ back. (back ≡ segments) × (is_pattern (plain_segments segments.items) ≡ false)) }
    {
        if is_pattern(segments.as_slice()) {
            Ok(Pattern { segments })
        } else {
            Err(segments)
        }
    }

    /// The segments, in order.
    pub fn segments(&self) -> &[Segment]
        ensures segments { plain_segments result.now ≡ self.now }
        ensures is_pattern { is_pattern self.now ≡ true }
    {
        self.segments.as_slice()
    }

    /// An equal pattern, whose texts are copied. Linear in the texts.
    pub fn copy(&self, alloc: Global) -> Result<Pattern, OutOfMemory>
        ensures { IfOk result (λ copy. copy ≡ self.now) }
    {
        let mut segments = Vec::with_capacity(alloc, self.segments.len())?;
        for segment in self.segments.iter() {
            segments.push(segment.copy(alloc)?)?;
        }
        Ok(Pattern { segments })
    }

    /// The given slots with those of the key added. None exactly where the key does not fit the pattern or disagrees
    /// with a given slot. Linear in the key, and nothing is copied.
    pub fn matches<'a>(&self, key: &'a Key, given: &Slots<'a>) -> Option<Slots<'a>>
        ensures binds { result ≡ bind self.now key.now given.now }
        ensures is_pattern { is_pattern self.now ≡ true }
        ensures slots { AreSlots given.now }
    {
        bind_text(self.segments(), key.text(), given)
    }

    /// As `matches`, for a text that need not be a key. Linear in it, and nothing is copied.
    pub fn matches_text<'a>(&self, text: &'a str, given: &Slots<'a>) -> Option<Slots<'a>>
        ensures binds { result ≡ bind self.now text.now given.now }
        ensures is_pattern { is_pattern self.now ≡ true }
        ensures slots { AreSlots given.now }
    {
        bind_text(self.segments(), text, given)
    }

    /// Whether the key fits the pattern under some slots. Linear in the key.
    pub fn fits(&self, key: &Key) -> bool
        ensures { result ≡ fits self.now key.now }
    {
        self.matches(key, &Slots::none()).is_some()
    }

    /// The key that fits the pattern under the slots, which give each slot of the pattern a text of its width. None
    /// exactly where it would have more than 512 bytes. Linear in the key.
    pub fn fill(&self, alloc: Global, slots: &Slots<'_>) -> Result<Option<Key>, OutOfMemory>
        requires { CanFill self.now slots.now }
        ensures { IfOk result (λ key. key ≡ fill self.now slots.now) }
    {
        let text = join_texts(alloc, self.segments.as_slice(), slots)?;
        match Key::read(alloc, text.as_str()) {
            Ok(key) => Ok(Some(key)),
            Err(KeyFault::BadKey) => Ok(None),
            Err(KeyFault::OutOfMemory(memory)) => Err(memory),
        }
    }

    /// Whether the patterns overlap: they have as many segments, and those of each place meet. A key that fits both
    /// implies it. Linear in the patterns.
    pub fn overlaps(&self, other: &Pattern) -> bool
        ensures { result ≡ overlaps self.now other.now }
    {
        meet_all(self.segments.as_slice(), other.segments.as_slice())
    }
}

/// Whether there are as many segments, and each meets the other at its place.
fn meet_all(segments: &[Segment], others: &[Segment]) -> bool
    ensures { result ≡ overlaps (plain_segments segments.now) (plain_segments others.now) }
{
    if segments.len() != others.len() {
        return false;
    }
    for (place, segment) in segments.iter().enumerate() {
        if !segment.meets(&others[place]) {
            return false;
        }
    }
    true
}
