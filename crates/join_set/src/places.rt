// The places of slots.
ghost use Rattle.std.specs.Prelude.{◌≡◌, ◌==◌};
ghost use Rattle.std.specs.List.{list_all};
ghost use Rattle.semantics.specs.Joins.{occurs, occur_in, copies_into, slots_of, source_slots_of};
ghost use Rattle.key_pattern.specs.Plain.{plain_segment};
ghost use Rattle.join_set.specs.SlotTests.{is_slot_with, is_no_slot_without};

use join_types::{JoinSource, Op};
use key_pattern::{Pattern, Segment};

/// Whether the segment is a slot of the place.
fn is_slot_at(segment: &Segment, place: u8) -> bool
    ensures { result ≡ is_slot_with (λ slot. slot.0 == place) (plain_segment segment.now) }
{
    match segment {
        Segment::Literal(_) => false,
        Segment::Slot { place: other, .. } => *other == place,
    }
}

/// Whether a slot of the pattern has the place.
fn has_place(pattern: &Pattern, place: u8) -> bool
    ensures { result ≡ occurs place (slots_of pattern.now) }
{
    pattern
        .segments()
        .iter()
        .any(|segment| is_slot_at(segment, place))
}

/// Whether a slot of some source has the place.
fn sources_have_place(sources: &[JoinSource], place: u8) -> bool
    ensures { result ≡ occurs place (source_slots_of sources.now) }
{
    sources
        .iter()
        .any(|source| has_place(&source.pattern, place))
}

/// Whether the place of the segment, where it is a slot, occurs in some source.
fn occurs_in_sources(segment: &Segment, sources: &[JoinSource]) -> bool
    ensures { result ≡ is_no_slot_without (λ slot. occurs slot.0 (source_slots_of sources.now)) (plain_segment segment.now) }
{
    match segment {
        Segment::Literal(_) => true,
        Segment::Slot { place, .. } => sources_have_place(sources, *place),
    }
}

/// Whether each slot of the pattern occurs in some source.
pub fn occur_in_sources(pattern: &Pattern, sources: &[JoinSource]) -> bool
    ensures { result ≡ occur_in (slots_of pattern.now) (source_slots_of sources.now) }
{
    pattern
        .segments()
        .iter()
        .all(|segment| occurs_in_sources(segment, sources))
}

/// Whether the place of the segment, where it is a slot, occurs in the output.
fn occurs_in_output(segment: &Segment, output: &Pattern) -> bool
    ensures { result ≡ is_no_slot_without (λ slot. occurs slot.0 (slots_of output.now)) (plain_segment segment.now) }
{
    match segment {
        Segment::Literal(_) => true,
        Segment::Slot { place, .. } => has_place(output, *place),
    }
}

/// Whether each slot of the pattern occurs in the output.
fn occur_in_output(pattern: &Pattern, output: &Pattern) -> bool
    ensures { result ≡ occur_in (slots_of pattern.now) (slots_of output.now) }
{
    pattern
        .segments()
        .iter()
        .all(|segment| occurs_in_output(segment, output))
}

/// Whether the source is no copy source, or each of its slots occurs in the output.
fn copies_into(output: &Pattern, source: &JoinSource) -> bool
    ensures { result ≡ copies_into (slots_of output.now) source.now }
{
    match source.op {
        Op::Copy => occur_in_output(&source.pattern, output),
        _ => true,
    }
}

/// Whether each slot of each copy source occurs in the output.
pub fn all_copy_into(output: &Pattern, sources: &[JoinSource]) -> bool
    ensures { result ≡ list_all (copies_into (slots_of output.now)) sources.now }
{
    sources.iter().all(|source| copies_into(output, source))
}
