// The widths of slots.
ghost use Rattle.std.specs.Prelude.{◌≡◌, ◌++◌};
ghost use Rattle.std.specs.List.{list_any};
ghost use Rattle.semantics.specs.Joins.{has_two_widths, slots_of, source_slots_of};
ghost use Rattle.key_pattern.specs.Plain.{plain_segment};
ghost use Rattle.join_set.specs.SlotTests.{is_slot_with, has_other_width, differs_within};

use join_types::JoinSource;
use key_pattern::{Pattern, Segment};

/// Whether the segment is a slot of the place with another width.
fn differs(segment: &Segment, place: u8, width: u8) -> bool
    ensures { result ≡ is_slot_with (has_other_width (place, width)) (plain_segment segment.now) }
{
    match segment {
        Segment::Literal(_) => false,
        Segment::Slot {
            place: other,
            width: asked,
        } => place == *other && width != *asked,
    }
}

/// Whether a slot of the pattern has the place and another width.
fn pattern_differs(pattern: &Pattern, place: u8, width: u8) -> bool
    ensures { result ≡ list_any (has_other_width (place, width)) (slots_of pattern.now) }
{
    pattern
        .segments()
        .iter()
        .any(|segment| differs(segment, place, width))
}

/// Whether a slot of some source has the place and another width.
fn sources_differ(sources: &[JoinSource], place: u8, width: u8) -> bool
    ensures { result ≡ list_any (has_other_width (place, width)) (source_slots_of sources.now) }
{
    sources
        .iter()
        .any(|source| pattern_differs(&source.pattern, place, width))
}

/// Whether the segment is a slot whose place has another width in the output or in some source.
fn differs_from(segment: &Segment, output: &Pattern, sources: &[JoinSource]) -> bool
    ensures { result ≡ is_slot_with (differs_within (slots_of output.now ++ source_slots_of sources.now)) (plain_segment segment.now) }
{
    match segment {
        Segment::Literal(_) => false,
        Segment::Slot { place, width } => {
            pattern_differs(output, *place, *width) || sources_differ(sources, *place, *width)
        }
    }
}

/// Whether the place of some slot of the pattern has another width in the output or in some source.
fn any_differs_from(pattern: &Pattern, output: &Pattern, sources: &[JoinSource]) -> bool
    ensures { result ≡ list_any (differs_within (slots_of output.now ++ source_slots_of sources.now)) (slots_of pattern.now) }
{
    pattern
        .segments()
        .iter()
        .any(|segment| differs_from(segment, output, sources))
}

/// The same of some slot of the sources.
fn any_source_differs_from(checked: &[JoinSource], output: &Pattern, sources: &[JoinSource]) -> bool
    ensures { result ≡ list_any (differs_within (slots_of output.now ++ source_slots_of sources.now)) (source_slots_of checked.now) }
{
    checked.iter().any(|source| any_differs_from(&source.pattern, output, sources))
}

/// Whether some place has two widths among the slots of the output and the sources. Each slot is compared with each.
pub fn has_two_widths(output: &Pattern, sources: &[JoinSource]) -> bool
    ensures { result ≡ has_two_widths (slots_of output.now ++ source_slots_of sources.now) }
{
    any_differs_from(output, output, sources) || any_source_differs_from(sources, output, sources)
}
