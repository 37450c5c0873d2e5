// The slot of an output at which the text of a bound ends.
ghost use Rattle.std.specs.Prelude.{◌≡◌, ◌+◌, ◌<◌, drop, length, IfSome};
ghost use Rattle.key_pattern.specs.Plain.{plain_segment, plain_segments};
ghost use Rattle.cell_slots.specs.Gaps.{fixed_width, is_none_left, IsOpenAt, LeavesOpen};

use key_pattern::Segment;

/// The end of a bound that stands where an output has a slot of fixed width.
#[derive(Clone, Copy)]
pub struct OpenSlot<'a> {
    /// What follows the last `|` of the bound.
    pub rest: &'a str,
    /// The bytes of each text of the slot, one at least.
    pub width: usize,
    /// Whether no segment follows the slot in the output.
    pub is_last: bool,
}

/// Gives the width of a slot that has one. Constant.
fn fixed_width(segment: &Segment) -> Option<u8>
    ensures { result ≡ fixed_width (plain_segment segment.now) }
{
    match segment {
        Segment::Literal(_) => None,
        Segment::Slot { width, .. } => { if 1 <= *width { Some(*width) } else { None } }
    }
}

/// Says whether no segment follows the one at a place. Constant.
fn is_last_at(output: &[Segment], place: usize) -> bool
    requires { place < length output.now }
    ensures { result ≡ is_none_left (drop (place + 1) (plain_segments output.now)) }
{
    if place + 1 < output.len() {
        return false;
    }
    true
}

/// Gives the end of a bound that stands where the segment does, with this rest, where the segment is a slot of fixed width.
/// Constant.
fn open_at<'a>(segment: &Segment, is_last: bool, rest: &'a str) -> Option<OpenSlot<'a>>
    ensures { IfSome result (IsOpenAt (plain_segment segment.now) is_last rest.now) }
{
    let width = fixed_width(segment)?;
    let bytes = usize::from(width);
    Some(OpenSlot {
        rest,
        width: bytes,
        is_last,
    })
}

/// Gives the end of the bound that stands where the output has a slot of fixed width, where it does: as many segments of the output
/// stand before the slot as the bound has bytes `|`. Linear in the bound, and nothing is copied.
pub fn open_slot<'a>(output: &[Segment], bound: &'a str) -> Option<OpenSlot<'a>>
    ensures { IfSome result (LeavesOpen (plain_segments output.now) bound.now) }
{
    let mut rest = bound;
    for (place, segment) in output.iter().enumerate() {
        match rest.split_once('|') {
            Some(cut) => rest = cut.1,
            None => return open_at(segment, is_last_at(output, place), rest),
        }
    }
    None
}
