// Keys, ranges and patterns as rows write them. None where the text is no such thing.
use key_pattern::{Pattern, Segment};
use key_space::{Key, Range};
use std::alloc::Global;
use test_rows::{Fields, unescape};

/// Reads a key.
pub fn read_key(alloc: Global, field: &str) -> Option<Key> {
    let text = unescape(alloc, field).ok()?;
    Key::read(alloc, text.as_str()).ok()
}

/// Reads the range between two bounds.
pub fn read_range(alloc: Global, low: &str, high: &str) -> Option<Range> {
    let low = unescape(alloc, low).ok()?;
    let high = unescape(alloc, high).ok()?;
    Range::read(alloc, low.as_str(), high.as_str()).ok()
}

/// Reads the range between the next two fields.
pub fn next_range(alloc: Global, fields: &mut Fields<'_>) -> Option<Range> {
    let low = fields.next();
    let high = fields.next();
    read_range(alloc, low, high)
}

/// Reads the range that is written `low..high`.
pub fn read_bounds(alloc: Global, field: &str) -> Option<Range> {
    let (low, high) = field.split_once("..")?;
    read_range(alloc, low, high)
}

/// Reads a segment: `<3` is the slot of place 3 and any width, `<3:8` that of 8 bytes, and any other text a literal.
fn read_segment(alloc: Global, field: &str) -> Option<Segment> {
    match field.strip_prefix('<') {
        None => Some(Segment::Literal(unescape(alloc, field).ok()?)),
        Some(slot) => {
            let (place, width) = slot.split_once(':').unwrap_or((slot, "0"));
            Some(Segment::Slot {
                place: place.parse::<u8>().ok()?,
                width: width.parse::<u8>().ok()?,
            })
        }
    }
}

/// Reads the segments that stand between `|`.
pub fn read_segments(alloc: Global, field: &str) -> Option<Vec<Segment>> {
    let mut segments = Vec::new(alloc);
    for part in field.split('|') {
        segments.push(read_segment(alloc, part)?).ok()?;
    }
    Some(segments)
}

/// Reads a pattern.
pub fn read_pattern(alloc: Global, field: &str) -> Option<Pattern> {
    Pattern::make(read_segments(alloc, field)?).ok()
}
