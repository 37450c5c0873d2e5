// What a range has a join read first.

use join_types::{Join, JoinSource};
use key_space::Range;
use out_of_memory::OutOfMemory;
use std::alloc::Global;

/// Whether the ranges have the same bounds.
fn is_same(range: &Range, other: &Range) -> bool {
    range.lo() == other.lo() && range.hi() == other.hi()
}

/// Gives the source that is read first: the first check, or the value source of a join without checks.
fn first_source(sources: &[JoinSource]) -> Option<&JoinSource> {
    for source in sources {
        if source.op.is_check() {
            return Some(source);
        }
    }
    sources.first()
}

/// Says whether evaluating the join in the range reads as much of the source that it reads first as evaluating it in any wider
/// range that shares no more slots: the bounds of the range cut off nothing of that. No answer rests on it, only what is read.
/// Linear in the bounds and in the sources.
pub fn reads_all(alloc: Global, join: &Join, range: &Range) -> Result<bool, OutOfMemory> {
    let Some(slots) = join.output.range_slots(range) else {
        return Ok(false);
    };
    let Some(source) = first_source(join.sources.as_slice()) else {
        return Ok(false);
    };
    let pattern = &source.pattern;
    let Some(part) = pattern.containing(alloc, &slots, &join.output, range)? else {
        return Ok(false);
    };
    let Some(whole) = pattern.prefix_range(alloc, &slots)? else {
        return Ok(false);
    };
    Ok(is_same(&part, &whole))
}
