// Laws on parts of a range.
ghost use Rattle.layering.specs.PartLaws.{TwoMakeRange, PartsMakeRange, PartsAreWithin, KeysAreHeldOnce, WithinIsKept, PartOfRange};

/// The pairs in two ranges that join, in order, are those in the whole.
pub fn two_make_range()
    ensures { TwoMakeRange }
{}

/// The pairs in parts that join to a range, in order, are those in the range.
pub fn parts_make_range()
    ensures { PartsMakeRange }
{}

/// Parts that join to a range lie within it.
pub fn parts_are_within()
    ensures { PartsAreWithin }
{}

/// Each key of a range is held by exactly one of the parts that join to it.
pub fn keys_are_held_once()
    ensures { KeysAreHeldOnce }
{}

/// A key of a range is one of each range in which it lies.
pub fn within_is_kept()
    ensures { WithinIsKept }
{}

/// Of the pairs in a range those in a part whose keys are keys of it are those in the part.
pub fn part_of_range()
    ensures { PartOfRange }
{}
