// Laws on merging.
ghost use Rattle.layering.specs.MergeLaws.{MergedIntoNothing, MergedAscends, MergedWithin, MergedEitherWay, MergedLength, MergedInAnyOrder, MergedStepwise};

/// A merge into nothing is what is merged.
pub fn merged_into_nothing()
    ensures { MergedIntoNothing }
{}

/// What is merged ascends.
pub fn merged_ascends()
    ensures { MergedAscends }
{}

/// What is merged in a range is merged of what is in the range.
pub fn merged_within()
    ensures { MergedWithin }
{}

/// Tables with no key in common merge to the same either way.
pub fn merged_either_way()
    ensures { MergedEitherWay }
{}

/// Tables with no key in common merge to as many pairs as both have.
pub fn merged_length()
    ensures { MergedLength }
{}

/// Tables of which each two agree merge to the same in any order.
pub fn merged_in_any_order()
    ensures { MergedInAnyOrder }
{}

/// The first pair of a merge is the one with the lesser key, or at the same key that of the second table.
pub fn merged_stepwise()
    ensures { MergedStepwise }
{}
