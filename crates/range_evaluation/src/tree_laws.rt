// Laws on evaluation by ranges.
ghost use Rattle.range_evaluation.specs.TreeLaws.{FollowedIsOut, FollowedFits, SharedAreOutputSlots, SharedGiveOut, NeedsFixTree, NeedsFixFollowed, NeedsAreOnce};

/// What is found by following the needs under slots is the join's output at the keys that fit the output under them.
pub fn followed_is_out()
    ensures { FollowedIsOut }
{}

/// A table that has the same pairs in the ranges of the needs has the same needs.
pub fn needs_fix_tree()
    ensures { NeedsFixTree }
{}

/// A table that has the same pairs in the ranges of the needs gives the same by following them.
pub fn needs_fix_followed()
    ensures { NeedsFixFollowed }
{}

/// Every key that is found by following the needs under slots fits the output under them.
pub fn followed_fits()
    ensures { FollowedFits }
{}

/// The slots of a range are slots of the output.
pub fn shared_are_output_slots()
    ensures { SharedAreOutputSlots }
{}

/// What is found under the slots of a range is the join's output in the range.
pub fn shared_give_out()
    ensures { SharedGiveOut }
{}

/// No two needs over a table with ascending keys came by the same keys.
pub fn needs_are_once()
    ensures { NeedsAreOnce }
{}
