// Laws on what stands below a rank, in a range.
ghost use Rattle.layering.specs.LayerLaws.{BelowNextWithin, BelowNextInAnyOrder, OutputsShareNoKey, OutputIsNewBelow, UnreachedIsVisible, VisibleWithin, VisibleAreFewer, OneReachedIsState, OneReachedLength};

/// Below the next rank stands in a range what stands below the rank, merged with what the joins of the rank that the range reaches
/// give in it.
pub fn below_next_within()
    ensures { BelowNextWithin }
{}

/// The joins of the rank that the range reaches may come in any order.
pub fn below_next_in_any_order()
    ensures { BelowNextInAnyOrder }
{}

/// The outputs of two joins that stand have no key in common.
pub fn outputs_share_no_key()
    ensures { OutputsShareNoKey }
{}

/// The output of a join has no key in common with what stands below its rank, or a smaller one.
pub fn output_is_new_below()
    ensures { OutputIsNewBelow }
{}

/// Where a range reaches no output below a rank, what stands below the rank in it is what is visible.
pub fn unreached_is_visible()
    ensures { UnreachedIsVisible }
{}

/// What is visible in a range are its base pairs whose keys fit no output.
pub fn visible_within()
    ensures { VisibleWithin }
{}

/// In a range at most as many pairs are visible as it has base pairs.
pub fn visible_are_fewer()
    ensures { VisibleAreFewer }
{}

/// Where a range reaches one output alone, the state in it is what is visible, merged with what that join gives.
pub fn one_reached_is_state()
    ensures { OneReachedIsState }
{}

/// Where a range reaches one output alone, the state in it has as many pairs as are visible and as that join gives.
pub fn one_reached_length()
    ensures { OneReachedLength }
{}
