// Laws on needs through which changed keys are applied, and on how many touches and applications there are.
ghost use Rattle.range_state.specs.Laws.{NeedCanFill, NeedsCanFill, FewTouches, FewApplications};

/// Through a need that came by a path of a join that keeps the rules, a changed key of the value source can fill its output
/// key.
pub fn need_can_fill()
    ensures { NeedCanFill }
{}

/// So it is of each need, and of those that are left of them by any test.
pub fn needs_can_fill()
    ensures { NeedsCanFill }
{}

/// There are at most as many touches as changed keys in the ranges of check needs.
pub fn few_touches()
    ensures { FewTouches }
{}

/// There are at most as many applications as changed keys in the ranges of value needs.
pub fn few_applications()
    ensures { FewApplications }
{}
