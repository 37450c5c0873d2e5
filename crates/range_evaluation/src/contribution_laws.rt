// Laws on what is contributed to an aggregate.
ghost use Rattle.range_evaluation.specs.ContributionLaws.{ListedAreMatches, ListedAreOnce, ListedMakeOutput, FollowedAreListed, SharedGiveContributions, NeedsFixContributions};

/// What is listed for the asked keys of an aggregate is what its matches contribute to them, one by one.
pub fn listed_are_matches()
    ensures { ListedAreMatches }
{}

/// No two that are listed have the same source key, where the keys of the table ascend.
pub fn listed_are_once()
    ensures { ListedAreOnce }
{}

/// At an asked key the join's output is what its operator makes of the values that are listed for the key.
pub fn listed_make_output()
    ensures { ListedMakeOutput }
{}

/// The pairs of the value source's containing range alone give what is listed.
pub fn followed_are_listed()
    ensures { FollowedAreListed }
{}

/// Under the slots of a range they give all that is listed for the keys of the range.
pub fn shared_give_contributions()
    ensures { SharedGiveContributions }
{}

/// A table that has the same pairs in the ranges of the needs gives the same contributions.
pub fn needs_fix_contributions()
    ensures { NeedsFixContributions }
{}
