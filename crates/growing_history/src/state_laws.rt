// Further laws on the state: rank by rank, and whatever the kinds of joins.
ghost use Rattle.growing_history.specs.StateLaws.{BelowIsSorted, BelowOfOutput, NothingBeforeOutput, BelowElsewhere};
ghost use Rattle.growing_history.specs.KindLaws.{KindsChangeNothing};

/// The keys of what stands below each rank ascend, each once.
pub fn below_is_sorted()
    ensures { BelowIsSorted }
{}

/// At a key that fits the output of a join of an admissible set, what stands below each rank greater than the join's is what the join makes of what stands below its own.
pub fn below_of_output()
    ensures { BelowOfOutput }
{}

/// At a key that fits the output of a join of an admissible set, nothing stands below the join's rank, nor below a smaller one.
pub fn nothing_before_output()
    ensures { NothingBeforeOutput }
{}

/// At a key that fits no output of the joins that stand, what stands below each rank is what is visible.
pub fn below_elsewhere()
    ensures { BelowElsewhere }
{}

/// After two histories that differ in nothing but `push` in place of `pull`, or back, the state is the same, each read has the same answer, and so has each write the same verdict.
pub fn kinds_change_nothing()
    ensures { KindsChangeNothing }
{}
