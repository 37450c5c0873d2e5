// Laws on which joins of a set read which, and on the cycle that a refused declaration is told.
ghost use Rattle.growing_history.specs.ReadingLaws.{ReadingIsOverlaps, LeastCycleIsDistinct, CycleCauseIsLeastCycle, RefusedCycleIsDistinct};

/// The reading of a set of joins has the edge from a to b exactly where a source of the join with the number a overlaps the output of the one with the number b.
pub fn reading_is_overlaps()
    ensures { ReadingIsOverlaps }
{}

/// No vertex stands twice in the least cycle through a vertex.
pub fn least_cycle_is_distinct()
    ensures { LeastCycleIsDistinct }
{}

/// There is a cause `cycle` exactly where a cycle goes through the join with the given number, and it carries the positions of the joins of the least such cycle, in its order.
pub fn cycle_cause_is_least_cycle()
    ensures { CycleCauseIsLeastCycle }
{}

/// A declaration that is refused for a cycle is told the positions of the joins of the least cycle through the new join, in its order and none of them twice.
pub fn refused_cycle_is_distinct()
    ensures { RefusedCycleIsDistinct }
{}
