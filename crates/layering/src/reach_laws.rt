// Laws on the joins whose outputs a range reaches.
ghost use Rattle.layering.specs.ReachLaws.{UnreachedFitsNot, UnreachedGivesNothing, BareReachesNone, OfRankStand, StandsHasRank, ReachedStand, ReachesNoneBelowEach, OneReachedInRank, NoneReachedInOthers, NoneAboveSeven, ReachedArePicked};

/// No key of a range fits the output of a join that the range does not reach.
pub fn unreached_fits_not()
    ensures { UnreachedFitsNot }
{}

/// A join gives nothing in a range that does not reach its output.
pub fn unreached_gives_nothing()
    ensures { UnreachedGivesNothing }
{}

/// A range that is bare reaches no output.
pub fn bare_reaches_none()
    ensures { BareReachesNone }
{}

/// The joins of a rank are those that stand with it.
pub fn of_rank_stand()
    ensures { OfRankStand }
{}

/// A join that stands with a rank has that rank.
pub fn stands_has_rank()
    ensures { StandsHasRank }
{}

/// The joins of a rank that a range reaches are those that stand with it and that the range reaches.
pub fn reached_stand()
    ensures { ReachedStand }
{}

/// A range reaches no output below a rank exactly where it reaches that of no join with a rank below it.
pub fn reaches_none_below_each()
    ensures { ReachesNoneBelowEach }
{}

/// An output that a range reaches alone is of the one join of its rank that the range reaches.
pub fn one_reached_in_rank()
    ensures { OneReachedInRank }
{}

/// Where a range reaches one output alone, it reaches none of another rank.
pub fn none_reached_in_others()
    ensures { NoneReachedInOthers }
{}

/// No join of entries that entered has a rank above 7.
pub fn none_above_seven()
    ensures { NoneAboveSeven }
{}

/// The joins of a rank that a range reaches are picked from the joins beside their ranks.
pub fn reached_are_picked()
    ensures { ReachedArePicked }
{}
