// Laws on where joins stand in a history.
ghost use Rattle.layering.specs.StandingLaws.{JoinsAreStays, PositionNamesJoin, JoinsStaySince, SameJoinsSince, RankStays};

/// The joins that stand after the first entries are those whose stays have begun up to there and not ended.
pub fn joins_are_stays()
    ensures { JoinsAreStays }
{}

/// A position names the join that was declared there.
pub fn position_names_join()
    ensures { PositionNamesJoin }
{}

/// Where no join is declared or dropped between two positions, the same joins stand at all between.
pub fn joins_stay_since()
    ensures { JoinsStaySince }
{}

/// Where no join is declared or dropped after a position, the joins after it are those that stand.
pub fn same_joins_since()
    ensures { SameJoinsSince }
{}

/// Where the same joins stand each keeps its rank.
pub fn rank_stays()
    ensures { RankStays }
{}
