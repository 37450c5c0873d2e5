// Laws on ranges that join to a range, and on the parts of kept ranges.
ghost use Rattle.range_set.specs.Joined.{JoinedHoldOnce, JoinedHavePairs, JoinedLieIn, JoinedAreOfTable};
ghost use Rattle.range_set.specs.Pieces.{PartsLieInKept};

/// Of ranges that join to a range, each key of it lies in exactly one.
pub fn joined_hold_once()
    ensures { JoinedHoldOnce }
{}

/// The pairs of a table in ranges that join to a range, one after another, are its pairs in that range.
pub fn joined_have_pairs()
    ensures { JoinedHavePairs }
{}

/// Ranges that join to a range lie in it.
pub fn joined_lie_in()
    ensures { JoinedLieIn }
{}

/// Ranges that join to a range are of its table.
pub fn joined_are_of_table()
    ensures { JoinedAreOfTable }
{}

/// What a range has in common with a kept one lies in that one, and has its item.
pub fn parts_lie_in_kept<T>()
    ensures { PartsLieInKept T }
{}
