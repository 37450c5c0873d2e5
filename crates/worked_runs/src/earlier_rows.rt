// Runs that ask about earlier positions.
ghost use Rattle.worked_runs.specs.EarlierRows.{ScansAt, Feeds, FeedsOfGone, AcrossJoins, BadPositions, EntriesAfter};

/// A scan at a position has what stood there; one at a position that there is not yet is told how many entries there are.
pub fn scans_at()
    ensures { ScansAt }
{}

/// What changed since a position is the keys that are new or have another value, with it.
pub fn feeds()
    ensures { Feeds }
{}

/// A key that has gone is listed without a value, and one that came and went is not listed.
pub fn feeds_of_gone()
    ensures { FeedsOfGone }
{}

/// A join that is declared or dropped between changes what it hides and what it makes.
pub fn across_joins()
    ensures { AcrossJoins }
{}

/// A position is a whole number below 2^48, and is looked at before the range.
pub fn bad_positions()
    ensures { BadPositions }
{}

/// The entries after a position are listed as the requests that they are, and from the end on there is none.
pub fn entries_after()
    ensures { EntriesAfter }
{}
