// Runs of aggregates and joins on joins.
ghost use Rattle.worked_runs.specs.AggregateRows.{Votes, Totals, Page, Bounds};

/// A count counts keys, and a group without a pair has none.
pub fn votes()
    ensures { Votes }
{}

/// A sum takes canonical decimals within 64 bits, and may be greater itself.
pub fn totals()
    ensures { Totals }
{}

/// A join reads what another makes.
pub fn page()
    ensures { Page }
{}

/// A least and a greatest value are of canonical decimals within 64 bits.
pub fn bounds()
    ensures { Bounds }
{}
