// Laws on aggregates: what is listed once a range is filled, and after an advance.
ghost use Rattle.kept_ranges.specs.ListingLaws.{ListedMakeRows, RelistedAreListed, RelistedIsRight, UnlistedIsSame};

/// At each key of the range the operator makes of what is listed what the join makes of the table.
pub fn listed_make_rows()
    ensures { ListedMakeRows }
{}

/// What is listed for a table is, after an advance, what is listed for the other one.
pub fn relisted_are_listed()
    ensures { RelistedAreListed }
{}

/// What is kept for an aggregate is right for the other table after an advance.
pub fn relisted_is_right()
    ensures { RelistedIsRight }
{}

/// At a key of the range that is not applied the output of an aggregate is the same over both tables.
pub fn unlisted_is_same()
    ensures { UnlistedIsSame }
{}
