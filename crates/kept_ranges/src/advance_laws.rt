// Laws on advancing a copy join.
ghost use Rattle.kept_ranges.specs.AdvanceLaws.{AdvancedIsRight, UnappliedIsSame};

/// What is right for a table is right for another one after an advance to it.
pub fn advanced_is_right()
    ensures { AdvancedIsRight }
{}

/// At a key of the range that is neither covered after an advance nor applied by it, the output is the same over both tables.
pub fn unapplied_is_same()
    ensures { UnappliedIsSame }
{}
