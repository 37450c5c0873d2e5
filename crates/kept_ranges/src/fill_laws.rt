// Laws on filling.
ghost use Rattle.kept_ranges.specs.FillLaws.{FilledIsRight};

/// What is filled is right for the table that it was filled from.
pub fn filled_is_right()
    ensures { FilledIsRight }
{}
