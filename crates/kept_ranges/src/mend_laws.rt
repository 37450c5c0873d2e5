// Laws on mending.
ghost use Rattle.kept_ranges.specs.MendLaws.{MendedIsRight};

/// What is right stays right once slots that were pending are mended.
pub fn mended_is_right()
    ensures { MendedIsRight }
{}
