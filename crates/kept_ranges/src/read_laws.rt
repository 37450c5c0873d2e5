// Laws on reading what is kept.
ghost use Rattle.kept_ranges.specs.ReadLaws.{RowsAreOutput};

/// Where nothing pending covers a key of a part, the rows in the part are the output in it.
pub fn rows_are_output()
    ensures { RowsAreOutput }
{}
