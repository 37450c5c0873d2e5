// Further laws on patterns and on the keys of tables: what overlaps, what `bind` and `fill` give, and a table's range.
ghost use Rattle.growing_history.specs.PatternLaws.{OverlapIsMutual, BindKeepsPlaces, FillIsKey, TableHasRange, TableRangeIsRange};

/// Whether two patterns overlap does not depend on which is first.
pub fn overlap_is_mutual()
    ensures { OverlapIsMutual }
{}

/// Whatever `bind` gives has as many places as the given slots.
pub fn bind_keeps_places()
    ensures { BindKeepsPlaces }
{}

/// What a pattern is filled to is a key.
pub fn fill_is_key()
    ensures { FillIsKey }
{}

/// Every key of a table T lies in the range from `T|` to `T}`, and no key of another table does.
pub fn table_has_range()
    ensures { TableHasRange }
{}

/// The range from `T|` to `T}` is a range, for a table's name T.
pub fn table_range_is_range()
    ensures { TableRangeIsRange }
{}
