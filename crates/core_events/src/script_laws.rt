// Laws on scripts.
ghost use Rattle.core_events.specs.ScriptLaws.{ScriptsGiveEvents, EmptyLineIsJson, BoundIsOfTable, RangeHasBounds};

/// Each text up to which a script asks a scan to be answered may bound a range.
pub fn scripts_give_events()
    ensures { ScriptsGiveEvents }
{}

/// An empty line is refused as `json`.
pub fn empty_line_is_json()
    ensures { EmptyLineIsJson }
{}

/// A text may bound a range exactly where it has at most 513 bytes and for a name T of 1 to 64 bytes without `|` begins with `T|`
/// or is `T}`.
pub fn bound_is_of_table()
    ensures { BoundIsOfTable }
{}

/// Both bounds of a range may bound one.
pub fn range_has_bounds()
    ensures { RangeHasBounds }
{}
