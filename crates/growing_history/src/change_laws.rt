// Laws on what changes between two positions.
ghost use Rattle.growing_history.specs.ChangeLaws.{ChangedKeysAscend, ChangedKeysAreWritten, UnchangedIsSame, TableOfFitting, BareIsBase, BareBetweenIsThroughout};

/// The changed keys of a range ascend, each once.
pub fn changed_keys_ascend()
    ensures { ChangedKeysAscend }
{}

/// The changed keys of a range are its keys that one of the entries between the positions puts or removes.
pub fn changed_keys_are_written()
    ensures { ChangedKeysAreWritten }
{}

/// At a key of a range that is bare between two positions, and that is not among the changed ones, the state is the same at
/// all positions between the two.
pub fn unchanged_is_same()
    ensures { UnchangedIsSame }
{}

/// Of the keys that fit a pattern each is of the pattern's table.
pub fn table_of_fitting()
    ensures { TableOfFitting }
{}

/// In a bare range the state with the joins of ranks below any one is the base pairs.
pub fn bare_is_base()
    ensures { BareIsBase }
{}

/// A range is bare at all positions from one to another exactly where no join that stood at one of them has its output in
/// the range's table.
pub fn bare_between_is_throughout()
    ensures { BareBetweenIsThroughout }
{}
