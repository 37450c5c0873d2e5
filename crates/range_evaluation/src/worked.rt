// Worked rows: the slots that ranges share, the slots of ranges of one key, the containing ranges of a source, the needs
// of a join, and what the pairs of a table contribute to a total.
ghost use Rattle.range_evaluation.specs.Worked.{WholeTable, WholeSegment, PartOfSegment, WithinSegment, OtherTable, MoreSegments, EmptySegment, OtherWidth, OneKey, OneShortKey, MoreKeys, ContainingTable, ContainingBeginning, ContainingGap, ContainingKey, TreeOfTimeline, TreeOfTotal, ListedOfTotal};

/// The keys of a whole table share no text.
pub fn whole_table()
    ensures { WholeTable }
{}

/// The keys that begin with a segment share it.
pub fn whole_segment()
    ensures { WholeSegment }
{}

/// Bounds that only begin alike within a segment share none of it.
pub fn part_of_segment()
    ensures { PartOfSegment }
{}

/// The keys between two that begin with a segment share it.
pub fn within_segment()
    ensures { WithinSegment }
{}

/// No key of another table fits.
pub fn other_table()
    ensures { OtherTable }
{}

/// No key with more segments fits.
pub fn more_segments()
    ensures { MoreSegments }
{}

/// A slot takes no empty segment.
pub fn empty_segment()
    ensures { EmptySegment }
{}

/// A slot takes no segment of another width.
pub fn other_width()
    ensures { OtherWidth }
{}

/// A range of one key has all slots that the key sets.
pub fn one_key()
    ensures { OneKey }
{}

/// It has none where the key does not fit, though longer keys with its segments do.
pub fn one_short_key()
    ensures { OneShortKey }
{}

/// Any other range has the slots that its keys share.
pub fn more_keys()
    ensures { MoreKeys }
{}

/// Under no texts the containing range is the whole table's.
pub fn containing_table()
    ensures { ContainingTable }
{}

/// A text narrows the containing range to the keys that begin with it.
pub fn containing_beginning()
    ensures { ContainingBeginning }
{}

/// A text behind a slot without one does not narrow it.
pub fn containing_gap()
    ensures { ContainingGap }
{}

/// Under texts for all slots it is the range of one key.
pub fn containing_key()
    ensures { ContainingKey }
{}

/// To find a user's timeline the check's keys of the user are read, and for each of them those of the one whom it
/// names.
pub fn tree_of_timeline()
    ensures { TreeOfTimeline }
{}

/// To find the total of one key the numbers of that key alone are read.
pub fn tree_of_total()
    ensures { TreeOfTotal }
{}

/// To a total each pair of its segment contributes, whether its value is a number or not, and no other.
pub fn listed_of_total()
    ensures { ListedOfTotal }
{}
