// Laws on the needs as followed paths.
ghost use Rattle.range_evaluation.specs.PathLaws.{SourcesArePlaced, NeedsHoldNext, NeedsCameByPaths, NeedsHoldTheirPaths, FirstHasNeed, NextHasNeed};

/// The sources with their places are those of the join in the order of evaluation, each with the place where it stands
/// among them as they are written; no place comes twice.
pub fn sources_are_placed()
    ensures { SourcesArePlaced }
{}

/// Whichever key goes on from a path of keys, there or not, some need by that path holds it in its range.
pub fn needs_hold_next()
    ensures { NeedsHoldNext }
{}

/// Each need came by a path of keys of the table, its slots are the least under which they are one, and its range is the
/// containing range of the next source.
pub fn needs_came_by_paths()
    ensures { NeedsCameByPaths }
{}

/// Each key by which a need came lies in the range of some need that came by the keys before it.
pub fn needs_hold_their_paths()
    ensures { NeedsHoldTheirPaths }
{}

/// The first source has a need by no keys, under the given slots, where it has a containing range under them.
pub fn first_has_need()
    ensures { FirstHasNeed }
{}

/// Where the key of a pair in a need's range binds the need's source, the next source has a need by the need's keys and
/// this one, under the slots that are bound, where it has a containing range under them.
pub fn next_has_need()
    ensures { NextHasNeed }
{}
