// Laws on what events are answered.
ghost use Rattle.core_events.specs.PlainLaws.{CellEventsChangeNothing, CellEventsLeaveWorld, PlainInParts, WorldInParts, OneMoreAnswersPlainly, WorldAfterOneMore, ScanIsMoved, ScanIsFreed, ScanIsBegun, LooksDecide, EntriesHaveEntered, ScansWereBegun, ScansStandWithin, PairsStay, HistoryGrows};

/// Events of cells change no other answer.
pub fn cell_events_change_nothing()
    ensures { CellEventsChangeNothing }
{}

/// Events of cells leave the history and the scans.
pub fn cell_events_leave_world()
    ensures { CellEventsLeaveWorld }
{}

/// Events in two parts are answered from the world after the first.
pub fn plain_in_parts()
    ensures { PlainInParts }
{}

/// The world after events in two parts is that after the second, from the world after the first.
pub fn world_in_parts()
    ensures { WorldInParts }
{}

/// Events that are answered plainly are so with one more that is answered as from the world after them.
pub fn one_more_answers_plainly()
    ensures { OneMoreAnswersPlainly }
{}

/// The world after one event more is what the event makes of the world before.
pub fn world_after_one_more()
    ensures { WorldAfterOneMore }
{}

/// A scan whose place is moved has the new place, and every other scan is as before.
pub fn scan_is_moved()
    ensures { ScanIsMoved }
{}

/// A number that is freed names no scan, and every other scan is as before.
pub fn scan_is_freed()
    ensures { ScanIsFreed }
{}

/// A scan that begins is found by its number, where none was, and every other scan is as before.
pub fn scan_is_begun()
    ensures { ScanIsBegun }
{}

/// Worlds with one history and, by each number, one scan give the same answers.
pub fn looks_decide()
    ensures { LooksDecide }
{}

/// Each entry of the history had no cause against it at its place.
pub fn entries_have_entered()
    ensures { EntriesHaveEntered }
{}

/// Each scan under way was begun by an event, at the length of the history after those before it.
pub fn scans_were_begun()
    ensures { ScansWereBegun }
{}

/// No scan under way stands past the history.
pub fn scans_stand_within()
    ensures { ScansStandWithin }
{}

/// A scan has the same pairs over each longer history.
pub fn pairs_stay()
    ensures { PairsStay }
{}

/// The history begins with what it was before.
pub fn history_grows()
    ensures { HistoryGrows }
{}
