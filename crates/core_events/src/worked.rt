// Worked scripts, computed by the definitions alone, byte for byte.
ghost use Rattle.core_events.specs.Worked.{ScansBetweenWrites, NothingToDo, RefusedWrite, RefusedLines};

/// Each scan is answered as of the position at which it began, whatever comes between its pieces.
pub fn scans_between_writes()
    ensures { ScansBetweenWrites }
{}

/// A step of a scan that is not under way, or already, or does not go on, does nothing.
pub fn nothing_to_do()
    ensures { NothingToDo }
{}

/// A write that is refused is answered so.
pub fn refused_write()
    ensures { RefusedWrite }
{}

/// A line that does not read is the one thing that is printed, by the first rule that it breaks.
pub fn refused_lines()
    ensures { RefusedLines }
{}
