// Runs of refused writes and lines.
ghost use Rattle.worked_runs.specs.RefusalRows.{Cycles, Clashes, ComputedKeys, BadLines, Dropped, Ranges};

/// A join that closes a cycle is refused with the shortest one.
pub fn cycles()
    ensures { Cycles }
{}

/// A join whose output overlaps another one is refused.
pub fn clashes()
    ensures { Clashes }
{}

/// A computed key is not written, and other keys of its table are.
pub fn computed_keys()
    ensures { ComputedKeys }
{}

/// Each line that is no request is answered by the first rule that it breaks.
pub fn bad_lines()
    ensures { BadLines }
{}

/// A join is declared after puts and hides them; once it is dropped they are back.
pub fn dropped()
    ensures { Dropped }
{}

/// Two texts are a range where they bound keys of one table, in order.
pub fn ranges()
    ensures { Ranges }
{}
