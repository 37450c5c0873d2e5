// Runs of copy joins.
ghost use Rattle.worked_runs.specs.CopyRows.{First, Timeline, Leave, TwoSupports, ByteOrder, Pulled, Widths};

/// A pair that is put shows in the output of a join.
pub fn first()
    ensures { First }
{}

/// A timeline has the posts of those whom the user follows.
pub fn timeline()
    ensures { Timeline }
{}

/// A post of one who is not followed any more does not show.
pub fn leave()
    ensures { Leave }
{}

/// A row with two supports stays while one of them stands.
pub fn two_supports()
    ensures { TwoSupports }
{}

/// Keys are in byte order, which is not the order of slots.
pub fn byte_order()
    ensures { ByteOrder }
{}

/// A join that is pulled shows the same.
pub fn pulled()
    ensures { Pulled }
{}

/// A slot with a width takes texts of that many bytes alone.
pub fn widths()
    ensures { Widths }
{}
