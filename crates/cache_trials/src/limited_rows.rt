// What one thread writes and reads where the limit on rows binds: how often each read passes the gate, and how many steps some
// take.

use crate::kept_rows::Row;

/// A range of one row weighs two: it goes at once, and is evaluated each time.
pub const TOO_HEAVY: Row = Row {
    cells: 4,
    limit: 1,
    lines: "write b|<x> = copy a|<x>
write a|1=A
read 2 b| b}
read 2 b| b}
",
    wanted: "1: b|1=A
1: b|1=A
",
};

/// Two ranges of one row fit the limit. Where a third is read, the one goes that was used least recently: not the first, which
/// was read again since.
pub const USED_LEAST: Row = Row {
    cells: 4,
    limit: 4,
    lines: "write b|<x>|<y> = copy a|<x>|<y>
write a|1|1=A
write a|2|1=B
write a|3|1=C
read 4 b|1| b|1}
read 4 b|2| b|2}
read 4 b|1| b|1}
read 4 b|3| b|3}
read 4 b|1| b|1}
read 4 b|2| b|2}
",
    wanted: "1: b|1|1=A
1: b|2|1=B
0: b|1|1=A
1: b|3|1=C
0: b|1|1=A
1: b|2|1=B
",
};

/// What may not be kept is read afresh each time.
pub const TOO_HEAVY_COST: Row = Row {
    cells: 4,
    limit: 1,
    lines: "write t|<user>|<time>|<poster> = check s|<user>|<poster> copy p|<poster>|<time>
write s|ann|bob=1
write p|bob|100=Hi
least 5 3 t|ann| t|ann}
least 5 3 t|ann| t|ann}
",
    wanted: "",
};
