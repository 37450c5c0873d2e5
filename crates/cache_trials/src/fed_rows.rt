// What change feeds tell one thread, and how often reads after them pass the gate.

use crate::kept_rows::Row;

/// A feed brings a kept range forward and leaves it: the next read passes no gate.
const LEFT: Row = Row {
    cells: 4,
    limit: 100,
    lines: "write t|<user>|<time>|<poster> = check s|<user>|<poster> copy p|<poster>|<time>
write s|ann|bob=1
write p|bob|100=Hi
read 3 t|ann| t|ann}
write p|bob|120=Yo
changes 3 t|ann| t|ann}
read 4 t|ann| t|ann}
",
    wanted: "1: t|ann|100|bob=Hi
changed: t|ann|120|bob=Yo
0: t|ann|100|bob=Hi t|ann|120|bob=Yo
",
};

/// A feed is a use of the range that it asks, also where nothing changed in it: to make room the other one goes.
const USED: Row = Row {
    cells: 4,
    limit: 100,
    lines: "write b|<x>|<y> = copy a|<x>|<y>
write a|1|1=A
write a|2|1=B
read 3 b|1| b|1}
read 3 b|2| b|2}
write a|2|2=C
changes 3 b|1| b|1}
room cells
read 4 b|1| b|1}
read 4 b|2| b|2}
",
    wanted: "1: b|1|1=A
1: b|2|1=B
changed:
some went
0: b|1|1=A
1: b|2|1=B b|2|2=C
",
};

/// A feed is a use of a range that the one which it asks is computed from: another goes that was read after it.
const USED_FOR_ANOTHER: Row = Row {
    cells: 4,
    limit: 100,
    lines: "write b|<x>|<y> = copy a|<x>|<y>
write c|<x>|<y> = copy b|<x>|<y>
write a|1|1=A
write a|2|1=B
read 4 c|1| c|1}
read 4 b|2| b|2}
write a|2|2=C
changes 4 c|1| c|1}
room cells
read 5 b|2| b|2}
read 5 b|1| b|1}
",
    wanted: "2: c|1|1=A
1: b|2|1=B
changed:
some went
1: b|2|1=B b|2|2=C
0: b|1|1=A
",
};

/// All of them.
pub const FED_ROWS: [Row; 3] = [LEFT, USED, USED_FOR_ANOTHER];
