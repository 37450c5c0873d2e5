// What one thread writes, evicts and reads, how often each read passes the gate, and how many steps some may take.

use crate::limited_rows::{TOO_HEAVY, TOO_HEAVY_COST, USED_LEAST};

/// How many cells there may be, how much may be kept, lines, and what those that read add: how often the gate was passed, and
/// the pairs. A line that begins with `most` or `least` reads with so many steps, one that begins with `often` writes so often, and
/// one that begins with `changes` adds what changed.
#[derive(Drop)]
pub struct Row {
    /// The cells.
    pub cells: u32,
    /// How many rows they may keep together, with one more for each range, and from how many ranges of its sources each may come.
    pub limit: u64,
    /// The lines.
    pub lines: &'static str,
    /// What is wanted.
    pub wanted: &'static str,
}

/// A range that is kept is read again from its cell.
const KEPT: Row = Row {
    cells: 4,
    limit: 100,
    lines: "write t|<user>|<time>|<poster> = check s|<user>|<poster> copy p|<poster>|<time>
write s|ann|bob=1
write p|bob|100=Hi
read 3 t|ann| t|ann}
read 3 t|ann| t|ann}
",
    wanted: "1: t|ann|100|bob=Hi
0: t|ann|100|bob=Hi
",
};

/// A pull join is not kept, and is evaluated each time.
const PULLED: Row = Row {
    cells: 4,
    limit: 100,
    lines: "write t|<user>|<time>|<poster> = pull check s|<user>|<poster> copy p|<poster>|<time>
write s|ann|bob=1
write p|bob|100=Hi
read 3 t|ann| t|ann}
read 3 t|ann| t|ann}
",
    wanted: "1: t|ann|100|bob=Hi
1: t|ann|100|bob=Hi
",
};

/// A cell that stands past the position of a read is left alone, and is read later. It is brought forward over a post without
/// a mend, and is mended where a subscription came.
const EARLIER: Row = Row {
    cells: 4,
    limit: 100,
    lines: "write t|<user>|<time>|<poster> = check s|<user>|<poster> copy p|<poster>|<time>
write s|ann|bob=1
write p|bob|100=Hi
write p|bob|120=Yo
read 4 t|ann| t|ann}
read 3 t|ann| t|ann}
read 4 t|ann| t|ann}
write p|bob|130=Ho
read 5 t|ann| t|ann}
write p|cat|110=Ha
write s|ann|cat=1
read 7 t|ann| t|ann}
read 0 t|ann| t|ann}
",
    wanted: "1: t|ann|100|bob=Hi t|ann|120|bob=Yo
1: t|ann|100|bob=Hi
0: t|ann|100|bob=Hi t|ann|120|bob=Yo
0: t|ann|100|bob=Hi t|ann|120|bob=Yo t|ann|130|bob=Ho
1: t|ann|100|bob=Hi t|ann|110|cat=Ha t|ann|120|bob=Yo t|ann|130|bob=Ho
0:
",
};

/// A join over the output of another: what is read of that one is kept too.
const ONE_OVER_ANOTHER: Row = Row {
    cells: 4,
    limit: 100,
    lines: "write t|<user>|<time>|<poster> = check s|<user>|<poster> copy p|<poster>|<time>
write n|<user> = count t|<user>|<time>|<poster>
write s|ann|bob=1
write p|bob|100=Hi
read 4 n| n}
read 4 n| n}
read 4 t|ann| t|ann}
write p|bob|120=Yo
read 5 n| n}
read 4 n| n}
",
    wanted: "2: n|ann=1
0: n|ann=1
0: t|ann|100|bob=Hi
0: n|ann=2
2: n|ann=1
",
};

/// Another join is declared whose output the first one reads, so that the rank of the first one rises. The next read lets go of
/// the cell that it had and gives it another. A read before the change then gives it one for the earlier rank again, which the
/// next read after the change lets go.
const RAISED: Row = Row {
    cells: 4,
    limit: 100,
    lines: "write b|<x> = copy a|<x>
read 1 b| b}
write a|<x> = copy c|<x>
write c|1=A
read 3 b| b}
read 3 b| b}
read 1 b| b}
read 1 b| b}
read 3 b| b}
read 1 b| b}
",
    wanted: "1:
2: b|1=A
0: b|1=A
1:
0:
0: b|1=A
1:
",
};

/// The same with one cell: that of the earlier rank is let go, so that the join has it for its rank.
const RAISED_WITH_ONE_CELL: Row = Row {
    cells: 1,
    limit: 100,
    lines: "write a|<x> = copy b|<x>
read 1 a| a}
write b|<x> = copy c|<x>
write c|1=A
read 3 a| a}
read 3 a| a}
",
    wanted: "1:
2: a|1=A
0: a|1=A
",
};

/// The join whose output another reads is dropped, so that the rank of the other falls; it reads what was put there.
const FALLEN: Row = Row {
    cells: 2,
    limit: 100,
    lines: "write m|<x> = copy k|<x>
write a|<x> = copy m|<x>
write k|1=A
read 3 a| a}
write drop 1
write m|2=B
read 5 a| a}
read 5 a| a}
",
    wanted: "2: a|1=A
1: a|2=B
0: a|2=B
",
};

/// A join is dropped, and the cell that it had is another join's. A read before the drop then finds none free.
const DROPPED: Row = Row {
    cells: 1,
    limit: 100,
    lines: "write b|<x> = copy a|<x>
write a|1=A
read 2 b| b}
write drop 1
write d|<x> = copy a|<x>
read 4 d| d}
read 4 d| d}
read 2 b| b}
read 4 d| d}
",
    wanted: "1: b|1=A
1: d|1=A
0: d|1=A
1: b|1=A
0: d|1=A
",
};

/// The same text declared again is another join, with a cell of its own.
const DECLARED_AGAIN: Row = Row {
    cells: 4,
    limit: 100,
    lines: "write b|<x> = copy a|<x>
write a|1=A
read 2 b| b}
write drop 1
read 3 b| b}
write b|<x> = copy a|<x>
read 4 b| b}
read 4 b| b}
",
    wanted: "1: b|1=A
0:
1: b|1=A
0: b|1=A
",
};

/// Where there is one cell, one range is kept, until it is evicted. A cell that is not there is not evicted.
const ONE_CELL: Row = Row {
    cells: 1,
    limit: 100,
    lines: "write b|<x>|<y> = copy a|<x>|<y>
write a|1|1=A
write a|2|1=B
read 3 b|1| b|1}
read 3 b|2| b|2}
read 3 b|2| b|2}
read 3 b|1| b|1}
evict 0
read 3 b|2| b|2}
evict 7
read 3 b|2| b|2}
read 3 b|1| b|1}
read 3 b| b}
",
    wanted: "1: b|1|1=A
1: b|2|1=B
1: b|2|1=B
0: b|1|1=A
1: b|2|1=B
0: b|2|1=B
1: b|1|1=A
2: b|1|1=A b|2|1=B
",
};

/// To make room the cell goes that was used least recently, and where there is one, that one. Where there is none nothing goes.
const ROOM: Row = Row {
    cells: 4,
    limit: 100,
    lines: "room cells
write b|<x>|<y> = copy a|<x>|<y>
write a|1|1=A
write a|2|1=B
read 3 b|1| b|1}
read 3 b|2| b|2}
read 3 b|1| b|1}
room cells
read 3 b|1| b|1}
read 3 b|2| b|2}
room cells
read 3 b|2| b|2}
room cells
room cells
read 3 b|2| b|2}
read 3 b|1| b|1}
",
    wanted: "none
1: b|1|1=A
1: b|2|1=B
0: b|1|1=A
some went
0: b|1|1=A
1: b|2|1=B
some went
0: b|2|1=B
some went
none
1: b|2|1=B
1: b|1|1=A
",
};

/// A put of a pair that a kept range reads marks its cell, a turn brings it forward, and the next read passes no gate. A pair that
/// no kept range reads marks none. A subscription is pending once its cell was brought forward, and the posts of who is
/// subscribed mark the cell once that is mended. An evicted cell is not marked.
const TURNED: Row = Row {
    cells: 1,
    limit: 100,
    lines: "write t|<user>|<time>|<poster> = check s|<user>|<poster> copy p|<poster>|<time>
write s|ann|bob=1
write p|bob|100=Hi
read 3 t|ann| t|ann}
turn cells
write p|bob|120=Yo
turn cells
turn cells
read 4 t|ann| t|ann}
write p|cat|110=Ha
turn cells
write s|ann|cat=1
turn cells
read 6 t|ann| t|ann}
write p|cat|130=Ho
turn cells
read 7 t|ann| t|ann}
evict 0
write p|bob|140=No
turn cells
read 8 t|ann| t|ann}
",
    wanted: "1: t|ann|100|bob=Hi
idle
brought 0 to 4
idle
0: t|ann|100|bob=Hi t|ann|120|bob=Yo
idle
brought 0 to 6
1: t|ann|100|bob=Hi t|ann|110|cat=Ha t|ann|120|bob=Yo
brought 0 to 7
0: t|ann|100|bob=Hi t|ann|110|cat=Ha t|ann|120|bob=Yo t|ann|130|cat=Ho
idle
1: t|ann|100|bob=Hi t|ann|110|cat=Ha t|ann|120|bob=Yo t|ann|130|cat=Ho t|ann|140|bob=No
",
};

/// A vote marks the cell of the counter, and that of the page over it, since the votes were read for both.
const TURNED_OVER_ANOTHER: Row = Row {
    cells: 2,
    limit: 100,
    lines: "write karma|<a> = count vote|<a>|<id>|<voter>
write page|<a>|<id>|k = check art|<a>|<id> copy karma|<a>
write art|bob|1=T
write vote|bob|1|ann=1
read 4 page|bob| page|bob}
write vote|bob|1|cat=1
turn cells
turn cells
turn cells
read 5 page|bob| page|bob}
",
    wanted: "2: page|bob|1|k=1
brought 0 to 5
brought 1 to 5
idle
0: page|bob|1|k=2
",
};

/// Of what is counted for many the cell of one key follows what is counted for that one alone: a vote for another marks no cell.
const TURNED_ONE_KEY: Row = Row {
    cells: 4,
    limit: 100,
    lines: "write karma|<a> = count vote|<a>|<id>|<voter>
write vote|bob|1|ann=1
write vote|cat|1|ann=1
read 3 karma|bob karma|bob\0
write vote|cat|1|dan=1
turn cells
write vote|bob|1|dan=1
turn cells
turn cells
read 5 karma|bob karma|bob\0
",
    wanted: "1: karma|bob=1
idle
brought 0 to 5
idle
0: karma|bob=2
",
};

/// A turn lets go of a cell for a rank that its join has no more, also of one that is marked.
const TURNED_RAISED: Row = Row {
    cells: 4,
    limit: 100,
    lines: "write b|<x>|<y> = check s|<x> copy a|<x>|<y>
read 1 b| b}
write a|<x>|<y> = copy c|<x>|<y>
write s|1=1
turn cells
write c|1|2=A
read 4 b| b}
read 1 b| b}
",
    wanted: "1:
idle
2: b|1|2=A
1:
",
};

/// The same of the cell of a join that was dropped.
const TURNED_DROPPED: Row = Row {
    cells: 4,
    limit: 100,
    lines: "write b|<x> = copy a|<x>
write a|1=A
read 2 b| b}
write drop 1
write a|2=B
turn cells
",
    wanted: "1: b|1=A
idle
",
};

/// A read afresh asks for the base pairs of the range, of which there are none, and for one pair of each source. What is kept
/// is read again with the first of these questions, and one for the row.
const KEPT_COST: Row = Row {
    cells: 4,
    limit: 100,
    lines: "write t|<user>|<time>|<poster> = check s|<user>|<poster> copy p|<poster>|<time>
write s|ann|bob=1
write p|bob|100=Hi
least 5 3 t|ann| t|ann}
most 3 3 t|ann| t|ann}
",
    wanted: "",
};

/// After a turn a read finds its two rows as they are kept.
const TURNED_COST: Row = Row {
    cells: 4,
    limit: 100,
    lines: "write t|<user>|<time>|<poster> = check s|<user>|<poster> copy p|<poster>|<time>
write s|ann|bob=1
write p|bob|100=Hi
read 3 t|ann| t|ann}
write p|bob|120=Yo
turn cells
most 4 4 t|ann| t|ann}
",
    wanted: "1: t|ann|100|bob=Hi
brought 0 to 4
",
};

/// Without one it asks both sources what changed, and is told of the post, before it reads them.
const BEHIND_COST: Row = Row {
    cells: 4,
    limit: 100,
    lines: "write t|<user>|<time>|<poster> = check s|<user>|<poster> copy p|<poster>|<time>
write s|ann|bob=1
write p|bob|100=Hi
read 3 t|ann| t|ann}
write p|bob|120=Yo
least 7 4 t|ann| t|ann}
",
    wanted: "1: t|ann|100|bob=Hi
",
};

/// All of them.
pub const ROWS: [Row; 22] = [
    KEPT,
    TOO_HEAVY,
    USED_LEAST,
    PULLED,
    EARLIER,
    ONE_OVER_ANOTHER,
    RAISED,
    RAISED_WITH_ONE_CELL,
    FALLEN,
    DROPPED,
    DECLARED_AGAIN,
    ONE_CELL,
    ROOM,
    TURNED,
    TURNED_OVER_ANOTHER,
    TURNED_ONE_KEY,
    TURNED_RAISED,
    TURNED_DROPPED,
    KEPT_COST,
    TOO_HEAVY_COST,
    TURNED_COST,
    BEHIND_COST,
];
