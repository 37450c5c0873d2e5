// Ranges that come from several ranges of their sources: what one thread reads of them, how often each read passes the gate, and
// how many steps one takes at least.

use crate::kept_rows::Row;

/// A range is kept while it comes from three ranges of its sources. A fourth does not fit: it is mended in vain, filled, and let
/// go, and then evaluated each time. Once three are left it is kept again.
const TOO_WIDE: Row = Row {
    cells: 4,
    limit: 3,
    lines: "write t|<user>|<time>|<poster> = check s|<user>|<poster> copy p|<poster>|<time>
write s|ann|bob=1
write s|ann|cat=1
write p|bob|100=Hi
read 4 t|ann| t|ann}
read 4 t|ann| t|ann}
write s|ann|dan=1
read 5 t|ann| t|ann}
read 5 t|ann| t|ann}
write s|ann|dan
read 6 t|ann| t|ann}
read 6 t|ann| t|ann}
",
    wanted: "1: t|ann|100|bob=Hi
0: t|ann|100|bob=Hi
2: t|ann|100|bob=Hi
1: t|ann|100|bob=Hi
1: t|ann|100|bob=Hi
0: t|ann|100|bob=Hi
",
};

/// Where five would be kept once what is pending is mended, and filling takes four, it is mended in vain, filled, and kept.
const TOO_WIDE_TO_MEND: Row = Row {
    cells: 4,
    limit: 4,
    lines: "write t|<user>|<time>|<poster> = check s|<user>|<poster> copy p|<poster>|<time>
write s|ann|bob=1
write s|ann|cat=1
write p|bob|100=Hi
read 4 t|ann| t|ann}
write s|ann|dan=1
read 5 t|ann| t|ann}
read 5 t|ann| t|ann}
",
    wanted: "1: t|ann|100|bob=Hi
2: t|ann|100|bob=Hi
0: t|ann|100|bob=Hi
",
};

/// What a join that is not kept gives may have changed anywhere, so that a turn fills the range over it. Where it does not fit any
/// more, its cell is evicted, and a later put marks none.
const TURNED_TOO_WIDE: Row = Row {
    cells: 1,
    limit: 3,
    lines: "write g|<user>|<poster> = pull copy s|<user>|<poster>
write t|<user>|<time>|<poster> = check g|<user>|<poster> copy p|<poster>|<time>
write s|ann|bob=1
write s|ann|cat=1
write p|bob|100=Hi
read 5 t|ann| t|ann}
turn cells
write s|ann|dan=1
turn cells
turn cells
write p|bob|120=Yo
turn cells
read 7 t|ann| t|ann}
",
    wanted: "2: t|ann|100|bob=Hi
idle
too wide 0
idle
idle
2: t|ann|100|bob=Hi t|ann|120|bob=Yo
",
};

/// The one cell goes to a part of a range that could not be kept, which is.
const TOO_WIDE_GIVES_WAY: Row = Row {
    cells: 1,
    limit: 3,
    lines: "write t|<user>|<time>|<poster> = check s|<user>|<poster> copy p|<poster>|<time>
write s|ann|bob=1
write s|cat|bob=1
write s|dan|bob=1
write p|bob|100=Hi
read 5 t| t}
read 5 t|ann| t|ann}
read 5 t|ann| t|ann}
",
    wanted: "1: t|ann|100|bob=Hi t|cat|100|bob=Hi t|dan|100|bob=Hi
1: t|ann|100|bob=Hi
0: t|ann|100|bob=Hi
",
};

/// A range that comes from the posts of six posters is brought forward over a post of one of them, one that is taken away, one in
/// place of another, and one of somebody else.
const MANY_POSTERS: Row = Row {
    cells: 4,
    limit: 100,
    lines: "write t|<user>|<time>|<poster> = check s|<user>|<poster> copy p|<poster>|<time>
write s|ann|a=1
write s|ann|b=1
write s|ann|c=1
write s|ann|d=1
write s|ann|e=1
write s|ann|f=1
write p|a|100=A
write p|f|100=F
read 9 t|ann| t|ann}
write p|e|110=E
write p|a|100
write p|f|100=G
write p|x|100=X
read 13 t|ann| t|ann}
read 9 t|ann| t|ann}
write p|d|120=D
read 14 t|ann| t|ann}
",
    wanted: "1: t|ann|100|a=A t|ann|100|f=F
0: t|ann|100|f=G t|ann|110|e=E
1: t|ann|100|a=A t|ann|100|f=F
0: t|ann|100|f=G t|ann|110|e=E t|ann|120|d=D
",
};

/// To bring it forward it asks what changed in each of the seven ranges, and is told of three posts.
const MANY_POSTERS_COST: Row = Row {
    cells: 4,
    limit: 100,
    lines: "write t|<user>|<time>|<poster> = check s|<user>|<poster> copy p|<poster>|<time>
write s|ann|a=1
write s|ann|b=1
write s|ann|c=1
write s|ann|d=1
write s|ann|e=1
write s|ann|f=1
write p|a|100=A
write p|f|100=F
read 9 t|ann| t|ann}
write p|e|110=E
write p|a|100
write p|f|100=G
least 10 12 t|ann| t|ann}
",
    wanted: "1: t|ann|100|a=A t|ann|100|f=F
",
};

/// All of them.
pub const WIDE_ROWS: [Row; 6] = [
    TOO_WIDE,
    TOO_WIDE_TO_MEND,
    TURNED_TOO_WIDE,
    TOO_WIDE_GIVES_WAY,
    MANY_POSTERS,
    MANY_POSTERS_COST,
];
