// What one thread reads, as in the other rows, where a cell stands some 65,536 entries behind.
use crate::kept_rows::Row;

/// A cell that stands 65,536 entries before the last is brought forward. Once the parts are settled, reads at the floor and just
/// above find what stood there, and so does one at the end.
const JUST_NEAR: Row = Row {
    cells: 4,
    limit: 100,
    lines: "write t|<user>|<time>|<poster> = check s|<user>|<poster> copy p|<poster>|<time>
write s|ann|bob=1
write p|bob|100=Hi
read 3 t|ann| t|ann}
write p|bob|120=Yo
often 65535 k|a=1
settle parts
read 65539 t|ann| t|ann}
read 3 t|ann| t|ann}
read 4 t|ann| t|ann}
read 3 k| k}
read 5 k| k}
read 65539 k| k}
",
    wanted: "1: t|ann|100|bob=Hi
65536 kept
0: t|ann|100|bob=Hi t|ann|120|bob=Yo
1: t|ann|100|bob=Hi
1: t|ann|100|bob=Hi t|ann|120|bob=Yo
0:
0: k|a=1
0: k|a=1
",
};

/// One that stands 65,537 entries before the last is forgotten and filled.
const TOO_FAR: Row = Row {
    cells: 4,
    limit: 100,
    lines: "write t|<user>|<time>|<poster> = check s|<user>|<poster> copy p|<poster>|<time>
write s|ann|bob=1
write p|bob|100=Hi
read 3 t|ann| t|ann}
write p|bob|120=Yo
often 65536 k|a=1
settle parts
read 65540 t|ann| t|ann}
read 65540 t|ann| t|ann}
",
    wanted: "1: t|ann|100|bob=Hi
65536 kept
1: t|ann|100|bob=Hi t|ann|120|bob=Yo
0: t|ann|100|bob=Hi t|ann|120|bob=Yo
",
};

/// A turn lets go of what such a cell keeps and fills it, so that the next read need not.
const TURNED_TOO_FAR: Row = Row {
    cells: 1,
    limit: 100,
    lines: "write t|<user>|<time>|<poster> = check s|<user>|<poster> copy p|<poster>|<time>
write s|ann|bob=1
write p|bob|100=Hi
read 3 t|ann| t|ann}
often 65536 k|a=1
write p|bob|120=Yo
turn cells
read 65540 t|ann| t|ann}
turn cells
",
    wanted: "1: t|ann|100|bob=Hi
brought 0 to 65540
0: t|ann|100|bob=Hi t|ann|120|bob=Yo
idle
",
};

/// A cell over another is forgotten with it, and both are filled.
const BOTH_TOO_FAR: Row = Row {
    cells: 4,
    limit: 100,
    lines: "write t|<user>|<time>|<poster> = check s|<user>|<poster> copy p|<poster>|<time>
write n|<user> = count t|<user>|<time>|<poster>
write s|ann|bob=1
write p|bob|100=Hi
read 4 n| n}
often 65537 k|a=1
read 65541 n| n}
read 65541 n| n}
",
    wanted: "2: n|ann=1
2: n|ann=1
0: n|ann=1
",
};

/// All of them.
pub const FAR_ROWS: [Row; 4] = [JUST_NEAR, TOO_FAR, TURNED_TOO_FAR, BOTH_TOO_FAR];
