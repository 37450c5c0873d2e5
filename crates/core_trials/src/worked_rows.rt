// Worked lists of events.

/// Events, and the answers to them, a line each.
#[derive(Drop)]
pub struct Row {
    /// The events.
    pub events: &'static str,
    /// The answers.
    pub answers: &'static str,
}

/// Scans in pieces, between which a cell is brought past a scan under way and one is evicted.
const OVERTAKEN: Row = Row {
    events: "write t|<u>|<n>|<w> = check s|<u>|<w> copy p|<w>|<n>
write s|ann|bob=1
write p|bob|1=A
write s|cat|bob=1
begin 1 t| t}
piece 1 t|b
piece 1 t}
finish 1
begin 2 t| t}
piece 2 t|b
write p|bob|2=B
advance 1 5
evict 0
piece 2 t}
finish 2
begin 3 t| t}
piece 3 t}
finish 3
finish 3
",
    answers: "ok 1
ok 2
ok 3
ok 4
begun 4
answered
answered
finished 4 t|ann|1|bob=A t|cat|1|bob=A
begun 4
answered
ok 5
brought
evicted
answered
finished 4 t|ann|1|bob=A t|cat|1|bob=A
begun 5
answered
finished 5 t|ann|1|bob=A t|ann|2|bob=B t|cat|1|bob=A t|cat|2|bob=B
nothing
",
};

/// A count that is brought past two scans under way, and evicted between the pieces of one.
const COUNTED: Row = Row {
    events: "write karma|<a> = count vote|<a>|<id>|<voter>
write vote|bob|1|ann=1
begin 1 karma| karma}
piece 1 karma|c
begin 2 karma| karma}
write vote|bob|1|cat=1
write vote|dan|1|cat=1
advance 0 4
piece 2 karma}
finish 2
evict 0
piece 1 karma}
finish 1
begin 1 karma| karma}
piece 1 karma}
finish 1
",
    answers: "ok 1
ok 2
begun 2
answered
begun 2
ok 3
ok 4
brought
answered
finished 2 karma|bob=1
evicted
answered
finished 2 karma|bob=1
begun 4
answered
finished 4 karma|bob=2 karma|dan=1
",
};

/// A cell that is advanced over a removed check and a post behind it, and mended.
const MENDED: Row = Row {
    events: "write t|<user>|<time>|<poster> = check s|<user>|<poster> copy p|<poster>|<time>
write s|ann|bob=1
write p|bob|100=Hi
begin 1 t|ann| t|ann}
piece 1 t|ann}
finish 1
write s|ann|bob
advance 0 4
write p|bob|130=No
advance 0 5
advance 0 4
advance 0 6
mend 0 t|ann| t|ann}
mend 1 t|ann| t|ann}
evict 1
begin 1 t|ann| t|ann}
piece 1 t|ann}
finish 1
",
    answers: "ok 1
ok 2
ok 3
begun 3
answered
finished 3 t|ann|100|bob=Hi
ok 4
brought
ok 5
brought
nothing
nothing
mended
nothing
nothing
begun 5
answered
finished 5
",
};

/// Eight joins, each of which but the first reads the one before, with a stored pair beside them, through one scan.
const EIGHT: Row = Row {
    events: "write r|0|<x> = copy i|<x>
write r|1|<x> = copy r|0|<x>
write r|2|<x> = copy r|1|<x>
write r|3|<x> = copy r|2|<x>
write r|4|<x> = copy r|3|<x>
write r|5|<x> = copy r|4|<x>
write r|6|<x> = copy r|5|<x>
write r|7|<x> = copy r|6|<x>
write r|8|<x> = copy r|7|<x>
write i|a=A
write r|9|z=S
begin 1 r| r}
piece 1 r|4|
write i|a=B
piece 1 r}
finish 1
begin 1 r| r}
piece 1 r}
finish 1
write r|3|a=C
",
    answers: "ok 1
ok 2
ok 3
ok 4
ok 5
ok 6
ok 7
ok 8
no 8 Deep
ok 9
ok 10
begun 10
answered
ok 11
answered
finished 10 r|0|a=A r|1|a=A r|2|a=A r|3|a=A r|4|a=A r|5|a=A r|6|a=A r|7|a=A r|9|z=S
begun 11
answered
finished 11 r|0|a=B r|1|a=B r|2|a=B r|3|a=B r|4|a=B r|5|a=B r|6|a=B r|7|a=B r|9|z=S
no 11 Computed(4)
",
};

/// A range that reads another, which is evicted twice.
const LOWEST_EVICTED: Row = Row {
    events: "write b|<x> = copy a|<x>
write c|<x> = copy b|<x>
write a|1=X
begin 1 b| b}
piece 1 b}
finish 1
begin 1 c| c}
piece 1 c}
finish 1
evict 0
write a|2=Y
begin 1 c| c}
piece 1 c}
finish 1
evict 0
write a|1
begin 1 c| c}
piece 1 c}
finish 1
",
    answers: "ok 1
ok 2
ok 3
begun 3
answered
finished 3 b|1=X
begun 3
answered
finished 3 c|1=X
evicted
ok 4
begun 4
answered
finished 4 c|1=X c|2=Y
evicted
ok 5
begun 5
answered
finished 5 c|2=Y
",
};

/// A join that reads a count.
const PAGE: Row = Row {
    events: "write karma|<a> = count vote|<a>|<id>|<voter>
write page|<a>|<id>|k = check art|<a>|<id> copy karma|<a>
write art|bob|1=T
write vote|bob|1|ann=1
begin 1 page|bob| page|bob}
piece 1 page|bob}
finish 1
write vote|bob|1|cat=1
begin 1 page|bob| page|bob}
piece 1 page|bob}
finish 1
",
    answers: "ok 1
ok 2
ok 3
ok 4
begun 4
answered
finished 4 page|bob|1|k=1
ok 5
begun 5
answered
finished 5 page|bob|1|k=2
",
};

/// Two joins and stored pairs side by side in one range.
const SIDE_BY_SIDE: Row = Row {
    events: "write x|<a>|k = copy i|<a>
write x|m|<b> = copy j|<b>
write x|<a>|q = copy j|<a>
write i|1=I
write j|1=J
write x|1|s=S
write x|1|k=no
begin 1 x| x}
piece 1 x|1|l
write j|1
write i|0=O
piece 1 x}
finish 1
begin 1 x| x}
piece 1 x}
finish 1
",
    answers: "ok 1
no 1 Clash(1)
ok 2
ok 3
ok 4
ok 5
no 5 Computed(1)
begun 5
answered
ok 6
ok 7
answered
finished 5 x|1|k=I x|1|q=J x|1|s=S
begun 7
answered
finished 7 x|0|k=O x|1|k=I x|1|s=S
",
};

/// Declarations between the pieces of scans, and one after a put.
const DECLARED_BETWEEN: Row = Row {
    events: "write b|<x> = copy a|<x>
begin 1 b| b}
piece 1 b|m
write b|<x>|c = copy b|<x>
begin 2 b| b}
write a|1=X
write c|<x> = copy a|<x>
piece 1 b}
piece 2 b}
finish 1
finish 2
begin 1 b| b}
piece 1 b|m
write a|n=Y
piece 1 b}
finish 1
",
    answers: "ok 1
begun 1
answered
ok 2
begun 2
ok 3
ok 4
answered
answered
finished 1
finished 2
begun 4
answered
ok 5
answered
finished 4 b|1=X b|1|c=X
",
};

/// A join that is dropped between the pieces of a scan, which shows what stood where it began.
const DROPPED_BETWEEN: Row = Row {
    events: "write b|1=base
write a|1=A
write b|<x> = copy a|<x>
begin 1 b| b}
piece 1 b|1|
write drop 3
begin 2 b| b}
piece 2 b}
finish 2
piece 1 b}
finish 1
write drop 3
begin 1 b| b}
write b|<x> = count a|<x>
begin 2 b| b}
piece 1 b}
piece 2 b}
finish 1
finish 2
",
    answers: "ok 1
ok 2
ok 3
begun 3
answered
ok 4
begun 4
answered
finished 4 b|1=base
answered
finished 3 b|1=A
no 4 NoJoin
begun 4
ok 5
begun 5
answered
answered
finished 4 b|1=base
finished 5 b|1=1
",
};

/// Two joins of which first one and then the other stands above, with a scan under way from before.
const TURNED_ROUND: Row = Row {
    events: "write n|1=N
write m|2=M
write a|<x> = copy m|<x>
write m|<x> = copy k|<x>
write k|<x> = copy n|<x>
begin 1 a| a}
piece 1 a}
finish 1
begin 1 k| k}
piece 1 k}
finish 1
begin 2 a| a}
piece 2 a|1|
write drop 4
write n|<x> = copy a|<x>
begin 1 k| k}
piece 1 k}
finish 1
write m|3=L
begin 1 k| k}
piece 1 k}
finish 1
begin 1 a| a}
piece 1 a}
finish 1
piece 2 a}
finish 2
",
    answers: "ok 1
ok 2
ok 3
ok 4
ok 5
begun 5
answered
finished 5 a|1=N
begun 5
answered
finished 5 k|1=N
begun 5
answered
ok 6
ok 7
begun 7
answered
finished 7 k|2=M
ok 8
begun 8
answered
finished 8 k|2=M k|3=L
begun 8
answered
finished 8 a|2=M a|3=L
answered
finished 5 a|1=N
",
};

/// Steps of scans that do nothing, and a scan over no keys, which finishes without a piece.
const NOTHING_TO_DO: Row = Row {
    events: "begin 1 k| k}
begin 1 k|a k|b
piece 2 k}
piece 1 k|
finish 1
piece 1 k}
piece 1 k}
evict 0
finish 1
finish 1
begin 1 k|a k|a
finish 1
",
    answers: "begun 0
nothing
nothing
nothing
nothing
answered
nothing
nothing
finished 0
nothing
begun 0
finished 0
",
};

/// All of them.
pub const ROWS: [Row; 11] = [
    OVERTAKEN,
    COUNTED,
    MENDED,
    EIGHT,
    LOWEST_EVICTED,
    PAGE,
    SIDE_BY_SIDE,
    DECLARED_BETWEEN,
    DROPPED_BETWEEN,
    TURNED_ROUND,
    NOTHING_TO_DO,
];
