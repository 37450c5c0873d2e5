// What is kept where few rows may be, and where a join is pulled: an event that evicts a cell tells whether it held something.
use crate::plain::show_plain;
use crate::script::read_events;
use crate::showing::{show_all, show_scans};
use std::alloc::Global;
use std::test::Fail;

/// How many rows may be kept, and one more for each range; events, and the answers to them, a line each.
#[derive(Drop)]
struct Row {
    limit: u64,
    events: &'static str,
    answers: &'static str,
}

/// A range of one row weighs two: it goes at once.
const TOO_HEAVY: Row = Row {
    limit: 1,
    events: "write b|<x>|<y> = copy a|<x>|<y>
write a|1|1=A
begin 1 b|1| b|1}
piece 1 b|1}
finish 1
evict 0
",
    answers: "ok 1
ok 2
begun 2
answered
finished 2 b|1|1=A
nothing
",
};

/// Of two ranges that weigh four together the one goes that was used less lately, and the next range takes its cell.
const LEAST_LATELY_USED: Row = Row {
    limit: 3,
    events: "write b|<x>|<y> = copy a|<x>|<y>
write a|1|1=A
write a|2|1=B
begin 1 b|1| b|1}
piece 1 b|1}
finish 1
begin 1 b|2| b|2}
piece 1 b|2}
finish 1
mend 0 b| b}
mend 1 b| b}
begin 1 b|3| b|3}
piece 1 b|3}
finish 1
mend 0 b| b}
mend 1 b| b}
evict 2
",
    answers: "ok 1
ok 2
ok 3
begun 3
answered
finished 3 b|1|1=A
begun 3
answered
finished 3 b|2|1=B
nothing
mended
begun 3
answered
finished 3
mended
mended
nothing
",
};

/// What a pulled join gives is not kept.
const PULLED: Row = Row {
    limit: 100000,
    events: "write b|<x>|<y> = pull copy a|<x>|<y>
write a|1|1=A
begin 1 b|1| b|1}
piece 1 b|1}
finish 1
evict 0
",
    answers: "ok 1
ok 2
begun 2
answered
finished 2 b|1|1=A
nothing
",
};

/// A core with 16 cells keeps what it may, and no more.
#[test]
fn limited_events(rt: HostRuntime) -> Result<(), Fail> {
    let alloc = rt.alloc();
    for row in &[TOO_HEAVY, LEAST_LATELY_USED, PULLED] {
        let events = read_events(&rt, alloc, row.events)?;
        let shown = show_all(alloc, 16, row.limit, events)?;
        assert_eq!(rt; shown.as_str(), row.answers);
    }
    Ok(())
}

/// Seventy ranges that are kept, a scan over all of them, and then an event that evicts the next cell, and one that evicts the
/// last of the seventy.
fn many_ranges(alloc: Global) -> Result<String, Fail> {
    let mut text = String::from_str(alloc, "write b|<x>|<y> = copy a|<x>|<y>\n")?;
    for number in 10..80_u64 {
        let write = format!(in alloc; "write a|{number}|1=A\n")?;
        let begin = format!(in alloc; "begin 1 b|{number}| b|{number}}}\n")?;
        let end = format!(in alloc; "piece 1 b|{number}}}\nfinish 1\n")?;
        text.push_str(write.as_str())?;
        text.push_str(begin.as_str())?;
        text.push_str(end.as_str())?;
    }
    text.push_str("begin 1 b| b}\npiece 1 b}\nfinish 1\nevict 70\nevict 69\n")?;
    Ok(text)
}

/// Of a range in very many parts none of the gaps gets a cell.
#[test]
fn many_parts(rt: HostRuntime) -> Result<(), Fail> {
    let alloc = rt.alloc();
    let lines = many_ranges(alloc)?;
    let shown = show_all(
        alloc,
        1024,
        100000,
        read_events(&rt, alloc, lines.as_str())?,
    )?;
    assert!(rt; shown.as_str().ends_with("nothing\nevicted\n"));
    let scans = show_scans(
        alloc,
        1024,
        100000,
        read_events(&rt, alloc, lines.as_str())?,
    )?;
    let plain = show_plain(alloc, read_events(&rt, alloc, lines.as_str())?)?;
    assert_eq!(rt; scans.as_str(), plain.as_str());
    Ok(())
}
