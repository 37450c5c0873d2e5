// Kept ranges of one key: what it costs to fill and to follow them, and what they answer.

use crate::generated::{Dice, GROUPS, NUMBERS, POSTS, roll_lines, roll_script};
use crate::played::play;
use crate::telling::{read_key, read_range, tell};
use key_space::Range;
use std::alloc::Global;
use std::marker::Brand;
use std::process::Abort;
use std::sync::ledger::Blank;
use std::test::Fail;

const POST: &str = "t|<user>|<time>|<poster> = check s|<user>|<poster> copy p|<poster>|<time>
s|ann|bob=1
p|bob|100=Hi";

const POST_LATER: &str = "s|ann|dan=1
p|dan|100=No
p|bob|100=Ho
s|ann|bob";

const KARMA: &str = "votes|<author>|<post> = count vote|<author>|<post>|<voter>
karma|<author> = sum votes|<author>|<post>
vote|bob|1|ann=1
vote|bob|2|ann=1";

const KARMA_LATER: &str = "vote|dan|1|ann=1
vote|bob|1|cat=1";

/// The first lines of a history, what stands before and behind the number of each of many others, the last lines, the key that
/// is kept, calls, and what they answer however many others there are.
struct Row {
    first: &'static str,
    other: [&'static str; 2],
    last: &'static str,
    key: &'static str,
    script: &'static str,
    wanted: &'static str,
}

const ROWS: [Row; 4] = [
    Row {
        // For the fill one and two posts' votes. For the vote of another author one; for one of bob's one, and one for the key,
        // which comes with its value.
        first: KARMA,
        other: ["vote|u", "|1|ann=1"],
        last: KARMA_LATER,
        key: "karma|bob",
        script: "fill 44, count, read, advance 45, count, since 44, advance 46, count, since 45, read",
        wanted: " 3; karma|bob=2; 1;; 2; karma|bob; karma|bob=3;",
    },
    Row {
        // For the fill two for what is followed and two for the post. For another poster one for each of both needs; for a new
        // value one more, as it comes with its key; for an end of following one more, and one to mend it.
        first: POST,
        other: ["s|ann|u", "=1"],
        last: POST_LATER,
        key: "t|ann|100|bob",
        script: "fill 43, count, read, advance 45, count, since 43, advance 46, count, since 45, read, advance 47, count, mend, count, read",
        wanted: " 4; t|ann|100|bob=Hi; 2;; 3; t|ann|100|bob; t|ann|100|bob=Ho; 3; 1;;",
    },
    Row {
        // A key that does not fit is not looked for, and nothing is followed.
        first: POST,
        other: ["s|ann|u", "=1"],
        last: POST_LATER,
        key: "t|ann|100",
        script: "fill 43, count, read, advance 47, count, since 43, read",
        wanted: " 0;; 0;;;",
    },
    Row {
        first: POST,
        other: ["s|ann|u", "=1"],
        last: POST_LATER,
        key: "t|eve|100|bob",
        script: "fill 43, count, read, advance 47, count, since 43, read",
        wanted: " 1;; 1;;;",
    },
];

/// The row's first lines, then 40 of which so many are the row's others and the rest of a table that nothing reads, and its last
/// lines.
fn lines_of(alloc: Global, row: &Row, others: u64) -> Result<String, Fail> {
    let mut lines = String::new(alloc);
    lines.push_str(row.first)?;
    for number in 0..40_u64 {
        let line = if number < others {
            format!(in alloc; "\n{}{number}{}", row.other[0], row.other[1])?
        } else {
            format!(in alloc; "\nz|{number}=1")?
        };
        lines.push_str(line.as_str())?;
    }
    lines.push('\n')?;
    lines.push_str(row.last)?;
    Ok(lines)
}

/// Plays the row among so many others.
fn play_among(rt: &impl Abort, alloc: Global, row: &Row, others: u64) -> Result<(), Fail> {
    let lines = lines_of(alloc, row, others)?;
    let range = Range::just(alloc, &read_key(rt, alloc, row.key))?;
    let told = tell(rt, alloc, lines.as_str())?;
    let calls = (&range, &range, row.script);
    let shown = play::<Brand>(rt, alloc, told, calls, Blank::new(1))?;
    assert_eq!(rt; shown.as_str(), row.wanted, "{} among {others}", row.key);
    Ok(())
}

/// What is read and followed for one key does not grow with what stands under other keys.
#[test]
fn worked_single_keys(rt: HostRuntime) -> Result<(), Fail> {
    let alloc = rt.alloc();
    for row in ROWS.iter() {
        play_among(&rt, alloc, row, 0)?;
        play_among(&rt, alloc, row, 1)?;
        play_among(&rt, alloc, row, 40)?;
    }
    Ok(())
}

/// Over generated histories each read of one key is what evaluation afresh gives.
#[test]
fn generated_single_keys(rt: HostRuntime) -> Result<(), Fail> {
    let alloc = rt.alloc();
    let mut dice = Dice { state: 11 };
    for round in 0..600_u64 {
        let (lines, low, high) = match round % 3 {
            0 => (&POSTS, "t|ann|1|bob", "t|ann|1|bob\0"),
            1 => (&GROUPS, "t|ann|7", "t|ann|7\0"),
            _ => (&NUMBERS, "t|ann|x", "t|ann|x\0"),
        };
        let range = read_range(&rt, alloc, low, high);
        let text = roll_lines(alloc, lines, &mut dice)?;
        let told = tell(&rt, alloc, text.as_str())?;
        let (script, wanted) = roll_script(&rt, alloc, &told, &range, &mut dice)?;
        let calls = (&range, &range, script.as_str());
        let shown = play::<Brand>(&rt, alloc, told, calls, Blank::new(1))?;
        assert_eq!(rt; shown.as_str(), wanted.as_str(), "round {round}");
    }
    Ok(())
}
