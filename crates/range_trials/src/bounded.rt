// Ranges that may come from so many ranges of their sources, and are not kept where they come from more.
use crate::played::play;
use crate::telling::{read_range, tell};
use std::marker::Brand;
use std::process::Abort;
use std::sync::ledger::Blank;
use std::test::Fail;

/// Whom ann follows, who is one more and then one fewer again. A need for that, and one for each whom she follows.
const FOLLOWS: &str = "t|<user>|<time>|<poster> = check s|<user>|<poster> copy p|<poster>|<time>
s|ann|bob=1
s|ann|cat=1
p|bob|100=Hi
s|ann|dan=1
s|ann|dan";

/// Votes for bob, which are all in the range of one need.
const VOTES: &str = "karma|<a> = count vote|<a>|<id>|<voter>
vote|bob|1|ann=1
vote|bob|1|cat=1
vote|bob|1|ann=2
vote|bob|1|ann";

/// A history by its lines, the bounds of a range, calls on it, and what they answer.
struct Row {
    lines: &'static str,
    low: &'static str,
    high: &'static str,
    script: &'static str,
    wanted: &'static str,
}

const ROWS: [Row; 5] = [
    Row {
        lines: FOLLOWS,
        low: "t|ann|",
        high: "t|ann}",
        script: "most 2, bounded 4, most 3, bounded 4, read, advance 5, mend, bounded 5, bounded 6, read",
        wanted: " t|ann|100|bob=Hi; t|ann|100|bob=Hi; wide; t|ann|100|bob=Hi; t|ann|100|bob=Hi;",
    },
    Row {
        // A fill ends at the third need, and one that finds no memory says so.
        lines: FOLLOWS,
        low: "t|ann|",
        high: "t|ann}",
        script: "most 2, fill 4, refuse 1, fill 4, most 3, fill 4, read",
        wanted: " wide; memory; t|ann|100|bob=Hi;",
    },
    Row {
        // Three needs were there, and two more are found where it is mended, which is one too many; filling it takes four.
        lines: FOLLOWS,
        low: "t|ann|",
        high: "t|ann}",
        script: "most 4, fill 4, advance 5, mend, fill 5, read",
        wanted: " wide; t|ann|100|bob=Hi;",
    },
    Row {
        lines: FOLLOWS,
        low: "t|ann|",
        high: "t|ann}",
        script: "most 5, fill 4, advance 5, mend, read, advance 6, mend, read",
        wanted: " t|ann|100|bob=Hi; t|ann|100|bob=Hi;",
    },
    Row {
        lines: VOTES,
        low: "karma|",
        high: "karma}",
        script: "most 0, bounded 4, most 1, bounded 4, read, advance 5, read",
        wanted: " karma|bob=2; karma|bob=2; karma|bob=1;",
    },
];

/// Each script is answered as it was worked out.
#[test]
fn ranges_that_are_too_wide(rt: HostRuntime) -> Result<(), Fail> {
    let alloc = rt.alloc();
    for row in ROWS.iter() {
        let range = read_range(&rt, alloc, row.low, row.high);
        let told = tell(&rt, alloc, row.lines)?;
        let shown = play::<Brand>(
            &rt,
            alloc,
            told,
            (&range, &range, row.script),
            Blank::new(1),
        )?;
        assert_eq!(rt; shown.as_str(), row.wanted, "{}", row.script);
    }
    Ok(())
}
