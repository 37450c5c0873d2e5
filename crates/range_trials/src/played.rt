// Worked and generated histories, played on a kept range.
ghost use Rattle.std.specs.Prelude.{◌≡◌, ◌<◌};
ghost use Rattle.semantics.specs.Verdicts.{AllEntered};
ghost use Rattle.join_set.specs.Summaries.{StandsFor};

use crate::generated::{Dice, GROUPS, NUMBERS, POSTS, roll_lines, roll_script};
use crate::script::call;
use crate::telling::{Told, read_range, tell};
use crate::trial::start;
use key_space::Range;
use std::alloc::Global;
use std::marker::Brand;
use std::process::Abort;
use std::sync::ledger::{Blank, Ledger};
use std::test::Fail;
use steps::Steps;

/// What calls on a kept range of the history's last join answer, where steps are counted by this ledger. `calls` is the range
/// that is kept, the one that is asked for, and a script of calls with commas between them.
pub fn play<L: Ledger>(
    rt: &impl Abort,
    alloc: Global,
    told: Told,
    calls: (&Range, &Range, &str),
    blank: Blank,
) -> Result<String, Fail>
    requires entered { AllEntered told.entries.items }
    requires stands { StandsFor told.standing told.entries.items }
    requires name { blank.name ≡ L.name }
    requires parts { blank.parts ≡ L.parts }
    requires some { 0 < blank.parts }
{
    let (kept, asked, script) = calls;
    let mut trial = start(rt, alloc, told, kept)?;
    let mut steps: Steps<L> = Steps::open(blank);
    let mut text = String::new(alloc);
    for words in script.split(", ") {
        call(rt, alloc, &mut trial, asked, words, &mut steps, &mut text)?;
    }
    Ok(text)
}

const TIMELINE: &str = "t|<user>|<time>|<poster> = check s|<user>|<poster> copy p|<poster>|<time>
s|ann|bob=1
p|bob|100=Hi
s|ann|bob
p|bob|130=No
s|ann|bob=1";

const DROPPED: &str = "s|ann|bob=1
s|<a>|<b> = copy r|<a>|<b>
r|ann|cat=1
t|<user>|<time>|<poster> = check s|<user>|<poster> copy p|<poster>|<time>
p|bob|100=Hi
p|cat|110=Ha
drop 2
p|bob|120=Ho";

const FEED: &str = "f|<user>|<post> = check m|<user>|<group> check g|<group>|<post> copy p|<post>
m|ann|a=1
m|ann|b=1
g|a|7=1
g|b|7=1
p|7=Hi
g|a|7
g|b|7";

const PAGE: &str = "karma|<a> = count vote|<a>|<id>|<voter>
page|<a>|<id>|k = check art|<a>|<id> copy karma|<a>
art|bob|1=T
vote|bob|1|ann=1
vote|bob|1|cat=1";

const TOTAL: &str = "total|<a> = sum n|<a>|<i>
n|x|1=5
n|x|2=-7
n|x|3=05
n|x|4=x
n|x|2=z";

const KARMA: &str = "karma|<a> = count vote|<a>|<id>|<voter>
vote|bob|1|ann=1
vote|bob|1|cat=1
vote|bob|1|ann=2
vote|bob|1|ann
vote|bob|1|cat";

const LEAST: &str = "lo|<a> = min n|<a>|<i>
n|x|1=3
n|x|2=-4
n|x|3=9
n|x|2
n|x|3";

const GREATEST: &str = "hi|<a> = max n|<a>|<i>
n|x|1=3
n|x|2=-4
n|x|3=9
n|x|2
n|x|3";

const SEVEN: &str =
    "o|<k> = check a|<k> check b|<k> check c|<k> check d|<k> check e|<k> check f|<k> check g|<k> copy h|<k>
a|1=
b|1=
c|1=
d|1=
e|1=
f|1=
g|1=
h|1=V
d|1
h|1=W
d|1=";

const AGAIN: &str =
    "o|<k> = check a|<k> check a|<k> check a|<k> check a|<k> check a|<k> check a|<k> check a|<k> copy a|<k>
a|1=V
a|2=W";

/// A history by its lines, the bounds of the range that is kept, calls, and what they answer.
struct Row {
    lines: &'static str,
    low: &'static str,
    high: &'static str,
    script: &'static str,
    wanted: &'static str,
}

const ROWS: [Row; 19] = [
    Row {
        // Three for both keys together, and two for each key, whose range is read once of seven times.
        lines: AGAIN,
        low: "o|",
        high: "o}",
        script: "fill 3, count, read",
        wanted: " 7; o|1=V o|2=W;",
    },
    Row {
        lines: DROPPED,
        low: "t|ann|",
        high: "t|ann}",
        script: "fill 7, read, advance 8, mend, read",
        wanted: " t|ann|100|bob=Hi; t|ann|100|bob=Hi t|ann|120|bob=Ho;",
    },
    Row {
        lines: TIMELINE,
        low: "t|ann|",
        high: "t|ann}",
        script: "fill 3, read",
        wanted: " t|ann|100|bob=Hi;",
    },
    Row {
        lines: TIMELINE,
        low: "t|ann|",
        high: "t|ann}",
        script: "fill 3, advance 5, since 4, mend, read, since 3, since 4",
        wanted: " *;; *; *;",
    },
    Row {
        lines: TIMELINE,
        low: "t|ann|",
        high: "t|ann}",
        script: "fill 3, advance 4, advance 6, mend, read",
        wanted: " t|ann|100|bob=Hi t|ann|130|bob=No;",
    },
    Row {
        lines: TIMELINE,
        low: "t|ann|",
        high: "t|ann}",
        script: "fill 3, advance 6, mend, read, since 3",
        wanted: " t|ann|100|bob=Hi t|ann|130|bob=No; *;",
    },
    Row {
        lines: TIMELINE,
        low: "t|ann|",
        high: "t|ann}",
        script: "fill 4, read, advance 5, read, since 4, forget, fill 6, read, since 5, since 6",
        wanted: ";;; t|ann|100|bob=Hi t|ann|130|bob=No; *;;",
    },
    Row {
        lines: FEED,
        low: "f|ann|",
        high: "f|ann}",
        script: "fill 6, read, advance 7, mend, read, advance 8, mend, read",
        wanted: " f|ann|7=Hi; f|ann|7=Hi;;",
    },
    Row {
        lines: PAGE,
        low: "page|bob|",
        high: "page|bob}",
        script: "fill 4, read, advance 5, read, since 4",
        wanted: " page|bob|1|k=1; page|bob|1|k=2; page|bob|1|k;",
    },
    Row {
        lines: TOTAL,
        low: "total|",
        high: "total}",
        script: "fill 5, read, advance 6, read, since 5",
        wanted: " total|x=-2; total|x=5; total|x;",
    },
    Row {
        lines: KARMA,
        low: "karma|",
        high: "karma}",
        script: "fill 1, read, advance 4, read, advance 6, read, since 4",
        wanted: "; karma|bob=2;; karma|bob;",
    },
    Row {
        lines: LEAST,
        low: "lo|",
        high: "lo}",
        script: "fill 4, read, advance 6, read",
        wanted: " lo|x=-4; lo|x=3;",
    },
    Row {
        lines: GREATEST,
        low: "hi|",
        high: "hi}",
        script: "fill 4, read, advance 6, read",
        wanted: " hi|x=9; hi|x=3;",
    },
    Row {
        lines: SEVEN,
        low: "o|",
        high: "o}",
        script: "fill 9, read, advance 10, mend, read, advance 12, mend, read",
        wanted: " o|1=V;; o|1=W;",
    },
    Row {
        lines: SEVEN,
        low: "o|",
        high: "o}",
        script: "fill 9, advance 12, mend, read",
        wanted: " o|1=W;",
    },
    Row {
        lines: TIMELINE,
        low: "t|ann|",
        high: "t|ann}",
        script: "refuse 1, fill 3, refuse 2, fill 3, fill 3, read",
        wanted: " memory; memory; t|ann|100|bob=Hi;",
    },
    Row {
        lines: TIMELINE,
        low: "t|ann|",
        high: "t|ann}",
        script: "fill 3, refuse 1, advance 5, again 3, advance 5, mend, read",
        wanted: " memory;;",
    },
    Row {
        lines: TIMELINE,
        low: "t|ann|",
        high: "t|ann}",
        script: "fill 3, refuse 2, advance 5, again 3, advance 5, mend, read",
        wanted: " memory;;",
    },
    Row {
        lines: TIMELINE,
        low: "t|ann|",
        high: "t|ann}",
        script: "fill 3, refuse 3, advance 5, mend, again 3, advance 5, mend, read",
        wanted: " memory;;",
    },
];

/// Each script is answered as it was worked out.
#[test]
fn worked_rows(rt: HostRuntime) -> Result<(), Fail> {
    let alloc = rt.alloc();
    for row in ROWS.iter() {
        let range = read_range(&rt, alloc, row.low, row.high);
        let told = tell(&rt, alloc, row.lines)?;
        let shown = play::<Brand>(
            &rt,
            alloc,
            told,
            (&range, &range, row.script),
            Blank::new(1),
        )?;
        assert_eq!(rt; shown.as_str(), row.wanted, "{}", row.script);
    }
    Ok(())
}

/// A history by its lines, the bounds of the range that is kept and of the one that is asked for, calls, and what they answer.
struct Part {
    lines: &'static str,
    kept: [&'static str; 2],
    asked: [&'static str; 2],
    script: &'static str,
    wanted: &'static str,
}

const PARTS: [Part; 7] = [
    Part {
        lines: TIMELINE,
        kept: ["t|ann|120", "t|ann}"],
        asked: ["t|ann|", "t|ann}"],
        script: "fill 6, read",
        wanted: " t|ann|130|bob=No;",
    },
    Part {
        lines: TIMELINE,
        kept: ["t|ann|", "t|ann}"],
        asked: ["t|ann|1", "t|ann|12"],
        script: "fill 6, read",
        wanted: " t|ann|100|bob=Hi;",
    },
    Part {
        lines: TIMELINE,
        kept: ["t|ann|", "t|ann}"],
        asked: ["t|ann|1", "t|ann|12"],
        script: "fill 3, advance 4, mend, read, advance 6, mend, read",
        wanted: "; t|ann|100|bob=Hi;",
    },
    Part {
        lines: KARMA,
        kept: ["karma|", "karma}"],
        asked: ["karma|a", "karma|b"],
        script: "fill 1, advance 4, since 1, read",
        wanted: ";;",
    },
    Part {
        lines: TIMELINE,
        kept: ["t|ann|110", "t|ann}"],
        asked: ["t|ann|", "t|ann|14"],
        script: "fill 6, read",
        wanted: " t|ann|130|bob=No;",
    },
    Part {
        lines: KARMA,
        kept: ["karma|c", "karma|d"],
        asked: ["karma|", "karma}"],
        script: "fill 1, advance 4, since 1, read",
        wanted: ";;",
    },
    Part {
        lines: KARMA,
        kept: ["karma|b", "karma|c"],
        asked: ["karma|", "karma}"],
        script: "fill 1, advance 4, since 1, read",
        wanted: " karma|bob; karma|bob=2;",
    },
];

/// Of what is asked for and what is kept the common part is answered, be the one or the other wider.
#[test]
fn worked_parts(rt: HostRuntime) -> Result<(), Fail> {
    let alloc = rt.alloc();
    for part in PARTS.iter() {
        let kept = read_range(&rt, alloc, part.kept[0], part.kept[1]);
        let asked = read_range(&rt, alloc, part.asked[0], part.asked[1]);
        let told = tell(&rt, alloc, part.lines)?;
        let shown = play::<Brand>(
            &rt,
            alloc,
            told,
            (&kept, &asked, part.script),
            Blank::new(1),
        )?;
        assert_eq!(rt; shown.as_str(), part.wanted, "{}", part.script);
    }
    Ok(())
}

/// What 100 posts of bob are counted at, and one more.
#[test]
fn worked_steps(rt: HostRuntime) -> Result<(), Fail> {
    let alloc = rt.alloc();
    let mut lines = String::new(alloc);
    lines.push_str(
        "t|<user>|<time>|<poster> = check s|<user>|<poster> copy p|<poster>|<time>\ns|ann|bob=1\n",
    )?;
    for time in 100..200_u64 {
        lines.push_str(format!(in alloc; "p|bob|{time}=Hi\n")?.as_str())?;
    }
    lines.push_str("p|bob|500=Ho\n")?;
    let range = read_range(&rt, alloc, "t|ann|", "t|ann}");
    let told = tell(&rt, alloc, lines.as_str())?;
    let script = "fill 102, count, advance 103, count, forget, fill 103, count";
    let shown = play::<Brand>(&rt, alloc, told, (&range, &range, script), Blank::new(1))?;
    assert_eq!(rt; shown.as_str(), " 103; 3; 104;");
    Ok(())
}

/// Between two times only the posts of these times are read, of 100 of one poster; a post of another time costs one step
/// for each of both needs, and one of these times one step more.
#[test]
fn worked_narrow_steps(rt: HostRuntime) -> Result<(), Fail> {
    let alloc = rt.alloc();
    let mut lines = String::new(alloc);
    lines.push_str(
        "t|<user:4>|<time:8>|<poster:4> = check s|<user:4>|<poster:4> copy p|<poster:4>|<time:8>\ns|0001|0002=1\n",
    )?;
    for time in 100..200_u64 {
        lines.push_str(format!(in alloc; "p|0002|{time:08}=Hi\n")?.as_str())?;
    }
    lines.push_str("p|0002|00000500=Ho\np|0002|00000115=He\n")?;
    let range = read_range(&rt, alloc, "t|0001|00000110", "t|0001|00000120");
    let told = tell(&rt, alloc, lines.as_str())?;
    let script = "fill 102, count, advance 103, count, advance 104, count, forget, fill 104, count";
    let shown = play::<Brand>(&rt, alloc, told, (&range, &range, script), Blank::new(1))?;
    assert_eq!(rt; shown.as_str(), " 13; 2; 3; 13;");
    Ok(())
}

/// Where many slots are pending, a new value goes to the one row that they do not cover; the others are found when they are
/// mended.
#[test]
fn worked_pending(rt: HostRuntime) -> Result<(), Fail> {
    let alloc = rt.alloc();
    let mut lines = String::new(alloc);
    let mut later = String::new(alloc);
    let mut wanted = String::new(alloc);
    lines.push_str(
        "t|<u>|<k> = check s|<u>|<g> check g|<g>|<k> copy p|<k>\ng|a|1=\np|1=Hi\ns|zoe|a=1\n",
    )?;
    // For the fill one and one for each of 41 users, and two for the one group and for the one value, which are read once. For
    // the advance one for the need of users and one for each of 40 keys, one for the group, in which nothing changed and which is
    // asked once, and two for each need of the value. For the mend of each of 40 users three for both groups, two for what the
    // one has, two for the value, and one for what the other has.
    wanted.push_str(" 46; 124; 320;")?;
    for number in 10..50_u64 {
        lines.push_str(format!(in alloc; "s|u{number}|a=1\n")?.as_str())?;
        later.push_str(format!(in alloc; "s|u{number}|b=1\n")?.as_str())?;
        wanted.push_str(format!(in alloc; " t|u{number}|1=Ho")?.as_str())?;
    }
    lines.push_str(later.as_str())?;
    lines.push_str("p|1=Ho\n")?;
    wanted.push_str(" t|zoe|1=Ho;")?;
    let range = read_range(&rt, alloc, "t|", "t}");
    let told = tell(&rt, alloc, lines.as_str())?;
    let script = "fill 44, count, advance 85, count, mend, count, read";
    let shown = play::<Brand>(&rt, alloc, told, (&range, &range, script), Blank::new(1))?;
    assert_eq!(rt; shown.as_str(), wanted.as_str());
    Ok(())
}

/// There is room for so many notes and no more.
#[test]
fn worked_notes(rt: HostRuntime) -> Result<(), Fail> {
    let alloc = rt.alloc();
    let mut lines = String::new(alloc);
    let mut script = String::new(alloc);
    let mut wanted = String::new(alloc);
    lines.push_str("b|<x> = copy a|<x>\n")?;
    script.push_str("fill 1")?;
    wanted.push_str(" *;")?;
    for number in 0..257_u64 {
        lines.push_str(format!(in alloc; "a|{number:03}=v\n")?.as_str())?;
        script.push_str(format!(in alloc; ", advance {}", number + 2)?.as_str())?;
        if number > 0 {
            wanted.push_str(format!(in alloc; " b|{number:03}")?.as_str())?;
        }
    }
    script.push_str(", since 1, since 2, count")?;
    // One for the fill, and for each advance one for the need and one for its key.
    wanted.push_str("; 515;")?;
    let range = read_range(&rt, alloc, "b|", "b}");
    let told = tell(&rt, alloc, lines.as_str())?;
    let shown = play::<Brand>(
        &rt,
        alloc,
        told,
        (&range, &range, script.as_str()),
        Blank::new(1),
    )?;
    assert_eq!(rt; shown.as_str(), wanted.as_str());
    Ok(())
}

/// Over generated histories each read is what evaluation afresh gives.
#[test]
fn generated_histories(rt: HostRuntime) -> Result<(), Fail> {
    let alloc = rt.alloc();
    let range = read_range(&rt, alloc, "t|ann|", "t|ann}");
    let mut dice = Dice { state: 7 };
    for round in 0..3_000_u64 {
        let lines = match round % 3 {
            0 => &POSTS,
            1 => &GROUPS,
            _ => &NUMBERS,
        };
        let text = roll_lines(alloc, lines, &mut dice)?;
        let told = tell(&rt, alloc, text.as_str())?;
        let (script, wanted) = roll_script(&rt, alloc, &told, &range, &mut dice)?;
        let shown = play::<Brand>(
            &rt,
            alloc,
            told,
            (&range, &range, script.as_str()),
            Blank::new(1),
        )?;
        assert_eq!(rt; shown.as_str(), wanted.as_str(), "round {round}");
    }
    Ok(())
}
