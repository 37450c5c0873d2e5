// Generated lists of events.
use crate::plain::show_plain;
use crate::script::read_events;
use crate::showing::show_scans;
use std::alloc::Global;
use std::test::Fail;

/// Numbers that follow from a first one.
#[derive(Drop)]
struct Dice {
    state: u64,
}

impl Dice {
    /// The next number, below 16.
    fn roll(&mut self) -> u64 {
        self.state = self
            .state
            .wrapping_mul(6364136223846793005)
            .wrapping_add(1442695040888963407);
        self.state >> 60
    }
}

/// What events are made of.
struct Menu {
    /// The events that come first: each declares a join.
    joins: &'static str,
    /// Joins that are declared later: some of the first again, and others.
    others: [&'static str; 4],
    writes: [&'static str; 16],
    /// The bounds of ranges, with a space between the two of each.
    ranges: [&'static str; 4],
    bounds: [&'static str; 8],
}

/// A timeline beside stored pairs of its table.
const TIMELINE: Menu = Menu {
    joins: "write t|<u>|<n>|<w> = check s|<u>|<w> copy p|<w>|<n>\n",
    others: [
        "t|<u>|<n>|<w> = check s|<u>|<w> copy p|<w>|<n>",
        "t|<u>|<n>|<w> = pull check s|<w>|<u> copy p|<w>|<n>",
        "s|<u>|<w> = copy p|<u>|<w>",
        "t|<u>|<n> = copy p|<u>|<n>",
    ],
    writes: [
        "s|ann|bob=1",
        "s|ann|bob",
        "s|ann|cat=1",
        "s|ann|cat",
        "s|dan|bob=1",
        "s|dan|bob",
        "p|bob|1=A",
        "p|bob|1=B",
        "p|bob|1",
        "p|bob|2=C",
        "p|bob|2",
        "p|cat|1=D",
        "p|cat|1",
        "t|ann|1=S",
        "t|ann|1",
        "t|ann|1|bob=no",
    ],
    ranges: ["t| t}", "t|ann| t|ann}", "t|b t}", "p|bob|1 p}"],
    bounds: [
        "t|a",
        "t|ann|1|bob",
        "t|ann|2",
        "t|ann}",
        "t|b",
        "t|dan|1|bob",
        "t}",
        "p}",
    ],
};

/// Four joins one above the other, three of them in one table, with stored pairs between.
const CHAIN: Menu = Menu {
    joins: "write r|0|<x> = copy i|<x>\nwrite r|1|<x> = check k|<x> copy r|0|<x>\nwrite r|2|<x> = copy r|1|<x>\nwrite n|<x> = count r|2|<x>\n",
    others: [
        "r|1|<x> = check k|<x> copy r|0|<x>",
        "r|0|<x> = copy r|2|<x>",
        "i|<x> = copy j|<x>",
        "r|2|<x> = copy j|<x>",
    ],
    writes: [
        "i|a=A", "i|a=B", "i|a", "i|b=C", "i|b", "i|c=D", "k|a=1", "k|a", "k|b=1", "k|b", "k|c=1",
        "r|3|a=S", "r|3|a", "r|1|a=no", "r|1=T", "j|a=U",
    ],
    ranges: ["r| r}", "r|1| r|1}", "r|2|b r|3}", "n| n}"],
    bounds: ["r|0|b", "r|1", "r|1|b", "r|1}", "r|2|a", "r|3}", "r}", "n}"],
};

/// Votes, their counts, pages that read these, and a sum beside them.
const KARMA: Menu = Menu {
    joins: "write karma|<a> = count vote|<a>|<id>|<voter>\nwrite page|<a>|<id>|k = check art|<a>|<id> copy karma|<a>\nwrite page|<a>|<id>|s = sum n|<a>|<id>|<i>\n",
    others: [
        "karma|<a> = count vote|<a>|<id>|<voter>",
        "karma|<a> = sum n|<a>|<id>|<i>",
        "page|<a>|<id>|k = check art|<a>|<id> copy karma|<a>",
        "art|<a>|<id> = count n|<a>|<id>|<i>",
    ],
    writes: [
        "art|bob|1=T",
        "art|bob|1",
        "art|bob|2=T",
        "art|cat|1=T",
        "vote|bob|1|ann=1",
        "vote|bob|1|ann",
        "vote|bob|1|cat=1",
        "vote|bob|1|cat",
        "vote|cat|1|ann=1",
        "vote|cat|1|ann",
        "n|bob|1|x=5",
        "n|bob|1|x",
        "n|bob|1|y=-7",
        "n|bob|1|y=z",
        "page|bob|1|a=S",
        "page|bob|1|k=no",
    ],
    ranges: [
        "page| page}",
        "page|bob| page|bob}",
        "page|bob|1|l page|c",
        "karma| karma}",
    ],
    bounds: [
        "page|b",
        "page|bob|1|k",
        "page|bob|1|l",
        "page|bob}",
        "page|c",
        "page}",
        "karma|bob",
        "karma}",
    ],
};

/// Timelines and votes, pages of the posters that a user follows, which are pulled, and walls of the timelines of those who have a
/// page.
const WALLS: Menu = Menu {
    joins: "write t|<u>|<n>|<w> = check s|<u>|<w> copy p|<w>|<n>\nwrite votes|<w> = count v|<w>|<u>\nwrite page|<u>|<w> = pull check s|<u>|<w> copy votes|<w>\nwrite wall|<u>|<n>|<w>|<o> = check page|<u>|<o> copy t|<u>|<n>|<w>\n",
    others: [
        "votes|<w> = max v|<w>|<u>",
        "page|<u>|<w> = check s|<u>|<w> copy votes|<w>",
        "t|<u>|<n>|<w> = check v|<w>|<u> copy p|<w>|<n>",
        "wall|<u>|<n>|<w>|<o> = check page|<u>|<o> copy t|<u>|<n>|<w>",
    ],
    writes: [
        "s|ann|bob=1",
        "s|ann|bob",
        "s|ann|cat=1",
        "s|bob|cat=1",
        "s|bob|cat",
        "p|bob|1=A",
        "p|bob|1",
        "p|cat|2=B",
        "p|cat|2",
        "v|bob|ann=3",
        "v|bob|ann",
        "v|cat|ann=4",
        "v|cat|bob=2",
        "v|cat|bob",
        "t|ann|1|bob=no",
        "page|ann|a=S",
    ],
    ranges: [
        "wall| wall}",
        "wall|ann| wall|ann}",
        "page| page}",
        "t|ann| t|ann}",
    ],
    bounds: [
        "wall|ann|1|bob",
        "wall|ann|2",
        "wall|ann}",
        "wall|b",
        "wall}",
        "page|ann|bob",
        "page}",
        "t|ann}",
    ],
};

/// A join that is declared, or a drop: of one of the first joins, or of what may stand at a later position.
fn roll_change(alloc: Global, menu: &Menu, dice: &mut Dice) -> Result<String, Fail> {
    let later = 5 + 3 * (dice.roll() % 16) + dice.roll() % 3;
    let roll = dice.roll() % 16;
    let text = match roll / 4 {
        0 => format!(in alloc; "write drop {}\n", 1 + roll)?,
        1 => format!(in alloc; "write drop {later}\n")?,
        _ => format!(in alloc; "write {}\n", menu.others[(roll % 4) as usize])?,
    };
    Ok(text)
}

/// One event, or the events of a whole scan.
fn roll_event(alloc: Global, menu: &Menu, dice: &mut Dice) -> Result<String, Fail> {
    let number = dice.roll() % 3;
    let range = menu.ranges[(dice.roll() % 4) as usize];
    let bound = menu.bounds[(dice.roll() % 8) as usize];
    let write = menu.writes[(dice.roll() % 16) as usize];
    let text = match dice.roll() {
        0..=4 => format!(in alloc; "write {write}\n")?,
        5 | 6 => format!(in alloc; "begin {number} {range}\n")?,
        7..=9 => format!(in alloc; "piece {number} {bound}\n")?,
        10 => format!(in alloc; "piece {number} {bound}\nfinish {number}\n")?,
        11 => format!(in alloc; "advance {number} {}\n", 4 + 3 * (dice.roll() % 16))?,
        12 => format!(in alloc; "mend {number} {range}\n")?,
        13 => format!(in alloc; "evict {number}\n")?,
        14 => roll_change(alloc, menu, dice)?,
        _ => match range.split_once(' ') {
            None => String::new(alloc),
            Some((_, last)) => {
                format!(in alloc; "begin 9 {range}\npiece 9 {bound}\npiece 9 {last}\nfinish 9\n")?
            }
        },
    };
    Ok(text)
}

/// The menu's joins, and then events as the dice fall.
fn roll_events(alloc: Global, menu: &Menu, dice: &mut Dice) -> Result<String, Fail> {
    let mut text = String::from_str(alloc, menu.joins)?;
    for _ in 0..60_u64 {
        text.push_str(roll_event(alloc, menu, dice)?.as_str())?;
    }
    Ok(text)
}

/// Each core answers writes and scans as the one that keeps nothing.
#[test]
fn generated_events(rt: HostRuntime) -> Result<(), Fail> {
    let alloc = rt.alloc();
    let mut dice = Dice { state: 7 };
    for round in 0..80_u64 {
        let menu = match round % 4 {
            0 => &TIMELINE,
            1 => &CHAIN,
            2 => &KARMA,
            _ => &WALLS,
        };
        let lines = roll_events(alloc, menu, &mut dice)?;
        let plain = show_plain(alloc, read_events(&rt, alloc, lines.as_str())?)?;
        for (cells, limit) in [
            (1, 100000),
            (2, 4),
            (3, 100000),
            (8, 1),
            (8, 2),
            (8, 3),
            (64, 6),
            (64, 100000),
        ] {
            let events = read_events(&rt, alloc, lines.as_str())?;
            let shown = show_scans(alloc, cells, limit, events)?;
            assert_eq!(rt;
                shown.as_str(),
                plain.as_str(),
                "round {round}, {cells} cells, {limit} rows"
            );
        }
    }
    Ok(())
}
