// What `serve` answers on links, and how many receipts of them come back: with a joins file, where a link fails or ends within a
// line, and where the doors fail.
use crate::copying::{expect_taken, link_of, serve_by};
use pequod_commands::Status;
use pq_io::OpenGate;
use std::alloc::Global;
use std::test::Fail;

/// The words without a joins file.
const ALONE: [&str; 2] = ["serve", "127.0.0.1:7000"];

/// How many workers there are where the words do not say.
const WORKERS: usize = 4;

/// The words with a joins file.
const WITH_JOINS: [&str; 4] = ["serve", "127.0.0.1:7000", "--joins", "j"];

/// A timeline with the post of one whom the user follows.
const TIMELINE: (&str, &str) = (
    r#"["join","t|<user>|<time>|<poster> = check s|<user>|<poster> copy p|<poster>|<time>"]
["put","s|ann|bob","1"]
["put","p|bob|100","Hi"]
["scan","t|ann|","t|ann}"]
"#,
    r#"["ok",1]
["ok",2]
["ok",3]
["pairs",3,[["t|ann|100|bob","Hi"]]]
"#,
);

/// Links of one client after another: their lines, and what each is answered.
struct Row {
    words: &'static [&'static str],
    links: &'static [(&'static str, &'static str)],
    /// The number of the write of the first link that fails, or 0.
    failing_write: usize,
    /// The number of the call of the doors that fails, with which it ends, or 0.
    failing_doors: usize,
}

const ROWS: [Row; 5] = [
    // A link is answered after the joins of the file.
    Row {
        words: &WITH_JOINS,
        links: &[(
            "[\"put\",\"a|1\",\"Hi\"]\n[\"scan\",\"b|\",\"b}\"]\n",
            "[\"ok\",2]\n[\"pairs\",2,[[\"b|1\",\"Hi\"]]]\n",
        )],
        failing_write: 0,
        failing_doors: 0,
    },
    // A link whose write fails ends alone.
    Row {
        words: &ALONE,
        links: &[("[\"get\",\"k|a\"]\n", ""), TIMELINE],
        failing_write: 1,
        failing_doors: 0,
    },
    // A line that the link ends in is answered.
    Row {
        words: &ALONE,
        links: &[(
            "[\"put\",\"k|a\",\"1\"]\n[\"get\",\"k|a\"]",
            "[\"ok\",1]\n[\"value\",1,\"1\"]\n",
        )],
        failing_write: 0,
        failing_doors: 0,
    },
    Row {
        words: &ALONE,
        links: &[("[\"put\",\"k|a\"", "[\"error\",\"json\"]\n")],
        failing_write: 0,
        failing_doors: 0,
    },
    // A link before the doors fail, where they are asked for the second one, is answered whole.
    Row {
        words: &ALONE,
        links: &[TIMELINE],
        failing_write: 0,
        failing_doors: 2,
    },
];

/// A list of the number, or of none where it is 0.
fn listed(alloc: Global, number: usize) -> Result<Vec<usize>, Fail> {
    let mut list = Vec::new(alloc);
    if number > 0 {
        list.push(number)?;
    }
    Ok(list)
}

/// How many elements the lists have together.
fn count_all<T>(lists: &[Vec<T>]) -> usize {
    let mut count = 0usize;
    for list in lists {
        count = count.saturating_add(list.len());
    }
    count
}

#[test]
fn links_are_answered(rt: HostRuntime) -> Result<(), Fail> {
    let alloc: Global = rt.alloc();
    for row in &ROWS {
        let (mut links, mut told) = (Vec::new(alloc), Vec::new(alloc));
        for (at, (lines, _)) in row.links.iter().enumerate() {
            let failing = listed(alloc, if at == 0 { row.failing_write } else { 0 })?;
            let (link, taken) = link_of(&rt, alloc, lines, failing)?;
            links.push(link)?;
            told.push(taken)?;
        }
        let doors = listed(alloc, row.failing_doors)?;
        let wanted = if row.failing_doors == 0 {
            Status::DONE
        } else {
            Status::DOORS_FAULT
        };
        let doors = serve_by(&rt, row.words, links, doors, &OpenGate, wanted)?;
        let lists = doors.returned();
        assert!(rt; lists.len() == WORKERS && count_all(lists) == row.links.len());
        for (taken, (_, replies)) in told.iter().zip(row.links.iter()) {
            expect_taken(&rt, taken, replies);
        }
    }
    Ok(())
}
