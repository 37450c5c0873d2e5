// Scans over many kept ranges. The steps of a piece tell what was read for it.
ghost use Rattle.std.specs.Prelude.{◌≡◌, ◌<◌};

use crate::plain::show_plain;
use crate::script::read_events;
use crate::showing::show_scans;
use core_events::Event;
use scan_core::World;
use std::alloc::Global;
use std::marker::Brand;
use std::process::Abort;
use std::sync::ledger::{Blank, Ledger};
use std::test::Fail;
use steps::Steps;

const SCAN: &str = "begin 1 t| t}\npiece 1 t}\nfinish 1\n";

/// A join, the pairs of a table that is read behind each of the first source, and the steps of a scan over the whole table before
/// any other and behind those of each user.
struct Row {
    join: &'static str,
    posts: &'static str,
    fresh: u64,
    kept: u64,
}

const ROWS: [Row; 2] = [
    Row {
        // Each user follows one, who wrote three posts. A scan over all that is evaluated takes one step for the base pairs, 71
        // for the first source, 4 for each user's posts, and 211 to be read. Where the ranges of all users are kept, it takes 4
        // for each of them and 2 for each of the 71 gaps, which read an empty range of the first source, and one for the base
        // pairs.
        join: "t|<u:2>|<p>|<n> = check s|<u:2>|<p> copy p|<p>|<n>",
        posts: "write p|x|1=A\nwrite p|x|2=B\nwrite p|x|3=C\n",
        fresh: 563,
        kept: 423,
    },
    Row {
        // The users' texts may have any width, so that each gap would read all of the source. The scan over all is evaluated as a
        // whole, also where the ranges of all users are kept: it takes one step for the base pairs, 71 for the source, and 71 to
        // be read.
        join: "t|<u>|<p> = copy s|<u>|<p>",
        posts: "",
        fresh: 143,
        kept: 143,
    },
];

/// Writes the row's join and posts, and 70 pairs of the first source, of users from 10 on.
fn writes_of(alloc: Global, row: &Row) -> Result<String, Fail> {
    let mut text = format!(in alloc; "write {}\n{}", row.join, row.posts)?;
    for user in 10..80_u64 {
        let write = format!(in alloc; "write s|{user}|x=1\n")?;
        text.push_str(write.as_str())?;
    }
    Ok(text)
}

/// Scans the range of each of the 70 users, so that it is kept, where this is asked for.
fn scans_of_users(alloc: Global, kept: bool) -> Result<String, Fail> {
    let mut text = String::new(alloc);
    if !kept {
        return Ok(text);
    }
    for user in 10..80_u64 {
        let scan = format!(in alloc;
            "begin 1 t|{user}| t|{user}}}\npiece 1 t|{user}}}\nfinish 1\n"
        )?;
        text.push_str(scan.as_str())?;
    }
    Ok(text)
}

/// Does the events, and gives the steps that their pieces took together.
fn steps_of_pieces<L: Ledger>(
    rt: &impl Abort,
    alloc: Global,
    world: &mut World,
    lines: &str,
    steps: &mut Steps<L>,
) -> Result<u64, Fail> {
    let mut all = 0_u64;
    for event in read_events(rt, alloc, lines)? {
        let before = steps.taken();
        let is_piece = matches!(&event, Event::Piece { .. });
        let _done = world.step(event, steps)?;
        if is_piece {
            all = all.saturating_add(steps.taken().saturating_sub(before));
        }
    }
    Ok(all)
}

/// Gives the steps of a scan over the whole table in a core of its own, behind those of each user or before them.
fn steps_of_scan<L: Ledger>(
    rt: &impl Abort,
    alloc: Global,
    row: &Row,
    kept: bool,
    blank: Blank,
) -> Result<u64, Fail>
    requires name { blank.name ≡ L.name }
    requires parts { blank.parts ≡ L.parts }
    requires some { 0 < blank.parts }
{
    let mut steps = Steps::<L>::open(blank);
    let mut world = World::new(alloc, 1024, 100000)?;
    let writes = writes_of(alloc, row)?;
    let _writes = steps_of_pieces(rt, alloc, &mut world, writes.as_str(), &mut steps)?;
    let scans = scans_of_users(alloc, kept)?;
    let _scans = steps_of_pieces(rt, alloc, &mut world, scans.as_str(), &mut steps)?;
    steps_of_pieces(rt, alloc, &mut world, SCAN, &mut steps)
}

/// Compares the steps of both scans over the whole table with those of the row.
fn compare_steps(rt: &impl Abort, alloc: Global, row: &Row) -> Result<(), Fail> {
    let fresh = steps_of_scan::<Brand>(rt, alloc, row, false, Blank::new(1))?;
    let kept = steps_of_scan::<Brand>(rt, alloc, row, true, Blank::new(1))?;
    assert_eq!(rt; (fresh, kept), (row.fresh, row.kept), "{}", row.join);
    Ok(())
}

/// Compares the pairs of all scans with those of plain evaluation.
fn compare_rows(rt: &impl Abort, alloc: Global, row: &Row) -> Result<(), Fail> {
    let writes = writes_of(alloc, row)?;
    let scans = scans_of_users(alloc, true)?;
    let lines = format!(in alloc; "{writes}{scans}{SCAN}")?;
    let events = read_events(rt, alloc, lines.as_str())?;
    let shown = show_scans(alloc, 1024, 100000, events)?;
    let plain = show_plain(alloc, read_events(rt, alloc, lines.as_str())?)?;
    assert_eq!(rt; shown.as_str(), plain.as_str());
    Ok(())
}

/// A scan over many kept ranges reads them, unless each gap between would read all of the source.
#[test]
fn many_kept_ranges_are_read(rt: HostRuntime) -> Result<(), Fail> {
    let alloc = rt.alloc();
    for row in &ROWS {
        compare_steps(&rt, alloc, row)?;
        compare_rows(&rt, alloc, row)?;
    }
    Ok(())
}
