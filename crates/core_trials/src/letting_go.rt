// Cells that are freed where a join was dropped or its rank changed: the steps of pieces tell what is kept.
ghost use Rattle.std.specs.Prelude.{◌≡◌, ◌<◌};

use crate::plain::show_plain;
use crate::script::read_events;
use crate::showing::{show_done, show_scans};
use core_events::Event;
use scan_core::World;
use std::alloc::Global;
use std::marker::Brand;
use std::process::Abort;
use std::sync::ledger::{Blank, Ledger};
use std::test::Fail;
use steps::Steps;

/// How many cells there are; events, and the answers to them, a line each: that to a piece behind the steps that it took.
#[derive(Drop)]
struct Row {
    cells: u32,
    events: &'static str,
    answers: &'static str,
}

/// The join whose output another reads is dropped, so that the rank of the other falls. Both cells let go, and the other has
/// one for its rank, which a scan from before the drop neither uses nor frees; that scan gets the second cell.
const FALLEN: Row = Row {
    cells: 2,
    events: "write m|<x> = copy k|<x>
write a|<x> = copy m|<x>
write k|1=A
begin 1 a| a}
piece 1 a}
finish 1
begin 1 a| a}
begin 2 a| a}
write drop 1
write m|2=B
piece 1 a|1|
begin 3 a| a}
piece 3 a}
finish 3
evict 1
begin 3 a| a}
piece 3 a}
finish 3
piece 2 a}
finish 2
begin 3 a| a}
piece 3 a}
finish 3
evict 1
",
    answers: "ok 1
ok 2
ok 3
begun 3
8 answered
finished 3 a|1=A
begun 3
begun 3
ok 4
ok 5
3 answered
begun 5
5 answered
finished 5 a|2=B
nothing
begun 5
3 answered
finished 5 a|2=B
8 answered
finished 3 a|1=A
begun 5
3 answered
finished 5 a|2=B
evicted
",
};

/// A join is dropped, and its one cell is used by another join. A scan from before the drop finds none free.
const DROPPED: Row = Row {
    cells: 1,
    events: "write b|<x> = copy a|<x>
write a|1=A
begin 1 b| b}
piece 1 b}
finish 1
begin 2 b| b}
write drop 1
write d|<x> = copy a|<x>
begin 1 d| d}
piece 1 d}
finish 1
begin 1 d| d}
piece 1 d}
finish 1
piece 2 b}
finish 2
begin 1 d| d}
piece 1 d}
finish 1
",
    answers: "ok 1
ok 2
begun 2
5 answered
finished 2 b|1=A
begun 2
ok 3
ok 4
begun 4
5 answered
finished 4 d|1=A
begun 4
3 answered
finished 4 d|1=A
5 answered
finished 2 b|1=A
begun 4
3 answered
finished 4 d|1=A
",
};

/// Does the events, and shows what they are answered, as lines.
fn show_steps<L: Ledger>(
    alloc: Global,
    world: &mut World,
    events: Vec<Event>,
    steps: &mut Steps<L>,
) -> Result<String, Fail> {
    let mut text = String::new(alloc);
    for event in events {
        let before = steps.taken();
        let is_piece = matches!(&event, Event::Piece { .. });
        let done = world.step(event, steps)?;
        if is_piece {
            let taken = steps.taken().saturating_sub(before);
            text.push_str(format!(in alloc; "{taken} ")?.as_str())?;
        }
        show_done(alloc, &mut text, &done)?;
    }
    Ok(text)
}

/// Does the events of a row in a core of its own, and shows what they are answered.
fn show_row<L: Ledger>(
    rt: &impl Abort,
    alloc: Global,
    row: &Row,
    blank: Blank,
) -> Result<String, Fail>
    requires name { blank.name ≡ L.name }
    requires parts { blank.parts ≡ L.parts }
    requires some { 0 < blank.parts }
{
    if row.cells == 0 || row.cells > 65536 {
        return Err(Fail::from("there is no such core"));
    }
    let mut steps = Steps::<L>::open(blank);
    let mut world = World::new(alloc, row.cells, 100)?;
    let events = read_events(rt, alloc, row.events)?;
    show_steps(alloc, &mut world, events, &mut steps)
}

/// The first piece after a declaration or drop frees what is kept for former joins and ranks. A scan from before may take a free
/// cell again. Scans are answered as by the core that keeps nothing.
#[test]
fn a_change_of_joins_frees_their_cells(rt: HostRuntime) -> Result<(), Fail> {
    let alloc = rt.alloc();
    for row in &[FALLEN, DROPPED] {
        let shown = show_row::<Brand>(&rt, alloc, row, Blank::new(1))?;
        assert_eq!(rt; shown.as_str(), row.answers);
        let scans = show_scans(alloc, row.cells, 100, read_events(&rt, alloc, row.events)?)?;
        let plain = show_plain(alloc, read_events(&rt, alloc, row.events)?)?;
        assert_eq!(rt; scans.as_str(), plain.as_str());
    }
    Ok(())
}
