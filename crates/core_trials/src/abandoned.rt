// Scans that are abandoned.
ghost use Rattle.std.specs.Prelude.{◌≡◌, ◌<◌};

use crate::script::read_events;
use crate::showing::show_done;
use core_events::Event;
use scan_core::World;
use std::alloc::Global;
use std::marker::Brand;
use std::process::Abort;
use std::sync::ledger::{Blank, Ledger};
use std::test::Fail;
use steps::Steps;

/// Does the events, and shows what they are answered, as lines.
fn show_steps<L: Ledger>(
    alloc: Global,
    world: &mut World,
    events: Vec<Event>,
    steps: &mut Steps<L>,
) -> Result<String, Fail> {
    let mut text = String::new(alloc);
    for event in events {
        let done = world.step(event, steps)?;
        show_done(alloc, &mut text, &done)?;
    }
    Ok(text)
}

/// Of two scans one is abandoned, twice: it is none any more, the other goes on, and what the cell keeps stays.
fn abandon_one<L: Ledger>(rt: &impl Abort, alloc: Global, blank: Blank) -> Result<(), Fail>
    requires name { blank.name ≡ L.name }
    requires parts { blank.parts ≡ L.parts }
    requires some { 0 < blank.parts }
{
    let mut steps = Steps::<L>::open(blank);
    let mut world = World::new(alloc, 1, 100)?;
    let lines = "write b|<x> = copy a|<x>\nwrite a|1=A\nbegin 1 b| b}\nbegin 2 b| b}\npiece 2 b}\n";
    let events = read_events(rt, alloc, lines)?;
    let shown = show_steps(alloc, &mut world, events, &mut steps)?;
    assert_eq!(rt; shown.as_str(), "ok 1\nok 2\nbegun 2\nbegun 2\nanswered\n");
    world.abandon(1);
    world.abandon(1);
    let events = read_events(rt, alloc, "finish 1\nfinish 2\nevict 0\n")?;
    let shown = show_steps(alloc, &mut world, events, &mut steps)?;
    assert_eq!(rt; shown.as_str(), "nothing\nfinished 2 b|1=A\nevicted\n");
    Ok(())
}

#[test]
fn abandoned_scans(rt: HostRuntime) -> Result<(), Fail> {
    abandon_one::<Brand>(&rt, rt.alloc(), Blank::new(1))
}
