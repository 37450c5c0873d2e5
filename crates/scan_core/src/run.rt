// A list of events, answered one after another.
ghost use Rattle.std.specs.Prelude.{◌≡◌, ◌<◌, ◌≤◌, map, IfOk};
ghost use Rattle.core_events.specs.Plain.{AnswersPlainly, start};
ghost use Rattle.core_events.specs.PlainEvents.{plain_done, plain_event};

use crate::world::World;
use core_events::{Done, Event};
use out_of_memory::OutOfMemory;
use std::alloc::Global;
use std::marker::Brand;
use std::sync::ledger::{Blank, Ledger};
use steps::Steps;

/// Answers events from a core, with a counter on a new ledger.
fn run_counted<L: Ledger>(
    alloc: Global,
    world: World,
    events: Vec<Event>,
    blank: Blank,
) -> Result<Vec<Done>, OutOfMemory>
    requires name { blank.name ≡ L.name }
    requires parts { blank.parts ≡ L.parts }
    requires some { 0 < blank.parts }
    requires start { world.world ≡ start }
    ensures { IfOk result (λ answers. AnswersPlainly (map plain_event events.items) (map plain_done answers.items)) }
{
    let mut world = world;
    let mut steps = Steps::<L>::open(blank);
    let mut answers = Vec::with_capacity(alloc, events.len())?;
    for event in events {
        let done = world.step(event, &mut steps)?;
        answers.push(done)?;
    }
    Ok(answers)
}

/// The answers to a list of events, one each, of a core with so many cells, in which so many rows of kept ranges, and one more
/// for each range, may be kept together. Whatever these are, the events that are of no cell are answered as with nothing
/// kept.
///
/// On `OutOfMemory` nothing is told.
pub fn run_events(
    alloc: Global,
    cells: u32,
    limit: u64,
    events: Vec<Event>,
) -> Result<Vec<Done>, OutOfMemory>
    requires some_cells { 1 ≤ cells }
    requires few_cells { cells ≤ 65536 }
    requires limit { 1 ≤ limit }
    ensures { IfOk result (λ answers. AnswersPlainly (map plain_event events.items) (map plain_done answers.items)) }
{
    let world = World::new(alloc, cells, limit)?;
    run_counted::<Brand>(alloc, world, events, Blank::new(1))
}
