// Items of a queue whose callers have tallies.
ghost use Rattle.std.specs.Prelude.{◌≡◌, ◌<◌};
ghost use Rattle.door_queue.specs.Tallies.{all_parts, taken_out};

use door_queue::{TalliedQueue, Tally};
use std::alloc::Global;
use std::process::Abort;
use std::sync::Wait;
use std::test::Fail;
use std::thread::join;

/// Takes the item that was kept first.
fn take<R: Wait + Abort>(rt: &R, queue: &TalliedQueue<u32>, tally: &mut Tally<u32>) -> u32
    requires queue { tally.old.queue ≡ queue.now }
    requires parts { 0 < tally.old.parts }
    ensures { tally.new ≡ taken_out tally.old result }
{
    let Ok(item) = queue.take(rt, tally) else {
        panic!(rt; "the queue is closed")
    };
    item
}

/// Takes the item that was kept first of those that are left.
fn take_left<R: Wait + Abort>(rt: &R, queue: &TalliedQueue<u32>, tally: &mut Tally<u32>) -> u32
    requires queue { tally.old.queue ≡ queue.now }
    requires whole { tally.old.parts ≡ all_parts }
    ensures { tally.new ≡ taken_out tally.old result }
{
    let Some(item) = queue.take_left(rt, tally) else {
        panic!(rt; "nothing is left")
    };
    item
}

#[test]
fn what_is_not_taken_is_left(rt: HostRuntime) -> Result<(), Fail> {
    let alloc: Global = rt.alloc();
    let (queue, mut ours) = TalliedQueue::new(alloc, 2)?;
    let mut theirs = queue.split(&mut ours);
    queue.put(&rt, &mut ours, 1);
    queue.put(&rt, &mut ours, 2);
    let first = take(&rt, &queue, &mut theirs);
    queue.put(&rt, &mut ours, 3);
    queue.close(&rt);
    queue.join(&mut ours, theirs);
    let second = take_left(&rt, &queue, &mut ours);
    let third = take_left(&rt, &queue, &mut ours);
    let none = queue.take_left(&rt, &mut ours);
    assert!(rt; first == 1 && second == 2 && third == 3 && none.is_none());
    Ok(())
}

#[test]
fn who_takes_waits_for_who_puts(rt: HostRuntime) -> Result<(), Fail> {
    let alloc: Global = rt.alloc();
    let (queue, mut ours) = TalliedQueue::new(alloc, 1)?;
    let mut theirs = queue.split(&mut ours);
    let (queue, mine, other) = (&queue, &mut ours, &mut theirs);
    let (item, ()) = join(
        &rt,
        move || take(&rt, queue, other),
        move || queue.put(&rt, mine, 7),
    );
    assert!(rt; item == 7);
    Ok(())
}
