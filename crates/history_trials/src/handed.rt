// Items that threads hand on through a queue with tallies, and its close.
ghost use Rattle.std.specs.Prelude.{◌≡◌, ◌<◌};

use crate::items::count_items;
use door_queue::{TalliedQueue, Tally};
use out_of_memory::OutOfMemory;
use std::alloc::Global;
use std::sync::Wait;
use std::test::Fail;
use std::thread;
use std::thread::{Threads, join};
use std::time::{Clock, Duration};

/// Puts a thousand numbers, from this one up.
fn put_thousand<R: Wait>(rt: &R, queue: &TalliedQueue<u32>, tally: &mut Tally<u32>, first: u32)
    requires queue { tally.old.queue ≡ queue.now }
    requires parts { 0 < tally.old.parts }
{
    for item in 0..1_000 {
        queue.put(rt, tally, first.wrapping_add(item));
    }
}

/// Takes items until the queue is closed and empty, and gives them.
fn take_all<R: Wait>(
    rt: &R,
    alloc: Global,
    queue: &TalliedQueue<u32>,
    tally: &mut Tally<u32>,
) -> Result<Vec<u32>, OutOfMemory>
    requires queue { tally.old.queue ≡ queue.now }
    requires parts { 0 < tally.old.parts }
{
    let mut items = Vec::new(alloc);
    for _ in rt.forever() {
        match queue.take(rt, tally) {
            Ok(item) => items.push(item)?,
            Err(_) => break,
        }
    }
    Ok(items)
}

/// What two threads take, each until the queue is closed and empty.
type Taken = (Result<Vec<u32>, OutOfMemory>, Result<Vec<u32>, OutOfMemory>);

/// Takes items in two threads, each with a tally.
fn take_by_two<R: Threads + Wait + Sync>(
    rt: &R,
    alloc: Global,
    queue: &TalliedQueue<u32>,
    first: &mut Tally<u32>,
    second: &mut Tally<u32>,
) -> Taken
    requires first { first.old.queue ≡ queue.now }
    requires second { second.old.queue ≡ queue.now }
    requires some { 0 < first.old.parts }
    requires others { 0 < second.old.parts }
{
    join(
        rt,
        move || take_all(rt, alloc, queue, first),
        move || take_all(rt, alloc, queue, second),
    )
}

/// Puts a thousand items in each of two threads, and closes the queue.
fn put_by_two<R: Threads + Wait + Sync>(
    rt: &R,
    queue: &TalliedQueue<u32>,
    first: &mut Tally<u32>,
    second: &mut Tally<u32>,
)
    requires first { first.old.queue ≡ queue.now }
    requires second { second.old.queue ≡ queue.now }
    requires some { 0 < first.old.parts }
    requires others { 0 < second.old.parts }
{
    let ((), ()) = join(
        rt,
        move || put_thousand(rt, queue, first, 0),
        move || put_thousand(rt, queue, second, 1_000),
    );
    queue.close(rt);
}

/// Waits 20 ms, so that those who take from the queue sleep by then, and closes it.
fn close_later<R: Wait + Clock>(rt: &R, queue: &TalliedQueue<u32>) {
    thread::sleep(rt, Duration::from_millis(20));
    queue.close(rt);
}

#[test]
fn a_closed_queue_with_tallies_gives_what_it_holds(rt: HostRuntime) -> Result<(), Fail> {
    let alloc: Global = rt.alloc();
    let (queue, mut tally) = TalliedQueue::new(alloc, 5)?;
    queue.put(&rt, &mut tally, 4);
    queue.put(&rt, &mut tally, 5);
    queue.close(&rt);
    let items = take_all(&rt, alloc, &queue, &mut tally)?;
    assert!(rt; items.as_slice() == [4, 5].as_slice());
    Ok(())
}

#[test]
fn who_takes_goes_on_at_the_close(rt: HostRuntime) -> Result<(), Fail> {
    let alloc: Global = rt.alloc();
    let (queue, mut first) = TalliedQueue::new(alloc, 1)?;
    let mut second = queue.split(&mut first);
    let (queue, one, other) = (&queue, &mut first, &mut second);
    let ((ours, theirs), ()) = join(
        &rt,
        move || take_by_two(&rt, alloc, queue, one, other),
        move || close_later(&rt, queue),
    );
    assert!(rt; ours?.is_empty() && theirs?.is_empty());
    Ok(())
}

#[test]
fn each_item_is_taken_once_by_tallies(rt: HostRuntime) -> Result<(), Fail> {
    let alloc: Global = rt.alloc();
    let (queue, mut first) = TalliedQueue::new(alloc, 7)?;
    let mut second = queue.split(&mut first);
    let mut third = queue.split(&mut first);
    let mut fourth = queue.split(&mut first);
    let (queue, one, two) = (&queue, &mut first, &mut second);
    let (three, four) = (&mut third, &mut fourth);
    let ((), (ours, theirs)) = join(
        &rt,
        move || put_by_two(&rt, queue, one, two),
        move || take_by_two(&rt, alloc, queue, three, four),
    );
    let mut counts = vec![in alloc; 0u8; 2_000]?;
    count_items(&rt, &mut counts, ours?.as_slice());
    count_items(&rt, &mut counts, theirs?.as_slice());
    assert!(rt; counts.iter().all(|count| *count == 1));
    Ok(())
}
