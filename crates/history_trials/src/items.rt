// Items that are put and taken, in one thread and between some.
use door_queue::DoorQueue;
use out_of_memory::OutOfMemory;
use std::alloc::Global;
use std::process::Abort;
use std::sync::{Arc, Wait};
use std::test::Fail;
use std::thread;

#[test]
fn a_closed_queue_gives_what_it_holds(rt: HostRuntime) -> Result<(), Fail> {
    let queue = DoorQueue::new(rt.alloc(), 5)?;
    let mut all_kept = true;
    for item in 0..3u32 {
        all_kept &= queue.put(&rt, item).is_ok();
    }
    queue.close(&rt);
    let back = queue.put(&rt, 3);
    assert!(rt; all_kept && back == Err(3));
    for wanted in [Some(0), Some(1), Some(2), None] {
        assert!(rt; queue.take(&rt) == wanted);
    }
    Ok(())
}

/// Puts a thousand items, the first of which is this one.
fn put_thousand(rt: &impl Wait, queue: &DoorQueue<u32>, first: u32) -> bool {
    let mut all_kept = true;
    for item in 0..1_000 {
        all_kept &= queue.put(rt, first.wrapping_add(item)).is_ok();
    }
    all_kept
}

/// Takes items until the queue is closed and empty, and gives them.
pub fn take_all(
    rt: &impl Wait,
    alloc: Global,
    queue: &DoorQueue<u32>,
) -> Result<Vec<u32>, OutOfMemory> {
    let mut items = Vec::new(alloc);
    for _ in rt.forever() {
        match queue.take(rt) {
            Some(item) => items.push(item)?,
            None => break,
        }
    }
    Ok(items)
}

/// Adds to the count of each number how often it is among the items.
pub fn count_items(rt: &impl Abort, counts: &mut [u8], items: &[u32]) {
    for item in items {
        let count = counts
            .get_mut(*item as usize)
            .expect(rt, "an item that was put");
        *count = count.saturating_add(1);
    }
}

#[test]
fn each_item_is_taken_once(rt: HostRuntime) -> Result<(), Fail> {
    let alloc: Global = rt.alloc();
    let queue = Arc::new(alloc, DoorQueue::new(alloc, 7)?)?;
    let mut putters = Vec::new(alloc);
    let mut takers = Vec::new(alloc);
    for first in [0, 1_000, 2_000, 3_000] {
        let theirs = Arc::try_clone(&queue)?;
        takers.push(thread::spawn(&rt, move || take_all(&rt, alloc, &theirs))?)?;
        let theirs = Arc::try_clone(&queue)?;
        putters.push(thread::spawn(&rt, move || put_thousand(&rt, &theirs, first))?)?;
    }
    let mut all_kept = true;
    for putter in putters {
        all_kept &= putter.join(&rt);
    }
    queue.close(&rt);
    let mut counts = vec![in alloc; 0u8; 4_000]?;
    for taker in takers {
        count_items(&rt, &mut counts, taker.join(&rt)?.as_slice());
    }
    assert!(rt; all_kept && counts.iter().all(|count| *count == 1));
    Ok(())
}
