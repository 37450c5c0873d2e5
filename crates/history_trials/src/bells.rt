// Bells that are rung, and those who wait at them.
use door_queue::{Bell, DoorQueue, Rung};
use std::alloc::Global;
use std::sync::{Arc, Wait};
use std::test::Fail;
use std::thread;
use std::time::Duration;

#[test]
fn a_ring_is_heard_unless_the_bell_is_closed(rt: HostRuntime) {
    let bell = Bell::new();
    bell.ring(&rt);
    let first = bell.wait(&rt);
    bell.ring(&rt);
    bell.close(&rt);
    assert!(rt; first == Rung::Work && bell.wait(&rt) == Rung::Closed);
}

/// Waits at the bell until it is closed, and tells the queue of each ring that it has heard. It says how many there were.
fn hear_all(rt: &impl Wait, bell: &Bell, heard: &DoorQueue<u32>) -> u32 {
    let mut count = 0u32;
    for _ in rt.forever() {
        match bell.wait(rt) {
            Rung::Work => count = count.saturating_add(1),
            Rung::Closed => break,
        }
        let _ = heard.put(rt, count);
    }
    count
}

#[test]
fn one_who_waits_at_a_bell_is_woken(rt: HostRuntime) -> Result<(), Fail> {
    let alloc: Global = rt.alloc();
    let bell = Arc::new(alloc, Bell::new())?;
    let heard = Arc::new(alloc, DoorQueue::new(alloc, 1)?)?;
    let (their_bell, theirs) = (Arc::try_clone(&bell)?, Arc::try_clone(&heard)?);
    let waiter = thread::spawn(&rt, move || hear_all(&rt, &their_bell, &theirs))?;
    for ring in [1, 2, 3] {
        // By then the other thread sleeps at the bell, as it is to do for the test to tell something.
        thread::sleep(&rt, Duration::from_millis(20));
        bell.ring(&rt);
        assert!(rt; heard.take(&rt) == Some(ring));
    }
    thread::sleep(&rt, Duration::from_millis(20));
    bell.close(&rt);
    assert!(rt; waiter.join(&rt) == 3);
    Ok(())
}
