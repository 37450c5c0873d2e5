// Queues that are closed while threads wait at them.
use crate::items::take_all;
use door_queue::DoorQueue;
use std::alloc::Global;
use std::sync::Arc;
use std::test::Fail;
use std::thread;
use std::time::Duration;

#[test]
fn all_who_wait_go_on_at_the_close(rt: HostRuntime) -> Result<(), Fail> {
    let alloc: Global = rt.alloc();
    let empty = Arc::new(alloc, DoorQueue::new(alloc, 1)?)?;
    let full = Arc::new(alloc, DoorQueue::new(alloc, 1)?)?;
    let mut all_done = full.put(&rt, 0u32).is_ok();
    let mut takers = Vec::new(alloc);
    let mut putters = Vec::new(alloc);
    for item in [1u32, 2] {
        let theirs = Arc::try_clone(&empty)?;
        takers.push(thread::spawn(&rt, move || take_all(&rt, alloc, &theirs))?)?;
        let theirs = Arc::try_clone(&full)?;
        putters.push(thread::spawn(&rt, move || theirs.put(&rt, item).is_err())?)?;
    }
    // By then the four sleep, as they are to do for the test to tell something.
    thread::sleep(&rt, Duration::from_millis(20));
    empty.close(&rt);
    full.close(&rt);
    for taker in takers {
        all_done &= taker.join(&rt)?.is_empty();
    }
    for putter in putters {
        all_done &= putter.join(&rt);
    }
    assert!(rt; all_done);
    Ok(())
}
