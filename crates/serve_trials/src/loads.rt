// Loads, with ample memory. The lines are those that another program makes of the same numbers.
use load_run::{Load, load_text};
use pq_io::Gate;
use std::process::Abort;
use std::sync::Wait;
use std::sync::atomic::AtomicU64;
use std::sync::atomic::Ordering::SeqCst;
use std::test::Fail;
use std::thread::Threads;

/// A gate that counts how often it is passed.
#[derive(Drop)]
struct Counter {
    passed: AtomicU64,
}

impl Gate for Counter {
    fn pass(&self, _table: &str) {
        self.passed.fetch_add(1, SeqCst);
    }
}

/// What a load's numbers are, and the line that tells what stands then.
const LINES: [(u64, u32, u32, &str); 3] = [
    (1, 0, 100, "[\"load\",2,0,0,0,0,0,0]\n"),
    (7, 24, 12, "[\"load\",25,3,11,4,6,3,445]\n"),
    (7, 60, 4, "[\"load\",52,4,27,5,34,3,1398]\n"),
];

/// Asserts that the load has this line, in so many cells that may keep so many rows, and that a load of any act passes the gate.
fn expect_line<R: AllocGlobal + Threads + Wait + Abort + Sync>(
    rt: &R,
    load: Load,
    room: (u32, u64),
    line: &str,
) -> Result<(), Fail> {
    let gate = Counter {
        passed: AtomicU64::new(0),
    };
    let acts = load.steps > 0;
    assert!(rt; 1 <= room.0 && room.0 <= 65_536 && 1 <= room.1);
    assert!(rt; 1 <= load.users && load.users <= 9_999 && load.steps <= 1_000_000);
    assert!(rt; 1 <= load.workers && load.workers <= 64);
    let text = load_text(rt, rt.alloc(), &gate, room.0, room.1, load)?;
    assert!(rt; text.as_slice() == line.as_bytes() && (gate.passed.load(SeqCst) > 0 || !acts));
    Ok(())
}

#[test]
fn the_line_tells_what_stands_whoever_shares_the_load(rt: HostRuntime) -> Result<(), Fail> {
    for (number, steps, users, line) in LINES {
        for (workers, cells, rows) in [(1, 1_024, 100_000), (1, 1, 1), (4, 4, 50), (64, 1, 1)] {
            let load = Load {
                number,
                steps,
                users,
                workers,
            };
            expect_line(&rt, load, (cells, rows), line)?;
        }
    }
    Ok(())
}
