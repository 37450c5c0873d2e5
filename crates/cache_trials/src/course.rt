// How far two threads have come, of which one waits for the other.

use out_of_memory::OutOfMemory;
use std::alloc::Global;
use std::sync::{Arc, Mutex, Wait};

/// How often a thread looks for a stage of a few requests before it gives up.
pub const FEW_LOOKS: u32 = 10_000_000;
/// How often a thread looks for a stage of many requests before it gives up.
pub const MANY_LOOKS: u32 = 1_000_000_000;

/// How far the two have come.
#[derive(Clone, Copy, Debug, PartialEq, Eq, PartialOrd, Ord)]
pub enum Stage {
    Begun,
    /// The read of the one is at the gate.
    Held,
    /// The other has come so far that the one may go on.
    Passed,
}

/// How far they have come, and whether a thread gave up.
#[derive(Clone, Copy)]
pub struct Progress {
    /// How often a thread looks for a stage before it gives up.
    pub looks: u32,
    /// How far they have come.
    pub stage: Stage,
    /// Whether a thread gave up.
    pub gave_up: bool,
}

/// What the threads tell one another of it.
pub type Course = Arc<Mutex<Progress>>;

/// Tells the other that a stage has come. One that comes later stays.
pub fn come_to<R: Wait>(rt: &R, course: &Course, stage: Stage) {
    let mut progress = course.lock(rt);
    if progress.stage < stage {
        progress.stage = stage;
    }
}

/// Goes on when the stage has come.
pub fn wait_for<R: Wait>(rt: &R, course: &Course, stage: Stage) {
    let looks = course.lock(rt).looks;
    for _ in 0..looks {
        if course.lock(rt).stage >= stage {
            return;
        }
    }
    course.lock(rt).gave_up = true;
}

/// A course on which neither has come anywhere, and on which a thread looks so often for a stage before it gives up.
pub fn begin(alloc: Global, looks: u32) -> Result<Course, OutOfMemory> {
    let begun = Progress {
        looks,
        stage: Stage::Begun,
        gave_up: false,
    };
    Ok(Arc::new(alloc, Mutex::new(begun))?)
}
