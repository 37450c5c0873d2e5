// A count of faults.
ghost use Rattle.std.specs.Prelude.{◌≡◌, ◌≤◌};
ghost use Rattle.pq_io.specs.Faults.{next_count};

use crate::Failed;

// How many calls of an object have failed, up to the last value of its type.
#[derive(Clone, Copy, Debug)]
pub struct FaultCount(u64);

impl FaultCount {
    // No call has failed yet.
    pub fn new() -> Self
        ensures { result.0 ≡ 0 }
    {
        FaultCount(0)
    }

    // Counts a fault, and gives the error to answer.
    pub fn raise(&mut self) -> Failed
        ensures next { self.new.0 ≡ next_count self.old.0 }
        ensures later { self.old.0 ≤ self.new.0 }
    {
        self.0 = self.0.saturating_add(1);
        Failed
    }

    // How many calls have failed.
    pub fn count(&self) -> u64
        ensures { result ≡ self.now.0 }
    {
        self.0
    }
}
