// The calls that were made of an object in memory, and which of them fail.
ghost use Rattle.std.specs.Prelude.{◌≡◌, ◌↔◌, ◌+◌, ◌≤◌, Contains, IsTrue, is_err};
ghost use Rattle.pq_io.specs.CallLog.{NextIsListed, after_call, after_opening, no_calls};
ghost use Rattle.pq_io.specs.Faults.{HasCause, next_count};

use crate::Failed;
use crate::fault_count::FaultCount;
use std::marker::Model;

// Counts calls from 1, up to the last value of its type.
#[derive(Drop)]
pub struct Calls {
    made: usize,
    fails: Vec<usize>,
    faults: FaultCount,
}

impl Model for Calls {
    ghost use Rattle.pq_io.specs.CallLog.{CallLog};

    ghost Value = { CallLog };

    ghost view = { λ c. record { made = c.made; fails = c.fails.items; faults = c.faults.0 } };
}

// True exactly where the number after `made` is in the list. That number may pass the end of its type.
fn lists_next(fails: &[usize], made: usize) -> bool
    ensures { IsTrue result ↔ Contains fails.now (made + 1) }
{
    match made.checked_add(1) {
        Some(number) => fails.contains(&number),
        None => false,
    }
}

impl Calls {
    // No call was made yet, and those with these numbers fail.
    pub fn new(fails: Vec<usize>) -> Self
        ensures { result ≡ no_calls fails.items }
    {
        Calls {
            made: 0,
            fails,
            faults: FaultCount::new(),
        }
    }

    // How many calls were made.
    pub fn made(&self) -> usize
        ensures { result ≡ self.now.made }
    {
        self.made
    }

    // Counts a call. `Failed`, and its fault is counted, exactly where its number is one of those that fail.
    pub fn next(&mut self) -> Result<(), Failed>
        ensures listed { IsTrue (is_err result) ↔ NextIsListed self.old }
        ensures counted { self.new ≡ after_call self.old (is_err result) }
        ensures cause { HasCause self.old.faults self.new.faults result }
    {
        let fails = lists_next(&self.fails, self.made);
        self.made = self.made.saturating_add(1);
        if fails {
            return Err(self.faults.raise());
        }
        Ok(())
    }

    // Opens the object, which counts as no call. `Failed`, and its fault is counted, exactly where 0 is one of the numbers
    // that fail.
    pub fn open(&mut self) -> Result<(), Failed>
        ensures listed { IsTrue (is_err result) ↔ Contains self.old.fails 0 }
        ensures counted { self.new ≡ after_opening self.old (is_err result) }
        ensures cause { HasCause self.old.faults self.new.faults result }
    {
        if self.fails.contains(&0) {
            return Err(self.faults.raise());
        }
        Ok(())
    }

    // Counts a fault of the call that was made last, and gives the error to answer.
    pub fn fault(&mut self) -> Failed
        ensures next { self.new ≡ record self.old { faults = next_count self.old.faults } }
        ensures later { self.old.faults ≤ self.new.faults }
    {
        self.faults.raise()
    }
}
