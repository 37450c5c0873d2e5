// The bounds of a range that is registered.
ghost use Rattle.std.specs.Prelude.{◌≡◌, IfOk};
ghost use Rattle.updater_index.specs.Forks.{fork_of};

use crate::fork::{Beginning, Fork, next_at, shared_len};
use key_space::{KeyBound, Range};
use out_of_memory::OutOfMemory;
use std::alloc::Global;
use std::marker::Model;

/// The bounds of a range, and where they part. The long texts are shared with the range.
#[derive(Debug, Drop)]
pub struct Bounds {
    low: KeyBound,
    high: KeyBound,
    fork: Fork,
}

impl Model for Bounds {
    ghost use Rattle.std.specs.Prelude.{◌≡◌};
    ghost use Rattle.semantics.specs.Texts.{Range};
    ghost use Rattle.updater_index.specs.Forks.{fork_of};

    ghost Value = { Range };

    ghost view = { λ b. record { low = b.low; high = b.high } };

    ghost invariant = { λ b. b.fork ≡ fork_of (record { low = b.low; high = b.high }) };
}

/// Where the bounds of the range part. Linear in them.
fn find_fork(alloc: Global, range: &Range) -> Result<Fork, OutOfMemory>
    ensures { IfOk result (λ fork. fork ≡ fork_of range.now) }
{
    let low = range.lo().as_bytes();
    let high = range.hi().as_bytes();
    let shared = shared_len(low, high);
    let beginning = Beginning::of(alloc, &high[..shared])?;
    let next = next_at(high, shared);
    Ok(Fork { beginning, next })
}

impl Bounds {
    /// The bounds of the range.
    pub fn of(alloc: Global, range: &Range) -> Result<Bounds, OutOfMemory>
        ensures { IfOk result (λ bounds. bounds ≡ range.now) }
    {
        let fork = find_fork(alloc, range)?;
        let low = range.first_place()?;
        let high = range.last_place()?;
        Ok(Bounds { low, high, fork })
    }

    /// The first bound.
    pub fn low(&self) -> &KeyBound
        ensures { result.now ≡ self.now.low }
    {
        &self.low
    }

    /// The last bound.
    pub fn high(&self) -> &KeyBound
        ensures { result.now ≡ self.now.high }
    {
        &self.high
    }

    /// Where they part.
    pub fn fork(&self) -> &Fork
        ensures { result.now ≡ fork_of self.now }
    {
        &self.fork
    }

    /// Where they part, and both of them.
    pub fn into_parts(self) -> (Fork, KeyBound, KeyBound)
        ensures fork { result.0 ≡ fork_of self }
        ensures low { result.1 ≡ self.low }
        ensures high { result.2 ≡ self.high }
    {
        let Bounds { low, high, fork } = self;
        (fork, low, high)
    }
}
