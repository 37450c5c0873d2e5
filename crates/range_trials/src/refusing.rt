// A reader that runs out of memory at one call, and that counts.
ghost use Rattle.std.specs.Prelude.{◌≡◌};
ghost use Rattle.std.proofs.Common.{rules};

use join_eval::{Changed, Changes, Reader};
use join_types::Pair;
use key_space::Range;
use list_reader::ListReader;
use out_of_memory::OutOfMemory;
use std::alloc::AllocError;
use std::sync::ledger::Ledger;
use steps::Steps;

/// Reads as the plain reader does, but that it answers `OutOfMemory` at one call, once the plain reader has
/// answered.
#[derive(Drop)]
pub struct RefusingReader {
    /// The reader that it asks.
    pub inner: ListReader,
    /// How many calls there are up to that one, itself among them; 0 where it refuses none any more.
    pub left: u64,
    /// How many pairs and keys it handed out, and one more for each call that did.
    pub counted: u64,
}

impl RefusingReader {
    /// Counts so many that are handed out.
    fn hand_out(&mut self, count: usize)
        ensures { self.new.inner ≡ self.old.inner }
    {
        self.counted = self.counted.saturating_add(count as u64).saturating_add(1);
    }

    /// Lets a call pass, or refuses it.
    fn count(&mut self) -> Result<(), OutOfMemory>
        ensures { self.new.inner ≡ self.old.inner }
    {
        match self.left {
            0 => Ok(()),
            1 => {
                self.left = 0;
                Err(OutOfMemory::from(AllocError))
            }
            more => {
                self.left = more - 1;
                Ok(())
            }
        }
    }
}

impl Reader for RefusingReader {
    ghost list = { λ r. r.inner };

    ghost top = { 8 };

    ghost floor = { λ _. 0 };

    ghost went = { λ _ _. Unit {0} };

    ghost spends = { λ _ _ _ _ _ _. Unit {0} };

    ghost top_small = { Prim.search rules };

    ghost went_refl = { λ _. tt };

    ghost went_trans = { λ _ _ _ _ _. tt };

    fn top_rank(&self) -> u8 {
        8
    }

    fn pairs<L: Ledger>(
        &mut self,
        p: u64,
        range: &Range,
        rank: u8,
        steps: &mut Steps<L>,
    ) -> Result<Vec<Pair>, OutOfMemory> {
        let answer = self.inner.pairs(p, range, rank, steps);
        self.count()?;
        if let Ok(pairs) = &answer {
            self.hand_out(pairs.len());
        }
        answer
    }

    fn changed<L: Ledger>(
        &mut self,
        q: u64,
        p: u64,
        range: &Range,
        rank: u8,
        steps: &mut Steps<L>,
    ) -> Result<Changed, OutOfMemory> {
        let answer = self.inner.changed(q, p, range, rank, steps);
        self.count()?;
        if let Ok(Changed::Keys(keys)) = &answer {
            self.hand_out(keys.len());
        }
        answer
    }

    fn changes<L: Ledger>(
        &mut self,
        q: u64,
        p: u64,
        range: &Range,
        rank: u8,
        steps: &mut Steps<L>,
    ) -> Result<Changes, OutOfMemory> {
        let answer = self.inner.changes(q, p, range, rank, steps);
        self.count()?;
        if let Ok(Changes::Listed(changes)) = &answer {
            self.hand_out(changes.len());
        }
        answer
    }
}
