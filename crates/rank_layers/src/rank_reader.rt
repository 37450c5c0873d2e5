// A reader up to a rank.
ghost use Rattle.std.specs.Prelude.{◌≡◌, refl};
ghost use Rattle.std.proofs.Common.{◌∙◌};
ghost use Rattle.cell_slots.specs.Slots.{Frame};
ghost use Rattle.cell_slots.specs.FrameLaws.{frame_refl, frame_trans};
ghost use Rattle.cell_slots.specs.Spending.{Spends};

use crate::rank::Rank;
use cell_slots::Cells;
use join_eval::{Changed, Changes, Reader};
use join_types::Pair;
use key_space::Range;
use out_of_memory::OutOfMemory;
use std::alloc::Global;
use std::marker::PhantomData;
use std::sync::ledger::Ledger;
use steps::Steps;

/// Reads with the joins of the ranks below a rank, over a lowest reader that it borrows, in whose cells it keeps what they give.
#[derive(Drop)]
pub struct RankReader<'s, S, T> {
    /// By which kept ranges grow.
    pub alloc: Global,
    /// The lowest reader.
    pub lowest: &'s mut S,
    /// The rank.
    pub rank: PhantomData<T>,
}

impl<'s, S: Cells, T: Rank> Reader for RankReader<'s, S, T> {
    ghost list = { λ r. S.list r.lowest.now };

    ghost top = { T.top };

    ghost floor = { λ r. S.floor r.lowest.now };

    ghost went = { λ a b. (b.lowest.ghost_name ≡ a.lowest.ghost_name) × Frame T.top (S.holdings a.lowest.now) (S.holdings b.lowest.now) };

    ghost spends = { λ a b p range rank added. Spends (S.list a.lowest.now) (S.holdings a.lowest.now) (S.holdings b.lowest.now) p range rank added };

    ghost top_small = { T.top_small };

    ghost went_refl = { λ a. (refl, frame_refl T.top (S.holdings a.lowest.now)) };

    ghost went_trans = { λ a b c first next. (next.0 ∙ first.0, frame_trans T.top (S.holdings a.lowest.now) (S.holdings b.lowest.now) (S.holdings c.lowest.now) first.1 next.1) };

    fn top_rank(&self) -> u8 {
        T::top_rank()
    }

    fn pairs<L: Ledger>(
        &mut self,
        p: u64,
        range: &Range,
        rank: u8,
        steps: &mut Steps<L>,
    ) -> Result<Vec<Pair>, OutOfMemory> {
        T::pairs(self.alloc, self.lowest, p, range, rank, steps)
    }

    fn changed<L: Ledger>(
        &mut self,
        q: u64,
        p: u64,
        range: &Range,
        rank: u8,
        steps: &mut Steps<L>,
    ) -> Result<Changed, OutOfMemory> {
        T::changed(self.alloc, self.lowest, q, p, range, rank, steps)
    }

    fn changes<L: Ledger>(
        &mut self,
        q: u64,
        p: u64,
        range: &Range,
        rank: u8,
        steps: &mut Steps<L>,
    ) -> Result<Changes, OutOfMemory> {
        T::changes(self.alloc, self.lowest, q, p, range, rank, steps)
    }
}
