// A reader up to a rank, where threads share the history.
ghost use Rattle.std.specs.Prelude.{◌≡◌, refl};
ghost use Rattle.std.proofs.Common.{◌∙◌};

use crate::rank::Rank;
use crate::room::Room;
use base_shards::Naming;
use join_eval::{Between, Changed, Changes, Reader};
use join_types::{Join, Pair};
use key_space::Range;
use out_of_memory::OutOfMemory;
use pq_io::Gate;
use shared_reader::{Followed, Stacked, Use};
use std::marker::PhantomData;
use std::sync::Wait;
use std::sync::ledger::Ledger;
use steps::Steps;
use write_history::Pass;

/// Reads with the joins of the ranks below a rank, over a lowest reader that it borrows, and keeps what they give in the cells of
/// a room.
#[derive(Drop)]
pub struct RankReader<'s, 'a, N: Naming, W, G, S, T> {
    /// What all layers have in common.
    pub room: &'s Room<'a, N, W, G>,
    /// The lowest reader.
    pub lowest: &'s mut S,
    /// The rank.
    pub rank: PhantomData<T>,
}

impl<'s, 'a, N: Naming, W: Wait, G: Gate, S: Stacked<N>, T: Rank> Reader
    for RankReader<'s, 'a, N, W, G, S, T> {
    ghost list = { λ r. S.list r.lowest.now };

    ghost top = { T.top };

    ghost floor = { λ r. S.floor r.lowest.now };

    ghost went = { λ a b. (b.lowest.ghost_name ≡ a.lowest.ghost_name) × S.went a.lowest.now b.lowest.now };

    ghost spends = { λ _ _ _ _ _ _. Unit {0} };

    ghost top_small = { T.top_small };

    ghost went_refl = { λ a. (refl, S.went_refl a.lowest.now) };

    ghost went_trans = { λ a b c first next. (next.0 ∙ first.0, S.went_trans a.lowest.now b.lowest.now c.lowest.now first.1 next.1) };

    fn top_rank(&self) -> u8 {
        T::top_rank()
    }

    fn pairs<L: Ledger>(
        &mut self,
        p: u64,
        range: &Range,
        rank: u8,
        steps: &mut Steps<L>,
    ) -> Result<Vec<Pair>, OutOfMemory> {
        T::pairs(self.room, self.lowest, p, range, rank, steps)
    }

    fn changed<L: Ledger>(
        &mut self,
        q: u64,
        p: u64,
        range: &Range,
        rank: u8,
        steps: &mut Steps<L>,
    ) -> Result<Changed, OutOfMemory> {
        T::changed(self.room, self.lowest, q, p, range, rank, steps)
    }

    fn changes<L: Ledger>(
        &mut self,
        q: u64,
        p: u64,
        range: &Range,
        rank: u8,
        steps: &mut Steps<L>,
    ) -> Result<Changes, OutOfMemory> {
        T::changes(self.room, self.lowest, q, p, range, rank, steps)
    }
}

impl<'s, 'a, N: Naming, W: Wait, G: Gate, S: Stacked<N>, T: Rank> Stacked<N>
    for RankReader<'s, 'a, N, W, G, S, T> {
    fn least_position(&self) -> u64 {
        self.lowest.least_position()
    }

    fn meet(&mut self, pass: &mut Pass) {
        self.lowest.meet(pass);
    }

    fn reached(&mut self, p: u64, range: &Range, rank: u8) -> Result<Vec<u64>, OutOfMemory> {
        self.lowest.reached(p, range, rank)
    }

    fn between(&mut self, q: u64, p: u64, range: &Range) -> Result<Between, OutOfMemory> {
        self.lowest.between(q, p, range)
    }

    fn join_at(&mut self, p: u64, at: u64) -> Result<Join, OutOfMemory> {
        self.lowest.join_at(p, at)
    }

    fn is_kept(&self, at: u64) -> bool {
        self.lowest.is_kept(at)
    }

    fn note_use(&mut self, used: Use) {
        self.lowest.note_use(used);
    }

    fn note_told(&mut self, used: Use) {
        self.lowest.note_told(used);
    }

    fn start_noting(&mut self) -> usize {
        self.lowest.start_noting()
    }

    fn follow_noted(&mut self, id: u32, since: Option<usize>, followed: &mut Followed) {
        self.lowest.follow_noted(id, since, followed);
    }
}
