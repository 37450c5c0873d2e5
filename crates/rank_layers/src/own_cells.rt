// Cells that have one owner: the lowest reader, which lends what they hold.
ghost use Rattle.std.specs.Prelude.{◌≡◌, refl};
ghost use Rattle.std.proofs.Common.{ap, ◌∙◌};
ghost use Rattle.cell_slots.specs.Slots.{Frame};
ghost use Rattle.cell_slots.specs.FrameLaws.{frame_refl, frame_trans};
ghost use Rattle.cell_slots.specs.Spending.{Covers, OneSpends, Spends, Took};
ghost use Rattle.cell_slots.proofs.FrameLemmas.{frame_of_same, frame_weaker};
ghost use Rattle.cell_slots.proofs.SpendingLemmas.{cost_of_part, cost_of_parts, spends_next};
ghost use Rattle.rank_layers.specs.Telling.{IsUnknownSince};

use crate::part::{changes_of_part, read_alone, read_part};
use crate::query::Query;
use crate::range_cache::RangeCache;
use crate::rank::Rank;
use crate::rank_reader::RankReader;
use cell_slots::{Cells, Part, reads_all};
use join_eval::{Between, Changed};
use join_types::{Join, Pair};
use key_space::Range;
use out_of_memory::OutOfMemory;
use std::alloc::Global;
use std::sync::ledger::Ledger;
use steps::Steps;

/// Keeps ranges in the cells of the lowest reader.
#[derive(Clone, Copy)]
pub struct OwnCells {
    /// By which kept ranges grow.
    pub alloc: Global,
}

impl<'s, S: Cells, T: Rank> RangeCache<RankReader<'s, S, T>> for OwnCells {
    type Part = Part;

    ghost range_of = { λ part. part.range };

    ghost left = { λ rank a b. (b.lowest.ghost_name ≡ a.lowest.ghost_name) × Frame rank (S.holdings a.lowest.now) (S.holdings b.lowest.now) };

    ghost looked = { λ a b. b ≡ a };

    ghost covered = { λ a b at rank p range parts. Covers (S.list a.lowest.now) (S.holdings a.lowest.now) (S.holdings b.lowest.now) at rank p range parts };

    ghost took = { λ a b at rank p part rows added. Took (S.list a.lowest.now) (S.holdings a.lowest.now) (S.holdings b.lowest.now) at rank p part rows added };

    ghost unknown = { λ a b at rank p since part. IsUnknownSince (S.holdings a.lowest.now).slots (S.holdings b.lowest.now).slots at rank p since part };

    ghost cost_one = { λ a b at rank p range j added. OneSpends (S.list a.lowest.now) (S.holdings a.lowest.now) (S.holdings b.lowest.now) p range rank at j added };

    ghost spends = { λ a b p range rank added. Spends (S.list a.lowest.now) (S.holdings a.lowest.now) (S.holdings b.lowest.now) p range rank added };

    ghost left_refl = { λ rank a. (refl, frame_refl rank (S.holdings a.lowest.now)) };

    ghost left_trans = { λ rank a b c first next. (next.0 ∙ first.0, frame_trans rank (S.holdings a.lowest.now) (S.holdings b.lowest.now) (S.holdings c.lowest.now) first.1 next.1) };

    ghost left_below = { λ rank a b less on. (on.0, frame_weaker T.top rank (S.holdings a.lowest.now) (S.holdings b.lowest.now) less on.1) };

    ghost left_looked = { λ rank a b same. (ap (λ r. r.lowest.ghost_name) same, frame_of_same (λ r. S.holdings r.lowest.now) rank a b same) };

    ghost cost_of_part = { λ a b c at rank p range part j n m within prefix stands rows covers took. cost_of_part (S.list a.lowest.now) (S.list b.lowest.now) (S.holdings a.lowest.now) (S.holdings b.lowest.now) (S.holdings c.lowest.now) at rank p range part j n m within prefix stands rows covers took };

    ghost cost_of_parts = { λ a b c at rank p range parts j m stands covers several. cost_of_parts (S.list a.lowest.now) (S.holdings a.lowest.now) (S.holdings b.lowest.now) (S.holdings c.lowest.now) at rank p range parts j m stands covers several };

    ghost spends_next = { λ a b c d p range rank n m k sum within prefix first looked joins. spends_next (λ r. S.list r.lowest.now) (λ r. S.holdings r.lowest.now) a b c d p range rank n m k sum within prefix first looked joins };

    fn alloc(&self) -> Global {
        self.alloc
    }

    fn reached(
        &self,
        p: u64,
        range: &Range,
        rank: u8,
        reader: &mut RankReader<'s, S, T>,
    ) -> Result<Vec<u64>, OutOfMemory> {
        reader.lowest.reached(p, range, rank)
    }

    fn between(
        &self,
        q: u64,
        p: u64,
        range: &Range,
        reader: &mut RankReader<'s, S, T>,
    ) -> Result<Between, OutOfMemory> {
        reader.lowest.between(q, p, range)
    }

    fn cover(
        &self,
        query: Query,
        range: &Range,
        reader: &mut RankReader<'s, S, T>,
    ) -> Result<Vec<Part>, OutOfMemory> {
        reader.lowest.cover(query.at, query.rank, query.p, range)
    }

    fn parts(
        &self,
        query: Query,
        range: &Range,
        reader: &RankReader<'s, S, T>,
    ) -> Result<Vec<Part>, OutOfMemory> {
        reader.lowest.parts(query.at, range)
    }

    fn read<L: Ledger>(
        &self,
        query: Query,
        part: &Part,
        reader: &mut RankReader<'s, S, T>,
        steps: &mut Steps<L>,
    ) -> Result<Vec<Pair>, OutOfMemory> {
        read_part::<S, T, L>(self.alloc, query, part, reader.lowest, steps)
    }

    fn read_whole<L: Ledger>(
        &self,
        query: Query,
        range: &Range,
        reader: &mut RankReader<'s, S, T>,
        steps: &mut Steps<L>,
    ) -> Result<Vec<Pair>, OutOfMemory> {
        read_alone::<S, T, L>(self.alloc, query, range, reader.lowest, steps)
    }

    fn copy_join(
        &self,
        query: Query,
        reader: &mut RankReader<'s, S, T>,
    ) -> Result<Join, OutOfMemory> {
        reader.lowest.join_at(query.at)
    }

    fn reads_all(&self, join: &Join, part: &Part) -> Result<bool, OutOfMemory> {
        match part.cell {
            Some(_) => Ok(false),
            None => reads_all(self.alloc, join, &part.range),
        }
    }

    fn changes_since<L: Ledger>(
        &self,
        query: Query,
        since: u64,
        part: &Part,
        reader: &mut RankReader<'s, S, T>,
        steps: &mut Steps<L>,
    ) -> Result<Changed, OutOfMemory> {
        changes_of_part::<S, T, L>(self.alloc, query, since, part, reader.lowest, steps)
    }
}
