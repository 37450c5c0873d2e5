// The cells that threads share, as the cache of a layer.

use crate::part::{changes_of_part, read_alone, read_part};
use crate::room::Room;
use crate::{Part, RankedJoin};
use base_shards::Naming;
use cell_slots::reads_all;
use join_eval::{Between, Changed};
use join_types::{Join, Pair};
use key_space::Range;
use out_of_memory::OutOfMemory;
use pq_io::Gate;
use rank_layers::{Query, RangeCache};
use shared_reader::Stacked;
use std::alloc::Global;
use std::sync::Wait;
use std::sync::ledger::Ledger;
use steps::Steps;

impl<'a, N: Naming, W: Wait, G: Gate, R: Stacked<N>> RangeCache<R> for Room<'a, N, W, G> {
    type Part = Part<N>;

    ghost range_of = { λ part. part.range };

    ghost left = { λ _ a b. R.went a b };

    ghost looked = { λ a b. R.went a b };

    ghost covered = { λ _ _ _ _ _ _ _. Unit {0} };

    ghost took = { λ _ _ _ _ _ _ _ _. Unit {0} };

    ghost unknown = { λ _ _ _ _ _ _ _. Unit {0} };

    ghost cost_one = { λ _ _ _ _ _ _ _ _. Unit {0} };

    ghost spends = { λ _ _ _ _ _ _. Unit {0} };

    ghost left_refl = { λ _ a. R.went_refl a };

    ghost left_trans = { λ _ a b c first next. R.went_trans a b c first next };

    ghost left_below = { λ _ _ _ _ on. on };

    ghost left_looked = { λ _ _ _ on. on };

    ghost cost_of_part = { λ _ _ _ _ _ _ _ _ _ _ _ _ _ _ _ _ _. tt };

    ghost cost_of_parts = { λ _ _ _ _ _ _ _ _ _ _ _ _ _. tt };

    ghost spends_next = { λ _ _ _ _ _ _ _ _ _ _ _ _ _ _ _ _. tt };

    fn alloc(&self) -> Global {
        self.alloc
    }

    fn reached(
        &self,
        p: u64,
        range: &Range,
        rank: u8,
        reader: &mut R,
    ) -> Result<Vec<u64>, OutOfMemory> {
        reader.reached(p, range, rank)
    }

    fn between(
        &self,
        q: u64,
        p: u64,
        range: &Range,
        reader: &mut R,
    ) -> Result<Between, OutOfMemory> {
        reader.between(q, p, range)
    }

    fn cover(
        &self,
        query: Query,
        range: &Range,
        reader: &mut R,
    ) -> Result<Vec<Part<N>>, OutOfMemory> {
        let keep = reader.is_kept(query.at);
        self.cells
            .cover(self.rt, RankedJoin::of(query), range, keep)
    }

    fn parts(&self, query: Query, range: &Range, _reader: &R) -> Result<Vec<Part<N>>, OutOfMemory> {
        self.cells
            .cover(self.rt, RankedJoin::of(query), range, false)
    }

    fn read<L: Ledger>(
        &self,
        query: Query,
        part: &Part<N>,
        reader: &mut R,
        steps: &mut Steps<L>,
    ) -> Result<Vec<Pair>, OutOfMemory> {
        read_part(self, query, part, reader, steps)
    }

    fn read_whole<L: Ledger>(
        &self,
        query: Query,
        range: &Range,
        reader: &mut R,
        steps: &mut Steps<L>,
    ) -> Result<Vec<Pair>, OutOfMemory> {
        read_alone(self, query, range, reader, steps)
    }

    fn copy_join(&self, query: Query, reader: &mut R) -> Result<Join, OutOfMemory> {
        reader.join_at(query.p, query.at)
    }

    fn reads_all(&self, join: &Join, part: &Part<N>) -> Result<bool, OutOfMemory> {
        match &part.cell {
            Some(_) => Ok(false),
            None => reads_all(self.alloc, join, &part.range),
        }
    }

    fn changes_since<L: Ledger>(
        &self,
        query: Query,
        since: u64,
        part: &Part<N>,
        reader: &mut R,
        steps: &mut Steps<L>,
    ) -> Result<Changed, OutOfMemory> {
        changes_of_part(self, query, since, part, reader, steps)
    }
}
