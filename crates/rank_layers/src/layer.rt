// Layers: one rank, and one more.
ghost use Rattle.std.specs.Prelude.{◌+◌, min};
ghost use Rattle.std.proofs.Common.{rules};
ghost use Rattle.cell_slots.specs.FrameLaws.{min_small};

use crate::above::{changed_above, pairs_above};
use crate::own_cells::OwnCells;
use crate::rank::Rank;
use crate::rank_reader::RankReader;
use crate::valuing::changes_above;
use cell_slots::Cells;
use join_eval::{Changed, Changes};
use join_types::Pair;
use key_space::Range;
use out_of_memory::OutOfMemory;
use std::alloc::Global;
use std::marker::PhantomData;
use std::sync::ledger::Ledger;
use steps::Steps;

/// Reads at rank 0, as the lowest reader does.
pub struct Lowest {}

/// Reads one rank more than a rank, up to 8, and keeps what the joins of that rank give in cells of the lowest reader.
pub struct Layer<T> {
    below: PhantomData<T>,
}

impl Rank for Lowest {
    ghost top = { 0 };

    ghost top_small = { Prim.search rules };

    fn top_rank() -> u8 {
        0
    }

    fn pairs<S: Cells, L: Ledger>(
        _alloc: Global,
        lowest: &mut S,
        p: u64,
        range: &Range,
        rank: u8,
        steps: &mut Steps<L>,
    ) -> Result<Vec<Pair>, OutOfMemory> {
        lowest.pairs(p, range, rank, steps)
    }

    fn changed<S: Cells, L: Ledger>(
        _alloc: Global,
        lowest: &mut S,
        q: u64,
        p: u64,
        range: &Range,
        rank: u8,
        steps: &mut Steps<L>,
    ) -> Result<Changed, OutOfMemory> {
        lowest.changed(q, p, range, rank, steps)
    }

    fn changes<S: Cells, L: Ledger>(
        _alloc: Global,
        lowest: &mut S,
        q: u64,
        p: u64,
        range: &Range,
        rank: u8,
        steps: &mut Steps<L>,
    ) -> Result<Changes, OutOfMemory> {
        lowest.changes(q, p, range, rank, steps)
    }
}

impl<T: Rank> Rank for Layer<T> {
    ghost top = { min 8 (T.top + 1) };

    ghost top_small = { min_small (T.top + 1) };

    fn top_rank() -> u8 {
        let top = T::top_rank();
        if top < 8 { top + 1 } else { 8 }
    }

    fn pairs<S: Cells, L: Ledger>(
        alloc: Global,
        lowest: &mut S,
        p: u64,
        range: &Range,
        rank: u8,
        steps: &mut Steps<L>,
    ) -> Result<Vec<Pair>, OutOfMemory> {
        if rank <= T::top_rank() {
            return T::pairs(alloc, lowest, p, range, rank, steps);
        }
        let mut reader: RankReader<'_, S, T> = RankReader {
            alloc,
            lowest,
            rank: PhantomData,
        };
        let cache = OwnCells { alloc };
        pairs_above(&cache, rank - 1, p, range, &mut reader, steps)
    }

    fn changed<S: Cells, L: Ledger>(
        alloc: Global,
        lowest: &mut S,
        q: u64,
        p: u64,
        range: &Range,
        rank: u8,
        steps: &mut Steps<L>,
    ) -> Result<Changed, OutOfMemory> {
        if rank <= T::top_rank() {
            return T::changed(alloc, lowest, q, p, range, rank, steps);
        }
        let mut reader: RankReader<'_, S, T> = RankReader {
            alloc,
            lowest,
            rank: PhantomData,
        };
        let cache = OwnCells { alloc };
        changed_above(&cache, rank - 1, q, p, range, &mut reader, steps)
    }

    fn changes<S: Cells, L: Ledger>(
        alloc: Global,
        lowest: &mut S,
        q: u64,
        p: u64,
        range: &Range,
        rank: u8,
        steps: &mut Steps<L>,
    ) -> Result<Changes, OutOfMemory> {
        if rank <= T::top_rank() {
            return T::changes(alloc, lowest, q, p, range, rank, steps);
        }
        let mut reader: RankReader<'_, S, T> = RankReader {
            alloc,
            lowest,
            rank: PhantomData,
        };
        let cache = OwnCells { alloc };
        changes_above(&cache, rank - 1, q, p, range, &mut reader, steps)
    }
}

/// Two layers more.
pub type Two<T> = Layer<Layer<T>>;

/// Four layers more.
pub type Four<T> = Two<Two<T>>;

/// Eight layers over the lowest reader: all ranks.
pub type AllRanks = Four<Four<Lowest>>;
