// Layers: one rank, and one more.
ghost use Rattle.std.specs.Prelude.{◌+◌, min};
ghost use Rattle.std.proofs.Common.{rules};
ghost use Rattle.cell_slots.specs.FrameLaws.{min_small};

use crate::rank::Rank;
use crate::rank_reader::RankReader;
use crate::room::Room;
use base_shards::Naming;
use join_eval::{Changed, Changes};
use join_types::Pair;
use key_space::Range;
use out_of_memory::OutOfMemory;
use pq_io::Gate;
use rank_layers::above::{changed_above, pairs_above};
use rank_layers::valuing::changes_above;
use shared_reader::Stacked;
use std::marker::PhantomData;
use std::sync::Wait;
use std::sync::ledger::Ledger;
use steps::Steps;

/// Reads at rank 0, as the lowest reader does.
pub struct Lowest {}

/// Reads one rank more than a rank, up to 8, and keeps what the joins of that rank give in cells.
pub struct Layer<T> {
    below: PhantomData<T>,
}

impl Rank for Lowest {
    ghost top = { 0 };

    ghost top_small = { Prim.search rules };

    fn top_rank() -> u8 {
        0
    }

    fn pairs<N: Naming, W: Wait, G: Gate, S: Stacked<N>, L: Ledger>(
        _room: &Room<'_, N, W, G>,
        lowest: &mut S,
        p: u64,
        range: &Range,
        rank: u8,
        steps: &mut Steps<L>,
    ) -> Result<Vec<Pair>, OutOfMemory> {
        lowest.pairs(p, range, rank, steps)
    }

    fn changed<N: Naming, W: Wait, G: Gate, S: Stacked<N>, L: Ledger>(
        _room: &Room<'_, N, W, G>,
        lowest: &mut S,
        q: u64,
        p: u64,
        range: &Range,
        rank: u8,
        steps: &mut Steps<L>,
    ) -> Result<Changed, OutOfMemory> {
        lowest.changed(q, p, range, rank, steps)
    }

    fn changes<N: Naming, W: Wait, G: Gate, S: Stacked<N>, L: Ledger>(
        _room: &Room<'_, N, W, G>,
        lowest: &mut S,
        q: u64,
        p: u64,
        range: &Range,
        rank: u8,
        steps: &mut Steps<L>,
    ) -> Result<Changes, OutOfMemory> {
        lowest.changes(q, p, range, rank, steps)
    }
}

impl<T: Rank> Rank for Layer<T> {
    ghost top = { min 8 (T.top + 1) };

    ghost top_small = { min_small (T.top + 1) };

    fn top_rank() -> u8 {
        let top = T::top_rank();
        if top < 8 { top + 1 } else { 8 }
    }

    fn pairs<N: Naming, W: Wait, G: Gate, S: Stacked<N>, L: Ledger>(
        room: &Room<'_, N, W, G>,
        lowest: &mut S,
        p: u64,
        range: &Range,
        rank: u8,
        steps: &mut Steps<L>,
    ) -> Result<Vec<Pair>, OutOfMemory> {
        if rank <= T::top_rank() {
            return T::pairs(room, lowest, p, range, rank, steps);
        }
        let mut reader: RankReader<'_, '_, N, W, G, S, T> = RankReader {
            room,
            lowest,
            rank: PhantomData,
        };
        pairs_above(room, rank - 1, p, range, &mut reader, steps)
    }

    fn changed<N: Naming, W: Wait, G: Gate, S: Stacked<N>, L: Ledger>(
        room: &Room<'_, N, W, G>,
        lowest: &mut S,
        q: u64,
        p: u64,
        range: &Range,
        rank: u8,
        steps: &mut Steps<L>,
    ) -> Result<Changed, OutOfMemory> {
        if rank <= T::top_rank() {
            return T::changed(room, lowest, q, p, range, rank, steps);
        }
        let mut reader: RankReader<'_, '_, N, W, G, S, T> = RankReader {
            room,
            lowest,
            rank: PhantomData,
        };
        changed_above(room, rank - 1, q, p, range, &mut reader, steps)
    }

    fn changes<N: Naming, W: Wait, G: Gate, S: Stacked<N>, L: Ledger>(
        room: &Room<'_, N, W, G>,
        lowest: &mut S,
        q: u64,
        p: u64,
        range: &Range,
        rank: u8,
        steps: &mut Steps<L>,
    ) -> Result<Changes, OutOfMemory> {
        if rank <= T::top_rank() {
            return T::changes(room, lowest, q, p, range, rank, steps);
        }
        let mut reader: RankReader<'_, '_, N, W, G, S, T> = RankReader {
            room,
            lowest,
            rank: PhantomData,
        };
        changes_above(room, rank - 1, q, p, range, &mut reader, steps)
    }
}

/// Two layers more.
pub type Two<T> = Layer<Layer<T>>;

/// Four layers more.
pub type Four<T> = Two<Two<T>>;

/// Eight layers over the lowest reader: all ranks.
pub type AllRanks = Four<Four<Lowest>>;
