// A range of the state, handed out from the one cell that has it.
ghost use Rattle.std.specs.Prelude.{◌≤◌, length, map, take, IfOk};
ghost use Rattle.std.specs.Bool.{OnTrue};
ghost use Rattle.semantics.specs.Texts.{pairs_within};
ghost use Rattle.semantics.specs.Joins.{Join as PlainJoin};
ghost use Rattle.semantics.specs.Histories.{joins_of};
ghost use Rattle.semantics.specs.States.{state};
ghost use Rattle.layering.specs.Parts.{JoinTo};
ghost use Rattle.join_eval.specs.Moves.{Moves};
ghost use Rattle.cell_slots.specs.Slots.{StandsAs};
ghost use Rattle.base_reader.specs.Reaching.{IsOnlyReached};
ghost use Rattle.shared_cells.specs.Handing.{HandsOut};

use crate::part::hand_part;
use crate::room::Room;
use crate::{Part, RankedJoin};
use base_shards::Naming;
use join_types::RowSink;
use key_space::Range;
use key_space::range::look_at;
use out_of_memory::OutOfMemory;
use pq_io::Gate;
use rank_layers::Query;
use shared_reader::Stacked;
use std::sync::Wait;
use std::sync::ledger::Ledger;
use steps::Steps;

/// Hands what the join gives in a range to the sink, where the range has one part alone and its cell can, as `hand_part` does, and
/// says whether it did.
fn hand_only<N: Naming, W: Wait, G: Gate, R: Stacked<N>, K: RowSink, L: Ledger>(
    room: &Room<'_, N, W, G>,
    query: Query,
    range: &Range,
    parts: &[Part<N>],
    reader: &mut R,
    sink: &mut K,
    steps: &mut Steps<L>,
) -> Result<bool, OutOfMemory>
    requires within { query.p ≤ length (R.list reader.old) }
    requires above { R.floor reader.old ≤ query.p }
    requires stands { (j : PlainJoin) × StandsAs (R.list reader.old) query.p query.at query.rank j }
    requires ranked { query.rank ≤ R.top }
    requires joins { JoinTo range.now (map (λ part. part.range) parts.now) }
    ensures handed { IfOk result (λ gave. OnTrue gave (HandsOut K.got (R.list reader.old) query.p query.at query.rank range.now sink.old sink.new steps.old steps.new)) }
    ensures moves { Moves R.list R.floor R.went reader.old reader.new }
    ensures counted { steps.old ≤ steps.new }
{
    if let [part] = parts {
        return hand_part(room, query, part, reader, sink, steps);
    }
    Ok(false)
}

/// Hands what the join gives in a range to the sink, where one cell has the whole range and can, and says whether it did. Where no
/// cell has some of it, the join's output there may be kept from now on. While another thread has the directory or the cell, this
/// one sleeps.
fn hand_join<N: Naming, W: Wait, G: Gate, R: Stacked<N>, K: RowSink, L: Ledger>(
    room: &Room<'_, N, W, G>,
    query: Query,
    range: &Range,
    reader: &mut R,
    sink: &mut K,
    steps: &mut Steps<L>,
) -> Result<bool, OutOfMemory>
    requires within { query.p ≤ length (R.list reader.old) }
    requires above { R.floor reader.old ≤ query.p }
    requires stands { (j : PlainJoin) × StandsAs (R.list reader.old) query.p query.at query.rank j }
    requires ranked { query.rank ≤ R.top }
    ensures handed { IfOk result (λ gave. OnTrue gave (HandsOut K.got (R.list reader.old) query.p query.at query.rank range.now sink.old sink.new steps.old steps.new)) }
    ensures moves { Moves R.list R.floor R.went reader.old reader.new }
    ensures counted { steps.old ≤ steps.new }
{
    let keep = reader.is_kept(query.at);
    let join = RankedJoin::of(query);
    let parts = room.cells.cover(room.rt, join, range, keep)?;
    hand_only(room, query, range, parts.as_slice(), reader, sink, steps)
}

/// Hands the pairs of the range in the state after the first p entries to the sink, in key order, and says whether it did: only
/// where no base pair is seen there, and one cell has the whole range and can, as `hand_part` says. The join named by the position
/// of its declaration, with its rank, is the one whose output the range reaches.
///
/// It takes what reading the base pairs of the range takes, a look at the directory, what the cell does to come to the position,
/// and what the sink takes for each pair. No pair is copied on the way. While another thread has what it needs, this one sleeps.
pub fn hand_range<N: Naming, W: Wait, G: Gate, R: Stacked<N>, K: RowSink, L: Ledger>(
    room: &Room<'_, N, W, G>,
    p: u64,
    range: &Range,
    at: u64,
    rank: u8,
    reader: &mut R,
    sink: &mut K,
    steps: &mut Steps<L>,
) -> Result<bool, OutOfMemory>
    requires within { p ≤ length (R.list reader.old) }
    requires above { R.floor reader.old ≤ p }
    requires only { IsOnlyReached (joins_of (take p (R.list reader.old))) range.now at rank }
    requires ranked { rank ≤ R.top }
    ensures handed { IfOk result (λ gave. OnTrue gave (K.got sink.old sink.new (pairs_within range.now (state (take p (R.list reader.old)))))) }
    ensures moves { Moves R.list R.floor R.went reader.old reader.new }
    ensures counted { steps.old ≤ steps.new }
{
    look_at(range);
    let seen = reader.pairs(p, range, 0, steps)?;
    if seen.is_empty() {
        let query = Query { at, rank, p };
        return hand_join(room, query, range, reader, sink, steps);
    }
    Ok(false)
}
