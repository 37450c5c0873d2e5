// One part of a range, from the cell that holds it, which has one owner, or from a kept range of its own.
ghost use Rattle.std.specs.Prelude.{◌≡◌, ℕ, ◌+◌, ◌≤◌, length, slice_get, IfOk, OnOk, Some};
ghost use Rattle.semantics.specs.Joins.{Join as PlainJoin};
ghost use Rattle.growing_history.specs.Entered.{HasEntered};
ghost use Rattle.join_eval.specs.Moves.{Moves};
ghost use Rattle.kept_ranges.specs.Sound.{KeptRange};
ghost use Rattle.range_state.specs.Held.{forgotten};
ghost use Rattle.range_state.specs.Since.{AnswersSince, told_count};
ghost use Rattle.range_state.specs.Work.{advance_steps, TouchesLittle};
ghost use Rattle.cell_slots.specs.declared.slot.Slot.TheVariants.{Held};
ghost use Rattle.cell_slots.specs.Slots.{Frame, IsOutput, IsReadySlot, StandsAs};
ghost use Rattle.cell_slots.specs.Spending.{HoldsAdvanced, HoldsMended, KeepsJust, StandsBehind, StandsPending, StaysReady};
ghost use Rattle.rank_layers.specs.Telling.{CanTell, HoldsCaughtUp, TellsJoin};

use crate::query::Query;
use crate::rank::Rank;
use crate::rank_reader::RankReader;
use cell_slots::{Cells, Part, changes_since, output_part, serve, serve_alone};
use join_eval::{Changed, NeedBound};
use join_types::Pair;
use key_space::Range;
use out_of_memory::OutOfMemory;
use pq_io::OpenGate;
use std::alloc::Global;
use std::convert::Infallible;
use std::marker::PhantomData;
use std::sync::ledger::Ledger;
use steps::Steps;

/// Reads what the join gives in a range of which nothing is kept, from a kept range of its own that is let go.
pub fn read_alone<S: Cells, T: Rank, L: Ledger>(
    alloc: Global,
    query: Query,
    part: &Range,
    lowest: &mut S,
    steps: &mut Steps<L>,
) -> Result<Vec<Pair>, OutOfMemory>
    requires within { query.p ≤ length (S.list lowest.old) }
    requires above { S.floor lowest.old ≤ query.p }
    requires entered { HasEntered (S.list lowest.old) }
    requires stands { (j : PlainJoin) × StandsAs (S.list lowest.old) query.p query.at query.rank j }
    requires next { T.top ≡ query.rank }
    ensures output { IfOk result (λ pairs. IsOutput (S.list lowest.old) query.p query.at query.rank part.now pairs.items) }
    ensures moves { Moves S.list S.floor (λ a b. Frame (query.rank + 1) (S.holdings a) (S.holdings b)) lowest.old lowest.new }
    ensures counted { steps.old ≤ steps.new }
    ensures cost { IfOk result (λ pairs. steps.old + 1 + length pairs.items ≤ steps.new) }
{
    let join = lowest.join_at(query.at)?;
    let range = output_part(alloc, &join, part)?;
    let mut reader: RankReader<'_, S, T> = RankReader {
        alloc,
        lowest,
        rank: PhantomData,
    };
    serve_alone(
        alloc,
        join,
        query.rank,
        query.p,
        range,
        &OpenGate,
        &mut reader,
        steps,
    )
}

/// Reads what the join gives in the part: from the cell that holds it, while it does and does not stand past the position, and
/// otherwise from a kept range of its own.
///
/// Where the cell can be read over the part at once, it takes one step and one for each pair, and the cell stays as it is.
/// Where it stands behind and the ranges of its needs are bare from there on, it is advanced and mended, and where something is
/// pending that meets the part it is mended, and not filled again.
pub fn read_part<S: Cells, T: Rank, L: Ledger>(
    alloc: Global,
    query: Query,
    part: &Part,
    lowest: &mut S,
    steps: &mut Steps<L>,
) -> Result<Vec<Pair>, OutOfMemory>
    requires within { query.p ≤ length (S.list lowest.old) }
    requires above { S.floor lowest.old ≤ query.p }
    requires entered { HasEntered (S.list lowest.old) }
    requires stands { (j : PlainJoin) × StandsAs (S.list lowest.old) query.p query.at query.rank j }
    requires next { T.top ≡ query.rank }
    ensures output { IfOk result (λ pairs. IsOutput (S.list lowest.old) query.p query.at query.rank part.now.range pairs.items) }
    ensures moves { Moves S.list S.floor (λ a b. Frame (query.rank + 1) (S.holdings a) (S.holdings b)) lowest.old lowest.new }
    ensures counted { steps.old ≤ steps.new }
    ensures cost { IfOk result (λ pairs. steps.old + 1 + length pairs.items ≤ steps.new) }
    ensures ready { (id : ℕ) (s : KeptRange) → part.now.cell ≡ Some id → s.rank ≡ query.rank → IsReadySlot (S.holdings lowest.old).slots id query.at query.p part.now.range s →
        IfOk result (λ pairs. steps.new ≡ steps.old + 1 + length pairs.items) }
    ensures stays { (id : ℕ) (s : KeptRange) → part.now.cell ≡ Some id → s.rank ≡ query.rank → IsReadySlot (S.holdings lowest.old).slots id query.at query.p part.now.range s →
        OnOk result (StaysReady (S.holdings lowest.old) (S.holdings lowest.new) id query.at query.p part.now.range s) }
    ensures behind { (id q : ℕ) (s : KeptRange) → part.now.cell ≡ Some id → s.rank ≡ query.rank → StandsBehind (S.list lowest.old) (S.holdings lowest.old).slots id query.at q query.p part.now.range s →
        IfOk result (λ pairs. HoldsAdvanced (S.list lowest.old) (S.holdings lowest.new).slots id query.at q query.p part.now.range s (steps.old + 1 + length pairs.items) steps.new) }
    ensures pending { (id : ℕ) (s : KeptRange) → part.now.cell ≡ Some id → s.rank ≡ query.rank → StandsPending (S.holdings lowest.old).slots id query.at query.p part.now.range s →
        IfOk result (λ pairs. HoldsMended (S.list lowest.old) (S.holdings lowest.new).slots id query.at query.p part.now.range s (steps.old + 1 + length pairs.items) steps.new) }
    ensures held { (id : ℕ) (j : PlainJoin) → part.now.cell ≡ Some id → slice_get (S.holdings lowest.old).slots id ≡ Some (Held query.at (forgotten j query.rank part.now.range)) →
        OnOk result (KeepsJust (S.holdings lowest.old) (S.holdings lowest.new) query.rank query.at query.p part.now.range) }
{
    let Some(id) = part.cell else {
        return read_alone::<S, T, L>(alloc, query, &part.range, lowest, steps);
    };
    let Some(state) = lowest.lend(id, query.at, query.rank, query.p, &part.range)? else {
        return read_alone::<S, T, L>(alloc, query, &part.range, lowest, steps);
    };
    let mut state = state;
    let bound: NeedBound<Infallible, Infallible> = NeedBound::Every;
    let p = query.p;
    let range = &part.range;
    let mut reader: RankReader<'_, S, T> = RankReader {
        alloc,
        lowest: &mut *lowest,
        rank: PhantomData,
    };
    let served = serve(&mut state, p, range, bound, &OpenGate, &mut reader, steps);
    lowest.give_back(id, query.at, state);
    Ok(served?)
}

/// Says what changed in the join's output in the part since a position, as the cell that holds the part says.
///
/// `All` comes where no cell holds the part, where the cell cannot be lent, and where what it holds does not know it once it
/// stands at the later position: it keeps nothing, its notes start later, or slots meet the part that are pending or were
/// noted since.
///
/// Where the cell stands behind and the ranges of its needs are bare from there on, what no changed key touches is left, and it
/// takes no more steps than an advance, one step more and one for each key that it lists; it is not filled again.
pub fn changes_of_part<S: Cells, T: Rank, L: Ledger>(
    alloc: Global,
    query: Query,
    since: u64,
    part: &Part,
    lowest: &mut S,
    steps: &mut Steps<L>,
) -> Result<Changed, OutOfMemory>
    requires order { since ≤ query.p }
    requires within { query.p ≤ length (S.list lowest.old) }
    requires entered { HasEntered (S.list lowest.old) }
    requires stands { (j : PlainJoin) × StandsAs (S.list lowest.old) query.p query.at query.rank j }
    requires next { T.top ≡ query.rank }
    ensures told { IfOk result (λ told. (j : PlainJoin) → StandsAs (S.list lowest.old) query.p query.at query.rank j →
        TellsJoin (S.list lowest.old) since query.p query.rank j part.now.range told) }
    ensures since { (id : ℕ) (held : KeptRange) → part.now.cell ≡ Some id → slice_get (S.holdings lowest.old).slots id ≡ Some (Held query.at held) → CanTell query.rank query.p part.now.range held →
        IfOk result (λ told. (after : KeptRange) → slice_get (S.holdings lowest.new).slots id ≡ Some (Held query.at after) → AnswersSince since part.now.range after told) }
    ensures advanced { (id : ℕ) (held : KeptRange) → part.now.cell ≡ Some id → slice_get (S.holdings lowest.old).slots id ≡ Some (Held query.at held) → CanTell query.rank query.p part.now.range held →
        OnOk result (HoldsCaughtUp query.p query.at held (slice_get (S.holdings lowest.new).slots id)) }
    ensures little { (id q : ℕ) (s : KeptRange) → part.now.cell ≡ Some id → s.rank ≡ query.rank → StandsBehind (S.list lowest.old) (S.holdings lowest.old).slots id query.at q query.p part.now.range s →
        OnOk result ((after : KeptRange) → slice_get (S.holdings lowest.new).slots id ≡ Some (Held query.at after) → TouchesLittle (S.list lowest.old) q query.p s after) }
    ensures cost { (id q : ℕ) (s : KeptRange) → part.now.cell ≡ Some id → s.rank ≡ query.rank → StandsBehind (S.list lowest.old) (S.holdings lowest.old).slots id query.at q query.p part.now.range s →
        IfOk result (λ told. steps.new ≤ steps.old + advance_steps (S.list lowest.old) q query.p s.kept.needs + 1 + told_count told) }
    ensures moves { Moves S.list S.floor (λ a b. Frame (query.rank + 1) (S.holdings a) (S.holdings b)) lowest.old lowest.new }
    ensures counted { steps.old ≤ steps.new }
{
    let Some(id) = part.cell else {
        return Ok(Changed::All);
    };
    let Some(state) = lowest.lend(id, query.at, query.rank, query.p, &part.range)? else {
        return Ok(Changed::All);
    };
    let mut state = state;
    let bound: NeedBound<Infallible, Infallible> = NeedBound::Every;
    let range = &part.range;
    let mut reader: RankReader<'_, S, T> = RankReader {
        alloc,
        lowest: &mut *lowest,
        rank: PhantomData,
    };
    let told = changes_since(&mut state, since, query.p, range, bound, &mut reader, steps);
    lowest.give_back(id, query.at, state);
    Ok(told?)
}
