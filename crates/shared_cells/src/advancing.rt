// Advancing what a cell keeps to where the first p entries stand.
ghost use Rattle.std.specs.Prelude.{◌≡◌, ℕ, ◌+◌, ◌<◌, ◌≤◌, length, take, IfErr, OnErr, OnOk, None};
ghost use Rattle.semantics.specs.Histories.{joins_of};
ghost use Rattle.growing_history.specs.Entered.{HasEntered, HasRank};
ghost use Rattle.join_eval.specs.Bounds.{OnTooWide, most_of};
ghost use Rattle.join_eval.specs.Moves.{Moves};
ghost use Rattle.kept_ranges.specs.Sound.{IsSound};
ghost use Rattle.range_state.specs.Ready.{HasSameSubject, StandsAt, StandsOrIsForgotten};
ghost use Rattle.range_state.specs.Work.{advance_steps, StaysWithin, TakesTooMany, TouchesLittle};
ghost use Rattle.cell_slots.specs.Serving.{CountsForward, StandsFrom};
ghost use Rattle.shared_cells.specs.Advancing.{IsAdvancedFrom, StandsBare};

use base_shards::Naming;
use cell_slots::{catch_up, stands_from};
use join_eval::{KeepFault, NeedBound};
use pq_io::Gate;
use range_state::RangeState;
use shared_reader::Stacked;
use std::convert::Infallible;
use std::sync::ledger::Ledger;
use steps::Steps;

/// Advances it to where the first p entries stand, where it stands below. What stands below the reader's floor is let go and
/// filled there; the gate is passed before. What is forgotten stays so, and what stands past p stays there. Where it stands below,
/// from the floor on, and the ranges of its needs are bare from there on, what no changed key touches is left, and it takes no more
/// steps than an advance. Where it stands below, it takes one step at least for each need, or what filling it takes.
///
/// On a fault it stands where it stood, or is forgotten, and is right for the reader's list. `TooWide` comes only where it is
/// filled and that takes more needs than the bound allows; then it is forgotten. Where it had no more needs than the bound allows,
/// it has no more afterwards.
pub fn advance_to<E: Copy, N: Naming, R: Stacked<N>, G: Gate, L: Ledger>(
    state: &mut RangeState,
    p: u64,
    bound: NeedBound<E, Infallible>,
    gate: &G,
    reader: &mut R,
    steps: &mut Steps<L>,
) -> Result<(), KeepFault<E>>
    requires within { p ≤ length (R.list reader.old) }
    requires above { R.floor reader.old ≤ p }
    requires entered { HasEntered (R.list reader.old) }
    requires stands { HasRank (joins_of (take p (R.list reader.old))) state.old.join state.old.rank }
    requires ranked { state.old.rank ≤ R.top }
    requires sound { IsSound state.old (R.list reader.old) }
    ensures same { HasSameSubject state.old state.new }
    ensures advanced { OnOk result (IsAdvancedFrom (R.floor reader.old) p state.old state.new) }
    ensures few { OnOk result (StaysWithin (most_of bound) state.old state.new) }
    ensures little { (q : ℕ) → StandsFrom (R.floor reader.old) state.old → StandsBare (R.list reader.old) q p state.old →
        OnOk result (TouchesLittle (R.list reader.old) q p state.old state.new) }
    ensures err { OnErr result (StandsOrIsForgotten state.old state.new) }
    ensures wide { IfErr result (OnTooWide (TakesTooMany (most_of bound) (R.list reader.old) p state.old)) }
    ensures known { (q : ℕ) → StandsFrom (R.floor reader.old) state.old → StandsBare (R.list reader.old) q p state.old → IfErr result (OnTooWide ⊥) }
    ensures gone { IfErr result (OnTooWide (state.new.position ≡ None)) }
    ensures sound { IsSound state.new (R.list reader.new) }
    ensures moves { Moves R.list R.floor R.went reader.old reader.new }
    ensures counted { steps.old ≤ steps.new }
    ensures least { (q : ℕ) → StandsAt q state.old → q < p → OnOk result (CountsForward (R.list reader.old) p state.old steps.old steps.new) }
    ensures cost { (q : ℕ) → StandsFrom (R.floor reader.old) state.old → StandsBare (R.list reader.old) q p state.old →
        OnOk result (steps.new ≤ steps.old + advance_steps (R.list reader.old) q p state.old.kept.needs) }
{
    if stands_from(state, reader.least_position()) {
        return catch_up(state, p, bound, reader, steps);
    }
    gate.pass(state.range().table());
    state.forget();
    state.fill(p, bound, reader, steps)
}
