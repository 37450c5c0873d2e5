// What is done to one cell's kept range.
ghost use Rattle.std.specs.Prelude.{◌≡◌, ℕ, ◌+◌, ◌<◌, ◌≤◌, length, take, false, IsSome, OnOk};
ghost use Rattle.semantics.specs.Histories.{joins_of};
ghost use Rattle.growing_history.specs.Entered.{HasEntered, HasRank};
ghost use Rattle.join_eval.specs.Moves.{Moves};
ghost use Rattle.kept_ranges.specs.Sound.{IsSound};
ghost use Rattle.cell_slots.specs.Serving.{IsPast, WasMended};
ghost use Rattle.range_state.specs.Ready.{StandsAt, pending_meets};
ghost use Rattle.range_state.specs.Asking.{AreBareThroughout};
ghost use Rattle.range_state.specs.Work.{advance_steps, TouchesLittle};
ghost use Rattle.scan_core.specs.Places.{HasSamePlace};

use cell_slots::{reach, renew};
use join_eval::{NeedBound, Reader};
use key_space::Range;
use out_of_memory::OutOfMemory;
use range_state::RangeState;
use std::alloc::Global;
use std::convert::Infallible;
use std::sync::ledger::Ledger;
use steps::Steps;

/// Advances a kept range that does not stand past a position to it: it is filled where it stands nowhere, or where its join
/// has another rank there, and advanced where it stands below. Where it has that rank and stands below, and the ranges of its needs
/// are bare from there on, what no changed key touches is left, and it takes no more steps than an advance.
///
/// On `OutOfMemory` it stands where it stood, or nowhere, and is right for the reader's list.
pub fn advance_to<R: Reader, L: Ledger>(
    alloc: Global,
    state: &mut RangeState,
    rank: u8,
    to: u64,
    reader: &mut R,
    steps: &mut Steps<L>,
) -> Result<(), OutOfMemory>
    requires before { IsPast to state.old → ⊥ }
    requires within { to ≤ length (R.list reader.old) }
    requires above { R.floor reader.old ≡ 0 }
    requires entered { HasEntered (R.list reader.old) }
    requires stands { HasRank (joins_of (take to (R.list reader.old))) state.old.join rank }
    requires ranked { rank ≤ R.top }
    requires sound { IsSound state.old (R.list reader.old) }
    ensures same { HasSamePlace state.old state.new }
    ensures at { OnOk result (StandsAt to state.new) }
    ensures little { (q : ℕ) → state.old.rank ≡ rank → StandsAt q state.old → q < to → AreBareThroughout (R.list reader.old) q to state.old.kept.needs →
        OnOk result (TouchesLittle (R.list reader.old) q to state.old state.new) }
    ensures sound { IsSound state.new (R.list reader.new) }
    ensures moves { Moves R.list R.floor R.went reader.old reader.new }
    ensures counted { steps.old ≤ steps.new }
    ensures cost { (q : ℕ) → state.old.rank ≡ rank → StandsAt q state.old → q < to → AreBareThroughout (R.list reader.old) q to state.old.kept.needs →
        OnOk result (steps.new ≤ steps.old + advance_steps (R.list reader.old) q to state.old.kept.needs) }
{
    let bound: NeedBound<Infallible, Infallible> = NeedBound::Every;
    if state.rank() != rank {
        *state = renew(alloc, state, rank)?;
        return Ok(state.fill(to, bound, reader, steps)?);
    }
    Ok(reach(state, to, bound, reader, steps)?)
}

/// Finds anew what is pending in a range of a kept range, where it stands, and takes no more steps than a mend. Where it stands
/// nowhere, nothing is pending.
///
/// On `OutOfMemory` it stands where it stood, or nowhere, and is right for the reader's list.
pub fn mend<R: Reader, L: Ledger>(
    state: &mut RangeState,
    range: &Range,
    reader: &mut R,
    steps: &mut Steps<L>,
) -> Result<(), OutOfMemory>
    requires above { R.floor reader.old ≡ 0 }
    requires entered { HasEntered (R.list reader.old) }
    requires ranked { IsSome state.old.position → state.old.rank ≤ R.top }
    requires sound { IsSound state.old (R.list reader.old) }
    ensures same { HasSamePlace state.old state.new }
    ensures at { OnOk result (state.new.position ≡ state.old.position) }
    ensures clear { OnOk result (pending_meets state.new range.now ≡ false) }
    ensures mended { (q : ℕ) → StandsAt q state.old → OnOk result (WasMended (R.list reader.old) q range.now state.old state.new steps.old steps.new) }
    ensures sound { IsSound state.new (R.list reader.new) }
    ensures moves { Moves R.list R.floor R.went reader.old reader.new }
    ensures counted { steps.old ≤ steps.new }
{
    if state.position().is_none() {
        state.forget();
        return Ok(());
    }
    let bound: NeedBound<Infallible, Infallible> = NeedBound::Every;
    Ok(state.mend(range, bound, reader, steps)?)
}
