// What changed in the output of a kept range.
ghost use Rattle.std.specs.Prelude.{◌≡◌, ℕ, ◌+◌, ◌<◌, ◌≤◌, length, take, IfErr, IfOk, OnOk, OnErr, None};
ghost use Rattle.semantics.specs.Histories.{joins_of};
ghost use Rattle.semantics.specs.States.{below};
ghost use Rattle.growing_history.specs.Entered.{HasEntered, HasRank};
ghost use Rattle.join_eval.specs.Bounds.{OnTooWide, most_of};
ghost use Rattle.join_eval.specs.Moves.{Moves};
ghost use Rattle.kept_ranges.specs.Sound.{IsSound};
ghost use Rattle.range_state.specs.Ready.{HasSameSubject, StandsAt, StandsOrIsForgotten};
ghost use Rattle.range_state.specs.Since.{AnswersSince, told_count};
ghost use Rattle.range_state.specs.Asking.{AreBareThroughout};
ghost use Rattle.range_state.specs.Work.{advance_steps, CountsAdvance, StaysWithin, TakesTooMany, TouchesLittle};
ghost use Rattle.cell_slots.specs.Serving.{CountsForward, IsCaughtUp, IsLeftOrStandsAt, StandsFrom};
ghost use Rattle.cell_slots.specs.Telling.{TellsOutput};

use join_eval::{Changed, KeepFault, NeedBound, Reader};
use key_space::Range;
use range_state::RangeState;
use std::convert::Infallible;
use std::sync::ledger::Ledger;
use steps::Steps;

/// Advances it to where p entries stand, where it stands below. Otherwise nothing changes, and no step is taken. Where it stands
/// below and the ranges of its needs are bare from there on, what no changed key touches is left, and it takes no more steps than
/// an advance: one for each need, and one for each changed key of its range. It takes one step at least for each need, or what
/// filling it takes.
///
/// On a fault it stands where it stood, or is forgotten, and is right for the reader's list. The reader may have gone on and steps
/// may have been taken. `TooWide` comes only where it is filled instead and that takes more needs than the bound allows; then it is
/// forgotten. Where it had no more needs than the bound allows, it has no more afterwards.
pub fn catch_up<E: Copy, R: Reader, L: Ledger>(
    state: &mut RangeState,
    p: u64,
    bound: NeedBound<E, Infallible>,
    reader: &mut R,
    steps: &mut Steps<L>,
) -> Result<(), KeepFault<E>>
    requires within { p ≤ length (R.list reader.old) }
    requires from { StandsFrom (R.floor reader.old) state.old }
    requires entered { HasEntered (R.list reader.old) }
    requires stands { HasRank (joins_of (take p (R.list reader.old))) state.old.join state.old.rank }
    requires ranked { state.old.rank ≤ R.top }
    requires sound { IsSound state.old (R.list reader.old) }
    ensures same { HasSameSubject state.old state.new }
    ensures advanced { OnOk result (IsCaughtUp p state.old state.new) }
    ensures reached { OnOk result (StandsFrom p state.new) }
    ensures few { OnOk result (StaysWithin (most_of bound) state.old state.new) }
    ensures still { StandsFrom p state.old → state.new ≡ state.old }
    ensures unused { StandsFrom p state.old → reader.new ≡ reader.old }
    ensures free { StandsFrom p state.old → steps.new ≡ steps.old }
    ensures little { (at : ℕ) → StandsAt at state.old → at < p → AreBareThroughout (R.list reader.old) at p state.old.kept.needs →
        OnOk result (TouchesLittle (R.list reader.old) at p state.old state.new) }
    ensures err { OnErr result (StandsOrIsForgotten state.old state.new) }
    ensures wide { IfErr result (OnTooWide (TakesTooMany (most_of bound) (R.list reader.old) p state.old)) }
    ensures known { (at : ℕ) → StandsAt at state.old → at < p → AreBareThroughout (R.list reader.old) at p state.old.kept.needs → IfErr result (OnTooWide ⊥) }
    ensures gone { IfErr result (OnTooWide (state.new.position ≡ None)) }
    ensures sound { IsSound state.new (R.list reader.new) }
    ensures moves { Moves R.list R.floor R.went reader.old reader.new }
    ensures counted { steps.old ≤ steps.new }
    ensures least { (at : ℕ) → StandsAt at state.old → at < p → OnOk result (CountsAdvance p (below (take p (R.list reader.old)) state.old.rank) state.old state.new steps.old steps.new) }
    ensures cost { (at : ℕ) → StandsAt at state.old → at < p → AreBareThroughout (R.list reader.old) at p state.old.kept.needs →
        OnOk result (steps.new ≤ steps.old + advance_steps (R.list reader.old) at p state.old.kept.needs) }
{
    match state.position() {
        None => Ok(()),
        Some(at) => {
            if at < p {
                return state.advance(p, bound, reader, steps);
            }
            Ok(())
        }
    }
}

/// What changed in a piece of a kept range's output between the first q and the first p entries: keys of the piece, among
/// which is every key of both at which the output is not the same at all positions between. Where it stands below p it is
/// advanced first; then it answers what changed since q.
///
/// `All` comes exactly where it then does not know: nothing is kept, its notes start after q, or slots meet the piece that
/// are pending or were noted since.
///
/// It takes one step and one for each key that it lists, beside those of the advance.
///
/// On a fault it stands where it stood, or at p, or is forgotten, and is right for the reader's list. The reader may have gone on
/// and steps may have been taken. `TooWide` comes only where it is filled instead of advanced and that takes more needs than the
/// bound allows; then it is forgotten. Where it had no more needs than the bound allows, it has no more afterwards.
pub fn changes_since<E: Copy, R: Reader, L: Ledger>(
    state: &mut RangeState,
    q: u64,
    p: u64,
    range: &Range,
    bound: NeedBound<E, Infallible>,
    reader: &mut R,
    steps: &mut Steps<L>,
) -> Result<Changed, KeepFault<E>>
    requires order { q ≤ p }
    requires within { p ≤ length (R.list reader.old) }
    requires from { StandsFrom (R.floor reader.old) state.old }
    requires entered { HasEntered (R.list reader.old) }
    requires stands { HasRank (joins_of (take p (R.list reader.old))) state.old.join state.old.rank }
    requires ranked { state.old.rank ≤ R.top }
    requires sound { IsSound state.old (R.list reader.old) }
    ensures same { HasSameSubject state.old state.new }
    ensures told { IfOk result (TellsOutput state.old (R.list reader.old) q p range.now) }
    ensures since { IfOk result (AnswersSince q range.now state.new) }
    ensures advanced { OnOk result (IsCaughtUp p state.old state.new) }
    ensures few { OnOk result (StaysWithin (most_of bound) state.old state.new) }
    ensures err { OnErr result (IsLeftOrStandsAt p state.old state.new) }
    ensures still { StandsFrom p state.old → state.new ≡ state.old }
    ensures unused { StandsFrom p state.old → reader.new ≡ reader.old }
    ensures free { StandsFrom p state.old → IfOk result (λ answer. steps.new ≡ steps.old + 1 + told_count answer) }
    ensures little { (at : ℕ) → StandsAt at state.old → at < p → AreBareThroughout (R.list reader.old) at p state.old.kept.needs →
        OnOk result (TouchesLittle (R.list reader.old) at p state.old state.new) }
    ensures wide { IfErr result (OnTooWide (TakesTooMany (most_of bound) (R.list reader.old) p state.old)) }
    ensures known { (at : ℕ) → StandsAt at state.old → at < p → AreBareThroughout (R.list reader.old) at p state.old.kept.needs → IfErr result (OnTooWide ⊥) }
    ensures gone { IfErr result (OnTooWide (state.new.position ≡ None)) }
    ensures sound { IsSound state.new (R.list reader.new) }
    ensures moves { Moves R.list R.floor R.went reader.old reader.new }
    ensures counted { steps.old ≤ steps.new }
    ensures least { (at : ℕ) → StandsAt at state.old → at < p → IfOk result (λ answer. CountsForward (R.list reader.old) p state.old (steps.old + 1 + told_count answer) steps.new) }
    ensures cost { (at : ℕ) → StandsAt at state.old → at < p → AreBareThroughout (R.list reader.old) at p state.old.kept.needs →
        IfOk result (λ answer. steps.new ≤ steps.old + advance_steps (R.list reader.old) at p state.old.kept.needs + 1 + told_count answer) }
{
    catch_up(state, p, bound, reader, steps)?;
    match state.touched_since(q, range, steps)? {
        Some(keys) => Ok(Changed::Keys(keys)),
        None => Ok(Changed::All),
    }
}
