// Pieces of ranges, handed out row by row from what is kept.
ghost use Rattle.std.specs.Prelude.{◌≡◌, ℕ, ◌+◌, ◌<◌, ◌≤◌, ◌⊎◌, length, take, true, IfOk, OnErr, OnOk, None, Some};
ghost use Rattle.std.specs.Bool.{OnFalse, OnTrue};
ghost use Rattle.semantics.specs.Histories.{joins_of};
ghost use Rattle.growing_history.specs.Entered.{HasEntered, HasRank};
ghost use Rattle.join_eval.specs.Moves.{Moves};
ghost use Rattle.kept_ranges.specs.Sound.{IsSound};
ghost use Rattle.range_state.specs.Ready.{HasSameSubject, IsReady, StandsAt, pending_meets};
ghost use Rattle.range_state.specs.Asking.{AreBareThroughout};
ghost use Rattle.range_state.specs.Work.{StaysWithin};
ghost use Rattle.cell_slots.specs.Serving.{CountsReach, HasTooMany, IsLeftOrStandsAt, IsPast, StandsFrom, WasAdvanced, WasMended, output_within};

use crate::serving::make_ready;
use join_eval::{KeepFault, NeedBound, Reader, TooMany};
use join_types::RowSink;
use key_space::Range;
use out_of_memory::OutOfMemory;
use pq_io::Gate;
use range_state::RangeState;
use std::convert::Infallible;
use std::sync::ledger::Ledger;
use steps::Steps;

/// Hands a piece of a range after p entries to the sink from what is kept, and says whether it did: the output of its join in the
/// part of the piece that is its own. What is kept is brought there and mended, as `serve_up_to` does. Where nothing is kept, and
/// where it would have more than `most` needs then, nothing is handed out, and nothing is kept. The gate is passed before a mend,
/// and before what is kept is filled again.
///
/// Where it is ready, it takes one step and one for each pair, and stays as it is.
///
/// On `OutOfMemory` it stands where it stood, or at p, or is forgotten, and is right for the reader's list. The reader may have
/// gone on and steps may have been taken.
pub fn hand_kept<R: Reader, G: Gate, K: RowSink, L: Ledger>(
    state: &mut RangeState,
    p: u64,
    range: &Range,
    most: u64,
    gate: &G,
    reader: &mut R,
    sink: &mut K,
    steps: &mut Steps<L>,
) -> Result<bool, OutOfMemory>
    requires before { IsPast p state.old → ⊥ }
    requires within { p ≤ length (R.list reader.old) }
    requires above { R.floor reader.old ≤ p }
    requires from { StandsFrom (R.floor reader.old) state.old }
    requires entered { HasEntered (R.list reader.old) }
    requires stands { HasRank (joins_of (take p (R.list reader.old))) state.old.join state.old.rank }
    requires ranked { state.old.rank ≤ R.top }
    requires sound { IsSound state.old (R.list reader.old) }
    ensures same { HasSameSubject state.old state.new }
    ensures output { IfOk result (λ gave. OnTrue gave (K.got sink.old sink.new (output_within state.old (R.list reader.old) p range.now))) }
    ensures ready { IfOk result (λ gave. OnTrue gave (IsReady p range.now state.new)) }
    ensures few { IfOk result (λ gave. OnTrue gave (StaysWithin (Some most) state.old state.new)) }
    ensures gone { IfOk result (λ gave. OnFalse gave (state.new.position ≡ None)) }
    ensures still { IsReady p range.now state.old → state.new ≡ state.old }
    ensures err { OnErr result (IsLeftOrStandsAt p state.old state.new) }
    ensures sound { IsSound state.new (R.list reader.new) }
    ensures moves { Moves R.list R.floor R.went reader.old reader.new }
    ensures counted { steps.old ≤ steps.new }
    ensures cost { IfOk result (λ gave. OnTrue gave (steps.old + 1 + length (output_within state.old (R.list reader.old) p range.now) ≤ steps.new)) }
    ensures wide { IfOk result (λ gave. OnFalse gave ((state.old.position ≡ None) ⊎ HasTooMany (Some most) (R.list reader.old) p range.now state.old)) }
    ensures least { IfOk result (λ gave. OnTrue gave (CountsReach (R.list reader.old) p state.old (steps.old + 1 + length (output_within state.old (R.list reader.old) p range.now)) steps.new)) }
    ensures behind { (q : ℕ) → StandsAt q state.old → q < p → AreBareThroughout (R.list reader.old) q p state.old.kept.needs →
        IfOk result (λ gave. OnTrue gave (WasAdvanced (R.list reader.old) q p range.now state.old state.new (steps.old + 1 + length (output_within state.old (R.list reader.old) p range.now)) steps.new)) }
    ensures pending { StandsAt p state.old → pending_meets state.old range.now ≡ true →
        IfOk result (λ gave. OnTrue gave (WasMended (R.list reader.old) p range.now state.old state.new (steps.old + 1 + length (output_within state.old (R.list reader.old) p range.now)) steps.new)) }
    ensures at_once { IsReady p range.now state.old → OnOk result (steps.new ≡ steps.old + 1 + length (output_within state.old (R.list reader.old) p range.now)) }
{
    let Some(_position) = state.position() else {
        return Ok(false);
    };
    let bound: NeedBound<TooMany, Infallible> = NeedBound::EndsPast(most, TooMany);
    match make_ready(state, p, range, bound, gate, reader, steps) {
        Ok(()) => {
            state.hand(range, sink, steps)?;
            Ok(true)
        }
        Err(KeepFault::OutOfMemory(memory)) => Err(memory),
        Err(KeepFault::TooWide(_many)) => Ok(false),
    }
}
