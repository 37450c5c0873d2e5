// Pieces of ranges, from kept ranges.
ghost use Rattle.std.specs.Prelude.{◌≡◌, ℕ, ◌+◌, ◌≤◌, ◌<◌, ◌⊎◌, [], length, take, false, true, IfErr, IfOk, OnErr, OnOk, None, Some};
ghost use Rattle.semantics.specs.Texts.{pairs_within};
ghost use Rattle.semantics.specs.Histories.{joins_of};
ghost use Rattle.semantics.specs.Outputs.{out};
ghost use Rattle.semantics.specs.States.{below};
ghost use Rattle.growing_history.specs.Entered.{HasEntered, HasRank};
ghost use Rattle.join_eval.specs.Bounds.{OnTooWide, most_of};
ghost use Rattle.join_eval.specs.Moves.{Moves};
ghost use Rattle.kept_ranges.specs.Sound.{IsSound};
ghost use Rattle.range_state.specs.Held.{forgotten};
ghost use Rattle.range_state.specs.Ready.{HasSameSubject, IsReady, StandsAt, StandsOrIsForgotten, pending_meets};
ghost use Rattle.range_state.specs.Asking.{AreBareThroughout};
ghost use Rattle.range_state.specs.Work.{advance_steps, CountsAdvance, StaysWithin, TakesTooMany, TouchesLittle};
ghost use Rattle.cell_slots.specs.Serving.{CountsFill, CountsReach, HasTooMany, IsLeftOrStandsAt, IsPast, ServesUpTo, StandsFrom, WasAdvanced, WasMended, output_within};

use join_eval::{KeepFault, NeedBound, Reader, TooMany};
use join_rows::Rows;
use join_types::{Join, Pair};
use key_space::Range;
use out_of_memory::OutOfMemory;
use pq_io::Gate;
use range_state::RangeState;
use std::alloc::Global;
use std::convert::Infallible;
use std::sync::ledger::Ledger;
use steps::Steps;

/// Says whether it stands past a position. Constant.
pub fn is_past(state: &RangeState, p: u64) -> bool
    ensures yes { result ≡ true → IsPast p state.now }
    ensures no { result ≡ false → IsPast p state.now → ⊥ }
{
    match state.position() {
        None => false,
        Some(at) => p < at,
    }
}

/// Says whether it stands nowhere, or not below a floor. Constant.
pub fn stands_from(state: &RangeState, floor: u64) -> bool
    ensures yes { result ≡ true → StandsFrom floor state.now }
    ensures no { result ≡ false → StandsFrom floor state.now → ⊥ }
{
    match state.position() {
        None => true,
        Some(at) => floor <= at,
    }
}

/// Makes a kept range anew with a rank of its join: nothing is kept for it yet. Linear in the join.
pub fn renew(alloc: Global, state: &RangeState, rank: u8) -> Result<RangeState, OutOfMemory>
    ensures { IfOk result (λ made. made ≡ forgotten state.now.join rank state.now.range) }
{
    let join = state.join().copy(alloc)?;
    let range = state.range().copy()?;
    Ok(RangeState::new(alloc, join, rank, range))
}

/// Brings it to where p entries stand: fills it where it is forgotten, and advances it where it stands below. Where it stands
/// below and the ranges of its needs are bare from there on, what no changed key touches is left, and it takes no more steps than
/// an advance: one for each need, and one for each changed key of its range. It takes one step at least for each need, or what
/// filling it takes.
///
/// On a fault it stands where it stood, or is forgotten, and is right for the reader's list. The reader may have gone on and
/// steps may have been taken. `TooWide` comes only where it is filled and that takes more needs than the bound allows; then it is
/// forgotten. Where it had no more needs than the bound allows, it has no more afterwards.
pub fn reach<E: Copy, R: Reader, L: Ledger>(
    state: &mut RangeState,
    p: u64,
    bound: NeedBound<E, Infallible>,
    reader: &mut R,
    steps: &mut Steps<L>,
) -> Result<(), KeepFault<E>>
    requires before { IsPast p state.old → ⊥ }
    requires within { p ≤ length (R.list reader.old) }
    requires above { R.floor reader.old ≤ p }
    requires from { StandsFrom (R.floor reader.old) state.old }
    requires entered { HasEntered (R.list reader.old) }
    requires stands { HasRank (joins_of (take p (R.list reader.old))) state.old.join state.old.rank }
    requires ranked { state.old.rank ≤ R.top }
    requires sound { IsSound state.old (R.list reader.old) }
    ensures same { HasSameSubject state.old state.new }
    ensures at { OnOk result (StandsAt p state.new) }
    ensures few { OnOk result (StaysWithin (most_of bound) state.old state.new) }
    ensures wide { IfErr result (OnTooWide (TakesTooMany (most_of bound) (R.list reader.old) p state.old)) }
    ensures known { (q : ℕ) → StandsAt q state.old → q < p → AreBareThroughout (R.list reader.old) q p state.old.kept.needs → IfErr result (OnTooWide ⊥) }
    ensures gone { IfErr result (OnTooWide (state.new.position ≡ None)) }
    ensures filled { state.old.position ≡ None → OnOk result (state.new.kept.pending ≡ []) }
    ensures little { (q : ℕ) → StandsAt q state.old → q < p → AreBareThroughout (R.list reader.old) q p state.old.kept.needs →
        OnOk result (TouchesLittle (R.list reader.old) q p state.old state.new) }
    ensures still { StandsAt p state.old → state.new ≡ state.old }
    ensures unused { StandsAt p state.old → reader.new ≡ reader.old }
    ensures free { StandsAt p state.old → steps.new ≡ steps.old }
    ensures err { OnErr result (StandsOrIsForgotten state.old state.new) }
    ensures sound { IsSound state.new (R.list reader.new) }
    ensures moves { Moves R.list R.floor R.went reader.old reader.new }
    ensures counted { steps.old ≤ steps.new }
    ensures least { (q : ℕ) → StandsAt q state.old → q < p → OnOk result (CountsAdvance p (below (take p (R.list reader.old)) state.old.rank) state.old state.new steps.old steps.new) }
    ensures least_filled { state.old.position ≡ None → OnOk result (CountsFill (R.list reader.old) p state.old steps.old steps.new) }
    ensures cost { (q : ℕ) → StandsAt q state.old → q < p → AreBareThroughout (R.list reader.old) q p state.old.kept.needs →
        OnOk result (steps.new ≤ steps.old + advance_steps (R.list reader.old) q p state.old.kept.needs) }
{
    match state.position() {
        None => state.fill(p, bound, reader, steps),
        Some(at) => {
            if at < p {
                return state.advance(p, bound, reader, steps);
            }
            Ok(())
        }
    }
}

/// Brings it to where p entries stand, and mends it where something pending meets the range. The gate is passed before it is
/// filled, and before it is mended.
pub(crate) fn make_ready<E: Copy, R: Reader, G: Gate, L: Ledger>(
    state: &mut RangeState,
    p: u64,
    range: &Range,
    bound: NeedBound<E, Infallible>,
    gate: &G,
    reader: &mut R,
    steps: &mut Steps<L>,
) -> Result<(), KeepFault<E>>
    requires before { IsPast p state.old → ⊥ }
    requires within { p ≤ length (R.list reader.old) }
    requires above { R.floor reader.old ≤ p }
    requires from { StandsFrom (R.floor reader.old) state.old }
    requires entered { HasEntered (R.list reader.old) }
    requires stands { HasRank (joins_of (take p (R.list reader.old))) state.old.join state.old.rank }
    requires ranked { state.old.rank ≤ R.top }
    requires sound { IsSound state.old (R.list reader.old) }
    ensures same { HasSameSubject state.old state.new }
    ensures ready { OnOk result (IsReady p range.now state.new) }
    ensures few { OnOk result (StaysWithin (most_of bound) state.old state.new) }
    ensures wide { IfErr result (OnTooWide (HasTooMany (most_of bound) (R.list reader.old) p range.now state.old)) }
    ensures gone { IfErr result (OnTooWide (state.new.position ≡ None)) }
    ensures filled { state.old.position ≡ None → OnOk result (state.new.kept.pending ≡ []) }
    ensures behind { (q : ℕ) → StandsAt q state.old → q < p → AreBareThroughout (R.list reader.old) q p state.old.kept.needs →
        OnOk result (WasAdvanced (R.list reader.old) q p range.now state.old state.new steps.old steps.new) }
    ensures pending { StandsAt p state.old → pending_meets state.old range.now ≡ true →
        OnOk result (WasMended (R.list reader.old) p range.now state.old state.new steps.old steps.new) }
    ensures still { IsReady p range.now state.old → state.new ≡ state.old }
    ensures unused { IsReady p range.now state.old → reader.new ≡ reader.old }
    ensures free { IsReady p range.now state.old → steps.new ≡ steps.old }
    ensures err { OnErr result (IsLeftOrStandsAt p state.old state.new) }
    ensures sound { IsSound state.new (R.list reader.new) }
    ensures moves { Moves R.list R.floor R.went reader.old reader.new }
    ensures counted { steps.old ≤ steps.new }
    ensures least { OnOk result (CountsReach (R.list reader.old) p state.old steps.old steps.new) }
{
    if state.position().is_none() {
        gate.pass(range.table());
    }
    reach(state, p, bound, reader, steps)?;
    if state.pending_meets(range) {
        gate.pass(range.table());
        return state.mend(range, bound, reader, steps);
    }
    Ok(())
}

/// Serves a piece of a range after p entries from a kept range that does not stand past p: gives the output of its join in the
/// part of the piece that is its own. Where it is forgotten it is filled, and where it stands below p advanced; where something
/// pending meets the piece it is mended there. Then it is read. The gate is passed before a fill and before a mend.
///
/// Where it is ready, that is, at p with nothing pending that meets the piece, it takes one step and one for each pair, and
/// neither it nor the reader changes. Otherwise it takes these and those of the calls that make it ready: of a fill, or, where it
/// stands below p, one for each need at least. Where it stands at p and something pending meets the piece, these are those of a
/// mend, and where it stands below p and the ranges of its needs are bare from there on, those of an advance and of a mend, if then
/// something pending meets the piece; it is not filled again.
///
/// On a fault it stands where it stood, or at p, or is forgotten, and is right for the reader's list. The reader may have gone on
/// and steps may have been taken. `TooWide` comes only where it is filled and that takes more needs than the bound allows, or where
/// it has more with those that are found when it is mended; then it is forgotten. Where it had no more needs than the bound allows,
/// it has no more afterwards.
pub fn serve<E: Copy, R: Reader, G: Gate, L: Ledger>(
    state: &mut RangeState,
    p: u64,
    range: &Range,
    bound: NeedBound<E, Infallible>,
    gate: &G,
    reader: &mut R,
    steps: &mut Steps<L>,
) -> Result<Vec<Pair>, KeepFault<E>>
    requires before { IsPast p state.old → ⊥ }
    requires within { p ≤ length (R.list reader.old) }
    requires above { R.floor reader.old ≤ p }
    requires from { StandsFrom (R.floor reader.old) state.old }
    requires entered { HasEntered (R.list reader.old) }
    requires stands { HasRank (joins_of (take p (R.list reader.old))) state.old.join state.old.rank }
    requires ranked { state.old.rank ≤ R.top }
    requires sound { IsSound state.old (R.list reader.old) }
    ensures same { HasSameSubject state.old state.new }
    ensures output { IfOk result (λ pairs. pairs.items ≡ output_within state.old (R.list reader.old) p range.now) }
    ensures ready { OnOk result (IsReady p range.now state.new) }
    ensures few { OnOk result (StaysWithin (most_of bound) state.old state.new) }
    ensures wide { IfErr result (OnTooWide (HasTooMany (most_of bound) (R.list reader.old) p range.now state.old)) }
    ensures gone { IfErr result (OnTooWide (state.new.position ≡ None)) }
    ensures filled { state.old.position ≡ None → OnOk result (state.new.kept.pending ≡ []) }
    ensures still { IsReady p range.now state.old → state.new ≡ state.old }
    ensures unused { IsReady p range.now state.old → reader.new ≡ reader.old }
    ensures err { OnErr result (IsLeftOrStandsAt p state.old state.new) }
    ensures sound { IsSound state.new (R.list reader.new) }
    ensures moves { Moves R.list R.floor R.went reader.old reader.new }
    ensures counted { steps.old ≤ steps.new }
    ensures cost { IfOk result (λ pairs. steps.old + 1 + length pairs.items ≤ steps.new) }
    ensures least { IfOk result (λ pairs. CountsReach (R.list reader.old) p state.old (steps.old + 1 + length pairs.items) steps.new) }
    ensures at_once { IsReady p range.now state.old → IfOk result (λ pairs. steps.new ≡ steps.old + 1 + length pairs.items) }
    ensures behind { (q : ℕ) → StandsAt q state.old → q < p → AreBareThroughout (R.list reader.old) q p state.old.kept.needs →
        IfOk result (λ pairs. WasAdvanced (R.list reader.old) q p range.now state.old state.new (steps.old + 1 + length pairs.items) steps.new) }
    ensures pending { StandsAt p state.old → pending_meets state.old range.now ≡ true →
        IfOk result (λ pairs. WasMended (R.list reader.old) p range.now state.old state.new (steps.old + 1 + length pairs.items) steps.new) }
{
    make_ready(state, p, range, bound, gate, reader, steps)?;
    let pairs = state.read(range, steps)?;
    Ok(pairs)
}

/// Copies of the rows that lie in a piece, in order. It takes one step, and one for each row that it gives.
fn read_rows<L: Ledger>(
    rows: &Rows,
    range: &Range,
    steps: &mut Steps<L>,
) -> Result<Vec<Pair>, OutOfMemory>
    ensures rows { IfOk result (λ pairs. pairs.items ≡ pairs_within range.now rows.now.pairs) }
    ensures counted { steps.old ≤ steps.new }
    ensures cost { IfOk result (λ pairs. steps.new ≡ steps.old + 1 + length pairs.items) }
{
    let pairs = rows.within(range)?;
    steps.count_call(pairs.len());
    Ok(pairs)
}

/// Fills a kept range at p, of which nothing is kept, and gives the output of its join in the part of a piece that is its own.
/// Where filling takes more than `most` needs, nothing is kept, and what was found is given all the same. The gate is passed
/// before.
///
/// On `OutOfMemory` it stands at p, or is forgotten.
fn fill_and_read<R: Reader, G: Gate, L: Ledger>(
    state: &mut RangeState,
    p: u64,
    range: &Range,
    most: u64,
    gate: &G,
    reader: &mut R,
    steps: &mut Steps<L>,
) -> Result<Vec<Pair>, OutOfMemory>
    requires forgotten { state.old.position ≡ None }
    requires within { p ≤ length (R.list reader.old) }
    requires above { R.floor reader.old ≤ p }
    requires entered { HasEntered (R.list reader.old) }
    requires stands { HasRank (joins_of (take p (R.list reader.old))) state.old.join state.old.rank }
    requires ranked { state.old.rank ≤ R.top }
    ensures same { HasSameSubject state.old state.new }
    ensures given { IfOk result (λ pairs. ServesUpTo most (R.list reader.old) p range.now state.old state.new pairs.items) }
    ensures few { OnOk result (length state.new.kept.needs ≤ most) }
    ensures clear { OnOk result (state.new.kept.pending ≡ []) }
    ensures err { OnErr result (StandsAt p state.new ⊎ (state.new.position ≡ None)) }
    ensures sound { IsSound state.new (R.list reader.new) }
    ensures moves { Moves R.list R.floor R.went reader.old reader.new }
    ensures counted { steps.old ≤ steps.new }
    ensures cost { IfOk result (λ pairs. steps.old + 1 + length pairs.items ≤ steps.new) }
    ensures least { IfOk result (λ pairs. CountsFill (R.list reader.old) p state.old (steps.old + 1 + length pairs.items) steps.new) }
{
    gate.pass(range.table());
    let left = state.fill_up_to(p, most, reader, steps)?;
    match left {
        None => state.read(range, steps),
        Some(rows) => read_rows(&rows, range, steps),
    }
}

/// Serves a piece of a range after p entries from what is kept, as `serve` does. Where it would have more than `most` needs then,
/// it is filled as `fill_and_read` does.
fn serve_kept<R: Reader, G: Gate, L: Ledger>(
    state: &mut RangeState,
    p: u64,
    range: &Range,
    most: u64,
    gate: &G,
    reader: &mut R,
    steps: &mut Steps<L>,
) -> Result<Vec<Pair>, OutOfMemory>
    requires before { IsPast p state.old → ⊥ }
    requires within { p ≤ length (R.list reader.old) }
    requires above { R.floor reader.old ≤ p }
    requires from { StandsFrom (R.floor reader.old) state.old }
    requires entered { HasEntered (R.list reader.old) }
    requires stands { HasRank (joins_of (take p (R.list reader.old))) state.old.join state.old.rank }
    requires ranked { state.old.rank ≤ R.top }
    requires sound { IsSound state.old (R.list reader.old) }
    ensures same { HasSameSubject state.old state.new }
    ensures given { IfOk result (λ pairs. ServesUpTo most (R.list reader.old) p range.now state.old state.new pairs.items) }
    ensures few { OnOk result (StaysWithin (Some most) state.old state.new) }
    ensures filled { state.old.position ≡ None → OnOk result (state.new.kept.pending ≡ []) }
    ensures still { IsReady p range.now state.old → state.new ≡ state.old }
    ensures unused { IsReady p range.now state.old → reader.new ≡ reader.old }
    ensures err { OnErr result (IsLeftOrStandsAt p state.old state.new) }
    ensures sound { IsSound state.new (R.list reader.new) }
    ensures moves { Moves R.list R.floor R.went reader.old reader.new }
    ensures counted { steps.old ≤ steps.new }
    ensures cost { IfOk result (λ pairs. steps.old + 1 + length pairs.items ≤ steps.new) }
    ensures least { IfOk result (λ pairs. CountsReach (R.list reader.old) p state.old (steps.old + 1 + length pairs.items) steps.new) }
    ensures at_once { IsReady p range.now state.old → IfOk result (λ pairs. steps.new ≡ steps.old + 1 + length pairs.items) }
    ensures behind { (q : ℕ) → StandsAt q state.old → q < p → AreBareThroughout (R.list reader.old) q p state.old.kept.needs →
        IfOk result (λ pairs. WasAdvanced (R.list reader.old) q p range.now state.old state.new (steps.old + 1 + length pairs.items) steps.new ⊎ HasTooMany (Some most) (R.list reader.old) p range.now state.old) }
    ensures pending { StandsAt p state.old → pending_meets state.old range.now ≡ true →
        IfOk result (λ pairs. WasMended (R.list reader.old) p range.now state.old state.new (steps.old + 1 + length pairs.items) steps.new ⊎ HasTooMany (Some most) (R.list reader.old) p range.now state.old) }
{
    let bound: NeedBound<TooMany, Infallible> = NeedBound::EndsPast(most, TooMany);
    match serve(state, p, range, bound, gate, reader, steps) {
        Ok(pairs) => Ok(pairs),
        Err(KeepFault::OutOfMemory(memory)) => Err(memory),
        Err(KeepFault::TooWide(_many)) => fill_and_read(state, p, range, most, gate, reader, steps),
    }
}

/// Serves a piece of a range after p entries, as `serve` does, from a kept range that keeps no more than `most` needs: gives the
/// output of its join in the part of the piece that is its own. What is kept is brought there and mended; where it would have more
/// needs then, and where nothing was kept, it is filled. Where filling takes more than `most` needs, nothing is kept, and what was
/// found is given all the same: of a copy join no more than `most` needs are held meanwhile, and an aggregate has one. The gate is
/// passed before each fill and before a mend.
///
/// Where it is ready, it takes one step and one for each pair, and stays as it is. Where it stands at p and something pending meets
/// the piece, and where it stands below p and the ranges of its needs are bare from there on, it is left as `serve` leaves it, with
/// the steps that this takes, unless it would have more than `most` needs.
///
/// On `OutOfMemory` it stands where it stood, or at p, or is forgotten, and is right for the reader's list. The reader may have gone
/// on and steps may have been taken.
pub fn serve_up_to<R: Reader, G: Gate, L: Ledger>(
    state: &mut RangeState,
    p: u64,
    range: &Range,
    most: u64,
    gate: &G,
    reader: &mut R,
    steps: &mut Steps<L>,
) -> Result<Vec<Pair>, OutOfMemory>
    requires before { IsPast p state.old → ⊥ }
    requires within { p ≤ length (R.list reader.old) }
    requires above { R.floor reader.old ≤ p }
    requires from { StandsFrom (R.floor reader.old) state.old }
    requires entered { HasEntered (R.list reader.old) }
    requires stands { HasRank (joins_of (take p (R.list reader.old))) state.old.join state.old.rank }
    requires ranked { state.old.rank ≤ R.top }
    requires sound { IsSound state.old (R.list reader.old) }
    ensures same { HasSameSubject state.old state.new }
    ensures given { IfOk result (λ pairs. ServesUpTo most (R.list reader.old) p range.now state.old state.new pairs.items) }
    ensures few { OnOk result (StaysWithin (Some most) state.old state.new) }
    ensures filled { state.old.position ≡ None → OnOk result (state.new.kept.pending ≡ []) }
    ensures still { IsReady p range.now state.old → state.new ≡ state.old }
    ensures unused { IsReady p range.now state.old → reader.new ≡ reader.old }
    ensures err { OnErr result (IsLeftOrStandsAt p state.old state.new) }
    ensures sound { IsSound state.new (R.list reader.new) }
    ensures moves { Moves R.list R.floor R.went reader.old reader.new }
    ensures counted { steps.old ≤ steps.new }
    ensures cost { IfOk result (λ pairs. steps.old + 1 + length pairs.items ≤ steps.new) }
    ensures least { IfOk result (λ pairs. CountsReach (R.list reader.old) p state.old (steps.old + 1 + length pairs.items) steps.new) }
    ensures at_once { IsReady p range.now state.old → IfOk result (λ pairs. steps.new ≡ steps.old + 1 + length pairs.items) }
    ensures behind { (q : ℕ) → StandsAt q state.old → q < p → AreBareThroughout (R.list reader.old) q p state.old.kept.needs →
        IfOk result (λ pairs. WasAdvanced (R.list reader.old) q p range.now state.old state.new (steps.old + 1 + length pairs.items) steps.new ⊎ HasTooMany (Some most) (R.list reader.old) p range.now state.old) }
    ensures pending { StandsAt p state.old → pending_meets state.old range.now ≡ true →
        IfOk result (λ pairs. WasMended (R.list reader.old) p range.now state.old state.new (steps.old + 1 + length pairs.items) steps.new ⊎ HasTooMany (Some most) (R.list reader.old) p range.now state.old) }
{
    match state.position() {
        None => fill_and_read(state, p, range, most, gate, reader, steps),
        Some(_) => serve_kept(state, p, range, most, gate, reader, steps),
    }
}

/// Serves a range of a join's output after p entries from what evaluating the join there finds: nothing of it is kept, and no need
/// of a copy join is collected. The gate is passed before.
///
/// On `OutOfMemory` the reader may have gone on and steps may have been taken.
pub fn serve_alone<R: Reader, G: Gate, L: Ledger>(
    alloc: Global,
    join: Join,
    rank: u8,
    p: u64,
    range: Range,
    gate: &G,
    reader: &mut R,
    steps: &mut Steps<L>,
) -> Result<Vec<Pair>, OutOfMemory>
    requires within { p ≤ length (R.list reader.old) }
    requires above { R.floor reader.old ≤ p }
    requires entered { HasEntered (R.list reader.old) }
    requires stands { HasRank (joins_of (take p (R.list reader.old))) join rank }
    requires ranked { rank ≤ R.top }
    ensures output { IfOk result (λ pairs. pairs.items ≡ pairs_within range (out join (below (take p (R.list reader.old)) rank))) }
    ensures moves { Moves R.list R.floor R.went reader.old reader.new }
    ensures counted { steps.old ≤ steps.new }
    ensures cost { IfOk result (λ pairs. steps.old + 1 + length pairs.items ≤ steps.new) }
    ensures least { IfOk result (λ pairs. CountsFill (R.list reader.old) p (forgotten join rank range) (steps.old + 1 + length pairs.items) steps.new) }
{
    let piece = range.copy()?;
    let mut state = RangeState::new(alloc, join, rank, range);
    fill_and_read(&mut state, p, &piece, 0, gate, reader, steps)
}
