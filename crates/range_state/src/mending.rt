// Mending slots that were pending.
ghost use Rattle.std.specs.Prelude.{◌≡◌, ◌+◌, ◌≤◌, ◌++◌, length, not, is_some, take, true, IfErr, OnOk};
ghost use Rattle.semantics.specs.Texts.{is_range, pairs_where};
ghost use Rattle.semantics.specs.Patterns.{bind};
ghost use Rattle.semantics.specs.Joins.{copy, value_operator};
ghost use Rattle.semantics.specs.Histories.{joins_of};
ghost use Rattle.semantics.specs.Outputs.{out};
ghost use Rattle.semantics.specs.States.{below, merged};
ghost use Rattle.growing_history.specs.Entered.{HasEntered, HasRank};
ghost use Rattle.range_evaluation.specs.Trees.{is_asked, tree};
ghost use Rattle.range_evaluation.specs.TreeLaws.{AreOutputSlots};
ghost use Rattle.join_rows.specs.Kept.{AddsEach};
ghost use Rattle.join_eval.specs.Bounds.{Allows, Exceeds, OnTooWide, most_of};
ghost use Rattle.join_eval.specs.Moves.{Moves};
ghost use Rattle.kept_ranges.specs.Notes.{note_limit, noted};
ghost use Rattle.kept_ranges.specs.Sound.{IsSoundAt};
ghost use Rattle.range_state.specs.Held.{FitsJoin, range_kept};
ghost use Rattle.range_state.specs.Mended.{AreAllBare, AreBareFor, KeepsPlace, steps_for, steps_under, with_pending};
ghost use Rattle.range_state.specs.Work.{mend_notes, needs_under_each};

use crate::holding::Holding;
use crate::subject::Subject;
use crate::{Marked, Note};
use join_eval::{FoundBeside, KeepFault, NeedBound, Reader, evaluate_beside};
use join_rows::Rows;
use key_pattern::SlotTexts;
use std::convert::Infallible;
use std::mem;
use std::sync::ledger::Ledger;
use steps::Steps;

/// Finds the rows under some slots again at a position, and adds the needs that are found. Where these are found in the order in
/// which they are there, they are compared one by one; the others are put in order, and each need that was not met is looked for in
/// them.
///
/// On a fault rows may be lost. `TooWide` comes only where the needs that there were and those that are found are more than the
/// bound allows.
fn mend_slots<E: Copy, R: Reader, L: Ledger>(
    subject: &Subject,
    position: u64,
    rows: &mut Rows,
    slots: &SlotTexts,
    bound: NeedBound<E, Infallible>,
    reader: &mut R,
    steps: &mut Steps<L>,
) -> Result<(), KeepFault<E>>
    requires within { position ≤ length (R.list reader.old) }
    requires above { R.floor reader.old ≤ position }
    requires entered { HasEntered (R.list reader.old) }
    requires stands { HasRank (joins_of (take position (R.list reader.old))) subject.now.join subject.now.rank }
    requires ranked { subject.now.rank ≤ R.top }
    requires copies { value_operator subject.now.join ≡ copy }
    requires own_slots { AreOutputSlots subject.now.join slots.now }
    ensures rows { OnOk result (rows.new.pairs ≡ merged (pairs_where (λ key. not (is_some (bind subject.now.join.output key slots.now))) rows.old.pairs)
        (pairs_where (is_asked subject.now.join.output slots.now subject.now.range) (out subject.now.join (below (take position (R.list reader.old)) subject.now.rank)))) }
    ensures needs { OnOk result (AddsEach (tree subject.now.join slots.now subject.now.range (below (take position (R.list reader.old)) subject.now.rank)) rows.old.needs rows.new.needs) }
    ensures long { OnOk result (length rows.new.needs ≤ length rows.old.needs + length (tree subject.now.join slots.now subject.now.range (below (take position (R.list reader.old)) subject.now.rank))) }
    ensures few { OnOk result (Allows (most_of bound) (length rows.new.needs)) }
    ensures wide { IfErr result (OnTooWide (Exceeds (most_of bound) (length rows.old.needs + length (tree subject.now.join slots.now subject.now.range (below (take position (R.list reader.old)) subject.now.rank))))) }
    ensures moves { Moves R.list R.floor R.went reader.old reader.new }
    ensures counted { steps.old ≤ steps.new }
    ensures least { OnOk result (steps.old + steps_for subject.now (R.list reader.old) position slots.now ≤ steps.new) }
    ensures cost { AreBareFor subject.now (R.list reader.old) position slots.now → OnOk result (steps.new ≤ steps.old + steps_for subject.now (R.list reader.old) position slots.now) }
{
    let slots = slots.lend();
    let Subject {
        alloc,
        join,
        rank,
        range,
    } = subject;
    let known = rows.needs();
    let evaluated = evaluate_beside(
        *alloc, join, *rank, range, &slots, position, bound, known, reader, steps,
    )?;
    let FoundBeside { rows: found, met } = evaluated;
    rows.drop_fitting(&join.output, &slots);
    let left = mem::replace(rows, Rows::new(*alloc));
    *rows = left.merge_behind(found, met)?;
    bound.check(rows.needs().len() as u64)?;
    Ok(())
}

/// Mends these slots where it stands, one after another, adds each need that is found once, and notes the slots.
///
/// On a fault what is held may be wrong. `TooWide` comes only where the needs that there were and those that are found are more
/// than the bound allows.
pub fn mend_all<E: Copy, R: Reader, L: Ledger>(
    subject: &Subject,
    held: &mut Holding,
    taken: Vec<SlotTexts>,
    bound: NeedBound<E, Infallible>,
    reader: &mut R,
    steps: &mut Steps<L>,
) -> Result<(), KeepFault<E>>
    requires above { R.floor reader.old ≤ held.old.position }
    requires entered { HasEntered (R.list reader.old) }
    requires ranked { subject.now.rank ≤ R.top }
    requires is_range { is_range subject.now.range.low subject.now.range.high ≡ true }
    requires fits { FitsJoin subject.now.join held.old }
    requires sound { IsSoundAt (with_pending (taken.items ++ held.old.pending.noted) (range_kept subject.now held.old)) (R.list reader.old) held.old.position }
    ensures fits { OnOk result (FitsJoin subject.now.join held.new) }
    ensures stays { KeepsPlace held.old held.new }
    ensures sound { OnOk result (IsSoundAt (range_kept subject.now held.new) (R.list reader.new) held.old.position) }
    ensures needs { OnOk result (AddsEach (needs_under_each subject.now.join subject.now.range (below (take held.old.position (R.list reader.old)) subject.now.rank) taken.items)
        held.old.rows.needs held.new.rows.needs) }
    ensures few { OnOk result (Allows (most_of bound) (length held.old.rows.needs) → Allows (most_of bound) (length held.new.rows.needs)) }
    ensures wide { IfErr result (OnTooWide (Exceeds (most_of bound) (length held.old.rows.needs
        + length (needs_under_each subject.now.join subject.now.range (below (take held.old.position (R.list reader.old)) subject.now.rank) taken.items)))) }
    ensures notes { OnOk result (held.new.notes ≡ noted held.old.notes (mend_notes held.old.position taken.items)) }
    ensures start { length held.old.notes.list + length taken.items ≤ note_limit → OnOk result (held.new.notes.start ≡ held.old.notes.start) }
    ensures moves { Moves R.list R.floor R.went reader.old reader.new }
    ensures counted { steps.old ≤ steps.new }
    ensures least { OnOk result (steps.old + steps_under subject.now (R.list reader.old) held.old.position taken.items ≤ steps.new) }
    ensures cost { AreAllBare subject.now (R.list reader.old) held.old.position taken.items →
        OnOk result (steps.new ≤ steps.old + steps_under subject.now (R.list reader.old) held.old.position taken.items) }
{
    let position = held.position;
    for slots in taken {
        mend_slots(
            subject,
            position,
            &mut held.rows,
            &slots,
            bound,
            reader,
            steps,
        )?;
        let mark = Marked::Slots(slots);
        held.notes.add(Note { position, mark })?;
    }
    held.rows.forget_order();
    Ok(())
}
