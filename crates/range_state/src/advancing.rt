// Advancing to a later position, once it is known which keys changed.
ghost use Rattle.std.specs.Prelude.{◌≡◌, ◌≤◌, length, map, true, IfOk, OnOk};
ghost use Rattle.std.specs.List.Sorted.{IsStrictlySortedBy};
ghost use Rattle.semantics.specs.Texts.{text_cmp, is_range};
ghost use Rattle.semantics.specs.Joins.{copy, is_aggregate, value_operator};
ghost use Rattle.semantics.specs.Histories.{History};
ghost use Rattle.join_eval.specs.Answers.{change_keys};
ghost use Rattle.kept_ranges.specs.Notes.{note_limit, noted};
ghost use Rattle.kept_ranges.specs.Rules.{AddsTouched};
ghost use Rattle.kept_ranges.specs.Sound.{IsSoundAt};
ghost use Rattle.range_state.specs.Valued.{all_unvalued};
ghost use Rattle.range_state.specs.Held.{FitsJoin, range_kept};
ghost use Rattle.range_state.specs.Advanced.{CanAdvance, IsAdvancedTo, key_notes, slots_touched, touch_notes};
ghost use Rattle.range_state.specs.Work.{NotesEach};

use crate::holding::Holding;
use crate::laws::needs_can_fill;
use crate::subject::Subject;
use crate::{
    Application, Marked, Note, Notes, Touch, applications, apply_values, list_values, remake_rows,
    touches,
};
use join_types::Change;
use key_space::Key;
use lazy_log::LazyLog;
use operators::evaluation::value_op;
use out_of_memory::OutOfMemory;
use std::alloc::Global;

/// Records the touched slots as pending, each once, and notes them. The touched keys are given back.
fn take_touches(
    alloc: Global,
    position: u64,
    touched: Vec<Touch>,
    pending: &mut LazyLog,
    notes: &mut Notes,
) -> Result<Vec<Key>, OutOfMemory>
    requires { length notes.old.list ≤ note_limit }
    ensures keys { IfOk result (λ keys. keys.items ≡ map (λ t. t.key) touched.items) }
    ensures output { pending.new.output ≡ pending.old.output }
    ensures pending { OnOk result (AddsTouched touched.items pending.old.noted pending.new.noted) }
    ensures once { OnOk result (NotesEach (slots_touched touched.items) pending.old.noted pending.new.noted) }
    ensures notes { OnOk result (notes.new ≡ noted notes.old (touch_notes position touched.items)) }
{
    let mut keys = Vec::with_capacity(alloc, touched.len())?;
    for touch in touched {
        let Touch { key, slots } = touch;
        let mark = Marked::Slots(slots.copy(alloc)?);
        notes.add(Note { position, mark })?;
        pending.note(slots)?;
        keys.push(key)?;
    }
    Ok(keys)
}

/// Notes the output keys that pairs are applied to.
fn note_keys(position: u64, applying: &[Application], notes: &mut Notes) -> Result<(), OutOfMemory>
    requires { length notes.old.list ≤ note_limit }
    ensures { OnOk result (notes.new ≡ noted notes.old (key_notes position (all_unvalued applying.now))) }
{
    for one in applying {
        let mark = Marked::Key(one.output.copy()?);
        notes.add(Note { position, mark })?;
    }
    Ok(())
}

/// What is held of a copy join at p, where these changes are reported since it stood where it stands: touched slots are pending,
/// the needs that came by touched keys are gone, and the pairs of the value source are applied.
fn advance_rows(
    subject: &Subject,
    held: Holding,
    reported: &[Change],
    p: u64,
) -> Result<Holding, OutOfMemory>
    requires order { held.position ≤ p }
    requires is_range { is_range subject.now.range.low subject.now.range.high ≡ true }
    requires fits { FitsJoin subject.now.join held }
    requires copies { value_operator subject.now.join ≡ copy }
    requires ascending { IsStrictlySortedBy text_cmp (change_keys reported.now) }
    requires known { (h : History) × CanAdvance subject.now held p reported.now h }
    ensures advanced { IfOk result (IsAdvancedTo subject.now p (change_keys reported.now) held) }
    ensures sound { IfOk result (λ after. (h : History) → CanAdvance subject.now held p reported.now h → IsSoundAt (range_kept subject.now after) h p) }
{
    let Holding {
        mut rows,
        mut pending,
        groups,
        mut notes,
        ..
    } = held;
    let Subject {
        alloc,
        join,
        range,
        ..
    } = subject;
    needs_can_fill();
    let touched = touches(*alloc, join, reported, rows.needs())?;
    let keys = take_touches(*alloc, p, touched, &mut pending, &mut notes)?;
    rows.drop_needs_by_any(keys.as_slice());
    let applying = applications(*alloc, join, range, &pending, reported, rows.needs())?;
    note_keys(p, applying.as_slice(), &mut notes)?;
    apply_values(applying.as_slice(), &mut rows)?;
    Ok(Holding {
        position: p,
        rows,
        pending,
        groups,
        notes,
    })
}

/// What is held of an aggregate at p, where these changes are reported since it stood where it stands: their pairs are listed
/// anew, and so are made the rows of the output keys that they go to.
fn advance_groups(
    subject: &Subject,
    held: Holding,
    reported: &[Change],
    p: u64,
) -> Result<Holding, OutOfMemory>
    requires order { held.position ≤ p }
    requires is_range { is_range subject.now.range.low subject.now.range.high ≡ true }
    requires fits { FitsJoin subject.now.join held }
    requires aggregates { is_aggregate (value_operator subject.now.join) ≡ true }
    requires ascending { IsStrictlySortedBy text_cmp (change_keys reported.now) }
    requires known { (h : History) × CanAdvance subject.now held p reported.now h }
    ensures advanced { IfOk result (IsAdvancedTo subject.now p (change_keys reported.now) held) }
    ensures sound { IfOk result (λ after. (h : History) → CanAdvance subject.now held p reported.now h → IsSoundAt (range_kept subject.now after) h p) }
{
    let Holding {
        mut rows,
        pending,
        groups,
        mut notes,
        ..
    } = held;
    let Some(mut groups) = groups else {
        unreachable!()
    };
    let Subject {
        alloc,
        join,
        range,
        ..
    } = subject;
    needs_can_fill();
    let applying = applications(*alloc, join, range, &pending, reported, rows.needs())?;
    note_keys(p, applying.as_slice(), &mut notes)?;
    let made = applying.as_slice();
    list_values(made, &mut groups)?;
    remake_rows(*alloc, made, &groups, &mut rows)?;
    Ok(Holding {
        position: p,
        rows,
        pending,
        groups: Some(groups),
        notes,
    })
}

/// What is held at p, where these changes are reported since it stood where it stands. They have the values that are applied, so
/// that nothing is read.
pub fn advance_held(
    subject: &Subject,
    held: Holding,
    reported: &[Change],
    p: u64,
) -> Result<Holding, OutOfMemory>
    requires order { held.position ≤ p }
    requires is_range { is_range subject.now.range.low subject.now.range.high ≡ true }
    requires fits { FitsJoin subject.now.join held }
    requires ascending { IsStrictlySortedBy text_cmp (change_keys reported.now) }
    requires known { (h : History) × CanAdvance subject.now held p reported.now h }
    ensures advanced { IfOk result (IsAdvancedTo subject.now p (change_keys reported.now) held) }
    ensures sound { IfOk result (λ after. (h : History) → CanAdvance subject.now held p reported.now h → IsSoundAt (range_kept subject.now after) h p) }
{
    if value_op(&subject.join).is_aggregate() {
        advance_groups(subject, held, reported, p)
    } else {
        advance_rows(subject, held, reported, p)
    }
}
