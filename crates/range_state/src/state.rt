// A kept range.
ghost use Rattle.std.specs.Prelude.{◌≡◌, ℕ, ◌+◌, ◌<◌, ◌≤◌, [], length, filter, take, false, not, IfErr, IfOk, IsSome, OnOk, OnErr};
ghost use Rattle.std.specs.Option.{IsSomeAnd};
ghost use Rattle.semantics.specs.Texts.{pairs_within};
ghost use Rattle.semantics.specs.Joins.{checks_of};
ghost use Rattle.semantics.specs.Histories.{History, joins_of};
ghost use Rattle.semantics.specs.Outputs.{out};
ghost use Rattle.semantics.specs.States.{below};
ghost use Rattle.growing_history.specs.Entered.{HasEntered, HasRank};
ghost use Rattle.range_evaluation.specs.Trees.{reading_steps};
ghost use Rattle.lazy_log.specs.Pending.{meets_output};
ghost use Rattle.join_rows.specs.Kept.{AddsEach};
ghost use Rattle.join_eval.specs.Bounds.{Allows, OnTooWide, most_of};
ghost use Rattle.join_eval.specs.Moves.{Moves};
ghost use Rattle.join_eval.specs.Walks.{AreBare};
ghost use Rattle.kept_ranges.specs.Notes.{note_limit, noted};
ghost use Rattle.kept_ranges.specs.Sound.{IsSound};
ghost use Rattle.range_state.specs.Asking.{AreBareThroughout};
ghost use Rattle.range_state.specs.Held.{forgotten};
ghost use Rattle.range_state.specs.Ready.{HasSameSubject, pending_meets, StandsAt, StandsOrIsForgotten};
ghost use Rattle.range_state.specs.Since.{AnswersSince, ListsAllSince, as_changed, told_count};
ghost use Rattle.range_state.specs.Work.{advance_steps, AreBareUnder, CountsAdvance, FillsUpTo, IsFilledAfresh, TouchesLittle};
ghost use Rattle.range_state.specs.Work.{fill_needs, meeting, mend_notes, mend_steps, needs_under_each, MendsTooMany, StaysWithin, TakesTooMany};

use crate::advancing::advance_held;
use crate::ask_needs;
use crate::filling::{Filling, fill_at, fill_by};
use crate::holding::Holding;
use crate::laws::{few_applications, few_touches};
use crate::mending::mend_all;
use crate::subject::Subject;
use join_eval::{Changed, KeepFault, NeedBound, Reader, TooMany};
use join_rows::Rows;
use join_types::{Join, Pair, RowSink};
use key_space::{Key, Range};
use out_of_memory::OutOfMemory;
use std::alloc::Global;
use std::convert::Infallible;
use std::marker::Model;
use std::mem;
use std::sync::ledger::Ledger;
use steps::Steps;

/// What is kept for a range of a join's output: nothing, or its rows at a position with all that brings them to a later
/// one.
#[derive(Drop)]
pub struct RangeState {
    subject: Subject,
    held: Option<Holding>,
}

impl Model for RangeState {
    ghost use Rattle.std.specs.Prelude.{IfSome};
    ghost use Rattle.kept_ranges.specs.Sound.{KeptRange};
    ghost use Rattle.range_state.specs.Held.{view_of, FitsJoin};

    ghost Value = { KeptRange };

    ghost view = { λ s. view_of s.subject s.held };

    ghost invariant = { λ s. IfSome s.held (FitsJoin s.subject.join) };
}

impl RangeState {
    /// A kept range of a join's output, with the join's rank, for which nothing is kept yet. What will be kept grows by this
    /// allocator. Nothing is allocated.
    pub fn new(alloc: Global, join: Join, rank: u8, range: Range) -> RangeState
        ensures { result ≡ forgotten join rank range }
    {
        RangeState {
            subject: Subject {
                alloc,
                join,
                rank,
                range,
            },
            held: None,
        }
    }

    /// Where it stands: after how many entries. None exactly where nothing is kept.
    pub fn position(&self) -> Option<u64>
        ensures { result ≡ self.now.position }
    {
        match &self.held {
            None => None,
            Some(held) => Some(held.position),
        }
    }

    /// The number of its rows, 0 where nothing is kept. It takes constant time.
    pub fn rows(&self) -> u64
        ensures { result ≡ length self.now.kept.rows }
    {
        match &self.held {
            None => 0,
            Some(held) => held.rows.len(),
        }
    }

    /// Whether something pending meets the range. Linear in what is pending, and nothing is allocated.
    pub fn pending_meets(&self, range: &Range) -> bool
        ensures { result ≡ pending_meets self.now range.now }
    {
        match &self.held {
            None => false,
            Some(held) => held.pending.meets(range),
        }
    }

    /// The join.
    pub fn join(&self) -> &Join
        ensures { result.now ≡ self.now.join }
    {
        &self.subject.join
    }

    /// The join's rank.
    pub fn rank(&self) -> u8
        ensures { result ≡ self.now.rank }
    {
        self.subject.rank
    }

    /// The range of the join's output.
    pub fn range(&self) -> &Range
        ensures { result.now ≡ self.now.range }
    {
        &self.subject.range
    }

    /// Lets go of all that is kept.
    pub fn forget(&mut self)
        ensures { self.new ≡ forgotten self.old.join self.old.rank self.old.range }
    {
        self.held = None;
    }

    /// Evaluates the join over its range after p entries, and keeps what it finds. Nothing is pending then. Linear in what
    /// it reads, and logarithmic in the rows for each of them.
    ///
    /// On a fault nothing is kept. The reader may have gone on and steps may have been taken, here and in the other calls over a
    /// reader. `TooWide` comes exactly where that takes more needs than the bound allows, unless no memory is found before: then no
    /// more than these are read for.
    ///
    /// It takes one step for each of the ranges that are read and one for each pair in it, at least; where they are all bare, no
    /// more.
    pub fn fill<E: Copy, R: Reader, L: Ledger>(
        &mut self,
        p: u64,
        bound: NeedBound<E, Infallible>,
        reader: &mut R,
        steps: &mut Steps<L>,
    ) -> Result<(), KeepFault<E>>
        requires forgotten { self.old.position ≡ None }
        requires within { p ≤ length (R.list reader.old) }
        requires above { R.floor reader.old ≤ p }
        requires entered { HasEntered (R.list reader.old) }
        requires stands { HasRank (joins_of (take p (R.list reader.old))) self.old.join self.old.rank }
        requires ranked { self.old.rank ≤ R.top }
        ensures same { HasSameSubject self.old self.new }
        ensures at { OnOk result (StandsAt p self.new) }
        ensures clear { OnOk result (self.new.kept.pending ≡ []) }
        ensures filled { OnOk result (IsFilledAfresh p (below (take p (R.list reader.old)) self.old.rank) self.old self.new) }
        ensures few { OnOk result (Allows (most_of bound) (length (fill_needs self.old.join self.old.range (below (take p (R.list reader.old)) self.old.rank)))) }
        ensures few_notes { OnOk result (length self.new.notes.list ≤ note_limit) }
        ensures err { OnErr result (self.new.position ≡ None) }
        ensures wide { IfErr result (OnTooWide (TakesTooMany (most_of bound) (R.list reader.old) p self.old)) }
        ensures sound { IsSound self.new (R.list reader.new) }
        ensures moves { Moves R.list R.floor R.went reader.old reader.new }
        ensures counted { steps.old ≤ steps.new }
        ensures least { OnOk result (steps.old + reading_steps (fill_needs self.old.join self.old.range (below (take p (R.list reader.old)) self.old.rank)) (below (take p (R.list reader.old)) self.old.rank) ≤ steps.new) }
        ensures cost { AreBare (joins_of (take p (R.list reader.old))) (fill_needs self.old.join self.old.range (below (take p (R.list reader.old)) self.old.rank)) →
            OnOk result (steps.new ≤ steps.old + reading_steps (fill_needs self.old.join self.old.range (below (take p (R.list reader.old)) self.old.rank)) (below (take p (R.list reader.old)) self.old.rank)) }
    {
        let filled = fill_at(&self.subject, p, bound, reader, steps)?;
        self.held = Some(filled);
        Ok(())
    }

    /// Evaluates the join over its range after p entries. Where that takes no more than `most` needs, it keeps what it finds, as
    /// `fill` does, and gives nothing. Where it takes more, nothing is kept, and the rows of the whole range are given; of a copy
    /// join no more than `most` needs are held meanwhile, and an aggregate has one.
    ///
    /// On `OutOfMemory` nothing is kept.
    ///
    /// It takes one step for each of the ranges that are read and one for each pair in it, at least, whatever is kept; where they are
    /// all bare, no more.
    pub fn fill_up_to<R: Reader, L: Ledger>(
        &mut self,
        p: u64,
        most: u64,
        reader: &mut R,
        steps: &mut Steps<L>,
    ) -> Result<Option<Rows>, OutOfMemory>
        requires forgotten { self.old.position ≡ None }
        requires within { p ≤ length (R.list reader.old) }
        requires above { R.floor reader.old ≤ p }
        requires entered { HasEntered (R.list reader.old) }
        requires stands { HasRank (joins_of (take p (R.list reader.old))) self.old.join self.old.rank }
        requires ranked { self.old.rank ≤ R.top }
        ensures same { HasSameSubject self.old self.new }
        ensures filled { IfOk result (FillsUpTo most p (below (take p (R.list reader.old)) self.old.rank) self.old self.new) }
        ensures err { OnErr result (self.new.position ≡ None) }
        ensures sound { IsSound self.new (R.list reader.new) }
        ensures moves { Moves R.list R.floor R.went reader.old reader.new }
        ensures counted { steps.old ≤ steps.new }
        ensures least { OnOk result (steps.old + reading_steps (fill_needs self.old.join self.old.range (below (take p (R.list reader.old)) self.old.rank)) (below (take p (R.list reader.old)) self.old.rank) ≤ steps.new) }
        ensures cost { AreBare (joins_of (take p (R.list reader.old))) (fill_needs self.old.join self.old.range (below (take p (R.list reader.old)) self.old.rank)) →
            OnOk result (steps.new ≤ steps.old + reading_steps (fill_needs self.old.join self.old.range (below (take p (R.list reader.old)) self.old.rank)) (below (take p (R.list reader.old)) self.old.rank)) }
    {
        let bound: NeedBound<Infallible, TooMany> = NeedBound::GoesOnPast(most, TooMany);
        let filling = fill_by(&self.subject, p, bound, reader, steps)?;
        match filling {
            Filling::Whole(held) => {
                self.held = Some(held);
                Ok(None)
            }
            Filling::Loose(rows, _more) => Ok(Some(rows)),
        }
    }

    /// Brings it forward to where p entries stand. Slots of the output that changed pairs of check sources touch are pending
    /// then, and changed pairs of the value source are applied. Where the reader does not know what changed in a range that
    /// was read, it is filled again instead; where it stands at p already, nothing is done.
    ///
    /// It asks the reader once for each need, as `ask_needs` does, which gives the values of changed keys too, and walks the
    /// needs. For each need of the value source, each changed key in its range then takes work that is logarithmic in the rows,
    /// and what `LazyLog::covers` takes; for each need of a check, each changed key takes what `LazyLog::note` does. These keys
    /// are put in order once, and looked for among those by which a need came.
    ///
    /// Brought to a later position it takes one step at least for each need; or else it was filled, and takes at least what
    /// `fill` does. Where the ranges of its needs are bare from its position on to p, it takes at most one step for each need and
    /// one for each key of its range that was put or removed in between; then no need is added, the touched slots are pending
    /// once, and it notes no more than these keys.
    ///
    /// On a fault it is unchanged, or nothing is kept. `TooWide` comes only where the range is filled again and that takes more
    /// needs than the bound allows; then nothing is kept, and no more than these were read for. A kept range with no more needs
    /// than the bound allows has no more afterwards.
    pub fn advance<E: Copy, R: Reader, L: Ledger>(
        &mut self,
        p: u64,
        bound: NeedBound<E, Infallible>,
        reader: &mut R,
        steps: &mut Steps<L>,
    ) -> Result<(), KeepFault<E>>
        requires order { IsSomeAnd self.old.position (λ q. (R.floor reader.old ≤ q) × (q ≤ p)) }
        requires within { p ≤ length (R.list reader.old) }
        requires entered { HasEntered (R.list reader.old) }
        requires stands { HasRank (joins_of (take p (R.list reader.old))) self.old.join self.old.rank }
        requires ranked { self.old.rank ≤ R.top }
        requires sound { IsSound self.old (R.list reader.old) }
        ensures same { HasSameSubject self.old self.new }
        ensures at { OnOk result (StandsAt p self.new) }
        ensures few { OnOk result (StaysWithin (most_of bound) self.old self.new) }
        ensures few_notes { OnOk result (length self.new.notes.list ≤ note_limit) }
        ensures err { OnErr result (StandsOrIsForgotten self.old self.new) }
        ensures wide { IfErr result (OnTooWide (TakesTooMany (most_of bound) (R.list reader.old) p self.old)) }
        ensures known { (q : ℕ) → StandsAt q self.old → AreBareThroughout (R.list reader.old) q p self.old.kept.needs → IfErr result (OnTooWide ⊥) }
        ensures gone { IfErr result (OnTooWide (self.new.position ≡ None)) }
        ensures sound { IsSound self.new (R.list reader.new) }
        ensures unchecked { checks_of self.old.join.sources ≡ [] → self.old.kept.pending ≡ [] → self.new.kept.pending ≡ [] }
        ensures moves { Moves R.list R.floor R.went reader.old reader.new }
        ensures counted { steps.old ≤ steps.new }
        ensures least { (q : ℕ) → StandsAt q self.old → q < p → OnOk result (CountsAdvance p (below (take p (R.list reader.old)) self.old.rank) self.old self.new steps.old steps.new) }
        ensures cost { (q : ℕ) → StandsAt q self.old → AreBareThroughout (R.list reader.old) q p self.old.kept.needs →
            OnOk result (steps.new ≤ steps.old + advance_steps (R.list reader.old) q p self.old.kept.needs) }
        ensures little { (q : ℕ) → StandsAt q self.old → AreBareThroughout (R.list reader.old) q p self.old.kept.needs →
            OnOk result (TouchesLittle (R.list reader.old) q p self.old self.new) }
    {
        let Some(held) = &self.held else {
            unreachable!()
        };
        if held.position == p {
            return Ok(());
        }
        self.subject.look();
        let Subject { alloc, rank, .. } = &self.subject;
        let needs = held.rows.needs();
        few_touches();
        few_applications();
        let asked = ask_needs(*alloc, needs, *rank, held.position, p, reader, steps)?;
        let Some(held) = mem::replace(&mut self.held, None) else {
            unreachable!()
        };
        let advanced = match asked {
            None => fill_at(&self.subject, p, bound, reader, steps)?,
            Some(reported) => advance_held(&self.subject, held, reported.as_slice(), p)?,
        };
        self.held = Some(advanced);
        Ok(())
    }

    /// Mends it where something pending meets a range: the rows under those slots are found again where it stands.
    ///
    /// For each of the slots it takes the search for the rows under them, and what evaluating the join under them takes. Needs that
    /// are found in the order in which they are there are compared with these one by one. The others are put in order, and the
    /// first 32 times each need that was not met so is looked for among them; from then on all needs are put in order once, and
    /// each of the others is looked for in logarithmic steps.
    ///
    /// On a fault it is unchanged, or nothing is kept. `TooWide` comes only where the needs that it has and those that are found, each
    /// counted as often as it is found, are more than the bound allows; then nothing is kept, and no more than the bound allows were
    /// read for at once. A kept range with no more needs than the bound allows has no more afterwards.
    ///
    /// It takes one step for each of the ranges that are read and one for each pair in it, at least; where they are all bare, no
    /// more. It adds the needs of what is read, each once, and one note for each of the slots.
    pub fn mend<E: Copy, R: Reader, L: Ledger>(
        &mut self,
        range: &Range,
        bound: NeedBound<E, Infallible>,
        reader: &mut R,
        steps: &mut Steps<L>,
    ) -> Result<(), KeepFault<E>>
        requires above { IsSomeAnd self.old.position (λ q. R.floor reader.old ≤ q) }
        requires entered { HasEntered (R.list reader.old) }
        requires ranked { self.old.rank ≤ R.top }
        requires sound { IsSound self.old (R.list reader.old) }
        ensures same { HasSameSubject self.old self.new }
        ensures at { OnOk result (self.new.position ≡ self.old.position) }
        ensures clear { OnOk result (pending_meets self.new range.now ≡ false) }
        ensures left { OnOk result (self.new.kept.pending ≡ filter (λ slots. not (meets_output self.old.join.output range.now slots)) self.old.kept.pending) }
        ensures few { OnOk result (StaysWithin (most_of bound) self.old self.new) }
        ensures err { OnErr result (StandsOrIsForgotten self.old self.new) }
        ensures wide { (q : ℕ) → StandsAt q self.old → IfErr result (OnTooWide (MendsTooMany (most_of bound) (below (take q (R.list reader.old)) self.old.rank) range.now self.old)) }
        ensures gone { IfErr result (OnTooWide (self.new.position ≡ None)) }
        ensures sound { IsSound self.new (R.list reader.new) }
        ensures needs { (q : ℕ) → StandsAt q self.old →
            OnOk result (AddsEach (needs_under_each self.old.join self.old.range (below (take q (R.list reader.old)) self.old.rank) (meeting self.old range.now)) self.old.kept.needs self.new.kept.needs) }
        ensures notes { (q : ℕ) → StandsAt q self.old → OnOk result (self.new.notes ≡ noted self.old.notes (mend_notes q (meeting self.old range.now))) }
        ensures few_notes { OnOk result (length self.new.notes.list ≤ note_limit) }
        ensures start { length self.old.notes.list + length (filter (meets_output self.old.join.output range.now) self.old.kept.pending) ≤ note_limit → OnOk result (self.new.notes.start ≡ self.old.notes.start) }
        ensures moves { Moves R.list R.floor R.went reader.old reader.new }
        ensures counted { steps.old ≤ steps.new }
        ensures least { (q : ℕ) → StandsAt q self.old → OnOk result (steps.old + mend_steps self.old (below (take q (R.list reader.old)) self.old.rank) range.now ≤ steps.new) }
        ensures cost { (q : ℕ) → StandsAt q self.old → AreBareUnder self.old (R.list reader.old) q range.now →
            OnOk result (steps.new ≤ steps.old + mend_steps self.old (below (take q (R.list reader.old)) self.old.rank) range.now) }
    {
        self.subject.look();
        let Some(mut held) = mem::replace(&mut self.held, None) else {
            unreachable!()
        };
        let taken = held.pending.take_meeting(range)?;
        mend_all(&self.subject, &mut held, taken, bound, reader, steps)?;
        self.held = Some(held);
        Ok(())
    }

    /// Its rows in a range, in the order of their keys: the join's output in the part of the range that is its own, where it
    /// stands. It takes the search for the range, and is linear in what it gives; long texts are shared.
    ///
    /// It takes one step, and one for each row that it gives.
    pub fn read<L: Ledger>(
        &self,
        range: &Range,
        steps: &mut Steps<L>,
    ) -> Result<Vec<Pair>, OutOfMemory>
        requires stands { IsSome self.now.position }
        requires clear { pending_meets self.now range.now ≡ false }
        ensures rows { IfOk result (λ pairs. pairs.items ≡ pairs_within range.now self.now.kept.rows) }
        ensures output { IfOk result (λ pairs. (h : History) (q : ℕ) → HasEntered h → StandsAt q self.now → IsSound self.now h →
            pairs.items ≡ pairs_within range.now (pairs_within self.now.range (out self.now.join (below (take q h) self.now.rank)))) }
        ensures counted { steps.old ≤ steps.new }
        ensures cost { IfOk result (λ pairs. steps.new ≡ steps.old + 1 + length pairs.items) }
    {
        let Some(held) = &self.held else {
            unreachable!()
        };
        let pairs = held.rows.within(range)?;
        steps.count_call(pairs.len());
        Ok(pairs)
    }

    /// Hands its rows in a range to the sink, in the order of their keys, as `read` gives them. It takes the search for the range,
    /// and what the sink takes for each row. No text is copied here.
    ///
    /// It takes one step, and one for each row that it hands out.
    pub fn hand<K: RowSink, L: Ledger>(
        &self,
        range: &Range,
        sink: &mut K,
        steps: &mut Steps<L>,
    ) -> Result<(), OutOfMemory>
        requires stands { IsSome self.now.position }
        requires clear { pending_meets self.now range.now ≡ false }
        ensures rows { OnOk result (K.got sink.old sink.new (pairs_within range.now self.now.kept.rows)) }
        ensures output { (h : History) (q : ℕ) → HasEntered h → StandsAt q self.now → IsSound self.now h →
            pairs_within range.now self.now.kept.rows ≡ pairs_within range.now (pairs_within self.now.range (out self.now.join (below (take q h) self.now.rank))) }
        ensures counted { steps.old ≤ steps.new }
        ensures cost { OnOk result (steps.new ≡ steps.old + 1 + length (pairs_within range.now self.now.kept.rows)) }
    {
        let Some(held) = &self.held else {
            unreachable!()
        };
        let count = held.rows.hand_within(range, sink)?;
        steps.count_call(count);
        Ok(())
    }

    /// What changed in a range of its output since a position, at or before the one where it stands: `All` exactly where
    /// nothing is kept, its notes start later, or slots meet the range that are pending or were noted since; otherwise the
    /// keys of the range that were noted since, ascending, each once. At each other key of both ranges the output is the
    /// same since then. It takes a look at each note and at all that is pending, and the sorting of the keys that it gives.
    pub fn changed_since(&self, since: u64, range: &Range) -> Result<Changed, OutOfMemory>
        ensures answer { IfOk result (AnswersSince since range.now self.now) }
        ensures same { IfOk result (λ answer. (h : History) (q : ℕ) → HasEntered h → StandsAt q self.now → IsSound self.now h → ListsAllSince self.now h since q range.now answer) }
    {
        let Some(held) = &self.held else {
            return Ok(Changed::All);
        };
        let Subject { alloc, join, .. } = &self.subject;
        if since < held.notes.start()
            || held.pending.meets(range)
            || held
                .notes
                .slots_meet_since(*alloc, &join.output, since, range)?
        {
            return Ok(Changed::All);
        }
        Ok(Changed::Keys(held.notes.keys_since(*alloc, since, range)?))
    }

    /// The keys that changed in a range of its output since a position, at or before the one where it stands, as `changed_since`
    /// lists them; none exactly where that answers `All`. It costs what that does, and adds a step and one for each key.
    pub fn touched_since<L: Ledger>(
        &self,
        since: u64,
        range: &Range,
        steps: &mut Steps<L>,
    ) -> Result<Option<Vec<Key>>, OutOfMemory>
        ensures touched { IfOk result (λ touched. AnswersSince since range.now self.now (as_changed touched)) }
        ensures same { IfOk result (λ touched. (h : History) (q : ℕ) → HasEntered h → StandsAt q self.now → IsSound self.now h → ListsAllSince self.now h since q range.now (as_changed touched)) }
        ensures counted { steps.old ≤ steps.new }
        ensures cost { IfOk result (λ touched. steps.new ≡ steps.old + 1 + told_count (as_changed touched)) }
    {
        match self.changed_since(since, range)? {
            Changed::Keys(keys) => {
                steps.count_call(keys.len());
                Ok(Some(keys))
            }
            Changed::All => {
                steps.count_call(0);
                Ok(None)
            }
        }
    }
}
