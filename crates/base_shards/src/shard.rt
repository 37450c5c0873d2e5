// What lies behind the lock of a shard.
ghost use Rattle.std.specs.Prelude.{◌≡◌, ◌+◌, ◌^◌, ◌<◌, ◌≤◌, [], ◌∷◌, length, take, replicate, IfOk, IfSome, OnOk, OnErr, MatchOption, false};
ghost use Rattle.semantics.specs.Texts.{pairs_within, table_of};
ghost use Rattle.semantics.specs.Histories.{base_of};
ghost use Rattle.growing_history.specs.Changes.{changed_keys, entries_between};
ghost use Rattle.growing_history.specs.Entered.{HasEntered};
ghost use Rattle.base_versions.specs.Kept.{shard_of};
ghost use Rattle.base_versions.specs.Valued.{base_changes};
ghost use Rattle.write_history.specs.Passes.{GoesOn, own};
ghost use Rattle.write_history.specs.declared.known.Mark.TheVariants.{Noted};
ghost use Rattle.base_shards.specs.Marks.{MarksAtLeast, marked_by};
ghost use Rattle.base_shards.specs.Shards.{with_ranges_of, without_id};

use crate::marking::mark_written;
use crate::naming::Naming;
use base_versions::BaseVersions;
use join_types::{Change, Pair};
use key_space::{Key, Range};
use out_of_memory::OutOfMemory;
use std::alloc::{AllocError, Global};
use std::marker::{Model, PhantomData};
use std::sync::Wait;
use std::sync::ledger::Ledger;
use steps::Steps;
use updater_index::UpdaterIndex;
use write_history::{History, Pass};

/// The number of shards.
pub const SHARDS: u8 = 16;

/// The most positions of which the part's entries are copied out of the history at a time, and so while its turn is taken.
const BATCH: u64 = 1_024;

/// The most positions that are trimmed at a time, and so while the part is locked.
pub const TRIM: u64 = 256;

/// One part of the tables: its base pairs at every position from a start up to its own, the ranges and marks of ids, and a pass.
/// The base pairs are those after a beginning of what the pass has seen, the pass has noted no later position than its own, and
/// the start is not above the floor that the pass has seen: that is true whenever the lock is free.
#[derive(Drop)]
pub struct Shard<N: Naming> {
    alloc: Global,
    number: u8,
    base: BaseVersions,
    index: UpdaterIndex,
    pass: Pass,
    of: PhantomData<N>,
}

impl<N: Naming> Model for Shard<N> {
    ghost use Rattle.std.specs.Prelude.{◌≡◌};
    ghost use Rattle.base_shards.specs.Shards.{ShardView, KeepsBeginning};

    ghost Value = { ShardView };

    ghost view = { λ s. record { base = s.base; index = s.index; pass = s.pass } };

    ghost invariant = { λ s. (s.number ≡ s.base.shard) × KeepsBeginning N.history s.base s.pass };
}

impl<N: Naming> Shard<N> {
    /// The part with a number, after no entries, with a pass of the history, and for ids below a number. Nothing is allocated.
    pub fn new(alloc: Global, number: u8, pass: Pass, ids: u32) -> Shard<N>
        requires number { number < 16 }
        requires same_history { pass.history ≡ N.history }
        requires noted { pass.mark ≡ Noted 0 }
        ensures number { result.base.shard ≡ number }
        ensures ids { result.index.held ≡ replicate ids [] }
        ensures marked { result.index.marked ≡ [] }
        ensures pass { result.pass ≡ pass }
    {
        Shard {
            alloc,
            number,
            base: BaseVersions::new(alloc, number, SHARDS),
            index: UpdaterIndex::new(alloc, ids),
            pass,
            of: PhantomData,
        }
    }

    /// The number of entries that the base pairs know, below 2^48.
    fn position(&self) -> u64
        ensures position { result ≡ self.now.base.position }
        ensures room { result < 2 ^ 48 }
    {
        self.base.position()
    }

    /// The shard's pass and the other see what either has seen.
    fn meet<R>(&mut self, rt: &R, history: &History, pass: &mut Pass)
        requires history { history.now ≡ N.history }
        requires same_history { pass.old.history ≡ N.history }
        ensures goes_on { GoesOn pass.old pass.new }
        ensures own { own pass.new ≡ own pass.old }
        ensures met { self.new.pass.view ≡ pass.new.view }
        ensures floor { self.new.pass.floor ≡ pass.new.floor }
        ensures trimmed { self.new.base.start ≤ pass.new.floor }
        ensures below { pass.new.floor ≤ self.new.base.position }
        ensures base { self.new.base ≡ self.old.base }
        ensures index { self.new.index ≡ self.old.index }
    {
        history.meet(rt, &mut self.pass, pass);
    }

    /// Sees to it that the shard keeps the tables of the part with a number. A type cannot say which of several locks a value lies
    /// behind, so that it is the right one is looked up here: it always is. Another part could not take its place, since entries
    /// may be dropped that it would have to take, so `OutOfMemory` stands for what never comes.
    fn keeps_part(&self, number: u8) -> Result<(), OutOfMemory>
        ensures { OnOk result (self.now.base.shard ≡ number) }
    {
        if self.number == number {
            return Ok(());
        }
        Err(OutOfMemory::from(AllocError))
    }

    /// Takes the next entries that the pass has seen, up to a position, and no more than are copied at a time: those of the part,
    /// and knows that there are no others of it. Before they are taken each id is marked that has a range with a key which they
    /// put or remove.
    ///
    /// On `OutOfMemory` some first ones of them may have been taken, and ids may be marked for others too.
    fn take_next<R: Wait>(&mut self, rt: &R, history: &History, p: u64) -> Result<(), OutOfMemory>
        requires history { history.now ≡ N.history }
        requires entered { HasEntered self.old.pass.view }
        requires before { self.old.base.position < p }
        requires within { p ≤ length self.old.pass.view }
        ensures nearer { OnOk result (self.old.base.position < self.new.base.position) }
        ensures kept { self.old.base.position ≤ self.new.base.position }
        ensures upto { self.new.base.position ≤ p }
        ensures number { self.new.base.shard ≡ self.old.base.shard }
        ensures start { self.new.base.start ≡ self.old.base.start }
        ensures marked { OnOk result (self.new.index ≡ marked_by self.old.base.shard (entries_between self.old.base.position self.new.base.position self.old.pass.view) self.old.index) }
        ensures in_part { OnErr result (MarksAtLeast self.old.base.shard (entries_between self.old.base.position self.new.base.position self.old.pass.view) self.old.index self.new.index) }
        ensures pass { self.new.pass ≡ self.old.pass }
    {
        let from = self.base.position();
        let to = p.min(from + BATCH);
        let copies = history.entries_of(rt, &mut self.pass, self.number, from, to)?;
        let own = copies.as_slice();
        mark_written(&mut self.index, own)?;
        self.base.advance_own(own, to)
    }

    /// Takes the entries that the pass has seen, up to a position, those first that come first.
    ///
    /// On `OutOfMemory` some first ones of them may have been taken, and ids may be marked for others too.
    fn take_all<R: Wait>(&mut self, rt: &R, history: &History, p: u64) -> Result<(), OutOfMemory>
        requires history { history.now ≡ N.history }
        requires entered { HasEntered self.old.pass.view }
        requires within { p ≤ length self.old.pass.view }
        ensures advanced { OnOk result (p ≤ self.new.base.position) }
        ensures kept { self.old.base.position ≤ self.new.base.position }
        ensures number { self.new.base.shard ≡ self.old.base.shard }
        ensures start { self.new.base.start ≡ self.old.base.start }
        ensures marked { OnOk result (self.new.index ≡ marked_by self.old.base.shard (entries_between self.old.base.position self.new.base.position self.old.pass.view) self.old.index) }
        ensures in_part { OnErr result (MarksAtLeast self.old.base.shard (entries_between self.old.base.position self.new.base.position self.old.pass.view) self.old.index self.new.index) }
        ensures pass { self.new.pass ≡ self.old.pass }
    {
        while self.position() < p {
            self.take_next(rt, history, p)?;
        }
        Ok(())
    }

    /// Advances the base pairs of the part with a number to a position that the pass has seen, if they are not there yet. Both
    /// passes see then what either has seen. Before an entry is taken, each id is marked that has a range with the key which
    /// it puts or removes, where the key's table is of the part.
    ///
    /// It costs a look-up, and what `UpdaterIndex::mark_stabbed` does, for each entry of the part up to the position that is new
    /// to the shard, and the history's turn once for each 1,024 positions.
    ///
    /// On `OutOfMemory` some first ones of these entries may have been taken, and ids may be marked for others too.
    pub fn advance_to<R: Wait>(
        &mut self,
        rt: &R,
        history: &History,
        pass: &mut Pass,
        number: u8,
        p: u64,
    ) -> Result<(), OutOfMemory>
        requires number { number < 16 }
        requires history { history.now ≡ N.history }
        requires same_history { pass.old.history ≡ N.history }
        requires within { p ≤ length pass.old.view }
        ensures goes_on { GoesOn pass.old pass.new }
        ensures own { own pass.new ≡ own pass.old }
        ensures met { self.new.pass.view ≡ pass.new.view }
        ensures number { OnOk result (self.new.base.shard ≡ number) }
        ensures advanced { OnOk result (p ≤ self.new.base.position) }
        ensures kept { self.old.base.position ≤ self.new.base.position }
        ensures start { self.new.base.start ≤ pass.new.floor }
        ensures marked { OnOk result (self.new.index ≡ marked_by number (entries_between self.old.base.position self.new.base.position self.new.pass.view) self.old.index) }
        ensures in_part { OnErr result (MarksAtLeast self.old.base.shard (entries_between self.old.base.position self.new.base.position self.new.pass.view) self.old.index self.new.index) }
    {
        self.meet(rt, history, pass);
        self.keeps_part(number)?;
        self.take_all(rt, history, p)
    }

    /// Advances the part with a number to a position as `advance_to` does, and notes its own. On `OutOfMemory` it notes nothing.
    pub fn advance_and_note<R: Wait>(
        &mut self,
        rt: &R,
        history: &History,
        pass: &mut Pass,
        number: u8,
        p: u64,
    ) -> Result<(), OutOfMemory>
        requires number { number < 16 }
        requires history { history.now ≡ N.history }
        requires same_history { pass.old.history ≡ N.history }
        requires within { p ≤ length pass.old.view }
        ensures goes_on { GoesOn pass.old pass.new }
        ensures own { own pass.new ≡ own pass.old }
        ensures noted { OnOk result (self.new.pass.mark ≡ Noted self.new.base.position) }
        ensures advanced { OnOk result (p ≤ self.new.base.position) }
        ensures kept { self.old.base.position ≤ self.new.base.position }
    {
        self.advance_to(rt, history, pass, number, p)?;
        history.note(rt, &mut self.pass, self.base.position());
        Ok(())
    }

    /// Lets go of what nobody asks for who asks from a floor on that the pass knows, if the part has come to a position. Of more
    /// than 256 positions it takes the first 256, and says that there are more.
    pub fn trim_some<R: Wait>(
        &mut self,
        rt: &R,
        history: &History,
        pass: &mut Pass,
        floor: u64,
        position: u64,
    ) -> bool
        requires history { history.now ≡ N.history }
        requires same_history { pass.old.history ≡ N.history }
        requires floor { floor ≤ pass.old.floor }
        ensures goes_on { GoesOn pass.old pass.new }
        ensures own { own pass.new ≡ own pass.old }
        ensures position { self.new.base.position ≡ self.old.base.position }
        ensures number { self.new.base.shard ≡ self.old.base.shard }
        ensures index { self.new.index ≡ self.old.index }
        ensures later { self.old.base.start ≤ self.new.base.start }
        ensures trimmed { position ≤ self.old.base.position → result ≡ false → floor ≤ self.new.base.start }
        ensures short { self.new.base.start ≤ self.old.base.start + 256 }
    {
        self.meet(rt, history, pass);
        let start = self.base.start();
        if self.base.position() < position || floor <= start {
            return false;
        }
        let to = floor.min(start + TRIM);
        self.base.trim(to);
        to < floor
    }

    /// The base pairs of the range after the first p entries that the pass has seen, in the order of their keys. It costs
    /// what `BaseVersions::pairs_at` does.
    ///
    /// The steps are as many as the pairs, and one. On `OutOfMemory` they are not counted.
    pub fn pairs_at<L: Ledger>(
        &self,
        p: u64,
        range: &Range,
        steps: &mut Steps<L>,
    ) -> Result<Vec<Pair>, OutOfMemory>
        requires from { self.now.base.start ≤ p }
        requires within { p ≤ self.now.base.position }
        requires part { shard_of 16 (table_of range.now.low) ≡ self.now.base.shard }
        ensures exact { IfOk result (λ pairs. pairs.items ≡ pairs_within range.now (base_of (take p self.now.pass.view))) }
        ensures cost { IfOk result (λ pairs. steps.new ≡ steps.old + 1 + length pairs.items) }
        ensures spent { steps.old ≤ steps.new }
    {
        self.base.pairs_at(p, range, steps)
    }

    /// The keys of the range that are put or removed by the entries after the first q that the pass has seen, up to the
    /// p-th: in order, each once. It costs what `BaseVersions::changed` does.
    ///
    /// The steps are as many as the keys, and one. On `OutOfMemory` they are not counted.
    pub fn changed<L: Ledger>(
        &self,
        q: u64,
        p: u64,
        range: &Range,
        steps: &mut Steps<L>,
    ) -> Result<Vec<Key>, OutOfMemory>
        requires from { self.now.base.start ≤ q }
        requires order { q ≤ p }
        requires within { p ≤ self.now.base.position }
        requires part { shard_of 16 (table_of range.now.low) ≡ self.now.base.shard }
        ensures exact { IfOk result (λ keys. keys.items ≡ changed_keys q p range.now self.now.pass.view) }
        ensures cost { IfOk result (λ keys. steps.new ≡ steps.old + 1 + length keys.items) }
        ensures spent { steps.old ≤ steps.new }
    {
        self.base.changed(q, p, range, steps)
    }

    /// Lists the keys of the range that are put or removed by the entries after the first q that the pass has seen, up to the p-th,
    /// each with the value of its base pair after the first p, or none: in order, each once. It costs what `BaseVersions::changes`
    /// does.
    ///
    /// The steps are as many as the keys, and one. On `OutOfMemory` they are not counted.
    pub fn changes<L: Ledger>(
        &self,
        q: u64,
        p: u64,
        range: &Range,
        steps: &mut Steps<L>,
    ) -> Result<Vec<Change>, OutOfMemory>
        requires from { self.now.base.start ≤ q }
        requires order { q ≤ p }
        requires within { p ≤ self.now.base.position }
        requires part { shard_of 16 (table_of range.now.low) ≡ self.now.base.shard }
        ensures exact { IfOk result (λ found. found.items ≡ base_changes q p range.now self.now.pass.view) }
        ensures cost { IfOk result (λ found. steps.new ≡ steps.old + 1 + length found.items) }
        ensures spent { steps.old ≤ steps.new }
    {
        self.base.changes(q, p, range, steps)
    }

    /// Lists the changes as `changes` does. None where more than so many would be sorted for them. It costs what
    /// `BaseVersions::few_changes` does, and counts no step.
    pub fn few_changes(
        &self,
        q: u64,
        p: u64,
        range: &Range,
        most: usize,
    ) -> Result<Option<Vec<Change>>, OutOfMemory>
        requires from { self.now.base.start ≤ q }
        requires order { q ≤ p }
        requires within { p ≤ self.now.base.position }
        requires part { shard_of 16 (table_of range.now.low) ≡ self.now.base.shard }
        ensures { IfOk result (λ few. IfSome few (λ found. found.items ≡ base_changes q p range.now self.now.pass.view)) }
    {
        self.base.few_changes(q, p, range, most)
    }

    /// Adds the ranges to those of the id, in order; one that the id has already is not added again. An id that the index
    /// does not have is given none. It costs what `UpdaterIndex::register` does.
    ///
    /// On `OutOfMemory` none of them is added.
    pub fn follow(&mut self, id: u32, ranges: Vec<Range>) -> Result<(), OutOfMemory>
        ensures known { id < length self.old.index.held → OnOk result (self.new.index ≡ with_ranges_of id ranges.items self.old.index) }
        ensures unknown { length self.old.index.held ≤ id → self.new.index ≡ self.old.index }
        ensures err { OnErr result (self.new.index ≡ self.old.index) }
        ensures base { self.new.base ≡ self.old.base }
        ensures pass { self.new.pass ≡ self.old.pass }
    {
        if (id as usize) < self.index.ids() {
            return self.index.register(id, ranges);
        }
        Ok(())
    }

    /// Takes away the ranges of the id, and its mark. An id that the index does not have has neither. It costs what
    /// `UpdaterIndex::forget` does, and takes no memory.
    pub fn forget(&mut self, id: u32)
        ensures known { id < length self.old.index.held → self.new.index ≡ without_id id self.old.index }
        ensures unknown { length self.old.index.held ≤ id → self.new.index ≡ self.old.index }
        ensures base { self.new.base ≡ self.old.base }
        ensures pass { self.new.pass ≡ self.old.pass }
    {
        if (id as usize) < self.index.ids() {
            self.index.forget(id);
        }
    }

    /// Takes out the id that was marked first; none exactly where none is marked. It takes constant time, and no memory.
    pub fn next_marked(&mut self) -> Option<u32>
        ensures next { MatchOption result ((self.old.index.marked ≡ []) × (self.new.index ≡ self.old.index)) (λ id. self.old.index ≡ record self.new.index { marked = id ∷ self.new.index.marked }) }
        ensures base { self.new.base ≡ self.old.base }
        ensures pass { self.new.pass ≡ self.old.pass }
    {
        self.index.next_marked()
    }
}
