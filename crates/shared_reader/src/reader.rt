// The lowest reader of a history that threads share.
ghost use Rattle.std.specs.Prelude.{◌≡◌, ◌+◌, ◌≤◌, true, IfOk, Some, length};
ghost use Rattle.std.proofs.Common.{rules, refl, ◌∙◌};
ghost use Rattle.semantics.specs.Joins.{Join as PlainJoin, push};
ghost use Rattle.base_versions.specs.Valued.{base_changes};
ghost use Rattle.write_history.specs.Marks.{reach};
ghost use Rattle.base_reader.specs.Reaching.{IsJoinIn};
ghost use Rattle.base_shards.proofs.ReadingLemmas.{reads_on-refl, reads_on-trans};
ghost use Rattle.shared_reader.specs.Lent.{LentReadsOn};
ghost use Rattle.shared_reader.specs.Readable.{IsReadable};

use crate::followed::Followed;
use crate::known::{KnownChanges, known_changes, known_of, most_known, table_to_look_at};
use crate::noted::Noted;
use crate::stacked::{Stacked, Use};
use base_reader::BaseSource;
use base_reader::lowest::{
    lowest_between, lowest_changed, lowest_changes, lowest_pairs, lowest_reached,
};
use base_reader::reaching::join_of;
use base_shards::{BaseShards, Naming};
use join_eval::{Between, Changed, Changes, Reader};
use join_set::JoinSet;
use join_types::{Change, Join, Kind, Pair};
use key_space::Range;
use out_of_memory::OutOfMemory;
use std::alloc::Global;
use std::marker::Model;
use std::mem::replace;
use std::sync::Wait;
use std::sync::ledger::Ledger;
use steps::Steps;
use write_history::{History, Pass};

/// A copy of the join that was declared at a position and stands among the joins. Linear in the joins and in the join.
fn copy_of(alloc: Global, joins: &JoinSet, at: u64) -> Result<Join, OutOfMemory>
    requires { (j : PlainJoin) × IsJoinIn joins.now.standing at (Some j) }
    ensures { IfOk result (λ join. IsJoinIn joins.now.standing at (Some join)) }
{
    match join_of(joins, at) {
        Some(join) => join.copy(alloc),
        None => unreachable!(),
    }
}

/// Whether what a join gives is kept up to date.
fn is_pushed(join: &Join) -> bool
    ensures { result ≡ true → join.now.kind ≡ push }
{
    match join.kind {
        Kind::Push => true,
        Kind::Pull => false,
    }
}

/// Adds a use as the last, in place of the one before where that is of the same cell. Where there is no room, the book keeps
/// what it knew of the cell. Constant.
fn add_use(uses: &mut Vec<Use>, used: Use) {
    if let Some(last) = uses.last()
        && last.id == used.id
    {
        let _before = uses.pop();
    }
    let _pushed = uses.push(used);
}

/// Reads the base pairs that no output hides, from the parts that threads share, with a pinned pass. It is made to read after one
/// number of entries, and is given the joins after these; for every other position it takes the joins from the history. Its floor
/// is where the pin reaches back to.
///
/// Who asks for the changes of many ranges of one table, one after another, is soon answered from the changes of the whole table,
/// if these are not many, which it keeps at hand until it is asked for something else.
#[derive(Drop)]
pub struct SharedReader<'a, N: Naming, W> {
    alloc: Global,
    rt: &'a W,
    history: &'a History,
    shards: &'a BaseShards<N>,
    joins: &'a JoinSet,
    p: u64,
    pass: &'a mut Pass,
    floor: u64,
    used: Vec<Use>,
    noted: Noted,
    known: Option<KnownChanges>,
    questions: usize,
}

impl<'a, N: Naming, W> Model for SharedReader<'a, N, W> {
    ghost use Rattle.std.specs.Prelude.{◌≡◌};
    ghost use Rattle.write_history.specs.Marks.{reach};
    ghost use Rattle.shared_reader.specs.Lent.{LentPass};
    ghost use Rattle.shared_reader.specs.Readable.{IsReadable};
    ghost use Rattle.shared_reader.specs.Known.{AreKnownIn};

    ghost Value = { LentPass };

    ghost view = { λ r. record { pass = r.pass.now; lent = r.pass.ghost_name } };

    ghost invariant = { λ r. IsReadable N.history r.history.now r.joins.now r.p r.pass.now × (r.floor ≡ reach r.pass.now.mark) × AreKnownIn r.known r.pass.now.view };
}

impl<'a, N: Naming, W> SharedReader<'a, N, W> {
    /// A reader with a pinned pass, to read after the first p entries that the pass has seen. These are the joins after them.
    /// Nothing is allocated.
    pub fn new(
        alloc: Global,
        rt: &'a W,
        history: &'a History,
        shards: &'a BaseShards<N>,
        joins: &'a JoinSet,
        p: u64,
        pass: &'a mut Pass,
    ) -> SharedReader<'a, N, W>
        requires { IsReadable N.history history.now joins.now p pass.old }
        ensures lent { result.lent ≡ pass.entry.ghost_name }
        ensures pass { result.pass ≡ pass.old }
    {
        let floor = history.reach(pass);
        SharedReader {
            alloc,
            rt,
            history,
            shards,
            joins,
            p,
            pass,
            floor,
            used: Vec::new(alloc),
            noted: Noted::new(alloc),
            known: None,
            questions: 0,
        }
    }

    /// Takes out which cells were used, in order.
    pub fn take_used(&mut self) -> Vec<Use>
        ensures { self.new ≡ self.old }
    {
        replace(&mut self.used, Vec::new(self.alloc))
    }

    /// Gives the pass back that it was lent, so that its lender knows what it has seen.
    pub fn into_pass(self) -> &'a mut Pass
        ensures lent { result.ghost_name ≡ self.entry.lent }
        ensures pass { result.now ≡ self.entry.pass }
    {
        self.pass
    }
}

impl<'a, N: Naming, W: Wait> SharedReader<'a, N, W> {
    /// Follows under a cell's number the ranges that were noted since so many were, and adds them to those that it follows.
    ///
    /// On `OutOfMemory` some may be added that are not followed.
    fn follow_since(
        &mut self,
        id: u32,
        since: usize,
        followed: &mut Followed,
    ) -> Result<(), OutOfMemory>
        ensures { self.new ≡ self.old }
    {
        self.known = None;
        let fresh = followed.take_in(self.alloc, self.noted.since(since))?;
        self.shards.follow(self.rt, self.pass, id, fresh.as_slice())
    }

    /// The keys of the range that are put or removed after the first q entries, up to the p-th, with what stands there then, from
    /// the part that the range's table is in. What was known is let go.
    fn ask_changes<L: Ledger>(
        &mut self,
        q: u64,
        p: u64,
        range: &Range,
        steps: &mut Steps<L>,
    ) -> Result<Vec<Change>, OutOfMemory>
        requires order { q ≤ p }
        requires within { p ≤ length self.old.pass.view }
        requires above { reach self.old.pass.mark ≤ q }
        ensures reads_on { LentReadsOn self.old self.new }
        ensures exact { IfOk result (λ found. found.items ≡ base_changes q p range.now self.old.pass.view) }
        ensures counted { steps.old ≤ steps.new }
        ensures cost { IfOk result (λ found. steps.new ≡ steps.old + 1 + length found.items) }
    {
        self.known = None;
        self.shards.changes(self.rt, self.pass, q, p, range, steps)
    }

    /// Looks at the changes of a table, and knows them from then on where they are no more than so many. What was known is let go.
    fn look_at_table(&mut self, q: u64, p: u64, table: Range, most: usize)
        requires order { q ≤ p }
        requires within { p ≤ length self.old.pass.view }
        requires above { reach self.old.pass.mark ≤ q }
        ensures { LentReadsOn self.old self.new }
    {
        self.known = None;
        let found = self
            .shards
            .few_changes(self.rt, self.pass, q, p, &table, most);
        self.known = known_of(q, p, table, found);
    }

    /// Counts one question that was not answered from known changes. After so many in a row that it is worth it, it looks at the
    /// changes of the range's whole table.
    fn look_further(&mut self, q: u64, p: u64, range: &Range)
        requires order { q ≤ p }
        requires within { p ≤ length self.old.pass.view }
        requires above { reach self.old.pass.mark ≤ q }
        ensures { LentReadsOn self.old self.new }
    {
        self.questions = self.questions.saturating_add(1);
        let most = most_known(self.questions);
        if let Some(table) = table_to_look_at(self.alloc, self.questions, range) {
            self.look_at_table(q, p, table, most);
        }
    }
}

impl<'a, N: Naming, W: Wait> BaseSource for SharedReader<'a, N, W> {
    ghost list = { λ r. r.pass.view };

    ghost floor = { λ r. reach r.pass.mark };

    ghost went = { λ a b. LentReadsOn a b };

    ghost went_trans = { λ a b c first next. record { same = next.same ∙ first.same; on = reads_on-trans a.pass b.pass c.pass first.on next.on } };

    ghost went_refl = { λ a. record { same = refl; on = reads_on-refl a.pass } };

    fn alloc(&self) -> Global {
        self.alloc
    }

    fn base_pairs<L: Ledger>(
        &mut self,
        p: u64,
        range: &Range,
        steps: &mut Steps<L>,
    ) -> Result<Vec<Pair>, OutOfMemory> {
        self.noted.note(range);
        self.known = None;
        self.shards.pairs_at(self.rt, self.pass, p, range, steps)
    }

    fn base_changes<L: Ledger>(
        &mut self,
        q: u64,
        p: u64,
        range: &Range,
        steps: &mut Steps<L>,
    ) -> Result<Vec<Change>, OutOfMemory> {
        self.noted.note(range);
        if let Some(found) = known_changes(self.alloc, &self.known, q, p, range) {
            self.questions = 0;
            steps.count_call(found.len());
            return Ok(found);
        }
        let asked = self.ask_changes(q, p, range, steps);
        self.look_further(q, p, range);
        asked
    }

    fn joins_at_hand(&self, p: u64) -> Option<&JoinSet> {
        if p == self.p {
            return Some(self.joins);
        }
        None
    }

    fn make_joins(&mut self, p: u64) -> Result<JoinSet, OutOfMemory> {
        self.known = None;
        self.history.joins_at(self.rt, self.pass, p)
    }
}

impl<'a, N: Naming, W: Wait> Reader for SharedReader<'a, N, W> {
    ghost list = { λ r. r.pass.view };

    ghost top = { 0 };

    ghost floor = { λ r. reach r.pass.mark };

    ghost went = { λ a b. LentReadsOn a b };

    ghost spends = { λ _ _ _ _ _ _. Unit {0} };

    ghost top_small = { Prim.search rules };

    ghost went_refl = { λ a. record { same = refl; on = reads_on-refl a.pass } };

    ghost went_trans = { λ a b c first next. record { same = next.same ∙ first.same; on = reads_on-trans a.pass b.pass c.pass first.on next.on } };

    fn top_rank(&self) -> u8 {
        0
    }

    fn pairs<L: Ledger>(
        &mut self,
        p: u64,
        range: &Range,
        rank: u8,
        steps: &mut Steps<L>,
    ) -> Result<Vec<Pair>, OutOfMemory> {
        lowest_pairs(self, p, range, rank, steps)
    }

    fn changed<L: Ledger>(
        &mut self,
        q: u64,
        p: u64,
        range: &Range,
        rank: u8,
        steps: &mut Steps<L>,
    ) -> Result<Changed, OutOfMemory> {
        lowest_changed(self, q, p, range, rank, steps)
    }

    fn changes<L: Ledger>(
        &mut self,
        q: u64,
        p: u64,
        range: &Range,
        rank: u8,
        steps: &mut Steps<L>,
    ) -> Result<Changes, OutOfMemory> {
        lowest_changes(self, q, p, range, rank, steps)
    }
}

impl<'a, N: Naming, W: Wait> Stacked<N> for SharedReader<'a, N, W> {
    fn least_position(&self) -> u64 {
        self.floor
    }

    fn meet(&mut self, pass: &mut Pass) {
        self.known = None;
        self.history.meet(self.rt, pass, self.pass);
    }

    fn reached(&mut self, p: u64, range: &Range, rank: u8) -> Result<Vec<u64>, OutOfMemory> {
        lowest_reached(self, p, range, rank)
    }

    fn between(&mut self, q: u64, p: u64, range: &Range) -> Result<Between, OutOfMemory> {
        lowest_between(self, q, p, range)
    }

    fn join_at(&mut self, p: u64, at: u64) -> Result<Join, OutOfMemory> {
        if p == self.p {
            return copy_of(self.alloc, self.joins, at);
        }
        self.known = None;
        let joins = self.history.joins_at(self.rt, self.pass, p)?;
        copy_of(self.alloc, &joins, at)
    }

    fn is_kept(&self, at: u64) -> bool {
        match join_of(self.joins, at) {
            Some(join) => is_pushed(join),
            None => false,
        }
    }

    fn note_use(&mut self, used: Use) {
        add_use(&mut self.used, used);
    }

    fn note_told(&mut self, used: Use) {
        if self.noted.is_alone() {
            add_use(&mut self.used, used);
        }
    }

    fn start_noting(&mut self) -> usize {
        self.noted.start()
    }

    fn follow_noted(&mut self, id: u32, since: Option<usize>, followed: &mut Followed) {
        if let Some(since) = since
            && self.follow_since(id, since, followed).is_err()
        {
            followed.clear();
        }
        self.noted.end();
    }
}
