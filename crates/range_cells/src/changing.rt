// What changed in a range from one position to another.
ghost use Rattle.std.specs.Prelude.{◌≡◌, ◌≤◌, length, take, IfOk};
ghost use Rattle.semantics.specs.States.{state};
ghost use Rattle.growing_history.specs.StateChanges.{changes};
ghost use Rattle.join_set.specs.Sets.{AreJoins};
ghost use Rattle.write_history.specs.Entries.{IsRecorded};
ghost use Rattle.write_history.specs.Marks.{reach};
ghost use Rattle.base_shards.specs.Reading.{ReachesBack, ReadsOn};
ghost use Rattle.range_cells.specs.Asked.{TellsTouched, pairs_asked};

use crate::asked::{Touched, ask};
use crate::comparing::compare;
use crate::range_cells::RangeCells;
use base_shards::Naming;
use join_set::JoinSet;
use join_types::Change;
use key_space::Range;
use out_of_memory::OutOfMemory;
use pq_io::Gate;
use std::sync::Wait;
use std::sync::ledger::Ledger;
use steps::Steps;
use write_history::Pass;

impl<N: Naming> RangeCells<N> {
    /// Which keys of the range may have changed between the first q and the first p entries that the pass has seen, where they are
    /// few, and the pairs after p entries at these, or else all of the range: by one stack of readers. These are the joins after p
    /// entries.
    fn read_later<W: Wait, G: Gate, L: Ledger>(
        &self,
        rt: &W,
        pass: &mut Pass,
        joins: &JoinSet,
        q: u64,
        p: u64,
        range: &Range,
        gate: &G,
        steps: &mut Steps<L>,
    ) -> Result<Touched, OutOfMemory>
        requires same_history { pass.old.history ≡ N.history }
        requires recorded { IsRecorded pass.old.writers pass.old.view }
        requires order { q ≤ p }
        requires within { p ≤ length pass.old.view }
        requires pinned { ReachesBack pass.old q }
        requires joins { AreJoins (reach pass.old.mark) joins.now (take p pass.old.view) }
        ensures touched { IfOk result (λ asked. TellsTouched pass.old.view q p range.now asked.touched) }
        ensures exact { IfOk result (λ asked. asked.pairs.items ≡ pairs_asked asked.touched range.now (state (take p pass.old.view))) }
        ensures reads_on { ReadsOn pass.old pass.new }
        ensures counted { steps.old ≤ steps.new }
    {
        self.cells.follow(rt, &self.shards, joins);
        let room = self.room(rt, gate);
        let mut stack = self.stack(&room, joins, p, pass);
        let found = ask(self.alloc, &mut stack, q, p, range, steps);
        let used = stack.take_used();
        let _pass = stack.into_pass();
        self.cells.settle(rt, &self.shards, used.as_slice());
        found
    }

    /// What changed in the range of the state from the first q entries that the pass has seen to the first p: each key of it that
    /// has not the same pair after both, in key order, with its value after p or none. These are the joins after q entries and
    /// after p, and the first position is at most 65,536 entries before the one at which the pass is pinned. It waits, and passes
    /// the gate, as `read` does.
    ///
    /// Where what is kept says which keys of the range may have changed, and these are at most 256, it costs what `read` does for
    /// each of these keys at both positions, and otherwise what it does for the whole range at both: what is kept past the first
    /// position is not brought back, but evaluated beside it. One part of the range of which it is not known is enough for that.
    /// From a position to itself nothing is read.
    pub fn changes<W: Wait, G: Gate, L: Ledger>(
        &self,
        rt: &W,
        pass: &mut Pass,
        old: &JoinSet,
        new: &JoinSet,
        q: u64,
        p: u64,
        range: &Range,
        gate: &G,
        steps: &mut Steps<L>,
    ) -> Result<Vec<Change>, OutOfMemory>
        requires same_history { pass.old.history ≡ N.history }
        requires recorded { IsRecorded pass.old.writers pass.old.view }
        requires order { q ≤ p }
        requires within { p ≤ length pass.old.view }
        requires pinned { ReachesBack pass.old q }
        requires old_joins { AreJoins (reach pass.old.mark) old.now (take q pass.old.view) }
        requires new_joins { AreJoins (reach pass.old.mark) new.now (take p pass.old.view) }
        ensures exact { IfOk result (λ found. found.items ≡ changes range.now pass.old.view q p) }
        ensures reads_on { ReadsOn pass.old pass.new }
        ensures counted { steps.old ≤ steps.new }
    {
        if q == p {
            return Ok(Vec::new(self.alloc));
        }
        let asked = self.read_later(rt, pass, new, q, p, range, gate, steps)?;
        let before = self.read_asked(rt, pass, old, q, range, &asked.touched, gate, steps)?;
        compare(self.alloc, before.as_slice(), asked.pairs.as_slice())
    }
}
