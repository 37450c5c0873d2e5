// What a cache tells of an earlier position.
ghost use Rattle.std.specs.Prelude.{◌≡◌, ◌+◌, ◌≤◌, length, take, IfOk, IsOkAnd};
ghost use Rattle.semantics.specs.Answers.{pairs};
ghost use Rattle.protocol.specs.Replies.{answered, changed};
ghost use Rattle.protocol.specs.Earlier.{earlier_reply};
ghost use Rattle.join_set.specs.Sets.{AreJoins};
ghost use Rattle.write_history.specs.Entries.{IsRecorded};
ghost use Rattle.write_history.specs.Marks.{reach};
ghost use Rattle.write_history.specs.declared.known.Mark.TheVariants.{Pinned};
ghost use Rattle.base_shards.specs.Reading.{ReachesBack, ReadsOn};
ghost use Rattle.request_codec.specs.Plain.{plain_reply};
ghost use Rattle.request_codec.specs.Reach.{TellsReach};
ghost use Rattle.pequod_cache.specs.Questions.{asked};

use crate::cache::Cache;
use base_shards::Naming;
use join_set::JoinSet;
use join_types::{Change, Pair};
use key_space::Range;
use out_of_memory::OutOfMemory;
use pq_io::Gate;
use request_codec::Reply;
use std::sync::Wait;
use std::sync::ledger::Ledger;
use steps::Steps;
use write_history::Pass;

/// How many entries back a question may reach.
const REACH: u64 = 65_536;

/// What is asked of a range about an earlier position.
#[derive(Clone, Copy, Debug)]
pub(crate) enum Question {
    /// Its pairs there.
    Pairs,
    /// What changed in it since.
    Changes,
}

/// Why a position cannot be asked for where there are so many entries: it lies ahead, or too far back. None where it lies within
/// reach.
pub(crate) fn out_of_reach(at: u64, position: u64) -> Option<Reply>
    ensures { TellsReach at position result }
{
    if position < at {
        return Some(Reply::Ahead(position));
    }
    if position - at > REACH {
        return Some(Reply::Gone(position));
    }
    None
}

/// The pairs that were found at a position, as a reply.
fn pairs_reply(at: u64, found: Result<Vec<Pair>, OutOfMemory>) -> Result<Reply, OutOfMemory>
    ensures { IfOk result (λ reply. IsOkAnd found (λ those. plain_reply reply ≡ answered (pairs at those.items))) }
{
    Ok(Reply::Pairs(at, found?))
}

/// The changes that were found from one position to another, as a reply.
fn changes_reply(
    from: u64,
    position: u64,
    found: Result<Vec<Change>, OutOfMemory>,
) -> Result<Reply, OutOfMemory>
    ensures { IfOk result (λ reply. IsOkAnd found (λ those. plain_reply reply ≡ changed from position those.items)) }
{
    Ok(Reply::Changes(from, position, found?))
}

impl<N: Naming> Cache<N> {
    /// What the pass is told of a question whose position lies within reach. These are the joins after the first so many entries,
    /// and after all that the pass has seen.
    fn tell<R: Wait, G: Gate, L: Ledger>(
        &self,
        rt: &R,
        pass: &mut Pass,
        old: &JoinSet,
        new: &JoinSet,
        position: u64,
        question: Question,
        at: u64,
        range: &Range,
        gate: &G,
        steps: &mut Steps<L>,
    ) -> Result<Reply, OutOfMemory>
        requires same_history { pass.old.history ≡ N.history }
        requires recorded { IsRecorded pass.old.writers pass.old.view }
        requires order { at ≤ position }
        requires whole { position ≡ length pass.old.view }
        requires near { length pass.old.view ≤ at + 65536 }
        requires pinned { ReachesBack pass.old at }
        requires old_joins { AreJoins (reach pass.old.mark) old.now (take at pass.old.view) }
        requires new_joins { AreJoins (reach pass.old.mark) new.now (take position pass.old.view) }
        ensures replied { IfOk result (λ reply. plain_reply reply ≡ earlier_reply (asked question range.now at) pass.old.view) }
        ensures reads_on { ReadsOn pass.old pass.new }
        ensures counted { steps.old ≤ steps.new }
    {
        match question {
            Question::Pairs => {
                let found = self.cells.read(rt, pass, old, at, range, gate, steps);
                pairs_reply(at, found)
            }
            Question::Changes => {
                let found = self
                    .cells
                    .changes(rt, pass, old, new, at, position, range, gate, steps);
                changes_reply(at, position, found)
            }
        }
    }

    /// What the pass, which has looked and is pinned there, is told of a question about a position. These are the joins after all
    /// entries that it has seen. `Gone` and `Ahead` come exactly where the position lies too far back or ahead. Where no join was
    /// declared or dropped after the position, these joins are those after it, and otherwise they are made anew.
    pub(crate) fn ask<R: Wait, G: Gate, L: Ledger>(
        &self,
        rt: &R,
        pass: &mut Pass,
        joins: &JoinSet,
        position: u64,
        question: Question,
        at: u64,
        range: &Range,
        gate: &G,
        steps: &mut Steps<L>,
    ) -> Result<Reply, OutOfMemory>
        requires same_history { pass.old.history ≡ N.history }
        requires recorded { IsRecorded pass.old.writers pass.old.view }
        requires pinned { pass.old.mark ≡ Pinned position }
        requires whole { position ≡ length pass.old.view }
        requires joins { AreJoins (reach pass.old.mark) joins.now pass.old.view }
        ensures replied { IfOk result (λ reply. plain_reply reply ≡ earlier_reply (asked question range.now at) pass.old.view) }
        ensures reads_on { ReadsOn pass.old pass.new }
        ensures counted { steps.old ≤ steps.new }
    {
        if let Some(reply) = out_of_reach(at, position) {
            return Ok(reply);
        }
        if joins.changed_at() <= at {
            return self.tell(
                rt, pass, joins, joins, position, question, at, range, gate, steps,
            );
        }
        let old = self.history.joins_at(rt, pass, at)?;
        self.tell(
            rt, pass, &old, joins, position, question, at, range, gate, steps,
        )
    }
}
