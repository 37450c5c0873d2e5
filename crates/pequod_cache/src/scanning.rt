// What a cache answers to a scan.
ghost use Rattle.std.specs.Prelude.{◌≡◌, ◌≤◌, length, IfOk};
ghost use Rattle.semantics.specs.Texts.{Table, pairs_within};
ghost use Rattle.semantics.specs.States.{state};
ghost use Rattle.semantics.specs.Answers.{pairs};
ghost use Rattle.protocol.specs.Replies.{answered};
ghost use Rattle.join_set.specs.Sets.{AreJoins};
ghost use Rattle.write_history.specs.Entries.{IsRecorded};
ghost use Rattle.write_history.specs.Marks.{reach};
ghost use Rattle.write_history.specs.declared.known.Mark.TheVariants.{Pinned};
ghost use Rattle.base_shards.specs.Reading.{ReadsOn};
ghost use Rattle.request_codec.specs.Plain.{plain_reply};
ghost use Rattle.pequod_cache.specs.Scanning.{HasFound};

use crate::cache::Cache;
use base_shards::Naming;
use join_set::JoinSet;
use join_types::Pair;
use key_space::Range;
use out_of_memory::OutOfMemory;
use pq_io::Gate;
use request_codec::{PairsWriter, Reply};
use std::alloc::Global;
use std::sync::Wait;
use std::sync::ledger::Ledger;
use steps::Steps;
use write_history::Pass;

/// The reply after so many entries, with the pairs that were given, or that are written where none were. It takes constant time, but
/// for the growth of the line.
fn scan_reply(
    position: u64,
    found: Result<Option<Vec<Pair>>, OutOfMemory>,
    line: PairsWriter,
) -> Result<Reply, OutOfMemory>
    requires { (rows : Table) × IfOk found (λ given. HasFound position line given rows) }
    ensures { (rows : Table) → IfOk found (λ given. HasFound position line given rows) →
        IfOk result (λ reply. plain_reply reply ≡ answered (pairs position rows)) }
{
    let given = found?;
    let Some(pairs) = given else {
        let scan = line.end(position)?;
        return Ok(Reply::Written(scan));
    };
    Ok(Reply::Pairs(position, pairs))
}

impl<N: Naming> Cache<N> {
    /// What the pass, which has looked and is pinned there, is answered to a scan. These are the joins after all entries that it
    /// has seen. Where one cell has all pairs of the range, the line of the reply is written from what it keeps, and none of them
    /// is copied besides. It asks for 4 KiB for the line first, which it lets go where pairs are given.
    pub(crate) fn scan<R: Wait, G: Gate, L: Ledger>(
        &self,
        rt: &R,
        alloc: Global,
        pass: &mut Pass,
        joins: &JoinSet,
        position: u64,
        range: &Range,
        gate: &G,
        steps: &mut Steps<L>,
    ) -> Result<Reply, OutOfMemory>
        requires same_history { pass.old.history ≡ N.history }
        requires recorded { IsRecorded pass.old.writers pass.old.view }
        requires pinned { pass.old.mark ≡ Pinned position }
        requires whole { position ≡ length pass.old.view }
        requires joins { AreJoins (reach pass.old.mark) joins.now pass.old.view }
        ensures replied { IfOk result (λ reply. plain_reply reply ≡ answered (pairs position (pairs_within range.now (state pass.old.view)))) }
        ensures reads_on { ReadsOn pass.old pass.new }
        ensures counted { steps.old ≤ steps.new }
    {
        let mut line = PairsWriter::begin(alloc, position)?;
        let found = self
            .cells
            .scan(rt, pass, joins, position, range, gate, &mut line, steps);
        scan_reply(position, found, line)
    }
}
