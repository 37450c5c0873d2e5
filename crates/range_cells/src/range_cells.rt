// The cells and base pairs that threads share, as one.
ghost use Rattle.std.specs.Prelude.{◌≡◌, ◌≤◌, All, length, take, IfOk, MatchOption};
ghost use Rattle.std.specs.Arc.{arc_value};
ghost use Rattle.semantics.specs.Texts.{pairs_within};
ghost use Rattle.join_set.specs.Sets.{AreJoins};
ghost use Rattle.semantics.specs.States.{state};
ghost use Rattle.write_history.specs.Entries.{IsRecorded};
ghost use Rattle.write_history.specs.Marks.{reach};
ghost use Rattle.base_shards.specs.Reading.{ReachesBack, ReadsOn};
ghost use Rattle.range_cells.specs.Asked.{pairs_asked};

use crate::asked::read_asked;
use crate::stack::Stack;
use base_reader::reaching::only_reached;
use base_shards::{BaseShards, Naming};
use join_eval::Changed;
use join_set::JoinSet;
use join_types::{Pair, RowSink};
use key_space::Range;
use out_of_memory::OutOfMemory;
use pq_io::Gate;
use shared_cells::{Room, SharedCells};
use shared_reader::SharedReader;
use std::alloc::Global;
use std::sync::ledger::Ledger;
use std::sync::{Arc, Wait};
use steps::Steps;
use write_history::{History, Pass};

/// Reads the state of a history at any position that a pinned pass has seen, up to 65,536 entries before its pin, and keeps ranges
/// of the joins' outputs in cells. Threads share it.
///
/// Locks are taken in one order: a cell, cells of lower ranks, a part of the base pairs, the history's turn. A cell has its rank
/// for good, so that this is one order for all reads, also where between their positions the ranks of joins changed. The
/// directory of the cells and the book of their use are locked alone.
#[derive(Drop)]
pub struct RangeCells<N: Naming> {
    pub(crate) alloc: Global,
    pub(crate) history: Arc<History>,
    pub(crate) shards: Arc<BaseShards<N>>,
    pub(crate) cells: SharedCells<N>,
    /// How many needs a kept range may have at most.
    pub(crate) most: u64,
    ghost named: { arc_value history ≡ N.history },
}

impl<N: Naming> RangeCells<N> {
    /// No cells, and as many as there are passes at most, whose rows and one more for each are at most the limit together, as
    /// they were when they were last read. The needs of each are at most the limit too. What is read and kept is allocated by this
    /// allocator, for a cell from when it is given to a range.
    pub fn new(
        alloc: Global,
        history: Arc<History>,
        shards: Arc<BaseShards<N>>,
        passes: Vec<Pass>,
        limit: u64,
    ) -> Result<RangeCells<N>, OutOfMemory>
        requires named { arc_value history ≡ N.history }
        requires some { 1 ≤ length passes.items }
        requires few { length passes.items ≤ 65536 }
        requires limit { 1 ≤ limit }
        requires same_history { All (λ pass. pass.history ≡ N.history) passes.items }
    {
        let cells = SharedCells::new(alloc, passes, limit)?;
        Ok(RangeCells {
            alloc,
            history,
            shards,
            cells,
            most: limit,
        })
    }

    /// The pairs of the range in the state after the first p entries that the pass has seen, in key order. These are the joins that
    /// stand then, and the position is at most 65,536 entries before the one at which the pass is pinned. Before a range of a
    /// join's output is filled or mended the gate is passed with the name of its table. While another thread has a cell, or a part
    /// of the base pairs, that this one needs, this one sleeps.
    ///
    /// What cells keep is read, brought forward or mended; what they lack is evaluated and, for a push join, kept while a cell is
    /// free and its needs are at most the limit. A cell that stands more than 65,536 entries before the pin is filled anew. Of the
    /// cells of a join those are used that are for the rank that it has after p entries. Then the least recently used cells are
    /// evicted, until what is kept is within the limit.
    ///
    /// Where a join was declared or dropped after the joins of all reads and turns before, the cells are evicted first whose
    /// joins do not stand any more or have another rank.
    pub fn read<W: Wait, G: Gate, L: Ledger>(
        &self,
        rt: &W,
        pass: &mut Pass,
        joins: &JoinSet,
        p: u64,
        range: &Range,
        gate: &G,
        steps: &mut Steps<L>,
    ) -> Result<Vec<Pair>, OutOfMemory>
        requires same_history { pass.old.history ≡ N.history }
        requires recorded { IsRecorded pass.old.writers pass.old.view }
        requires within { p ≤ length pass.old.view }
        requires pinned { ReachesBack pass.old p }
        requires joins { AreJoins (reach pass.old.mark) joins.now (take p pass.old.view) }
        ensures exact { IfOk result (λ pairs. pairs.items ≡ pairs_within range.now (state (take p pass.old.view))) }
        ensures reads_on { ReadsOn pass.old pass.new }
        ensures counted { steps.old ≤ steps.new }
    {
        let all = Changed::All;
        self.read_asked(rt, pass, joins, p, range, &all, gate, steps)
    }

    /// Reads as `read` does, but hands the pairs to the sink, in key order, where one cell has them all: none of them is copied
    /// then. Where others have some of them they are given, and what the sink has then is not said.
    pub fn scan<W: Wait, G: Gate, K: RowSink, L: Ledger>(
        &self,
        rt: &W,
        pass: &mut Pass,
        joins: &JoinSet,
        p: u64,
        range: &Range,
        gate: &G,
        sink: &mut K,
        steps: &mut Steps<L>,
    ) -> Result<Option<Vec<Pair>>, OutOfMemory>
        requires same_history { pass.old.history ≡ N.history }
        requires recorded { IsRecorded pass.old.writers pass.old.view }
        requires within { p ≤ length pass.old.view }
        requires pinned { ReachesBack pass.old p }
        requires joins { AreJoins (reach pass.old.mark) joins.now (take p pass.old.view) }
        ensures exact { IfOk result (λ found. MatchOption found (K.got sink.old sink.new (pairs_within range.now (state (take p pass.old.view))))
            (λ pairs. pairs.items ≡ pairs_within range.now (state (take p pass.old.view)))) }
        ensures reads_on { ReadsOn pass.old pass.new }
        ensures counted { steps.old ≤ steps.new }
    {
        self.cells.follow(rt, &self.shards, joins);
        let only = only_reached(joins, range);
        let common = self.room(rt, gate);
        let mut stack = self.stack(&common, joins, p, pass);
        let found = stack.scan(p, range, only, sink, steps);
        let used = stack.take_used();
        let _pass = stack.into_pass();
        self.cells.settle(rt, &self.shards, used.as_slice());
        found
    }

    /// What all layers of readers have in common that wait with this one and pass this gate.
    pub(crate) fn room<'a, W, G>(&'a self, rt: &'a W, gate: &'a G) -> Room<'a, N, W, G> {
        Room {
            alloc: self.alloc,
            rt,
            gate,
            cells: &self.cells,
            most: self.most,
        }
    }

    /// A reader of all ranks over the cells, with a pinned pass, to read after the first p entries that it has seen. These are the
    /// joins after them. Nothing is allocated.
    pub(crate) fn stack<'a, W, G>(
        &'a self,
        room: &'a Room<'a, N, W, G>,
        joins: &'a JoinSet,
        p: u64,
        pass: &'a mut Pass,
    ) -> Stack<'a, N, W, G>
        requires same_history { pass.old.history ≡ N.history }
        requires recorded { IsRecorded pass.old.writers pass.old.view }
        requires within { p ≤ length pass.old.view }
        requires pinned { ReachesBack pass.old p }
        requires joins { AreJoins (reach pass.old.mark) joins.now (take p pass.old.view) }
        ensures lent { result.lent ≡ pass.entry.ghost_name }
        ensures pass { result.pass ≡ pass.old }
    {
        let rt = room.rt;
        let lowest = SharedReader::new(self.alloc, rt, &self.history, &self.shards, joins, p, pass);
        Stack::new(room, lowest)
    }

    /// The pairs of the range in the state after the first p entries that the pass has seen, in key order: those at the keys that
    /// may have changed, where it is said which, and otherwise all. As `read` besides.
    pub(crate) fn read_asked<W: Wait, G: Gate, L: Ledger>(
        &self,
        rt: &W,
        pass: &mut Pass,
        joins: &JoinSet,
        p: u64,
        range: &Range,
        touched: &Changed,
        gate: &G,
        steps: &mut Steps<L>,
    ) -> Result<Vec<Pair>, OutOfMemory>
        requires same_history { pass.old.history ≡ N.history }
        requires recorded { IsRecorded pass.old.writers pass.old.view }
        requires within { p ≤ length pass.old.view }
        requires pinned { ReachesBack pass.old p }
        requires joins { AreJoins (reach pass.old.mark) joins.now (take p pass.old.view) }
        ensures exact { IfOk result (λ pairs. pairs.items ≡ pairs_asked touched.now range.now (state (take p pass.old.view))) }
        ensures reads_on { ReadsOn pass.old pass.new }
        ensures counted { steps.old ≤ steps.new }
    {
        self.cells.follow(rt, &self.shards, joins);
        let room = self.room(rt, gate);
        let mut stack = self.stack(&room, joins, p, pass);
        let found = read_asked(self.alloc, &mut stack, p, range, touched, steps);
        let used = stack.take_used();
        let _pass = stack.into_pass();
        self.cells.settle(rt, &self.shards, used.as_slice());
        found
    }

    /// Evicts the cell with a number, if there is one: what it keeps is let go, and it is not marked. While another thread has
    /// it, or a part of the base pairs, this one sleeps. It takes no memory.
    pub fn evict<W: Wait>(&self, rt: &W, id: u32) {
        self.cells.evict(rt, &self.shards, id);
    }

    /// Evicts the least recently used cells, as `SharedCells::make_room` does: one at least, where there is one. It says whether
    /// one went. What they keep is let go, and they are not marked. It is linear in the cells that there were at one time at most,
    /// and takes no memory. While another thread has such a cell, or a part of the base pairs, this one sleeps.
    pub fn make_room<W: Wait>(&self, rt: &W) -> bool {
        self.cells.make_room(rt, &self.shards)
    }
}
