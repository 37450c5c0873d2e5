// Bringing kept ranges forward, one at a time.
ghost use Rattle.std.specs.Prelude.{◌≡◌, ◌≤◌, length, take, IfSome};
ghost use Rattle.join_set.specs.Sets.{AreJoins};
ghost use Rattle.write_history.specs.Entries.{IsRecorded};
ghost use Rattle.write_history.specs.Marks.{reach};
ghost use Rattle.base_shards.specs.Reading.{ReachesBack, ReadsOn};
ghost use Rattle.write_history.specs.declared.known.Mark.TheVariants.{Pinned};
ghost use Rattle.cell_slots.specs.Slots.{IsRankAt};
ghost use Rattle.shared_cells.specs.Advancing.{AdvancesCell};
ghost use Rattle.range_cells.specs.Turns.{AdvancesLittle, IsWithinView, TellsCell, done};

use crate::range_cells::RangeCells;
use base_reader::reaching::rank_of;
use base_shards::{Naming, SHARDS};
use join_eval::KeepFault;
use join_set::JoinSet;
use out_of_memory::OutOfMemory;
use pq_io::Gate;
use shared_cells::{Cell, SharedCell};
use shared_reader::Use;
use std::sync::Wait;
use std::sync::ledger::Ledger;
use steps::Steps;
use write_history::Pass;

/// What a turn did.
#[derive(Debug, Drop, PartialEq, Eq)]
pub enum Turn {
    /// The cell with this number was marked first of those of the first part that had a marked one, and was brought forward if
    /// it is for the rank that its join has.
    Brought {
        /// The number.
        id: u32,
        /// Where the cell stood when its lock was let go: after how many entries. None where nothing is kept there.
        position: Option<u64>,
    },
    /// The cell with this number was marked first of those of the first part that had a marked one, and its range takes more needs
    /// than may be kept: it is evicted.
    TooWide {
        /// The number.
        id: u32,
    },
    /// No cell was marked.
    Idle,
    /// No memory was found. Where a cell was marked first, it is not marked any more.
    OutOfMemory(OutOfMemory),
}

impl<N: Naming> RangeCells<N> {
    /// Advances each part of the base pairs to where the first p entries stand, so that cells are marked for them.
    ///
    /// On `OutOfMemory` some parts may have come there, and one nearer.
    fn advance_parts<W: Wait>(&self, rt: &W, pass: &mut Pass, p: u64) -> Result<(), OutOfMemory>
        requires same_history { pass.old.history ≡ N.history }
        requires within { p ≤ length pass.old.view }
        ensures { ReadsOn pass.old pass.new }
    {
        for number in 0..SHARDS {
            self.shards.catch_up(rt, pass, number, p)?;
        }
        Ok(())
    }

    /// Advances a cell to where the first p entries stand, says where it stands then, and which cells of lower ranks were used
    /// for it, in order. The rank is the one that its join has after p entries, and none where it does not stand then; a cell for
    /// another rank keeps what it keeps. What stands from where the pin reaches back to on, below p with bare ranges, is left as an
    /// advance leaves it, with no more steps than that takes.
    ///
    /// On a fault what is kept is as it was, or it is forgotten. Where that fills the cell's range and takes more needs than may be
    /// kept, it is forgotten, and the turn says so.
    fn advance_cell<W: Wait, G: Gate, L: Ledger>(
        &self,
        rt: &W,
        pass: &mut Pass,
        joins: &JoinSet,
        p: u64,
        rank: Option<u8>,
        gate: &G,
        steps: &mut Steps<L>,
        id: u32,
        cell: &mut Cell<N>,
    ) -> (Turn, Vec<Use>)
        requires same_history { pass.old.history ≡ N.history }
        requires recorded { IsRecorded pass.old.writers pass.old.view }
        requires within { p ≤ length pass.old.view }
        requires pinned { ReachesBack pass.old p }
        requires joins { AreJoins (reach pass.old.mark) joins.now (take p pass.old.view) }
        requires rank { IsRankAt pass.old.view p cell.old.at rank }
        requires ranked { IfSome rank (λ r. r ≤ 7) }
        ensures told { TellsCell self.now.most pass.old.view p id cell.new result.0 }
        ensures advances { AdvancesCell (reach pass.old.mark) p rank (done result.0) cell.old cell.new }
        ensures little { AdvancesLittle pass.old.view (reach pass.old.mark) p rank (done result.0) cell.old cell.new steps.old steps.new }
        ensures within { IsWithinView result.0 pass.new.view }
        ensures reads_on { ReadsOn pass.old pass.new }
        ensures counted { steps.old ≤ steps.new }
    {
        let room = self.room(rt, gate);
        let mut stack = self.stack(&room, joins, p, pass);
        let advanced = stack.advance_to(cell, id, p, rank, self.most, gate, steps);
        let used = stack.take_used();
        let _pass = stack.into_pass();
        let position = cell.position();
        match advanced {
            Ok(()) => (Turn::Brought { id, position }, used),
            Err(KeepFault::TooWide(_many)) => (Turn::TooWide { id }, used),
            Err(KeepFault::OutOfMemory(memory)) => (Turn::OutOfMemory(memory), used),
        }
    }

    /// Advances what lies behind a cell's lock to where the first p entries stand, if the cell is for the rank that its join has
    /// there, says where it stands then, and which cells of lower ranks were used for it, in order. While another thread has the
    /// cell, this one sleeps.
    fn advance_locked<W: Wait, G: Gate, L: Ledger>(
        &self,
        rt: &W,
        pass: &mut Pass,
        joins: &JoinSet,
        p: u64,
        gate: &G,
        steps: &mut Steps<L>,
        id: u32,
        shared: &SharedCell<N>,
    ) -> (Turn, Vec<Use>)
        requires same_history { pass.old.history ≡ N.history }
        requires recorded { IsRecorded pass.old.writers pass.old.view }
        requires within { p ≤ length pass.old.view }
        requires pinned { ReachesBack pass.old p }
        requires joins { AreJoins (reach pass.old.mark) joins.now (take p pass.old.view) }
        ensures within { IsWithinView result.0 pass.new.view }
        ensures reads_on { ReadsOn pass.old pass.new }
        ensures counted { steps.old ≤ steps.new }
    {
        let mut guard = shared.lock(rt);
        match &mut *guard {
            Some(cell) => {
                let rank = rank_of(joins, cell.at());
                self.advance_cell(rt, pass, joins, p, rank, gate, steps, id, cell)
            }
            None => {
                let position = None;
                (Turn::Brought { id, position }, Vec::new(self.alloc))
            }
        }
    }

    /// Advances the cell with a number to where the first p entries stand, if there is one, says where it stands then, and
    /// tells the book of the cells of lower ranks that were used for it. Where its range takes more needs than may be kept, it is
    /// evicted.
    fn advance_marked<W: Wait, G: Gate, L: Ledger>(
        &self,
        rt: &W,
        pass: &mut Pass,
        joins: &JoinSet,
        p: u64,
        gate: &G,
        steps: &mut Steps<L>,
        id: u32,
    ) -> Turn
        requires same_history { pass.old.history ≡ N.history }
        requires recorded { IsRecorded pass.old.writers pass.old.view }
        requires within { p ≤ length pass.old.view }
        requires pinned { ReachesBack pass.old p }
        requires joins { AreJoins (reach pass.old.mark) joins.now (take p pass.old.view) }
        ensures within { IsWithinView result pass.new.view }
        ensures reads_on { ReadsOn pass.old pass.new }
        ensures counted { steps.old ≤ steps.new }
    {
        let found = match self.cells.find(rt, id) {
            Ok(found) => found,
            Err(memory) => return Turn::OutOfMemory(memory),
        };
        let Some(shared) = found else {
            let position = None;
            return Turn::Brought { id, position };
        };
        let (turn, used) = self.advance_locked(rt, pass, joins, p, gate, steps, id, &shared);
        self.cells.settle(rt, &self.shards, used.as_slice());
        if matches!(turn, Turn::TooWide { .. }) {
            self.cells.evict(rt, &self.shards, id);
        }
        turn
    }

    /// Brings a marked cell forward: each part of the base pairs is brought to the end of what the pass has seen, that is, to
    /// where the first p entries stand, which marks each cell that follows a range with a key that they put or remove; then,
    /// of the first part that has a marked cell, the one that was marked there first is advanced, if it stands below. These
    /// are the joins that stand then, and the pass is pinned there.
    ///
    /// What is pending in the cell then stays so, what is forgotten stays so, what stands more than 65,536 entries before the end
    /// is let go and filled at the end, and a cell for another rank than its join has keeps what it keeps. A cell whose range is
    /// filled and takes more needs than may be kept is evicted. Before it or a range of a lower rank is filled, and before one of a
    /// lower rank is mended for it, the gate is passed. While another thread has a part or a cell that this one needs, this one
    /// sleeps. That the cell was brought forward is no use of it; of the cells of lower ranks that were read for it the book is
    /// told as after a read, and the least recently used are evicted. First of all the cells are evicted whose joins do not stand
    /// any more or have another rank, as by a read.
    ///
    /// `Idle` comes only where no part had a marked cell when its lock was taken.
    pub fn turn<W: Wait, G: Gate, L: Ledger>(
        &self,
        rt: &W,
        pass: &mut Pass,
        joins: &JoinSet,
        p: u64,
        gate: &G,
        steps: &mut Steps<L>,
    ) -> Turn
        requires same_history { pass.old.history ≡ N.history }
        requires recorded { IsRecorded pass.old.writers pass.old.view }
        requires whole { p ≡ length pass.old.view }
        requires pinned { pass.old.mark ≡ Pinned p }
        requires joins { AreJoins (reach pass.old.mark) joins.now (take p pass.old.view) }
        ensures within { IsWithinView result pass.new.view }
        ensures reads_on { ReadsOn pass.old pass.new }
        ensures counted { steps.old ≤ steps.new }
    {
        self.cells.follow(rt, &self.shards, joins);
        if let Err(memory) = self.advance_parts(rt, pass, p) {
            return Turn::OutOfMemory(memory);
        }
        match self.shards.next_marked(rt) {
            Some(id) => self.advance_marked(rt, pass, joins, p, gate, steps, id),
            None => Turn::Idle,
        }
    }
}
