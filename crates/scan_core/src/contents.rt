// The lowest reader over cells.
ghost use Rattle.std.specs.Prelude.{◌≡◌, ◌∷◌, ◌++◌, ◌<◌, ◌≤◌, ◌^◌, [], length, replicate, true, slice_get, IfOk, OnErr, OnOk, None, option_map, option_copied, refl};
ghost use Rattle.std.proofs.Common.{◌∙◌, rules};
ghost use Rattle.semantics.specs.Texts.{is_range};
ghost use Rattle.semantics.specs.Joins.{is_join};
ghost use Rattle.semantics.specs.Verdicts.{verdict};
ghost use Rattle.growing_history.specs.Entered.{HasEntered};
ghost use Rattle.join_types.specs.Causes.{plain_cause};
ghost use Rattle.join_types.specs.Writes.{plain_write};
ghost use Rattle.cell_slots.specs.declared.slot.Slot.TheVariants.{Free};
ghost use Rattle.cell_slots.specs.Slots.{IsRankAt, with_slot};
ghost use Rattle.cell_table.specs.Moves.{Evicts, IsHeld};
ghost use Rattle.scan_core.specs.Cells.{IsSettled, IsTaken, KeepsLast};
ghost use Rattle.scan_core.specs.Rights.{AreRight};
ghost use Rattle.scan_core.specs.CoreLaws.{bottom_frame, bottom_spends};
ghost use Rattle.scan_core.specs.LettingGo.{LetsGo};
ghost use Rattle.scan_core.specs.Reading.{SpendsBase};

use base_reader::BaseReader;
use base_reader::lowest::{lowest_between, lowest_reached};
use cell_slots::{Cells, Part, Slot};
use cell_table::CellTable;
use join_eval::{Between, Changed, Changes, Reader};
use join_types::{Cause, Entry, Join, Pair, Write};
use key_space::Range;
use out_of_memory::OutOfMemory;
use range_state::RangeState;
use std::alloc::Global;
use std::marker::Model;
use std::sync::ledger::Ledger;
use steps::Steps;

/// No core has more cells.
const MOST_CELLS: u32 = 65536;

/// A history in memory and the cells over it. It reads at rank 0, and lends what the cells hold to the layers above.
#[derive(Drop)]
pub struct Core {
    base: BaseReader,
    cells: CellTable,
    /// The last declaration or drop after which the cells let go of what they held for former joins and former ranks.
    swept: u64,
}

impl Model for Core {
    ghost use Rattle.scan_core.specs.Rights.{AreRight, Contents, contents_of};

    ghost Value = { Contents };

    ghost view = { λ c. contents_of c.base c.cells };

    ghost invariant = { λ c. AreRight c.base c.cells.holdings.slots };
}

impl Core {
    /// No entries, and so many cells, which are free. `limit` is how many rows, and one more for each range, may be kept
    /// together.
    pub fn new(alloc: Global, cells: u32, limit: u64) -> Result<Core, OutOfMemory>
        requires some { 1 ≤ cells }
        requires most { cells ≤ 65536 }
        requires limit { 1 ≤ limit }
        ensures history { IfOk result (λ made. made.history ≡ []) }
        ensures slots { IfOk result (λ made. made.cells.slots ≡ replicate cells Free) }
        ensures room { IfOk result (λ made. made.cells.setting.room ≡ limit) }
    {
        let cells = CellTable::new(alloc, cells, limit)?;
        Ok(Core {
            base: BaseReader::new(alloc),
            cells,
            swept: 0,
        })
    }

    /// The number of entries, below 2^48.
    pub fn length(&self) -> u64
        ensures length { result ≡ length self.now.history }
        ensures room { result < 2 ^ 48 }
    {
        self.base.length()
    }

    /// Looks at the core, and so knows what is true of each: its entries entered at their places, what cells hold is right for
    /// them, and it is held over as many entries as there are.
    pub fn look(&self)
        ensures entered { HasEntered self.now.history }
        ensures right { AreRight self.now.history self.now.cells.slots }
        ensures over { self.now.cells.setting.entries ≡ length self.now.history }
    {
        let _entries = self.base.length();
    }

    /// The verdict of the write after the entries: why it may not enter, or nothing.
    pub fn judge(&self, write: &Write) -> Result<Option<Cause>, OutOfMemory>
        ensures { IfOk result (λ found. option_map plain_cause found ≡ verdict (plain_write write.now) self.now.history) }
    {
        self.base.judge(write)
    }

    /// Takes an entry against whose write there is no cause. What cells hold stays, and stays right.
    ///
    /// On `OutOfMemory` nothing changes.
    pub fn enter(&mut self, entry: Entry) -> Result<(), OutOfMemory>
        requires { verdict entry.write self.old.history ≡ None }
        ensures ok { OnOk result (self.new.history ≡ self.old.history ++ entry ∷ []) }
        ensures err { OnErr result (self.new.history ≡ self.old.history) }
        ensures slots { self.new.cells.slots ≡ self.old.cells.slots }
        ensures room { self.new.cells.setting.room ≡ self.old.cells.setting.room }
    {
        self.base.enter(entry)
    }

    /// The rank that the join declared at a position has after the first p entries. None exactly where it does not stand then: it
    /// is declared later, or is dropped by then.
    pub fn rank_at(&self, at: u64, p: u64) -> Result<Option<u8>, OutOfMemory>
        requires { p ≤ length self.now.history }
        ensures { IfOk result (IsRankAt self.now.history p at) }
    {
        self.base.rank_at(at, p)
    }

    /// What stands in the slot of a cell, if there is such a cell.
    pub fn slot(&self, id: u32) -> Option<&Slot>
        ensures { option_copied result ≡ slice_get self.now.cells.slots id }
    {
        self.cells.slot(id)
    }

    /// Takes out what a cell holds, with the position of its join's declaration; its slot keeps the place. None exactly where
    /// it holds nothing, and nothing changes then.
    ///
    /// On `OutOfMemory` nothing changes.
    pub fn take(&mut self, id: u32) -> Result<Option<(u64, RangeState)>, OutOfMemory>
        ensures taken { IfOk result (IsTaken self.old.history id self.old.cells self.new.cells) }
        ensures err { OnErr result (self.new.cells ≡ self.old.cells) }
        ensures history { self.new.history ≡ self.old.history }
    {
        self.cells.take(id)
    }

    /// Frees a cell, and forgets what it holds.
    pub fn evict(&mut self, id: u32)
        requires { IsHeld self.old.cells.slots id }
        ensures cells { self.new.cells ≡ with_slot id Free self.old.cells }
        ensures history { self.new.history ≡ self.old.history }
    {
        self.cells.evict(id);
    }

    /// Takes note of no cell's use from here on: those used before are not told to the book.
    pub fn clear_used(&mut self)
        ensures slots { self.new.cells.slots ≡ self.old.cells.slots }
        ensures used { self.new.cells.used ≡ [] }
        ensures setting { self.new.cells.setting ≡ self.old.cells.setting }
        ensures history { self.new.history ≡ self.old.history }
    {
        self.cells.clear_used();
    }

    /// Tells the book of the cells that were used, in order, and frees those that have to go, and no others.
    ///
    /// On `OutOfMemory` the book may not know of some of them.
    pub fn settle(&mut self) -> Result<(), OutOfMemory>
        ensures settled { OnOk result (IsSettled self.old.cells self.new.cells) }
        ensures evicts { Evicts self.old.cells.slots self.new.cells.slots }
        ensures last { KeepsLast self.old self.new.cells.slots }
        ensures setting { self.new.cells.setting ≡ self.old.cells.setting }
        ensures history { self.new.history ≡ self.old.history }
    {
        self.cells.settle()
    }

    /// Frees the cells of former joins and former ranks before a read after the first p entries: those that hold a kept range
    /// whose join does not stand there with the range's rank. What a cell holds with another rank than its join has would be
    /// made anew only where its own is the lesser, and would otherwise keep its range from being kept.
    ///
    /// That is done where a join was declared or dropped since it was last done, and none after these entries: for a read at
    /// an earlier position no cell of a join that stands later is freed. It looks at each cell then, and for one that holds a
    /// kept range at each join. Otherwise it compares two numbers.
    pub fn let_go(&mut self, p: u64) -> Result<(), OutOfMemory>
        requires { p ≤ length self.old.history }
        ensures goes { LetsGo self.old.history p self.old.cells self.new.cells }
        ensures history { self.new.history ≡ self.old.history }
    {
        let changed = self.base.changed_at();
        if changed == self.swept || p < changed {
            return Ok(());
        }
        self.let_go_of_former(p)?;
        self.swept = changed;
        Ok(())
    }

    /// Frees each cell that holds a kept range whose join does not stand after the first p entries with the range's rank.
    fn let_go_of_former(&mut self, p: u64) -> Result<(), OutOfMemory>
        requires { p ≤ length self.old.history }
        ensures goes { LetsGo self.old.history p self.old.cells self.new.cells }
        ensures history { self.new.history ≡ self.old.history }
    {
        for id in 0..MOST_CELLS {
            if self.slot(id).is_none() {
                break;
            }
            self.let_go_of(id, p)?;
        }
        Ok(())
    }

    /// Frees a cell, if it is such a one.
    fn let_go_of(&mut self, id: u32, p: u64) -> Result<(), OutOfMemory>
        requires { p ≤ length self.old.history }
        ensures goes { LetsGo self.old.history p self.old.cells self.new.cells }
        ensures history { self.new.history ≡ self.old.history }
    {
        self.look();
        let Some(Slot::Held(at, state)) = self.slot(id) else {
            return Ok(());
        };
        if self.rank_at(*at, p)? == Some(state.rank()) {
            return Ok(());
        }
        self.evict(id);
        Ok(())
    }
}

/// Looks at a join and a range, and so knows that they are what their types keep.
fn look_at(join: &Join, range: &Range)
    ensures join { is_join join.now ≡ true }
    ensures range { is_range range.now.low range.now.high ≡ true }
{
    let _names = &join.names;
    let _low = range.lo();
}

impl Reader for Core {
    ghost list = { λ c. c.history };

    ghost top = { 0 };

    ghost floor = { λ _. 0 };

    ghost went = { λ a b. b ≡ a };

    ghost spends = { λ a b p range rank added. SpendsBase a b p range rank added };

    ghost top_small = { Prim.search rules };

    ghost went_refl = { λ _. refl };

    ghost went_trans = { λ _ _ _ first next. next ∙ first };

    fn top_rank(&self) -> u8 {
        0
    }

    fn pairs<L: Ledger>(
        &mut self,
        p: u64,
        range: &Range,
        rank: u8,
        steps: &mut Steps<L>,
    ) -> Result<Vec<Pair>, OutOfMemory> {
        self.base.pairs(p, range, rank, steps)
    }

    fn changed<L: Ledger>(
        &mut self,
        q: u64,
        p: u64,
        range: &Range,
        rank: u8,
        steps: &mut Steps<L>,
    ) -> Result<Changed, OutOfMemory> {
        self.base.changed(q, p, range, rank, steps)
    }

    fn changes<L: Ledger>(
        &mut self,
        q: u64,
        p: u64,
        range: &Range,
        rank: u8,
        steps: &mut Steps<L>,
    ) -> Result<Changes, OutOfMemory> {
        self.base.changes(q, p, range, rank, steps)
    }
}

impl Cells for Core {
    ghost holdings = { λ c. c.cells };

    ghost went_frame = { λ a b same. bottom_frame a b same };

    ghost spends_so = { λ a b p range rank added so. bottom_spends a b p range rank added so };

    fn reached(&mut self, p: u64, range: &Range, rank: u8) -> Result<Vec<u64>, OutOfMemory> {
        lowest_reached(&mut self.base, p, range, rank)
    }

    fn between(&mut self, q: u64, p: u64, range: &Range) -> Result<Between, OutOfMemory> {
        lowest_between(&mut self.base, q, p, range)
    }

    fn join_at(&self, at: u64) -> Result<Join, OutOfMemory> {
        self.base.join_at(at)
    }

    fn parts(&self, at: u64, range: &Range) -> Result<Vec<Part>, OutOfMemory> {
        self.cells.parts(at, range)
    }

    fn cover(
        &mut self,
        at: u64,
        rank: u8,
        _p: u64,
        range: &Range,
    ) -> Result<Vec<Part>, OutOfMemory> {
        let _entries = self.base.length();
        let join = self.base.declared(at);
        look_at(join, range);
        self.cells.cover(at, join, rank, range)
    }

    fn lend(
        &mut self,
        id: u32,
        at: u64,
        rank: u8,
        p: u64,
        part: &Range,
    ) -> Result<Option<RangeState>, OutOfMemory> {
        self.cells.lend(id, at, rank, p, part)
    }

    fn give_back(&mut self, id: u32, at: u64, state: RangeState) {
        self.cells.give_back(id, at, state);
    }
}
