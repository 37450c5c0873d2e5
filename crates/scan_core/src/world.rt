// The core as one value.
ghost use Rattle.std.specs.Prelude.{◌≡◌, ◌-◌, ◌<◌, ◌≤◌, ◌^◌, length, replicate, IfOk, OnErr, OnOk};
ghost use Rattle.join_types.specs.Writes.{plain_write};
ghost use Rattle.core_events.specs.Events as plain;
ghost use Rattle.core_events.specs.Plain.{start, step};
ghost use Rattle.core_events.specs.PlainLaws.{AnswersAs, LookAlike};
ghost use Rattle.core_events.specs.PlainEvents.{plain_done, plain_event};
ghost use Rattle.cell_slots.specs.declared.slot.Slot.TheVariants.{Free};
ghost use Rattle.scan_core.specs.Rights.{AreRight};
ghost use Rattle.scan_core.specs.Worlds.{CellSteps, IsRankTo, StepsAs, StepSpends, without_scan};

use crate::ScanTable;
use crate::contents::Core;
use crate::reading::{advance_cell, mend_cell, read_piece};
use cell_slots::{Slot, is_past};
use core_events::{Done, Event, ScanBound};
use join_types::{Entry, Write};
use key_space::Range;
use out_of_memory::OutOfMemory;
use std::alloc::Global;
use std::marker::Model;
use std::sync::ledger::Ledger;
use steps::Steps;

/// The core: a history, the scans under way, and cells that keep ranges of joins' outputs. Whatever the cells keep, each
/// event that is of no cell is answered as with nothing kept.
#[derive(Drop)]
pub struct World {
    alloc: Global,
    core: Core,
    scans: ScanTable,
}

impl Model for World {
    ghost use Rattle.scan_core.specs.Progress.{scans_of};
    ghost use Rattle.scan_core.specs.Going.{AreGoing};
    ghost use Rattle.scan_core.specs.Worlds.{CoreWorld, NoneLent};

    ghost Value = { CoreWorld };

    ghost view = { λ w. record {
      world = record { history = w.core.history; scans = scans_of w.scans };
      cells = w.core.cells;
    } };

    ghost invariant = { λ w. AreGoing w.core.history w.scans × NoneLent w.core.cells.slots };
}

impl World {
    /// No entries, no scans, and so many cells, which are free. `limit` is how many rows of kept ranges, and one more for each
    /// range, may be kept together: after each piece of a scan the book is told of the cells that it used, and ranges go by
    /// last use while those that the book knows weigh more.
    ///
    /// It takes room for each cell.
    pub fn new(alloc: Global, cells: u32, limit: u64) -> Result<World, OutOfMemory>
        requires some_cells { 1 ≤ cells }
        requires few_cells { cells ≤ 65536 }
        requires limit { 1 ≤ limit }
        ensures world { IfOk result (λ made. made.world ≡ start) }
        ensures free { IfOk result (λ made. made.cells.slots ≡ replicate cells Free) }
        ensures room { IfOk result (λ made. made.cells.setting.room ≡ limit) }
    {
        let core = Core::new(alloc, cells, limit)?;
        Ok(World {
            alloc,
            core,
            scans: ScanTable::new(alloc),
        })
    }

    /// The number of entries, below 2^48. What the cells hold is right for these entries.
    pub fn length(&self) -> u64
        ensures length { result ≡ length self.now.world.history }
        ensures room { result < 2 ^ 48 }
        ensures right { AreRight self.now.world.history self.now.cells.slots }
    {
        self.core.look();
        self.core.length()
    }

    /// A write enters where there is no cause against it.
    fn append(&mut self, client: u32, write: Write) -> Result<Done, OutOfMemory>
        ensures step { IfOk result (λ done. StepsAs (plain.append client (plain_write write)) self.old.world self.new.world (plain_done done)) }
        ensures slots { self.new.cells.slots ≡ self.old.cells.slots }
        ensures err { OnErr result (self.new.world ≡ self.old.world) }
        ensures room { self.new.cells.setting.room ≡ self.old.cells.setting.room }
    {
        if let Some(cause) = self.core.judge(&write)? {
            return Ok(Done::Refused(self.core.length(), cause));
        }
        self.core.enter(Entry { client, write })?;
        Ok(Done::Entered(self.core.length()))
    }

    /// A scan begins over a range, at the history's length, where none with its number is under way.
    fn begin(&mut self, scan: u32, range: Range) -> Result<Done, OutOfMemory>
        ensures step { IfOk result (λ done. StepsAs (plain.begin scan range) self.old.world self.new.world (plain_done done)) }
        ensures slots { self.new.cells.slots ≡ self.old.cells.slots }
        ensures err { OnErr result (self.new.world ≡ self.old.world) }
        ensures room { self.new.cells.setting.room ≡ self.old.cells.setting.room }
    {
        if self.scans.has(scan) {
            return Ok(Done::Nothing);
        }
        let position = self.core.length();
        self.scans.begin(scan, range, position)?;
        Ok(Done::Begun(position))
    }

    /// A scan is answered up to a bound that goes on from its place. Before the first piece whose scan began after a join was
    /// declared or dropped, the cells are freed that hold a range of a join which stands no more, or has another rank. The cells
    /// that were used are told to the book afterwards.
    fn piece<L: Ledger>(
        &mut self,
        scan: u32,
        upto: ScanBound,
        steps: &mut Steps<L>,
    ) -> Result<Done, OutOfMemory>
        ensures step { IfOk result (λ done. StepsAs (plain.piece scan upto) self.old.world self.new.world (plain_done done)) }
        ensures err { OnErr result (self.new.world ≡ self.old.world) }
        ensures room { self.new.cells.setting.room ≡ self.old.cells.setting.room }
        ensures counted { steps.old ≤ steps.new }
        ensures spends { OnOk result (StepSpends (plain.piece scan upto) self.old self.new (steps.new - steps.old)) }
    {
        let Some(part) = self.scans.next_part(scan, &upto)? else {
            return Ok(Done::Nothing);
        };
        let pairs = read_piece(
            self.alloc,
            &mut self.core,
            part.position,
            &part.range,
            steps,
        )?;
        self.scans.add_part(scan, upto, pairs)?;
        Ok(Done::Answered)
    }

    /// A scan that is answered up to its last bound ends with its pairs.
    fn finish(&mut self, scan: u32) -> Done
        ensures step { StepsAs (plain.finish scan) self.old.world self.new.world (plain_done result) }
        ensures slots { self.new.cells.slots ≡ self.old.cells.slots }
        ensures room { self.new.cells.setting.room ≡ self.old.cells.setting.room }
    {
        let Some(ended) = self.scans.finish(scan) else {
            return Done::Nothing;
        };
        Done::Finished {
            position: ended.position,
            pairs: ended.pairs,
        }
    }

    /// The rank with which a cell may be advanced to a position. None exactly where it may not.
    fn rank_to(&self, cell: u32, to: u64) -> Result<Option<u8>, OutOfMemory>
        ensures { IfOk result (IsRankTo self.now cell to) }
    {
        self.core.look();
        let Some(Slot::Held(at, state)) = self.core.slot(cell) else {
            return Ok(None);
        };
        if is_past(state, to) {
            return Ok(None);
        }
        if to > self.core.length() {
            return Ok(None);
        }
        self.core.rank_at(*at, to)
    }

    /// A cell is brought to a position of the history, where it does not stand past it and its join stands there.
    fn advance<L: Ledger>(
        &mut self,
        cell: u32,
        to: u64,
        steps: &mut Steps<L>,
    ) -> Result<Done, OutOfMemory>
        ensures cells { IfOk result (λ done. CellSteps (plain.advance cell to) self.old self.new (plain_done done)) }
        ensures world { self.new.world ≡ self.old.world }
        ensures room { self.new.cells.setting.room ≡ self.old.cells.setting.room }
        ensures counted { steps.old ≤ steps.new }
        ensures spends { OnOk result (StepSpends (plain.advance cell to) self.old self.new (steps.new - steps.old)) }
    {
        self.core.look();
        let Some(rank) = self.rank_to(cell, to)? else {
            return Ok(Done::Nothing);
        };
        advance_cell(self.alloc, &mut self.core, cell, rank, to, steps)?;
        Ok(Done::Brought)
    }

    /// What is pending in a range of a cell is found anew, where it holds something.
    fn mend<L: Ledger>(
        &mut self,
        cell: u32,
        range: &Range,
        steps: &mut Steps<L>,
    ) -> Result<Done, OutOfMemory>
        ensures cells { IfOk result (λ done. CellSteps (plain.mend cell range.now) self.old self.new (plain_done done)) }
        ensures world { self.new.world ≡ self.old.world }
        ensures room { self.new.cells.setting.room ≡ self.old.cells.setting.room }
        ensures counted { steps.old ≤ steps.new }
        ensures spends { OnOk result (StepSpends (plain.mend cell range.now) self.old self.new (steps.new - steps.old)) }
    {
        let Some(Slot::Held(_, _)) = self.core.slot(cell) else {
            return Ok(Done::Nothing);
        };
        mend_cell(self.alloc, &mut self.core, cell, range, steps)?;
        Ok(Done::Mended)
    }

    /// A cell forgets what it holds and is free.
    fn evict(&mut self, cell: u32) -> Done
        ensures cells { CellSteps (plain.evict cell) self.old self.new (plain_done result) }
        ensures world { self.new.world ≡ self.old.world }
        ensures room { self.new.cells.setting.room ≡ self.old.cells.setting.room }
    {
        let Some(Slot::Held(_, _)) = self.core.slot(cell) else {
            return Done::Nothing;
        };
        self.core.evict(cell);
        Done::Evicted
    }

    /// Does one event, and answers it. An event that is of no cell is answered as with nothing kept; one of a cell leaves the
    /// history and the scans. What the cells hold changes in pieces of scans and in events of cells alone.
    ///
    /// A write takes what judging it takes. A piece takes, for each join whose output it reaches, a search, what is wanted to
    /// bring what is kept to the scan's position, and is linear in the pairs that it reads. A write, the beginning and the end of a
    /// scan and an eviction take no step; what a piece costs in steps where one output alone is reached, and what bringing a cell
    /// forward or mending it over bare ranges costs, is said by `spends`.
    ///
    /// On `OutOfMemory` the history and the scans are unchanged; cells may have been filled, brought forward, or freed.
    pub fn step<L: Ledger>(
        &mut self,
        event: Event,
        steps: &mut Steps<L>,
    ) -> Result<Done, OutOfMemory>
        ensures answers { IfOk result (λ done. AnswersAs (plain_event event) self.old.world (plain_done done)) }
        ensures world { OnOk result (LookAlike self.new.world (step (plain_event event) self.old.world).world) }
        ensures cells { IfOk result (λ done. CellSteps (plain_event event) self.old self.new (plain_done done)) }
        ensures err { OnErr result (self.new.world ≡ self.old.world) }
        ensures room { self.new.cells.setting.room ≡ self.old.cells.setting.room }
        ensures counted { steps.old ≤ steps.new }
        ensures spends { OnOk result (StepSpends (plain_event event) self.old self.new (steps.new - steps.old)) }
    {
        match event {
            Event::Append { client, write } => self.append(client, write),
            Event::Begin { scan, range } => self.begin(scan, range),
            Event::Piece { scan, upto } => self.piece(scan, upto, steps),
            Event::Advance { cell, to } => self.advance(cell, to, steps),
            Event::Mend { cell, range } => self.mend(cell, &range, steps),
            Event::Evict { cell } => Ok(self.evict(cell)),
            Event::Finish { scan } => Ok(self.finish(scan)),
        }
    }

    /// Ends a scan under way without its pairs; without such a scan it does nothing. Logarithmic in the scans; it takes no
    /// memory.
    pub fn abandon(&mut self, scan: u32)
        ensures scans { LookAlike self.new.world (without_scan scan self.old.world) }
        ensures cells { self.new.cells ≡ self.old.cells }
        ensures room { self.new.cells.setting.room ≡ self.old.cells.setting.room }
    {
        self.scans.abandon(scan);
    }
}
