// Tables of cells.
ghost use Rattle.std.specs.Prelude.{◌≡◌, ◌≢◌, ℕ, ◌+◌, ◌<◌, ◌≤◌, [], ◌∷◌, length, map, slice_get, Contains, true, Some, None, IfOk, OnErr, OnOk, MatchOption};
ghost use Rattle.std.specs.Option.{option_copied};
ghost use Rattle.semantics.specs.Texts.{Range as Bounds, table_of};
ghost use Rattle.semantics.specs.Joins.{push};
ghost use Rattle.key_ranges.specs.Ranges.{is_open};
ghost use Rattle.layering.specs.Parts.{JoinTo};
ghost use Rattle.kept_ranges.specs.Sound.{KeptRange};
ghost use Rattle.range_state.specs.Held.{forgotten};
ghost use Rattle.evict_book.specs.Books.{total_weight};
ghost use Rattle.cell_slots.specs.declared.slot.Slot.TheVariants.{Free, Lent, Held};
ghost use Rattle.cell_slots.specs.Places.{LiesInPlace, ServeKept};
ghost use Rattle.cell_slots.specs.Slots.{Frame, HasFree, MeetsNone, place_at};
ghost use Rattle.cell_slots.specs.Spending.{CoversAlone, MayKeep, Reserves, one_gap, one_part};
ghost use Rattle.cell_table.specs.Stores.{AreBooked, AreOfTable, IsGap, IsLowestFree, Store, free_cells, unused, with_slot_in, without_cell};
ghost use Rattle.cell_table.specs.Moves.{Evicts, GetCells, GetsCellAs, IsHeld, IsLent, IsTooHeavy, MayLend, ReservesParts, SettlesFirst, TakesOut, at_rank, freed_all, settled_all, weighed};

use crate::directory::Directory;
use crate::lending::{given, held_in, lendable, made_anew};
use crate::parts::parts_of;
use crate::slots::Slots;
use cell_slots::{Part, Slot, are_too_many};
use evict_book::EvictBook;
use join_types::{Join, Kind};
use key_space::Range;
use out_of_memory::OutOfMemory;
use range_state::RangeState;
use std::alloc::Global;
use std::marker::Model;

/// Cells that keep ranges of the outputs of joins, up to 65,536. A join is named by the position of its declaration.
///
/// No two cells keep places for ranges of one join that meet.
#[derive(Drop)]
pub struct CellTable {
    alloc: Global,
    slots: Slots,
    directory: Directory,
    used: Vec<u32>,
    book: EvictBook,
}

impl Model for CellTable {
    ghost use Rattle.cell_slots.specs.Slots.{no_setting};
    ghost use Rattle.cell_table.specs.Stores.{Store, IsStore};

    ghost Value = { Store };

    ghost view = { λ t. record { holdings = record { slots = t.slots; used = t.used.items; setting = no_setting }; limit = t.book.limit; book = t.book.used } };

    ghost invariant = { λ t. IsStore t.slots t.used.items t.directory t.book };
}

impl CellTable {
    /// So many cells, all of them free, which may weigh so much together. Linear in the cells.
    pub fn new(alloc: Global, cells: u32, limit: u64) -> Result<CellTable, OutOfMemory>
        requires some { 1 ≤ cells }
        requires few { cells ≤ 65536 }
        requires limit { 1 ≤ limit }
        ensures { IfOk result (λ made. made ≡ free_cells cells limit) }
    {
        let slots = Slots::new(alloc, cells)?;
        let book = EvictBook::new(alloc, cells, limit)?;
        Ok(CellTable {
            alloc,
            slots,
            directory: Directory::new(alloc),
            used: Vec::new(alloc),
            book,
        })
    }

    /// The slot with a number; none where there is no such cell. It takes constant time.
    pub fn slot(&self, id: u32) -> Option<&Slot>
        ensures { option_copied result ≡ slice_get self.now.holdings.slots id }
    {
        self.slots.get(id)
    }

    /// The range in parts, in order, each with the cell whose place it lies within, where there is one. It takes two searches,
    /// and is linear in the parts.
    pub fn parts(&self, at: u64, range: &Range) -> Result<Vec<Part>, OutOfMemory>
        ensures join { IfOk result (λ parts. JoinTo range.now (map (λ part. part.range) parts.items)) }
        ensures kept { IfOk result (λ parts. (id : ℕ) (part : Bounds) → Contains parts.items (record { range = part; cell = Some id }) → LiesInPlace (place_at self.now.holdings.slots) id at part) }
        ensures gaps { IfOk result (λ parts. (part : Bounds) → Contains parts.items (record { range = part; cell = None }) → IsGap self.now.holdings.slots at part) }
        ensures served { IfOk result (λ parts. ServeKept (place_at self.now.holdings.slots) at range.now parts.items) }
        ensures whole { IfOk result (λ parts. (id : ℕ) → is_open range.now ≡ true → LiesInPlace (place_at self.now.holdings.slots) id at range.now → parts.items ≡ one_part range.now id) }
        ensures none { IfOk result (λ parts. is_open range.now ≡ true → MeetsNone self.now.holdings.slots at range.now → parts.items ≡ one_gap range.now) }
    {
        let pieces = self.directory.cover(at, range)?;
        parts_of(self.alloc, pieces)
    }

    /// Gives the range, which meets no place of the join, the lowest free cell, with nothing kept yet, and answers with the
    /// cell's number; none exactly where no cell is free, and nothing changes then. It takes two searches, a copy of the join,
    /// and a look at each slot up to that cell that became taken since the last call.
    ///
    /// On `OutOfMemory` nothing changes.
    pub fn reserve(
        &mut self,
        at: u64,
        join: &Join,
        rank: u8,
        range: &Range,
    ) -> Result<Option<u32>, OutOfMemory>
        requires open { is_open range.now ≡ true }
        requires apart { MeetsNone self.old.holdings.slots at range.now }
        requires table { AreOfTable self.old.holdings.slots at (table_of range.now.low) }
        ensures full { IfOk result (λ found. found ≡ None → HasFree self.old.holdings.slots → ⊥) }
        ensures same { IfOk result (λ found. found ≡ None → self.new ≡ self.old) }
        ensures lowest { IfOk result (λ found. (id : ℕ) → found ≡ Some id → IsLowestFree self.old.holdings.slots id) }
        ensures held { IfOk result (λ found. (id : ℕ) → found ≡ Some id → self.new ≡ with_slot_in id (Held at (forgotten join.now rank range.now)) self.old) }
        ensures err { OnErr result (self.new ≡ self.old) }
    {
        let Some(id) = self.slots.lowest_free() else {
            return Ok(None);
        };
        let state = RangeState::new(self.alloc, join.copy(self.alloc)?, rank, range.copy()?);
        self.directory.insert(at, range.copy()?, id)?;
        self.slots.put(id, Slot::Held(at, state));
        Ok(Some(id))
    }

    /// The range in parts, as `parts` gives them; for a push join each part that no cell holds is reserved, while a cell is
    /// free. Where there are more than 64 parts nothing is reserved. It takes the search for the parts, and for each that is
    /// reserved what `reserve` takes.
    ///
    /// On `OutOfMemory` some parts may be reserved.
    pub fn cover(
        &mut self,
        at: u64,
        join: &Join,
        rank: u8,
        range: &Range,
    ) -> Result<Vec<Part>, OutOfMemory>
        requires { AreOfTable self.old.holdings.slots at (table_of range.now.low) }
        ensures join { IfOk result (λ parts. JoinTo range.now (map (λ part. part.range) parts.items)) }
        ensures served { IfOk result (λ parts. ServeKept (place_at self.old.holdings.slots) at range.now parts.items) }
        ensures alone { IfOk result (λ parts. (id : ℕ) → is_open range.now ≡ true → LiesInPlace (place_at self.old.holdings.slots) id at range.now → CoversAlone self.old.holdings self.new.holdings id range.now parts.items) }
        ensures reserved { IfOk result (λ parts. is_open range.now ≡ true → MayKeep self.old.holdings.slots at join.now range.now → Reserves self.old.holdings self.new.holdings at rank join.now range.now parts.items) }
        ensures pulled { (join.now.kind ≡ push → ⊥) → self.new ≡ self.old }
        ensures slots { ReservesParts self.old.holdings self.new.holdings at rank join.now range.now }
        ensures frame { Frame 0 self.old.holdings self.new.holdings }
        ensures same_limit { self.new.limit ≡ self.old.limit }
        ensures same_book { self.new.book ≡ self.old.book }
    {
        let parts = self.parts(at, range)?;
        if are_too_many(parts.len(), range) {
            return Ok(parts);
        }
        match join.kind {
            Kind::Pull => Ok(parts),
            Kind::Push => self.reserve_parts(at, join, rank, range, parts),
        }
    }

    /// Takes the kept range out of a cell, whose slot keeps its place, where it is of the join at this position, its rank is
    /// not above `rank`, it does not stand past p, and the part lies within it; otherwise none, and nothing changes. One that
    /// was kept with a lesser rank is made anew with this one. The cell is used.
    ///
    /// It is linear in the bounds and, where it is made anew, in the join. On `OutOfMemory` nothing changes.
    pub fn lend(
        &mut self,
        id: u32,
        at: u64,
        rank: u8,
        p: u64,
        part: &Range,
    ) -> Result<Option<RangeState>, OutOfMemory>
        ensures lent { IfOk result (λ found. MatchOption found (self.new ≡ self.old) (IsLent self.old.holdings self.new.holdings id at rank p part.now)) }
        ensures always { IfOk result (λ found. (s : KeptRange) → MayLend (slice_get self.old.holdings.slots id) at rank p part.now s → found ≡ Some (at_rank rank s)) }
        ensures err { OnErr result (self.new ≡ self.old) }
        ensures same_limit { self.new.limit ≡ self.old.limit }
        ensures same_book { self.new.book ≡ self.old.book }
    {
        let Some(state) = lendable(self.slots.get(id), at, rank, p, part) else {
            return Ok(None);
        };
        let place = state.range().copy()?;
        let anew = made_anew(self.alloc, state, rank)?;
        self.used.push(id)?;
        let taken = self.slots.put(id, Slot::Lent(at, place));
        Ok(given(taken, anew))
    }

    /// Takes out what a cell holds, with the position of its join's declaration; its slot keeps the place. None exactly where
    /// it holds nothing, and nothing changes then. It takes constant time, and the cell is not used.
    ///
    /// On `OutOfMemory` nothing changes.
    pub fn take(&mut self, id: u32) -> Result<Option<(u64, RangeState)>, OutOfMemory>
        ensures taken { IfOk result (TakesOut id self.old self.new) }
        ensures err { OnErr result (self.new ≡ self.old) }
    {
        let Some(Slot::Held(at, state)) = self.slots.get(id) else {
            return Ok(None);
        };
        let at = *at;
        let place = state.range().copy()?;
        let taken = self.slots.put(id, Slot::Lent(at, place));
        Ok(held_in(taken))
    }

    /// Forgets which cells were used.
    pub fn clear_used(&mut self)
        ensures slots { self.new.holdings.slots ≡ self.old.holdings.slots }
        ensures used { self.new.holdings.used ≡ [] }
        ensures same_limit { self.new.limit ≡ self.old.limit }
        ensures only { self.new ≡ unused self.old }
    {
        self.used.clear();
    }

    /// Puts a kept range back into the slot that keeps its place. It takes constant time and no memory.
    pub fn give_back(&mut self, id: u32, at: u64, state: RangeState)
        requires { slice_get self.old.holdings.slots id ≡ Some (Lent at state.range) }
        ensures { self.new ≡ with_slot_in id (Held at state) self.old }
    {
        self.slots.put(id, Slot::Held(at, state));
    }

    /// Lets go of what a cell keeps, which is free then, and which the book knows no more. It takes a few searches, and no
    /// memory.
    pub fn evict(&mut self, id: u32)
        requires { IsHeld self.old.holdings.slots id }
        ensures { self.new ≡ without_cell id self.old }
    {
        let taken = self.slots.put(id, Slot::Free);
        self.directory.leave(&taken);
        self.book.gone(id);
    }

    /// Tells the book of each cell that was used and holds a kept range, in order, how many rows are kept, and evicts what has
    /// to go, and nothing else: the kept ranges that were used least recently, until the others that the book knows weigh no
    /// more than the limit together, where each weighs one more than its rows. No cell was used then.
    ///
    /// For each cell that was used it takes a look-up, and for each that is evicted what `evict` takes. On `OutOfMemory` that
    /// is done for the first of the cells that were used, and the others may weigh what they weighed before.
    pub fn settle(&mut self) -> Result<(), OutOfMemory>
        ensures settled { OnOk result (self.new ≡ unused (settled_all self.old.holdings.used self.old)) }
        ensures first { (told : Store) × SettlesFirst self.old told × (self.new ≡ unused told) }
        ensures booked { AreBooked self.new.holdings.slots self.new.book }
        ensures fits { total_weight self.new.book ≤ self.new.limit }
        ensures evicts { Evicts self.old.holdings.slots self.new.holdings.slots }
        ensures unused { self.new.holdings.used ≡ [] }
        ensures spared { (id at : ℕ) (s : KeptRange) → self.old.holdings.used ≡ id ∷ [] → slice_get self.old.holdings.slots id ≡ Some (Held at s) → length s.kept.rows + 1 ≤ self.old.limit →
            slice_get self.new.holdings.slots id ≡ Some (Held at s) }
        ensures heavy { (id at : ℕ) (s : KeptRange) → self.old.holdings.used ≡ id ∷ [] → slice_get self.old.holdings.slots id ≡ Some (Held at s) → IsTooHeavy self.old.limit s →
            OnOk result (slice_get self.new.holdings.slots id ≡ Some Free) }
        ensures same_limit { self.new.limit ≡ self.old.limit }
    {
        let settled = self.settle_used();
        self.clear_used();
        self.look();
        settled
    }

    /// Looks at the table, and so knows what is true of each: the book knows no cell but those that keep a place, and what it
    /// knows weighs no more than the limit together.
    fn look(&self)
        ensures booked { AreBooked self.now.holdings.slots self.now.book }
        ensures fits { total_weight self.now.book ≤ self.now.limit }
    {
        let _count = self.slots.count();
    }

    /// The parts of a range, each of which keeps its cell, and for each that has none a free cell is reserved, while there is
    /// one. It takes for each that is reserved what `reserve` takes.
    ///
    /// On `OutOfMemory` some parts may be reserved.
    fn reserve_parts(
        &mut self,
        at: u64,
        join: &Join,
        rank: u8,
        range: &Range,
        parts: Vec<Part>,
    ) -> Result<Vec<Part>, OutOfMemory>
        requires table { AreOfTable self.old.holdings.slots at (table_of range.now.low) }
        requires join { JoinTo range.now (map (λ part. part.range) parts.items) }
        requires gaps { (part : Bounds) → Contains parts.items (record { range = part; cell = None }) → IsGap self.old.holdings.slots at part }
        ensures got { IfOk result (λ made. GetCells at rank join.now self.old parts.items made.items self.new) }
        ensures slots { ReservesParts self.old.holdings self.new.holdings at rank join.now range.now }
        ensures same_limit { self.new.limit ≡ self.old.limit }
        ensures same_book { self.new.book ≡ self.old.book }
    {
        let _ = range.lo();
        let mut made = Vec::with_capacity(self.alloc, parts.len())?;
        for part in parts {
            made.push(self.give_cell(at, join, rank, part)?)?;
        }
        Ok(made)
    }

    /// The part with its cell or, where it has none, with a free one that is reserved for it, if there is one.
    ///
    /// On `OutOfMemory` nothing changes.
    fn give_cell(&mut self, at: u64, join: &Join, rank: u8, part: Part) -> Result<Part, OutOfMemory>
        requires gap { part.cell ≡ None → IsGap self.old.holdings.slots at part.range }
        requires table { AreOfTable self.old.holdings.slots at (table_of part.range.low) }
        ensures got { IfOk result (λ made. GetsCellAs at rank join.now self.old part made self.new) }
        ensures err { OnErr result (self.new ≡ self.old) }
    {
        let Part { range, cell } = part;
        let cell = match cell {
            Some(id) => Some(id),
            None => self.reserve(at, join, rank, &range)?,
        };
        Ok(Part { range, cell })
    }

    /// Tells the book of the cells that were used, in order, and evicts what has to go.
    fn settle_used(&mut self) -> Result<(), OutOfMemory>
        ensures settled { OnOk result (self.new ≡ settled_all self.old.holdings.used self.old) }
        ensures first { SettlesFirst self.old self.new }
        ensures evicts { Evicts self.old.holdings.slots self.new.holdings.slots }
        ensures same_used { self.new.holdings.used ≡ self.old.holdings.used }
        ensures spared { (id at : ℕ) (s : KeptRange) → self.old.holdings.used ≡ id ∷ [] → slice_get self.old.holdings.slots id ≡ Some (Held at s) → length s.kept.rows + 1 ≤ self.old.limit →
            slice_get self.new.holdings.slots id ≡ Some (Held at s) }
        ensures heavy { (id at : ℕ) (s : KeptRange) → self.old.holdings.used ≡ id ∷ [] → slice_get self.old.holdings.slots id ≡ Some (Held at s) → IsTooHeavy self.old.limit s →
            OnOk result (slice_get self.new.holdings.slots id ≡ Some Free) }
        ensures same_limit { self.new.limit ≡ self.old.limit }
    {
        for index in 0..self.used.len() {
            let id = self.used[index];
            self.settle_cell(id)?;
        }
        Ok(())
    }

    /// Tells the book of a cell, if it holds a kept range, and evicts what has to go.
    fn settle_cell(&mut self, id: u32) -> Result<(), OutOfMemory>
        ensures told { (at : ℕ) (s : KeptRange) → slice_get self.old.holdings.slots id ≡ Some (Held at s) → OnOk result (self.new ≡ weighed id (length s.kept.rows) self.old) }
        ensures same { (IsHeld self.old.holdings.slots id → ⊥) → self.new ≡ self.old }
        ensures err { OnErr result (self.new ≡ self.old) }
        ensures evicts { Evicts self.old.holdings.slots self.new.holdings.slots }
        ensures same_used { self.new.holdings.used ≡ self.old.holdings.used }
        ensures spared { (at : ℕ) (s : KeptRange) → slice_get self.old.holdings.slots id ≡ Some (Held at s) → length s.kept.rows + 1 ≤ self.old.limit →
            slice_get self.new.holdings.slots id ≡ Some (Held at s) }
        ensures heavy { (at : ℕ) (s : KeptRange) → slice_get self.old.holdings.slots id ≡ Some (Held at s) → IsTooHeavy self.old.limit s →
            OnOk result (slice_get self.new.holdings.slots id ≡ Some Free) }
        ensures same_limit { self.new.limit ≡ self.old.limit }
    {
        let Some(Slot::Held(_, state)) = self.slots.get(id) else {
            return Ok(());
        };
        let rows = state.rows();
        let victims = self.book.touch(id, rows)?;
        self.evict_all(victims.as_slice());
        Ok(())
    }

    /// Evicts those of the cells that hold kept ranges.
    fn evict_all(&mut self, victims: &[u32])
        ensures freed { self.new ≡ freed_all victims.now self.old }
        ensures evicts { Evicts self.old.holdings.slots self.new.holdings.slots }
        ensures others { (id : ℕ) → (Contains victims.now id → ⊥) → slice_get self.new.holdings.slots id ≡ slice_get self.old.holdings.slots id }
        ensures gone { (id : ℕ) → Contains victims.now id → IsHeld self.old.holdings.slots id → slice_get self.new.holdings.slots id ≡ Some Free }
        ensures same_used { self.new.holdings.used ≡ self.old.holdings.used }
        ensures same_limit { self.new.limit ≡ self.old.limit }
    {
        for victim in victims {
            self.evict_held(*victim);
        }
    }

    /// Evicts a cell, if it holds a kept range.
    fn evict_held(&mut self, id: u32)
        ensures freed { IsHeld self.old.holdings.slots id → self.new ≡ without_cell id self.old }
        ensures same { (IsHeld self.old.holdings.slots id → ⊥) → self.new ≡ self.old }
        ensures evicts { Evicts self.old.holdings.slots self.new.holdings.slots }
        ensures others { (other : ℕ) → other ≢ id → slice_get self.new.holdings.slots other ≡ slice_get self.old.holdings.slots other }
        ensures gone { IsHeld self.old.holdings.slots id → slice_get self.new.holdings.slots id ≡ Some Free }
        ensures same_used { self.new.holdings.used ≡ self.old.holdings.used }
        ensures same_limit { self.new.limit ≡ self.old.limit }
    {
        if let Some(Slot::Held(_, _)) = self.slots.get(id) {
            self.evict(id);
        }
    }
}
