// Directories of places.
ghost use Rattle.std.specs.Prelude.{◌≡◌, [], true, IfOk, OnOk, OnErr};
ghost use Rattle.semantics.specs.Texts.{table_of};
ghost use Rattle.key_ranges.specs.Ranges.{is_open};
ghost use Rattle.range_set.specs.Held.{are_apart, are_of_table, is_free, with_range, without_range};
ghost use Rattle.cell_slots.specs.Places.{ArePieces};
ghost use Rattle.cell_table.specs.Places.{KeepsAll, LeavesPlace, Replaces, held_at};

use cell_slots::Slot;
use key_space::Range;
use out_of_memory::OutOfMemory;
use range_set::{Piece, RangeSet};
use std::alloc::Global;
use std::collections::BTreeMap;
use std::marker::Model;

/// The ranges that have a cell, each with the cell's number, by the position of their join's declaration.
#[derive(Drop)]
pub struct Directory {
    alloc: Global,
    sets: BTreeMap<u64, RangeSet<u32>>,
}

impl Model for Directory {
    ghost use Rattle.cell_table.specs.Places.{Places};

    ghost Value = { Places };

    ghost view = { λ d. d.sets.entries };
}

impl Directory {
    /// No ranges. Nothing is allocated.
    pub fn new(alloc: Global) -> Directory
        ensures { result ≡ [] }
    {
        Directory {
            alloc,
            sets: BTreeMap::new(alloc),
        }
    }

    /// The pieces of a range, in order: what it has in common with ranges of the join that have a cell, and the gaps. It takes
    /// two searches, which are logarithmic in the joins and in the ranges of this one, and is linear in the pieces.
    pub fn cover(&self, at: u64, range: &Range) -> Result<Vec<Piece<u32>>, OutOfMemory>
        ensures pieces { IfOk result (λ pieces. ArePieces range.now (held_at self.now at) pieces.items) }
        ensures apart { are_apart (held_at self.now at) ≡ true }
    {
        match self.sets.get(&at) {
            Some(set) => set.cover(range),
            None => {
                let none: RangeSet<u32> = RangeSet::new(self.alloc);
                none.cover(range)
            }
        }
    }

    /// Gives a range of the join the cell with this number. It takes two searches.
    ///
    /// On `OutOfMemory` the ranges are those that were.
    pub fn insert(&mut self, at: u64, range: Range, id: u32) -> Result<(), OutOfMemory>
        requires open { is_open range ≡ true }
        requires free { is_free (held_at self.old at) range ≡ true }
        requires table { are_of_table (held_at self.old at) (table_of range.low) ≡ true }
        ensures ok { OnOk result (Replaces at (with_range range id (held_at self.old at)) self.old self.new) }
        ensures err { OnErr result (KeepsAll self.old self.new) }
    {
        match self.sets.get_mut(&at) {
            Some(set) => set.insert(range, id),
            None => {
                let mut set = RangeSet::new(self.alloc);
                set.insert(range, id)?;
                self.sets.insert(at, set)?;
                Ok(())
            }
        }
    }

    /// Takes out the range of the join that has these bounds, if it is there. It takes two searches, and no memory.
    fn remove(&mut self, at: u64, range: &Range)
        ensures { Replaces at (without_range range.now (held_at self.old at)) self.old self.new }
    {
        if let Some(set) = self.sets.get_mut(&at) {
            set.remove(range);
        }
    }

    /// Takes out the place of the kept range that a slot held, if it held one. It takes two searches, and no memory.
    pub fn leave(&mut self, slot: &Slot)
        ensures { LeavesPlace slot.now self.old self.new }
    {
        match slot {
            Slot::Held(at, state) => self.remove(*at, state.range()),
            Slot::Lent(_, _) | Slot::Free => {}
        }
    }
}
