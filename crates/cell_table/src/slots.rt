// The slots of cells, by their numbers.
ghost use Rattle.std.specs.Prelude.{◌≡◌, ◌↔◌, ◌<◌, ◌≤◌, IsTrue, length, replicate, slice_get, slice_set, IfOk, MatchOption, Some};
ghost use Rattle.std.specs.Option.{option_copied};
ghost use Rattle.cell_slots.specs.declared.slot.Slot.TheVariants.{Free};
ghost use Rattle.cell_slots.specs.Slots.{HasFree};
ghost use Rattle.cell_table.specs.Stores.{IsLowestFree};

use cell_slots::Slot;
use out_of_memory::OutOfMemory;
use std::alloc::Global;
use std::marker::Model;
use std::mem;

/// The slots of up to 65,536 cells.
#[derive(Drop)]
pub struct Slots {
    slots: Vec<Slot>,
    /// No slot below this number is free.
    least: u32,
}

impl Model for Slots {
    ghost use Rattle.std.specs.Prelude.{List};
    ghost use Rattle.cell_slots.specs.declared.slot.Slot.{Slot};
    ghost use Rattle.cell_table.specs.Stores.{AreSlots};

    ghost Value = { List Slot };

    ghost view = { λ s. s.slots.items };

    ghost invariant = { λ s. AreSlots s.slots.items s.least };
}

/// Whether a slot is free.
fn is_free(slot: &Slot) -> bool
    ensures { IsTrue result ↔ (slot.now ≡ Free) }
{
    matches!(slot, Slot::Free)
}

impl Slots {
    /// So many slots, all of them free.
    pub fn new(alloc: Global, count: u32) -> Result<Slots, OutOfMemory>
        requires { count ≤ 65536 }
        ensures { IfOk result (λ made. made ≡ replicate count Free) }
    {
        let mut slots = Vec::with_capacity(alloc, count as usize)?;
        for _ in 0..count {
            slots.push(Slot::Free)?;
        }
        Ok(Slots { slots, least: 0 })
    }

    /// The number of slots.
    pub fn count(&self) -> u32
        ensures count { result ≡ length self.now }
        ensures few { result ≤ 65536 }
    {
        self.slots.len() as u32
    }

    /// The slot with a number; none where there is no such cell.
    pub fn get(&self, id: u32) -> Option<&Slot>
        ensures { option_copied result ≡ slice_get self.now id }
    {
        self.slots.get(id as usize)
    }

    /// The least number of a free slot, if one is free. It looks at the slots from the least number on that may be free, which
    /// it notes: each slot is passed once between two that become free.
    pub fn lowest_free(&mut self) -> Option<u32>
        ensures lowest { MatchOption result (HasFree self.old → ⊥) (IsLowestFree self.old) }
        ensures same { self.new ≡ self.old }
    {
        while (self.least as usize) < self.slots.len() {
            if is_free(&self.slots[self.least as usize]) {
                return Some(self.least);
            }
            self.least += 1;
        }
        None
    }

    /// Puts something into the slot with a number, and gives what stood there. It takes constant time and no memory.
    pub fn put(&mut self, id: u32, slot: Slot) -> Slot
        requires { id < length self.old }
        ensures set { self.new ≡ slice_set self.old id slot }
        ensures was { slice_get self.old id ≡ Some result }
    {
        if is_free(&slot) && id < self.least {
            self.least = id;
        }
        let place = &mut self.slots[id as usize];
        mem::replace(place, slot)
    }
}
