// When cells were last used.

use out_of_memory::OutOfMemory;
use std::alloc::Global;

/// A count of the uses of cells, and of each when it was last used, in room that is made before its number gets a cell: so that is
/// known also where there was no memory to tell the book of a use.
#[derive(Drop)]
pub struct Uses {
    /// How many uses there were.
    count: u64,
    /// Of each number, after how many uses its cell was last used, with that use.
    last: Vec<u64>,
}

impl Uses {
    /// No uses, and room for none. Nothing is allocated.
    pub fn new(alloc: Global) -> Uses {
        Uses {
            count: 0,
            last: Vec::new(alloc),
        }
    }

    /// Makes room for the uses of the cells with numbers up to this one. It takes constant time where there is room, and is linear
    /// in the numbers for which there is none.
    pub fn reach(&mut self, id: u32) -> Result<(), OutOfMemory> {
        let count = id as usize + 1;
        if self.last.len() < count {
            self.last.resize(count, 0)?;
        }
        Ok(())
    }

    /// Takes note that the cell with a number is used now. It takes constant time, and no memory.
    pub fn note(&mut self, id: u32) {
        self.count = self.count.saturating_add(1);
        if let Some(last) = self.last.get_mut(id as usize) {
            *last = self.count;
        }
    }

    /// Tells how many uses there were.
    pub fn count(&self) -> u64 {
        self.count
    }

    /// Tells after how many uses the cell with a number was last used, with that use; 0 where it was not used. None where there is
    /// no room for the number. It takes constant time.
    pub fn last(&self, id: u32) -> Option<u64> {
        self.last.get(id as usize).copied()
    }
}
