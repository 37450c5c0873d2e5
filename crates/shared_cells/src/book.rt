// The order in which cells were last used, behind a lock.
ghost use Rattle.std.specs.Prelude.{◌≡◌, ◌≤◌};

use evict_book::EvictBook;
use out_of_memory::OutOfMemory;
use std::alloc::Global;

/// The book of the cells with numbers below a number.
#[derive(Drop)]
pub struct CellBook {
    alloc: Global,
    cells: u32,
    book: EvictBook,
    ghost numbers: { book.cells ≡ cells },
}

impl CellBook {
    /// The book of cells that none has used, which may weigh so much together.
    pub fn new(alloc: Global, cells: u32, limit: u64) -> Result<CellBook, OutOfMemory>
        requires cells { 1 ≤ cells }
        requires limit { 1 ≤ limit }
    {
        let book = EvictBook::new(alloc, cells, limit)?;
        Ok(CellBook { alloc, cells, book })
    }

    /// Takes note that a cell with so many rows was used, and says which cells have to go. A number that no cell has is not noted.
    /// It takes a look-up, and is linear in the cells that it gives.
    pub fn touch(&mut self, id: u32, rows: u64) -> Result<Vec<u32>, OutOfMemory> {
        if id < self.cells {
            return self.book.touch(id, rows);
        }
        Ok(Vec::new(self.alloc))
    }

    /// Takes note that a cell is free. It takes a look-up.
    pub fn gone(&mut self, id: u32) {
        if id < self.cells {
            self.book.gone(id);
        }
    }
}
