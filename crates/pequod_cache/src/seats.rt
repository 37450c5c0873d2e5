// A history, and its passes for the parts of a cache.
ghost use Rattle.std.specs.Prelude.{◌≤◌, IfOk};
ghost use Rattle.pequod_cache.specs.Sitting.{AreOf, AreOfParts, AreWriters, IsFresh};

use base_shards::SHARDS;
use out_of_memory::OutOfMemory;
use std::alloc::Global;
use write_history::{History, Pass};

/// A history without entries, and its passes for the clients, the parts of the base pairs, the cells and an updater of one cache.
#[derive(Drop)]
pub struct Seats {
    /// The history.
    pub history: History,
    /// The passes of the clients, which alone may write, with the numbers from 0 up.
    pub clients: Vec<Pass>,
    /// One for each of the 16 parts, which notes how far it has come.
    pub shards: Vec<Pass>,
    /// One for each cell.
    pub cells: Vec<Pass>,
    /// That of an updater.
    pub updater: Pass,
}

impl Seats {
    /// A history for so many clients and so many cells, and its passes. Linear in both.
    ///
    /// It may report that it found no memory.
    pub fn make(alloc: Global, clients: u32, cells: u32) -> Result<Seats, OutOfMemory>
        requires some_clients { 1 ≤ clients }
        requires few_clients { clients ≤ 65 }
        requires few_cells { cells ≤ 65536 }
        ensures clients { IfOk result (λ seats. AreWriters seats.history clients seats.clients.items) }
        ensures shards { IfOk result (λ seats. AreOfParts seats.history seats.shards.items) }
        ensures cells { IfOk result (λ seats. AreOf seats.history cells seats.cells.items) }
        ensures updater { IfOk result (λ seats. IsFresh seats.history seats.updater) }
    {
        let parts = u32::from(SHARDS);
        let (history, mut passes) = History::with_pins(alloc, clients, 1, parts, cells)?;
        let cells = passes.split_off((clients + 1 + parts) as usize)?;
        let shards = passes.split_off((clients + 1) as usize)?;
        let Some(updater) = passes.pop() else {
            unreachable!()
        };
        Ok(Seats {
            history,
            clients: passes,
            shards,
            cells,
            updater,
        })
    }
}
