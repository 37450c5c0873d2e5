// The seats of the caches that tests make, with ample memory.
ghost use Rattle.std.specs.Prelude.{◌≤◌, IfOk};
ghost use Rattle.pequod_cache.specs.Sitting.{IsFresh};
ghost use Rattle.cache_trials.specs.Seated.{AreSeats};

use out_of_memory::OutOfMemory;
use pequod_cache::Seats;
use std::alloc::Global;

/// The seats of so many clients and so many cells.
pub fn make_seats(alloc: Global, clients: u32, cells: u32) -> Result<Seats, OutOfMemory>
    requires some_clients { 1 ≤ clients }
    requires few_clients { clients ≤ 65 }
    requires some_cells { 1 ≤ cells }
    requires few_cells { cells ≤ 65536 }
    ensures seats { IfOk result (λ seats. AreSeats seats.history seats) }
    ensures updater { IfOk result (λ seats. IsFresh seats.history seats.updater) }
{
    let seats = Seats::make(alloc, clients, cells)?;
    Ok(seats)
}
