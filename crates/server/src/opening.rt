// A cache that is served at an address.
ghost use Rattle.std.specs.Prelude.{◌≡◌, ◌+◌, ◌-◌, ◌≤◌, length, IfOk};
ghost use Rattle.pequod_cache.specs.Sitting.{AreOf, AreOfParts, AreWriters, IsFresh};
ghost use Rattle.pq_io.specs.Doors.{doors_told};
ghost use Rattle.pq_io.specs.Links.{link_told};
ghost use Rattle.server.specs.Endings.{EndedAs};
ghost use Rattle.server.specs.Staffs.{AreDeclarable};

use crate::declaring::Declaring;
use crate::serving::{Ended, serve_doors};
use crate::staffing::staff;
use base_shards::Naming;
use join_types::Join;
use out_of_memory::OutOfMemory;
use pequod_cache::Seats;
use pq_io::{Doors, Gate, Link};
use std::alloc::Global;
use std::marker::Brand;
use std::sync::Wait;
use std::thread::Threads;

/// How much a cache keeps, and how many serve it.
#[derive(Clone, Copy, Debug)]
pub struct Size {
    /// In how many cells, 1 to 65,536.
    pub cells: u32,
    /// How many rows.
    pub rows: u64,
    /// How many workers there are, 1 to 64: each serves one link at a time.
    pub workers: u32,
}

/// Where the doors are opened. A `&str` in the signature would keep a call from naming the history that was just made.
#[derive(Clone, Copy)]
struct Address<'a> {
    text: &'a str,
}

/// A history with passes for so many workers, for the client that declares the joins, and for so many cells.
fn make_seats(alloc: Global, workers: u32, cells: u32) -> Result<Seats, OutOfMemory>
    requires some_workers { 1 ≤ workers }
    requires few_workers { workers ≤ 64 }
    requires few_cells { cells ≤ 65536 }
    ensures clients { IfOk result (λ seats. AreWriters seats.history (length seats.clients.items) seats.clients.items) }
    ensures seated { IfOk result (λ seats. length seats.clients.items ≡ workers + 1) }
    ensures shards { IfOk result (λ seats. AreOfParts seats.history seats.shards.items) }
    ensures cells { IfOk result (λ seats. AreOf seats.history (length seats.cells.items) seats.cells.items) }
    ensures count { IfOk result (λ seats. length seats.cells.items ≡ cells) }
    ensures updater { IfOk result (λ seats. IsFresh seats.history seats.updater) }
{
    Seats::make(alloc, workers + 1, cells)
}

/// Serves the links of the doors, which are opened at the address, with the clients of a cache of these passes.
fn serve_seats<N, J, R, D, G>(
    rt: &R,
    alloc: Global,
    seats: Seats,
    limit: u64,
    joins: Vec<Join>,
    address: Address<'_>,
    doors: &mut D,
    gate: &G,
) -> Ended
where
    N: Naming + Send + Sync,
    J: Declaring,
    R: Threads + Wait + Sync,
    D: Doors,
    <D::Wire as Link>::Receipt: Send,
    G: Gate + Sync,
    requires named { seats.history ≡ N.history }
    requires clients { AreWriters N.history (length seats.clients.items) seats.clients.items }
    requires two { 2 ≤ length seats.clients.items }
    requires shards { AreOfParts N.history seats.shards.items }
    requires cells { AreOf N.history (length seats.cells.items) seats.cells.items }
    requires some_cells { 1 ≤ length seats.cells.items }
    requires few_cells { length seats.cells.items ≤ 65536 }
    requires updater { IsFresh N.history seats.updater }
    requires limit { 1 ≤ limit }
    requires joins { AreDeclarable joins.items }
    requires declares { joins.items ≡ J.joins }
    ensures ended { EndedAs (link_told D.Wire.left D.Wire.taken D.Wire.read_faults D.Wire.write_faults) D.Wire.tells
        (doors_told D.held D.returned D.opened D.faults) (length seats.clients.items - 1) J.joins address.entry.text.now doors.old doors.new result }
{
    let (first, workers, updater) = match staff::<N, G, R>(rt, alloc, seats, limit, joins, gate) {
        Ok((first, workers, updater)) => (first, workers, updater),
        Err(memory) => return Ended::OutOfMemory(memory),
    };
    serve_doors::<N, J, _, _, _>(rt, alloc, address.text, doors, first, workers, updater)
}

/// Makes a cache, declares the joins, starts the workers and an updater, opens the doors at the address, and serves each link that
/// they give until they close or fail. Then the receipts of all these links go back to the doors, a list of each worker. Before a
/// range of a join's output is filled or mended the gate is passed.
///
/// Where there is no memory for the cache, or no thread for one of the workers or the updater, the doors stay as they are.
pub fn serve<R, D, G>(
    rt: &R,
    alloc: Global,
    size: Size,
    joins: Vec<Join>,
    address: &str,
    doors: &mut D,
    gate: &G,
) -> Ended
where
    R: Threads + Wait + Sync,
    D: Doors,
    <D::Wire as Link>::Receipt: Send,
    G: Gate + Sync,
    requires some_cells { 1 ≤ size.cells }
    requires few_cells { size.cells ≤ 65536 }
    requires some_rows { 1 ≤ size.rows }
    requires some_workers { 1 ≤ size.workers }
    requires few_workers { size.workers ≤ 64 }
    requires joins { AreDeclarable joins.items }
    ensures ended { EndedAs (link_told D.Wire.left D.Wire.taken D.Wire.read_faults D.Wire.write_faults) D.Wire.tells
        (doors_told D.held D.returned D.opened D.faults) size.workers joins.items address.now doors.old doors.new result }
{
    let seats = match make_seats(alloc, size.workers, size.cells) {
        Ok(seats) => seats,
        Err(memory) => return Ended::OutOfMemory(memory),
    };
    let address = Address { text: address };
    serve_seats::<Brand, Brand, _, _, _>(rt, alloc, seats, size.rows, joins, address, doors, gate)
}
