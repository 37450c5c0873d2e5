// A load by workers, and its line.
ghost use Rattle.std.specs.Prelude.{◌≡◌, ◌+◌, ◌≤◌, length, IfOk};
ghost use Rattle.pequod_cache.specs.Sitting.{AreOf, AreOfParts, AreWriters};
ghost use Rattle.load_gen.specs.Lines.{load_line};

use crate::declaring::declare_joins;
use crate::reading::read_all;
use crate::text::tables_line;
use crate::working::work_all;
use base_shards::Naming;
use load_gen::plan;
use out_of_memory::OutOfMemory;
use pequod_cache::{Cache, Seats};
use pq_io::Gate;
use std::alloc::Global;
use std::marker::Brand;
use std::sync::Wait;
use std::thread::Threads;

/// What is loaded.
#[derive(Clone, Copy, Debug, PartialEq, Eq)]
pub struct Load {
    /// The number from which the acts are drawn.
    pub number: u64,
    /// How many acts there are.
    pub steps: u32,
    /// How many users there are.
    pub users: u32,
    /// How many workers share them, 1 to 64.
    pub workers: u32,
}

/// A history with passes for so many workers, for the client that declares the joins, and for so many cells.
fn make_seats(alloc: Global, workers: u32, cells: u32) -> Result<Seats, OutOfMemory>
    requires some_workers { 1 ≤ workers }
    requires few_workers { workers ≤ 64 }
    requires few_cells { cells ≤ 65536 }
    ensures clients { IfOk result (λ seats. AreWriters seats.history (length seats.clients.items) seats.clients.items) }
    ensures two { IfOk result (λ seats. 2 ≤ length seats.clients.items) }
    ensures shards { IfOk result (λ seats. AreOfParts seats.history seats.shards.items) }
    ensures cells { IfOk result (λ seats. AreOf seats.history (length seats.cells.items) seats.cells.items) }
    ensures count { IfOk result (λ seats. length seats.cells.items ≡ cells) }
{
    Seats::make(alloc, workers + 1, cells)
}

/// Does a load with the clients of a cache of these passes, and gives its line: the first client declares the joins, and each
/// other one is a worker.
fn load_seats<N, R, G>(
    rt: &R,
    alloc: Global,
    seats: Seats,
    gate: &G,
    limit: u64,
    load: Load,
) -> Result<Vec<u8>, OutOfMemory>
where
    N: Naming + Send + Sync,
    R: Threads + Wait + Sync,
    G: Gate + Sync,
    requires named { seats.history ≡ N.history }
    requires clients { AreWriters N.history (length seats.clients.items) seats.clients.items }
    requires two { 2 ≤ length seats.clients.items }
    requires shards { AreOfParts N.history seats.shards.items }
    requires cells { AreOf N.history (length seats.cells.items) seats.cells.items }
    requires some_cells { 1 ≤ length seats.cells.items }
    requires few_cells { length seats.cells.items ≤ 65536 }
    requires limit { 1 ≤ limit }
    requires some_users { 1 ≤ load.users }
    requires few_users { load.users ≤ 9999 }
    requires few_steps { load.steps ≤ 1000000 }
    ensures { IfOk result (λ line. line.items ≡ load_line load.number load.steps load.users) }
{
    let mut clients = Cache::<N>::make(alloc, seats, limit, gate)?;
    let mut first = clients.remove(0);
    declare_joins(rt, alloc, &mut first)?;
    let acts = plan(alloc, load.number, load.steps, load.users)?;
    let workers = work_all(rt, alloc, clients, acts)?;
    let tables = read_all(rt, alloc, first, workers)?;
    tables_line(alloc, tables)
}

/// Does a load over so many cells and rows, and gives the line of what stands then: how many entries there are, how many pairs
/// each of the tables `s`, `p`, `v`, `t` and `karma` holds, and how many bytes all their keys and values have. Each worker has a
/// client of its own of one cache, does the acts whose poster modulo the workers is its number, in order, and works in a thread
/// of its own where one can be made. Before a range of a join's output is filled or mended the gate is passed. The line does not
/// depend on the cells, the rows and the workers.
///
/// It may report that it found no memory. It keeps all acts, of some 100 bytes each besides their keys and values.
pub fn load_text<R: Threads + Wait + Sync, G: Gate + Sync>(
    rt: &R,
    alloc: Global,
    gate: &G,
    cells: u32,
    limit: u64,
    load: Load,
) -> Result<Vec<u8>, OutOfMemory>
    requires some_cells { 1 ≤ cells }
    requires few_cells { cells ≤ 65536 }
    requires some_rows { 1 ≤ limit }
    requires some_users { 1 ≤ load.users }
    requires few_users { load.users ≤ 9999 }
    requires few_steps { load.steps ≤ 1000000 }
    requires some_workers { 1 ≤ load.workers }
    requires few_workers { load.workers ≤ 64 }
    ensures { IfOk result (λ line. line.items ≡ load_line load.number load.steps load.users) }
{
    let seats = make_seats(alloc, load.workers, cells)?;
    load_seats::<Brand, _, _>(rt, alloc, seats, gate, limit, load)
}
