// Opening doors, and serving their links, by an acceptor, workers and an updater.
ghost use Rattle.std.specs.Prelude.{◌≡◌, ◌<◌, ◌≤◌, length, IfOk, OnErr, OnOk};
ghost use Rattle.std.specs.List.{AllByRecursion};
ghost use Rattle.pq_io.specs.Doors.{OpenedFor, doors_told};
ghost use Rattle.pq_io.specs.Faults.{HasCause};
ghost use Rattle.pq_io.specs.Links.{link_told};
ghost use Rattle.server.specs.Doors.{HoldNone};
ghost use Rattle.server.specs.Staffs.{AreStaff};
ghost use Rattle.server.specs.Receipts.{HasAccepted, HaveWorked};
ghost use Rattle.server.specs.Endings.{EndedAs, end_of};

use crate::accepting::accept;
use crate::beside::beside_all;
use crate::declaring::Declaring;
use crate::settling::settle;
use crate::worker::{Worker, hire};
use base_shards::Naming;
use door_queue::{Bell, TalliedQueue, Tally};
use out_of_memory::OutOfMemory;
use pequod_cache::{Client, Updater};
use pq_io::{Doors, Failed, Gate, Link};
use std::alloc::Global;
use std::sync::Wait;
use std::thread::Threads;

/// How many accepted links may wait for a worker.
const WAITING: usize = 64;

/// How serving ended.
#[derive(Debug, Drop, PartialEq, Eq)]
pub enum Ended {
    /// The doors are closed: they hold no link any more.
    Closed,
    /// The doors could not be opened, or failed: their count of faults rose.
    Failed,
    /// No memory was found at the start, or no thread for a worker or for the updater. The doors are as they were.
    OutOfMemory(OutOfMemory),
}

/// How the doors ended, and the workers when they have.
type Accepted<'g, N, G, K> = (Result<(), Failed>, Vec<Worker<'g, N, G, K>>);

/// Takes the links of the doors, which are opened at the address, beside the workers and beside an updater, and closes the queue
/// when the doors are closed or fail. It returns when all have ended, and gives how the doors ended and the workers, in order.
/// `OutOfMemory`: a thread could not be made for each of them, and the doors are as they were.
fn accept_beside<'g, N, G, D, R>(
    rt: &R,
    alloc: Global,
    address: &str,
    doors: &mut D,
    queue: &TalliedQueue<D::Wire>,
    tally: &mut Tally<D::Wire>,
    workers: Vec<Worker<'g, N, G, D::Wire>>,
    updater: Updater<'g, N, G>,
) -> Result<Accepted<'g, N, G, D::Wire>, OutOfMemory>
where
    N: Naming + Send + Sync,
    G: Gate + Sync,
    D: Doors,
    <D::Wire as Link>::Receipt: Send,
    R: Threads + Wait + Sync,
    requires queue { tally.old.queue ≡ queue.now }
    requires parts { 0 < tally.old.parts }
    requires workers { AllByRecursion (λ w. w.tally.queue ≡ queue.now) workers.items }
    ensures accepted { OnOk result (HasAccepted (D.held doors.old) (D.held doors.new) tally.old tally.new) }
    ensures closed { IfOk result (λ done. OnOk done.0 (HoldNone (D.held doors.new))) }
    ensures opened { IfOk result (λ done. OpenedFor (D.opened doors.old) (D.opened doors.new) address.now done.0) }
    ensures cause { IfOk result (λ done. HasCause (D.faults doors.old) (D.faults doors.new) done.0) }
    ensures worked { IfOk result (λ done. HaveWorked (link_told D.Wire.left D.Wire.taken D.Wire.read_faults D.Wire.write_faults) D.Wire.tells workers.entry.items done.1.items) }
    ensures unchanged { OnErr result (doors.new ≡ doors.old) }
{
    let bell = Bell::new();
    beside_all(
        rt,
        alloc,
        queue,
        &bell,
        workers,
        updater,
        &mut ||
            requires { (tally.now.queue ≡ queue.now) × (0 < tally.now.parts) }
        { accept(rt, address, doors, queue, tally) },
    )
}

/// How serving ends, by how the doors ended.
fn ended_by(accepted: Result<(), Failed>) -> Ended
    ensures { result ≡ end_of accepted }
{
    match accepted {
        Ok(()) => Ended::Closed,
        Err(Failed) => Ended::Failed,
    }
}

/// Opens the doors at the address once there are a worker for each client and an updater, each on a thread of its own, and serves
/// the links of the doors until they are closed or fail: this thread takes them, and the workers serve them, one after another. Up
/// to 64 links wait for a worker, and one more in hand; then none is taken. Beside them the updater brings kept ranges forward
/// after writes. When all have ended, the receipts of the links go back to the doors.
///
/// It says how it ended, and of the links that the doors gave, that each was served once, as its receipt tells, over one history:
/// there the first client has declared the joins, and nobody else has written but the workers' clients, for the links that they
/// served.
pub fn serve_doors<'g, N, J, G, D, R>(
    rt: &R,
    alloc: Global,
    address: &str,
    doors: &mut D,
    first: Client<'g, N, G>,
    clients: Vec<Client<'g, N, G>>,
    updater: Updater<'g, N, G>,
) -> Ended
where
    N: Naming + Send + Sync,
    J: Declaring,
    G: Gate + Sync,
    D: Doors,
    <D::Wire as Link>::Receipt: Send,
    R: Threads + Wait + Sync,
    requires some { 1 ≤ length clients.items }
    requires staff { AreStaff N.history J.joins first clients.items }
    ensures ended { EndedAs (link_told D.Wire.left D.Wire.taken D.Wire.read_faults D.Wire.write_faults) D.Wire.tells
        (doors_told D.held D.returned D.opened D.faults) (length clients.entry.items) J.joins address.now doors.old doors.new result }
{
    let count = clients.len();
    let mut others = match Vec::with_capacity(alloc, count) {
        Ok(room) => room,
        Err(error) => return Ended::OutOfMemory(OutOfMemory::from(error)),
    };
    others.push_reserved(first);
    let receipts = match Vec::with_capacity(alloc, count) {
        Ok(room) => room,
        Err(error) => return Ended::OutOfMemory(OutOfMemory::from(error)),
    };
    let (queue, mut tally) = match TalliedQueue::new(alloc, WAITING) {
        Ok((queue, tally)) => (queue, tally),
        Err(memory) => return Ended::OutOfMemory(memory),
    };
    let workers = match hire(alloc, &queue, &mut tally, clients) {
        Ok(workers) => workers,
        Err(memory) => return Ended::OutOfMemory(memory),
    };
    let served = accept_beside(
        rt, alloc, address, doors, &queue, &mut tally, workers, updater,
    );
    let (accepted, workers) = match served {
        Ok((accepted, workers)) => (accepted, workers),
        Err(memory) => return Ended::OutOfMemory(memory),
    };
    let receipts = settle::<N, J, _, _, _>(rt, alloc, &queue, tally, workers, others, receipts);
    doors.take_back(receipts);
    ended_by(accepted)
}
