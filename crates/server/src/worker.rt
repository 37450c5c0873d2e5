// Workers: who serves links, what they have of a queue, and what they leave.
ghost use Rattle.std.specs.Prelude.{◌≡◌, ◌<◌, ◌-◌, [], length, IfOk, OnOk};
ghost use Rattle.pq_io.specs.Links.{link_told};
ghost use Rattle.server.specs.Receipts.{HasWorked, hired};

use crate::beside::Labour;
use crate::updating::Ringing;
use crate::working::serve_queued;
use base_shards::Naming;
use door_queue::{Bell, Drained, TalliedQueue, Tally};
use out_of_memory::OutOfMemory;
use pequod_cache::{Client, ClientService};
use pq_io::{Gate, Link};
use std::alloc::Global;
use std::marker::Model;
use std::sync::Wait;

/// A client that serves the links of a queue, the tally of those that it took, and their receipts.
#[derive(Drop)]
pub struct Worker<'g, N: Naming, G, K: Link> {
    /// What serves the links.
    pub client: Client<'g, N, G>,
    /// What it took of the queue, with a part of the whole tally.
    pub tally: Tally<K>,
    /// The receipts of the links that it took, in order.
    pub receipts: Vec<K::Receipt>,
}

impl<'g, N: Naming, G, K: Link> Model for Worker<'g, N, G, K> {
    ghost use Rattle.std.specs.Prelude.{◌<◌};
    ghost use Rattle.server.specs.Receipts.{WorkerView};

    ghost Value = { WorkerView K K.Receipt };

    ghost view = { λ w. record { client = w.client; tally = w.tally; receipts = w.receipts.items } };

    ghost invariant = { λ w. 0 < w.tally.parts };
}

impl<'g, N: Naming, G, K: Link> Worker<'g, N, G, K> {
    /// A worker that has served nothing, with a part of a tally.
    fn new(alloc: Global, client: Client<'g, N, G>, tally: Tally<K>) -> Worker<'g, N, G, K>
        requires { 0 < tally.parts }
        ensures { result ≡ record { client = client.entry; tally = tally; receipts = [] } }
    {
        Worker {
            client,
            tally,
            receipts: Vec::new(alloc),
        }
    }
}

impl<'g, N: Naming, G: Gate, K: Link> Labour for Worker<'g, N, G, K> {
    type Item = K;

    type Left = Worker<'g, N, G, K>;

    ghost is_of = { λ w queue. w.tally.queue ≡ queue };

    ghost leaves = { HasWorked (link_told K.left K.taken K.read_faults K.write_faults) K.tells };

    /// Serves the links that the queue gives, one after another, until the queue is closed and empty. However one link ends, the
    /// next is served. The bell is rung after each write that is acknowledged.
    fn work<R: Wait>(
        self,
        rt: &R,
        alloc: Global,
        queue: &TalliedQueue<K>,
        bell: &Bell,
    ) -> (Worker<'g, N, G, K>, Drained<K>) {
        let Worker {
            client,
            mut tally,
            mut receipts,
        } = self;
        let service = ClientService { rt, client };
        let mut ringing = Ringing { rt, bell, service };
        let drained = serve_queued(rt, alloc, queue, &mut ringing, &mut tally, &mut receipts);
        let Ringing { service, .. } = ringing;
        let ClientService { client, .. } = service;
        let worker = Worker {
            client,
            tally,
            receipts,
        };
        (worker, drained)
    }
}

/// Makes a worker for each client, in order. Linear in their number.
///
/// `OutOfMemory`: none was found for the list. The clients are let go.
pub fn hire<'g, N: Naming, G, K: Link>(
    alloc: Global,
    queue: &TalliedQueue<K>,
    tally: &mut Tally<K>,
    clients: Vec<Client<'g, N, G>>,
) -> Result<Vec<Worker<'g, N, G, K>>, OutOfMemory>
    requires queue { tally.old.queue ≡ queue.now }
    requires parts { length clients.items < tally.old.parts }
    ensures workers { IfOk result (λ workers. workers.items ≡ hired queue.now clients.entry.items) }
    ensures tally { OnOk result (tally.new ≡ record tally.old { parts = tally.old.parts - length clients.entry.items }) }
{
    let mut workers = Vec::with_capacity(alloc, clients.len())?;
    for client in clients {
        let part = queue.split(tally);
        workers.push(Worker::new(alloc, client, part))?;
    }
    Ok(workers)
}
