// What workers leave when they have ended.
ghost use Rattle.std.specs.Prelude.{◌≡◌, ◌+◌, ◌<◌, ◌≤◌, ◌++◌, ◌∷◌, [], length, map, vec_capacity};
ghost use Rattle.std.specs.List.{AllByRecursion};
ghost use Rattle.pq_io.specs.Doors.{lists_of};
ghost use Rattle.pq_io.specs.Links.{link_told};
ghost use Rattle.door_queue.specs.Tallies.{all_parts};
ghost use Rattle.server.specs.Staffs.{AreStaff};
ghost use Rattle.server.specs.Receipts.{CameBack, HaveWorked, ServedTheRest, hired, joined_all};

use crate::declaring::Declaring;
use crate::worker::Worker;
use crate::working::serve_left;
use base_shards::Naming;
use door_queue::{TalliedQueue, Tally};
use pequod_cache::{Client, ClientService, meet_all};
use pq_io::{Gate, Link};
use std::alloc::Global;
use std::sync::Wait;

/// Takes workers apart: joins their tallies to one, and puts their clients and their receipts behind the others, where there is
/// room for them.
fn part_all<'g, N: Naming, G, K: Link>(
    queue: &TalliedQueue<K>,
    tally: &mut Tally<K>,
    workers: Vec<Worker<'g, N, G, K>>,
    clients: &mut Vec<Client<'g, N, G>>,
    receipts: &mut Vec<Vec<K::Receipt>>,
)
    requires queue { tally.old.queue ≡ queue.now }
    requires parts { 0 < tally.old.parts }
    requires workers { AllByRecursion (λ w. w.tally.queue ≡ queue.now) workers.items }
    requires room { length clients.old.items + length workers.items ≤ vec_capacity clients.old }
    requires place { length receipts.old.items + length workers.items ≤ vec_capacity receipts.old }
    ensures tally { tally.new ≡ joined_all tally.old (map (λ w. w.tally) workers.entry.items) }
    ensures clients { clients.new.items ≡ clients.old.items ++ map (λ w. w.client) workers.entry.items }
    ensures receipts { lists_of receipts.new.items ≡ lists_of receipts.old.items ++ map (λ w. w.receipts) workers.entry.items }
    ensures place { vec_capacity receipts.new ≡ vec_capacity receipts.old }
{
    for worker in workers {
        let Worker {
            client,
            tally: theirs,
            receipts: list,
        } = worker;
        queue.join(tally, theirs);
        clients.push_reserved(client);
        receipts.push_reserved(list);
    }
}

/// Serves with the last worker the links that are left in the queue, when the tallies of the others are joined to one. Then its
/// client meets the others twice, and it gives its receipts: at the first meetings it sees all that they have written, and since
/// they then see all that it had seen, none of them had written more.
fn serve_rest<'g, N: Naming, G: Gate, K: Link, R: Wait>(
    rt: &R,
    alloc: Global,
    queue: &TalliedQueue<K>,
    tally: &mut Tally<K>,
    last: Worker<'g, N, G, K>,
    mut others: Vec<Client<'g, N, G>>,
) -> Vec<K::Receipt>
    requires queue { tally.old.queue ≡ queue.now }
    requires same_queue { last.tally.queue ≡ queue.now }
    requires parts { 0 < tally.old.parts }
    requires whole { tally.old.parts + last.tally.parts ≡ all_parts }
    ensures { ServedTheRest (link_told K.left K.taken K.read_faults K.write_faults) K.tells last.entry others.entry.items tally.old tally.new result.items }
{
    let Worker {
        client,
        tally: theirs,
        mut receipts,
    } = last;
    queue.join(tally, theirs);
    let mut service = ClientService { rt, client };
    serve_left(rt, alloc, queue, &mut service, tally, &mut receipts);
    let ClientService { mut client, .. } = service;
    meet_all(rt, &mut client, &mut others);
    meet_all(rt, &mut client, &mut others);
    receipts
}

/// Gives the receipts of workers that have ended, a list of each, in order. Where links are left, the last worker serves them
/// first. Of the clients there is the one that declared the joins, and the two lists have room for all but the last worker's client
/// and for the receipts.
pub fn settle<'g, N: Naming, J: Declaring, G: Gate, K: Link, R: Wait>(
    rt: &R,
    alloc: Global,
    queue: &TalliedQueue<K>,
    mut tally: Tally<K>,
    mut workers: Vec<Worker<'g, N, G, K>>,
    mut clients: Vec<Client<'g, N, G>>,
    mut receipts: Vec<Vec<K::Receipt>>,
) -> Vec<Vec<K::Receipt>>
    requires queue { tally.queue ≡ queue.now }
    requires parts { 0 < tally.parts }
    requires whole { tally.parts + length workers.items ≡ all_parts }
    requires taken { tally.taken ≡ [] }
    requires some { 1 ≤ length workers.items }
    requires worked { (first : _) × (starts : _) × (clients.items ≡ first ∷ []) × AreStaff N.history J.joins first starts × HaveWorked (link_told K.left K.taken K.read_faults K.write_faults) K.tells (hired queue.now starts) workers.items }
    requires no_receipts { receipts.items ≡ [] }
    requires room { length workers.items ≤ vec_capacity clients }
    requires place { length workers.items ≤ vec_capacity receipts }
    ensures back { CameBack (link_told K.left K.taken K.read_faults K.write_faults) K.tells J.joins tally.put (lists_of result.items) }
    ensures count { length (lists_of result.items) ≡ length workers.entry.items }
{
    let Some(last) = workers.pop() else {
        unreachable!()
    };
    part_all(queue, &mut tally, workers, &mut clients, &mut receipts);
    receipts.push_reserved(serve_rest(rt, alloc, queue, &mut tally, last, clients));
    receipts
}
