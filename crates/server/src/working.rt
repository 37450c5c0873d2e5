// Serving links one after another.
ghost use Rattle.std.specs.Prelude.{◌≡◌, ◌<◌};
ghost use Rattle.std.specs.Vec.{vec_len, vec_capacity};
ghost use Rattle.pq_io.specs.Links.{link_told};
ghost use Rattle.door_queue.specs.Tallies.{EachOnce, all_parts};
ghost use Rattle.server.specs.Receipts.{HasServed, WasServed};

use door_queue::{Drained, TalliedQueue, Tally};
use out_of_memory::OutOfMemory;
use pq_io::Link;
use session::{End, Service, serve_link};
use std::alloc::Global;
use std::sync::Wait;
use std::thread;

/// How often a link is tried. By then a cache of which the others keep nothing more meanwhile has let go of everything.
const MOST_TRIES: u32 = 65;

/// Serves a link with this service. Where no memory is found to begin with, the link is as it was, the service makes room, and it
/// is tried again, as long as something went. It gives what was refused to the last try, where that found no memory either.
fn serve_patiently<S: Service, K: Link>(
    alloc: Global,
    service: &mut S,
    link: &mut K,
) -> Option<OutOfMemory>
    ensures served { WasServed (S.number service.old) (S.view service.old) (S.view service.new)
        (link_told K.left K.taken K.read_faults K.write_faults link.old)
        (record (link_told K.left K.taken K.read_faults K.write_faults link.new) { refused = result }) }
    ensures same_number { S.number service.new ≡ S.number service.old }
{
    let mut refused = None;
    for _ in 0..MOST_TRIES {
        let end = serve_link(alloc, service, link);
        let End::OutOfMemory(memory) = end else {
            return None;
        };
        refused = Some(memory);
        if !service.make_room() {
            return refused;
        }
    }
    refused
}

/// Serves a link with this service, and gives its receipt.
fn serve_one<S: Service, K: Link>(alloc: Global, service: &mut S, mut link: K) -> K::Receipt
    ensures served { WasServed (S.number service.old) (S.view service.old) (S.view service.new)
        (link_told K.left K.taken K.read_faults K.write_faults link) (K.tells result) }
    ensures same_number { S.number service.new ≡ S.number service.old }
{
    let refused = serve_patiently(alloc, service, &mut link);
    link.finish(refused)
}

/// Makes room for one receipt more, before a link is taken. Where no memory is found for it, the service makes room, and it is
/// tried again until some is found. Receipts that have no bytes take none.
fn reserve_one<S: Service, A, R: Wait>(rt: &R, service: &S, receipts: &mut Vec<A>)
    ensures items { receipts.new.items ≡ receipts.old.items }
    ensures room { vec_len receipts.new < vec_capacity receipts.new }
{
    for _ in rt.forever() {
        if receipts.reserve(1).is_ok() {
            return;
        }
        service.make_room();
        thread::yield_now();
    }
    unreachable!()
}

/// Serves the links that the queue gives with this service, one after another, until `take` says that it is closed and empty, puts
/// their receipts behind the others, and gives what `take` said. However one link ends, the next is served.
pub fn serve_queued<S: Service, K: Link, R: Wait>(
    rt: &R,
    alloc: Global,
    queue: &TalliedQueue<K>,
    service: &mut S,
    tally: &mut Tally<K>,
    receipts: &mut Vec<K::Receipt>,
) -> Drained<K>
    requires queue { tally.old.queue ≡ queue.now }
    requires parts { 0 < tally.old.parts }
    ensures served { HasServed (link_told K.left K.taken K.read_faults K.write_faults) K.tells
        (S.number service.old) (S.view service.old) (S.view service.new) tally.old tally.new receipts.old.items receipts.new.items }
    ensures same_number { S.number service.new ≡ S.number service.old }
    ensures drained { result ≡ queue.now }
{
    for _ in rt.forever() {
        reserve_one(rt, service, receipts);
        match queue.take(rt, tally) {
            Ok(link) => receipts.push_reserved(serve_one(alloc, service, link)),
            Err(drained) => return drained,
        }
    }
    unreachable!()
}

/// Serves the links that are left in the queue when all tallies are joined to one, as `serve_queued` does. Then each link that was
/// put was taken once.
pub fn serve_left<S: Service, K: Link, R: Wait>(
    rt: &R,
    alloc: Global,
    queue: &TalliedQueue<K>,
    service: &mut S,
    tally: &mut Tally<K>,
    receipts: &mut Vec<K::Receipt>,
)
    requires queue { tally.old.queue ≡ queue.now }
    requires whole { tally.old.parts ≡ all_parts }
    ensures served { HasServed (link_told K.left K.taken K.read_faults K.write_faults) K.tells
        (S.number service.old) (S.view service.old) (S.view service.new) tally.old tally.new receipts.old.items receipts.new.items }
    ensures same_number { S.number service.new ≡ S.number service.old }
    ensures once { EachOnce tally.new.put tally.new.taken }
{
    for _ in rt.forever() {
        reserve_one(rt, service, receipts);
        match queue.take_left(rt, tally) {
            Some(link) => receipts.push_reserved(serve_one(alloc, service, link)),
            None => return,
        }
    }
    unreachable!()
}
