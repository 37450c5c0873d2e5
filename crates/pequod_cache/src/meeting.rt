// Clients that meet.
ghost use Rattle.std.specs.Prelude.{[]};
ghost use Rattle.pequod_cache.specs.Adding.{HasAdded};
ghost use Rattle.pequod_cache.specs.Meeting.{HaveMet};

use crate::client::Client;
use base_shards::Naming;
use pq_io::Gate;

/// Lets the first client meet each of the others, clients of one cache, in order: each of them has then seen what the first had
/// seen, and nothing that the first has not seen in the end. None of them writes. It waits for nobody. Linear in the others.
pub fn meet_all<'g, N: Naming, G: Gate, R>(
    rt: &R,
    first: &mut Client<'g, N, G>,
    others: &mut [Client<'g, N, G>],
)
    ensures added { HasAdded [] first.old first.new }
    ensures met { HaveMet first.old.view first.new.view others.old others.new }
{
    for other in others.iter_mut() {
        first.meet(rt, other);
    }
}
