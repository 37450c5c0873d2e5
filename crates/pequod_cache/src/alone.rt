// The client of a cache that has no other.
ghost use Rattle.std.specs.Prelude.{◌≡◌, ◌≤◌, [], IfOk, length};
ghost use Rattle.protocol.specs.Own.{AreOwn};
ghost use Rattle.pequod_cache.specs.Sitting.{AreOf, AreOfParts, AreWriters};

use crate::cache::Cache;
use crate::client::Client;
use crate::seats::Seats;
use base_shards::Naming;
use out_of_memory::OutOfMemory;
use pq_io::Gate;
use request_codec::{Reply, Request};
use session::Service;
use std::alloc::Global;
use std::marker::Model;
use std::sync::Wait;

/// A service whose client is the only one that writes.
pub trait OnlyWriter: Service {
    /// Does nothing: its clauses tell that the client has the number 0, and that every entry is its own.
    fn tell_own(&self)
        ensures numbered { Self.number self.now ≡ 0 }
        ensures own { AreOwn (Self.view self.now) };
}

/// The one client of a cache, with the runtime that it waits with: its number is 0, and its writes are the whole history.
/// Contracts see it as its history. It answers the requests of links, one after another.
#[derive(Drop)]
pub struct LoneClient<'a, 'g, R, N: Naming, G> {
    rt: &'a R,
    client: Client<'g, N, G>,
}

impl<'a, 'g, R, N: Naming, G> Model for LoneClient<'a, 'g, R, N, G> {
    ghost use Rattle.semantics.specs.Histories.{History};
    ghost use Rattle.pequod_cache.specs.Alone.{IsAlone};

    ghost Value = { History };

    ghost view = { λ c. c.client.view };

    ghost invariant = { λ c. IsAlone c.client };
}

impl<'a, 'g, R, N: Naming, G: Gate> LoneClient<'a, 'g, R, N, G> {
    /// The client of a new cache, which there is one pass for. `seats`, `limit` and `gate` are those of `Cache::make`.
    ///
    /// It may report that it found no memory.
    pub fn make(
        rt: &'a R,
        alloc: Global,
        seats: Seats,
        limit: u64,
        gate: &'g G,
    ) -> Result<LoneClient<'a, 'g, R, N, G>, OutOfMemory>
        requires named { seats.history ≡ N.history }
        requires client { AreWriters N.history 1 seats.clients.items }
        requires shards { AreOfParts N.history seats.shards.items }
        requires cells { AreOf N.history (length seats.cells.items) seats.cells.items }
        requires some_cells { 1 ≤ length seats.cells.items }
        requires few_cells { length seats.cells.items ≤ 65536 }
        requires limit { 1 ≤ limit }
        ensures { IfOk result (λ client. client ≡ []) }
    {
        let mut clients = Cache::make(alloc, seats, limit, gate)?;
        let Some(client) = clients.pop() else {
            unreachable!()
        };
        Ok(LoneClient { rt, client })
    }
}

impl<'a, 'g, R: Wait, N: Naming, G: Gate> Service for LoneClient<'a, 'g, R, N, G> {
    ghost number = { λ _. 0 };

    ghost view = { λ h. h };

    fn answer(&mut self, request: Request) -> Reply {
        self.client.answer(self.rt, request)
    }

    fn make_room(&self) -> bool {
        self.client.make_room(self.rt)
    }
}

impl<'a, 'g, R: Wait, N: Naming, G: Gate> OnlyWriter for LoneClient<'a, 'g, R, N, G> {
    fn tell_own(&self) {
        let _client = &self.client;
    }
}
