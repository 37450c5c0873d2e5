// A client that answers the lines of links.

use crate::client::Client;
use base_shards::Naming;
use pq_io::Gate;
use request_codec::{Reply, Request};
use session::Service;
use std::sync::Wait;

/// A client of the cache with the runtime that it waits with: it answers the requests of links, one after another.
#[derive(Drop)]
pub struct ClientService<'a, 'g, R, N: Naming, G> {
    /// With what it waits.
    pub rt: &'a R,
    /// The client.
    pub client: Client<'g, N, G>,
}

impl<'a, 'g, R: Wait, N: Naming, G: Gate> Service for ClientService<'a, 'g, R, N, G> {
    ghost number = { λ s. s.client.number };

    ghost view = { λ s. s.client.view };

    fn answer(&mut self, request: Request) -> Reply {
        self.client.answer(self.rt, request)
    }

    fn make_room(&self) -> bool {
        self.client.make_room(self.rt)
    }
}
