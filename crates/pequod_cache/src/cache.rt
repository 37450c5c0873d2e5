// The cache that threads share.
ghost use Rattle.std.specs.Prelude.{◌≡◌, ℕ, ◌<◌, ◌≤◌, length, slice_get, IfOk, OnErr, OnOk, Some};
ghost use Rattle.std.specs.Arc.{arc_value};
ghost use Rattle.join_set.specs.Sets.{AreJoins};
ghost use Rattle.write_history.specs.Marks.{reach};
ghost use Rattle.write_history.specs.Passes.{GoesOn, new_pass, own};
ghost use Rattle.write_history.specs.declared.known.Mark.TheVariants.{Free, Pinned};
ghost use Rattle.pequod_cache.specs.Clients.{KeepsJoins};
ghost use Rattle.pequod_cache.specs.Sitting.{AreOf, AreOfParts, AreWriters, IsFresh};

use crate::client::Client;
use crate::seats::Seats;
use crate::updater::Updater;
use base_shards::{BaseShards, Naming};
use join_set::JoinSet;
use out_of_memory::OutOfMemory;
use pq_io::Gate;
use range_cells::RangeCells;
use std::alloc::Global;
use std::sync::{Arc, Wait};
use write_history::{History, Looked, Pass};

/// What all clients of a cache share: the write history, the base pairs, and what is kept of the joins' outputs.
#[derive(Drop)]
pub struct Cache<N: Naming> {
    /// The history.
    pub history: Arc<History>,
    /// The base pairs.
    pub shards: Arc<BaseShards<N>>,
    /// The cells over the base pairs.
    pub cells: RangeCells<N>,
    ghost named: { arc_value history ≡ N.history },
}

impl<N: Naming> Cache<N> {
    /// A cache with nothing kept, over a history, with passes for the parts of the base pairs and for cells.
    fn share(
        alloc: Global,
        history: History,
        shards: Vec<Pass>,
        cells: Vec<Pass>,
        limit: u64,
    ) -> Result<Arc<Cache<N>>, OutOfMemory>
        requires named { history ≡ N.history }
        requires shards { AreOfParts N.history shards.items }
        requires cells { AreOf N.history (length cells.items) cells.items }
        requires some_cells { 1 ≤ length cells.items }
        requires few_cells { length cells.items ≤ 65536 }
        requires limit { 1 ≤ limit }
    {
        let ids = cells.len() as u32;
        let history = Arc::new(alloc, history)?;
        let shards = BaseShards::new(alloc, Arc::try_clone(&history)?, shards, ids)?;
        let shards = Arc::new(alloc, shards)?;
        let own = Arc::try_clone(&shards)?;
        let cells = RangeCells::new(alloc, Arc::try_clone(&history)?, own, cells, limit)?;
        let cache = Cache {
            history,
            shards,
            cells,
        };
        Ok(Arc::new(alloc, cache)?)
    }

    /// A client of a cache for each of the passes, in order.
    fn seat<'g, G: Gate>(
        alloc: Global,
        cache: &Arc<Cache<N>>,
        passes: Vec<Pass>,
        gate: &'g G,
    ) -> Result<Vec<Client<'g, N, G>>, OutOfMemory>
        requires { AreWriters N.history (length passes.items) passes.items }
        ensures { IfOk result (λ clients. clients.items ≡ passes.items) }
    {
        let mut clients = Vec::with_capacity(alloc, passes.len())?;
        for pass in passes {
            clients.push(Client::new(alloc, Arc::try_clone(cache)?, pass, gate))?;
        }
        Ok(clients)
    }

    /// The clients of a new cache, in order of their numbers: as many as there are passes for them. It keeps ranges in as many
    /// cells as there are passes for these, whose rows and one more for each are at most the limit together, as they were when
    /// they were last read. Before a range is filled or mended the gate is passed. What is kept is allocated by this allocator.
    /// Nothing brings kept ranges forward but reads. Linear in the passes.
    ///
    /// It may report that it found no memory.
    pub fn make<'g, G: Gate>(
        alloc: Global,
        seats: Seats,
        limit: u64,
        gate: &'g G,
    ) -> Result<Vec<Client<'g, N, G>>, OutOfMemory>
        requires named { seats.history ≡ N.history }
        requires clients { AreWriters N.history (length seats.clients.items) seats.clients.items }
        requires shards { AreOfParts N.history seats.shards.items }
        requires cells { AreOf N.history (length seats.cells.items) seats.cells.items }
        requires some_cells { 1 ≤ length seats.cells.items }
        requires few_cells { length seats.cells.items ≤ 65536 }
        requires limit { 1 ≤ limit }
        ensures count { IfOk result (λ clients. length clients.items ≡ length seats.clients.items) }
        ensures each { IfOk result (λ clients. (number : ℕ) → number < length seats.clients.items → slice_get clients.items number ≡ Some (new_pass N.history number)) }
    {
        let cache = Cache::share(alloc, seats.history, seats.shards, seats.cells, limit)?;
        Cache::seat(alloc, &cache, seats.clients, gate)
    }

    /// The clients of a new cache, as `make` gives them, and an updater of the cache, which has seen nothing.
    ///
    /// It may report that it found no memory.
    pub fn make_with_updater<'g, G: Gate>(
        alloc: Global,
        seats: Seats,
        limit: u64,
        gate: &'g G,
    ) -> Result<(Vec<Client<'g, N, G>>, Updater<'g, N, G>), OutOfMemory>
        requires named { seats.history ≡ N.history }
        requires clients { AreWriters N.history (length seats.clients.items) seats.clients.items }
        requires shards { AreOfParts N.history seats.shards.items }
        requires cells { AreOf N.history (length seats.cells.items) seats.cells.items }
        requires some_cells { 1 ≤ length seats.cells.items }
        requires few_cells { length seats.cells.items ≤ 65536 }
        requires updater { IsFresh N.history seats.updater }
        requires limit { 1 ≤ limit }
        ensures count { IfOk result (λ made. length made.0.items ≡ length seats.clients.items) }
        ensures each { IfOk result (λ made. (number : ℕ) → number < length seats.clients.items → slice_get made.0.items number ≡ Some (new_pass N.history number)) }
        ensures updater { IfOk result (λ made. IsFresh N.history made.1) }
    {
        let cache = Cache::share(alloc, seats.history, seats.shards, seats.cells, limit)?;
        let clients = Cache::seat(alloc, &cache, seats.clients, gate)?;
        Ok((clients, Updater::new(alloc, cache, seats.updater, gate)))
    }

    /// Extends the view of the pass to all entries of the history, pins the pass there, brings the joins there, and gives the
    /// number of entries. It compares two numbers, and after a declaration or drop copies the joins, at the cost of
    /// `JoinSet::copy`. While another thread has the history's turn, this one sleeps.
    ///
    /// On `OutOfMemory` the view is extended all the same, the pass is not pinned, and the joins are as they were.
    pub(crate) fn look<R: Wait>(
        &self,
        rt: &R,
        pass: &mut Pass,
        joins: &mut JoinSet,
    ) -> Result<u64, OutOfMemory>
        requires same_history { pass.old.history ≡ N.history }
        requires free { pass.old.mark ≡ Free }
        requires kept { KeepsJoins joins.old pass.old.view }
        ensures pinned { IfOk result (λ position. GoesOn (record pass.old { mark = Pinned position }) pass.new) }
        ensures goes_on { OnErr result (GoesOn pass.old pass.new) }
        ensures own { own pass.new ≡ own pass.old }
        ensures length { IfOk result (λ position. position ≡ length pass.new.view) }
        ensures kept { KeepsJoins joins.new pass.new.view }
        ensures brought { OnOk result (AreJoins (reach pass.new.mark) joins.new pass.new.view) }
        ensures unchanged { OnErr result (joins.new ≡ joins.old) }
    {
        let looked = self.history.look_joins(rt, pass, joins.changed_at())?;
        let Looked {
            length,
            joins: told,
        } = looked;
        let Some(found) = told else {
            return Ok(length);
        };
        *joins = found;
        Ok(length)
    }
}
