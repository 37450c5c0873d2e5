// The updater of a cache.
ghost use Rattle.std.specs.Prelude.{◌≡◌, ◌<◌};
ghost use Rattle.write_history.specs.Entries.{IsRecorded};
ghost use Rattle.write_history.specs.Passes.{GoesOn, own};
ghost use Rattle.write_history.specs.declared.known.Mark.TheVariants.{Free};
ghost use Rattle.range_cells.specs.Turns.{IsWithinView};

use crate::cache::Cache;
use base_shards::Naming;
use join_set::JoinSet;
use pq_io::Gate;
use range_cells::Turn;
use std::alloc::Global;
use std::marker::{Brand, Model};
use std::sync::ledger::{Blank, Ledger};
use std::sync::{Arc, Wait};
use steps::Steps;
use write_history::Pass;

/// The updater of a cache: it brings kept ranges forward when pairs that they read were written, so that a read finds them where
/// it reads. It writes nothing. It has a pass of the write history, and the joins up to a declaration or drop that that has
/// seen; contracts see it as its pass. It runs beside the clients, on a thread of its own.
#[derive(Drop)]
pub struct Updater<'g, N: Naming, G> {
    cache: Arc<Cache<N>>,
    gate: &'g G,
    pass: Pass,
    joins: JoinSet,
}

impl<'g, N: Naming, G> Model for Updater<'g, N, G> {
    ghost use Rattle.write_history.specs.Passes.{PassView};
    ghost use Rattle.pequod_cache.specs.Clients.{IsSeated};

    ghost Value = { PassView };

    ghost view = { λ u. u.pass };

    ghost invariant = { λ u. IsSeated N.history u.pass u.joins };
}

impl<'g, N: Naming, G> Updater<'g, N, G> {
    /// An updater with a pass. What it keeps grows by this allocator; nothing is allocated yet.
    pub(crate) fn new(
        alloc: Global,
        cache: Arc<Cache<N>>,
        pass: Pass,
        gate: &'g G,
    ) -> Updater<'g, N, G>
        requires same_history { pass.history ≡ N.history }
        requires free { pass.mark ≡ Free }
        requires recorded { IsRecorded pass.writers pass.view }
        ensures { result ≡ pass }
    {
        Updater {
            cache,
            gate,
            pass,
            joins: JoinSet::new(alloc),
        }
    }
}

impl<'g, N: Naming, G: Gate> Updater<'g, N, G> {
    /// Takes one turn: it looks, brings its joins there, and brings a marked cell forward, as `RangeCells::turn` does. While
    /// another thread has what it needs, this one sleeps.
    ///
    /// `Idle` comes only where no cell was found marked for what was written before the look. `TooWide`: the cell's range takes
    /// more needs than may be kept, and it is evicted.
    pub fn turn<R: Wait>(&mut self, rt: &R) -> Turn
        ensures within { IsWithinView result self.new.view }
        ensures goes_on { GoesOn self.old self.new }
        ensures own { own self.new ≡ own self.old }
    {
        self.turn_counted::<Brand, R>(rt, Blank::new(1))
    }

    /// Takes one turn, with a counter that nobody looks at.
    fn turn_counted<L: Ledger, R: Wait>(&mut self, rt: &R, blank: Blank) -> Turn
        requires name { blank.name ≡ L.name }
        requires parts { blank.parts ≡ L.parts }
        requires some { 0 < blank.parts }
        ensures within { IsWithinView result self.new.view }
        ensures goes_on { GoesOn self.old self.new }
        ensures own { own self.new ≡ own self.old }
    {
        let cache = &self.cache;
        let position = match cache.look(rt, &mut self.pass, &mut self.joins) {
            Err(memory) => return Turn::OutOfMemory(memory),
            Ok(position) => position,
        };
        let mut steps: Steps<L> = Steps::open(blank);
        let (pass, joins) = (&mut self.pass, &self.joins);
        let turn = cache
            .cells
            .turn(rt, pass, joins, position, self.gate, &mut steps);
        cache.history.unpin(rt, &mut self.pass);
        turn
    }
}
