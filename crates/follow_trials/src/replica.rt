// A replica that keeps its writes in a list.
ghost use Rattle.std.specs.Prelude.{◌≡◌, [], map, length, IfOk, OnErr};
ghost use Rattle.join_types.specs.Writes.{plain_write};
ghost use Rattle.follow_node.specs.Replicas.{IsTaken};
ghost use Rattle.follow_trials.specs.Entering.{Enters};

use follow_node::{Replica, Taken};
use join_set::Standing;
use join_types::{Cause, Write};
use out_of_memory::OutOfMemory;
use std::alloc::{AllocError, Global};
use std::marker::Model;

/// A list of writes that entered one after another. It finds no memory for the writes with chosen numbers, the first that it is given
/// being 1. Contracts see it as its writes.
#[derive(Drop)]
pub struct ListReplica {
    kept: Vec<Write>,
    standing: Standing,
    refused: Vec<usize>,
    calls: usize,
}

impl Model for ListReplica {
    ghost use Rattle.std.specs.Prelude.{List, map};
    ghost use Rattle.semantics.specs.Histories.{Write as PlainWrite};
    ghost use Rattle.join_types.specs.Writes.{plain_write};
    ghost use Rattle.join_set.specs.Summaries.{StandsFor};
    ghost use Rattle.follow_node.specs.Replicas.{entered};

    ghost Value = { List PlainWrite };

    ghost view = { λ r. map plain_write r.kept.items };

    ghost invariant = { λ r. StandsFor r.standing (entered (map plain_write r.kept.items)) };
}

impl ListReplica {
    /// Makes one without a write, which finds no memory for the writes with these numbers.
    pub fn new(alloc: Global, refused: Vec<usize>) -> ListReplica
        ensures { result ≡ [] }
    {
        ListReplica {
            kept: Vec::new(alloc),
            standing: Standing::new(alloc),
            refused,
            calls: 0,
        }
    }

    /// Returns the writes.
    pub fn writes(&self) -> &[Write] {
        self.kept.as_slice()
    }

    /// Takes a write behind the others where there is no cause against it, and otherwise gives the cause.
    fn enter(&mut self, write: Write) -> Result<Option<Cause>, OutOfMemory>
        ensures entered { IfOk result (λ cause. Enters self.old (plain_write write) cause self.new) }
        ensures unchanged { OnErr result (self.new ≡ self.old) }
    {
        if let Some(cause) = self.standing.judge(&write)? {
            return Ok(Some(cause));
        }
        self.kept.reserve(1)?;
        self.standing.enter(&write)?;
        match self.kept.push(write) {
            Ok(()) => Ok(None),
            Err(_) => unreachable!(),
        }
    }

    /// Counts a call, and tells whether it finds no memory.
    fn is_refused(&mut self) -> bool
        ensures { self.new ≡ self.old }
    {
        self.calls = self.calls.saturating_add(1);
        self.refused.contains(&self.calls)
    }
}

impl Replica for ListReplica {
    ghost writes = { λ r. r };

    fn length(&self) -> u64
        ensures { result ≡ length self.now }
    {
        self.kept.len() as u64
    }

    fn take(&mut self, write: Write) -> Taken
        ensures taken { IsTaken self.old (plain_write write) result self.new }
    {
        if self.is_refused() {
            return Taken::OutOfMemory(AllocError.into());
        }
        match self.enter(write) {
            Ok(None) => Taken::Done,
            Ok(Some(_)) => Taken::Refused,
            Err(memory) => Taken::OutOfMemory(memory),
        }
    }
}
