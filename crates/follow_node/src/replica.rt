// What takes the writes of a home.
ghost use Rattle.std.specs.Prelude.{◌≡◌, List, length};
ghost use Rattle.semantics.specs.Histories.{Write as PlainWrite};
ghost use Rattle.join_types.specs.Writes.{plain_write};
ghost use Rattle.follow_node.specs.Replicas.{IsTaken};

use join_types::Write;
use out_of_memory::OutOfMemory;

/// What became of a write that a replica was given.
#[derive(Debug, Drop, PartialEq, Eq)]
pub enum Taken {
    /// It is the replica's last write.
    Done,
    /// It has a cause against it after the writes that the replica has.
    Refused,
    /// No memory was found for it.
    OutOfMemory(OutOfMemory),
}

/// A list of writes, each of which had no cause against it at its place.
pub trait Replica {
    /// The writes.
    ghost writes: { Self → List PlainWrite };

    /// How many writes it has.
    fn length(&self) -> u64
        ensures { result ≡ length (writes self.now) };

    /// Takes a write behind the others, where no cause is against it. `Refused` comes only where one is; with it and with
    /// `OutOfMemory` the writes stay. One that may wait keeps the runtime in a field.
    fn take(&mut self, write: Write) -> Taken
        ensures taken { IsTaken (writes self.old) (plain_write write) result (writes self.new) };
}
