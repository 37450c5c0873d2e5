// Writes, entries of the history, and pairs.
ghost use Rattle.std.specs.Prelude.{◌≡◌, IfOk};
ghost use Rattle.join_types.specs.Writes.{plain_write};

use crate::join::Join;
use key_space::{Key, Value};
use out_of_memory::OutOfMemory;
use std::alloc::Global;
use std::marker::Model;

/// What a client may change.
#[derive(Debug, Drop)]
pub enum Write {
    /// The value stands at the key, in place of any that stood there.
    Put(Key, Value),
    /// Nothing stands at the key.
    Remove(Key),
    /// The join stands from now on.
    Declare(Join),
    /// The join that was declared at the position stands no more.
    Drop(u64),
}

/// An entry of the history: the number of the client that wrote it, and the write.
#[derive(Debug, Drop)]
pub struct Entry {
    /// The client's number.
    pub client: u32,
    /// What the client changed.
    pub write: Write,
}

impl Model for Entry {
    ghost use Rattle.semantics.specs.Histories.{Entry as PlainEntry};
    ghost use Rattle.join_types.specs.Writes.{plain_write};

    ghost Value = { PlainEntry };

    ghost view = { λ e. record { client = e.client; write = plain_write e.write } };
}

/// A key with its value.
#[derive(Debug, Drop)]
pub struct Pair {
    /// Where the value stands.
    pub key: Key,
    /// What stands there.
    pub value: Value,
}

impl Model for Pair {
    ghost use Rattle.semantics.specs.Texts.{Text};

    ghost Value = { Text × Text };

    ghost view = { λ p. (p.key, p.value) };
}

impl Write {
    /// An equal write, whose long texts are shared where it is a put or a remove. Linear in a join.
    pub fn copy(&self, alloc: Global) -> Result<Write, OutOfMemory>
        ensures { IfOk result (λ copy. plain_write copy ≡ plain_write self.now) }
    {
        match self {
            Write::Put(key, value) => Ok(Write::Put(key.copy()?, value.copy()?)),
            Write::Remove(key) => Ok(Write::Remove(key.copy()?)),
            Write::Declare(join) => Ok(Write::Declare(join.copy(alloc)?)),
            Write::Drop(position) => Ok(Write::Drop(*position)),
        }
    }
}

impl Entry {
    /// An equal entry, at the cost of a copy of its write.
    pub fn copy(&self, alloc: Global) -> Result<Entry, OutOfMemory>
        ensures { IfOk result (λ copy. copy ≡ self.now) }
    {
        let write = self.write.copy(alloc)?;
        Ok(Entry {
            client: self.client,
            write,
        })
    }
}

impl Pair {
    /// An equal pair, which shares its long texts. It takes constant time.
    pub fn copy(&self) -> Result<Pair, OutOfMemory>
        ensures { IfOk result (λ copy. copy ≡ self.now) }
    {
        let key = self.key.copy()?;
        let value = self.value.copy()?;
        Ok(Pair { key, value })
    }
}
