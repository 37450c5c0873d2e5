// A list of entries in chunks, so that it grows without copying any.
ghost use Rattle.std.specs.Prelude.{◌≡◌, ◌+◌, ◌-◌, ◌<◌, ◌≤◌, [], ◌∷◌, ◌++◌, length, take, drop, IfOk, OnOk, OnErr, slice_index_or};

use join_types::Entry;
use out_of_memory::OutOfMemory;
use std::alloc::Global;
use std::collections::VecDeque;
use std::marker::Model;
use std::mem;

/// The number of entries of a chunk.
const CHUNK: usize = 1024;

/// A list of entries. Contracts see its entries, and how many more it has room for.
#[derive(Debug, Drop)]
pub(crate) struct EntryList {
    alloc: Global,
    full: VecDeque<Vec<Entry>>,
    last: Vec<Entry>,
    /// How many entries there were before those of the chunks.
    gone: usize,
    /// How many first entries are dropped.
    lacks: usize,
}

impl Model for EntryList {
    ghost use Rattle.std.specs.Prelude.{◌≡◌, ◌-◌, ◌≤◌, ◌++◌, length, drop};
    ghost use Rattle.std.specs.List.{AllByRecursion, flat_map};
    ghost use Rattle.std.specs.Vec.{vec_len, vec_capacity};
    ghost use Rattle.write_history.specs.Stored.{EntriesWithRoom};

    ghost Value = { EntriesWithRoom };

    ghost view = { λ l. record { lacks = l.lacks; entries = drop (l.lacks - l.gone) (flat_map (λ c. c.items) l.full.items ++ l.last.items); room = vec_capacity l.last - vec_len l.last } };

    ghost invariant = { λ l. AllByRecursion (λ c. length c.items ≡ 1024) l.full.items × (vec_capacity l.last ≡ 1024) × (l.gone ≤ l.lacks) × (l.lacks - l.gone ≤ length (flat_map (λ c. c.items) l.full.items ++ l.last.items)) };
}

impl EntryList {
    /// A list without entries, and its first chunk.
    pub(crate) fn new(alloc: Global) -> Result<EntryList, OutOfMemory>
        ensures none { IfOk result (λ list. list.entries ≡ []) }
        ensures lacks { IfOk result (λ list. list.lacks ≡ 0) }
    {
        let last = Vec::with_capacity(alloc, CHUNK)?;
        Ok(EntryList {
            alloc,
            full: VecDeque::new(alloc),
            last,
            gone: 0,
            lacks: 0,
        })
    }

    /// Makes room for one entry more.
    pub(crate) fn reserve(&mut self) -> Result<(), OutOfMemory>
        ensures entries { self.new.entries ≡ self.old.entries }
        ensures lacks { self.new.lacks ≡ self.old.lacks }
        ensures room { OnOk result (0 < self.new.room) }
        ensures unchanged { OnErr result (self.new ≡ self.old) }
    {
        if self.last.len() < CHUNK {
            return Ok(());
        }
        self.full.reserve(1)?;
        let next = Vec::with_capacity(self.alloc, CHUNK)?;
        let filled = mem::replace(&mut self.last, next);
        self.full.push_back_reserved(filled);
        Ok(())
    }

    /// Adds an entry, for which there is room.
    pub(crate) fn push(&mut self, entry: Entry)
        requires { 0 < self.old.room }
        ensures entries { self.new.entries ≡ self.old.entries ++ entry ∷ [] }
        ensures lacks { self.new.lacks ≡ self.old.lacks }
    {
        self.last.push_reserved(entry);
    }

    /// How many first entries are dropped.
    pub(crate) fn lacks(&self) -> usize
        ensures { result ≡ self.now.lacks }
    {
        self.lacks
    }

    /// The entry at a place, counted with those that are dropped.
    pub(crate) fn get(&self, place: usize) -> &Entry
        requires kept { self.now.lacks ≤ place }
        requires within { place < self.now.lacks + length self.now.entries }
        ensures { result.now ≡ slice_index_or self.now.entries (place - self.now.lacks) result.now }
    {
        let place = place - self.gone;
        let chunk = place / CHUNK;
        if chunk < self.full.len() {
            let chunk = &self.full[chunk];
            return &chunk[place % CHUNK];
        }
        &self.last[place - self.full.len() * CHUNK]
    }

    /// Drops the first entries up to a place, and lets go each chunk of which all are dropped.
    pub(crate) fn drop_to(&mut self, floor: usize)
        requires kept { self.old.lacks ≤ floor }
        requires within { floor ≤ self.old.lacks + length self.old.entries }
        ensures entries { self.new.entries ≡ drop (floor - self.old.lacks) self.old.entries }
        ensures lacks { self.new.lacks ≡ floor }
    {
        self.lacks = floor;
        for _chunk in 0..(self.lacks - self.gone) / CHUNK {
            self.let_chunk_go();
        }
    }

    /// Lets the first chunk go, if it is full and all its entries are dropped.
    fn let_chunk_go(&mut self)
        ensures { self.new ≡ self.old }
    {
        if self.lacks - self.gone < CHUNK {
            return;
        }
        if let Some(_chunk) = self.full.pop_front() {
            self.gone += CHUNK;
        }
    }

    /// Equal entries from one place up to another, counted with those that are dropped.
    pub(crate) fn copy(
        &self,
        alloc: Global,
        from: usize,
        to: usize,
    ) -> Result<Vec<Entry>, OutOfMemory>
        requires kept { self.now.lacks ≤ from }
        requires order { from ≤ to }
        requires within { to ≤ self.now.lacks + length self.now.entries }
        ensures { IfOk result (λ copies. copies.items ≡ take (to - from) (drop (from - self.now.lacks) self.now.entries)) }
    {
        let mut copies = Vec::with_capacity(alloc, to - from)?;
        for place in from..to {
            copies.push(self.get(place).copy(alloc)?)?;
        }
        Ok(copies)
    }
}
