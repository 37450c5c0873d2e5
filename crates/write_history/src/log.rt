// The log: the entries of the history, and what is kept of them to judge the next write.
ghost use Rattle.std.specs.Prelude.{◌≡◌, ℕ, ◌+◌, ◌-◌, ◌≤◌, [], ◌∷◌, ◌++◌, length, take, drop, IfOk, IfErr, OnErr, Some, None};
ghost use Rattle.semantics.specs.Histories.{History};
ghost use Rattle.semantics.specs.Verdicts.{verdict};
ghost use Rattle.join_set.specs.Sets.{AreJoins};
ghost use Rattle.write_history.specs.Looks.{TellsJoins};
ghost use Rattle.base_versions.specs.Own.{own_from};
ghost use Rattle.write_history.specs.Stored.{IsLog};
ghost use Rattle.write_history.specs.Takes.{Takes, SaysVerdict};

use crate::entry_list::EntryList;
use crate::fault::AppendFault;
use crate::part_numbers::PartNumbers;
use base_versions::Placed;
use join_set::{JoinSet, Standing, look_at_write};
use join_types::Entry;
use out_of_memory::OutOfMemory;
use std::alloc::Global;
use std::marker::Model;

/// The entries of the history, and what is kept of them to judge the next write.
#[derive(Debug, Drop)]
pub(crate) struct Log {
    entries: EntryList,
    /// For each part the positions of its entries among these.
    numbers: PartNumbers,
    standing: Standing,
}

impl Model for Log {
    ghost use Rattle.std.specs.Prelude.{◌≡◌, ◌+◌, length};
    ghost use Rattle.write_history.specs.Numbers.{AreNumbered};
    ghost use Rattle.write_history.specs.Stored.{Stored};

    ghost Value = { Stored };

    ghost view = { λ l. record { lacks = l.entries.lacks; entries = l.entries.entries; summary = l.standing } };

    ghost invariant = { λ l. (l.standing.length ≡ l.entries.lacks + length l.entries.entries) × AreNumbered l.entries.lacks l.entries.entries l.numbers × (l.standing.floor ≡ l.entries.lacks) };
}

impl Log {
    /// The log of the history without entries.
    pub(crate) fn new(alloc: Global) -> Result<Log, OutOfMemory>
        ensures { IfOk result (λ log. IsLog [] 0 log) }
    {
        let entries = EntryList::new(alloc)?;
        let numbers = PartNumbers::new(alloc)?;
        Ok(Log {
            entries,
            numbers,
            standing: Standing::new(alloc),
        })
    }

    /// Adds the entry where nothing is against its write, and says how many entries there are then. A refusal says how
    /// many there are and the verdict. All memory is taken before anything is added.
    pub(crate) fn take(&mut self, entry: Entry) -> Result<u64, AppendFault>
        ensures added { IfOk result (λ count. (h : History) (floor : ℕ) → IsLog h floor self.old → Takes h floor entry count self.new) }
        ensures refused { IfErr result (λ fault. (h : History) (floor : ℕ) → IsLog h floor self.old → SaysVerdict h entry.write fault) }
        ensures unchanged { OnErr result (self.new ≡ self.old) }
    {
        if let Some(cause) = self.standing.judge(&entry.write)? {
            return Err(AppendFault::Refused(self.standing.length(), cause));
        }
        self.entries.reserve()?;
        self.numbers.reserve(&entry.write)?;
        self.standing.enter(&entry.write)?;
        look_at_write(&entry.write);
        let count = self.standing.length();
        self.numbers.push(&entry.write, count);
        self.entries.push(entry);
        Ok(count)
    }

    /// The number of first entries that it lacks.
    pub(crate) fn lacks(&self) -> u64
        ensures { result ≡ self.now.lacks }
    {
        self.entries.lacks() as u64
    }

    /// Drops the first entries up to a position, lets go of the joins that were dropped up to there, and forgets these drops.
    pub(crate) fn drop_to(&mut self, floor: u64)
        requires { (h : History) × (lacks : ℕ) × IsLog h lacks self.old × (lacks ≤ floor) × (floor ≤ length h) }
        ensures { (h : History) (lacks : ℕ) → IsLog h lacks self.old → lacks ≤ floor → floor ≤ length h → IsLog h floor self.new }
    {
        self.entries.drop_to(floor as usize);
        self.numbers.drop_upto(floor);
        self.standing.settle(floor);
    }

    /// Equal entries from one position up to another.
    pub(crate) fn copy(&self, alloc: Global, from: u64, to: u64) -> Result<Vec<Entry>, OutOfMemory>
        requires order { from ≤ to }
        requires within { (h : History) × (lacks : ℕ) × IsLog h lacks self.now × (lacks ≤ from) × (to ≤ length h) }
        ensures { IfOk result (λ copies. (h : History) (lacks : ℕ) → IsLog h lacks self.now → lacks ≤ from → copies.items ≡ take (to - from) (drop from h)) }
    {
        self.entries.copy(alloc, from as usize, to as usize)
    }

    /// Equal entries from one position up to another that put or remove a key of a table of the part, each with its position.
    pub(crate) fn copy_own(
        &self,
        alloc: Global,
        part: u8,
        from: u64,
        to: u64,
    ) -> Result<Vec<Placed>, OutOfMemory>
        requires order { from ≤ to }
        requires within { (h : History) × (lacks : ℕ) × IsLog h lacks self.now × (lacks ≤ from) × (to ≤ length h) }
        ensures { IfOk result (λ copies. (h : History) (lacks : ℕ) → IsLog h lacks self.now → lacks ≤ from → copies.items ≡ own_from 16 part (from + 1) (take (to - from) (drop from h))) }
    {
        let first = self.numbers.count_upto(part, from);
        let last = self.numbers.count_upto(part, to);
        let mut copies = Vec::with_capacity(alloc, last - first)?;
        for place in first..last {
            let position = self.numbers.get(part, place);
            let entry = self.entries.get(position as usize - 1).copy(alloc)?;
            copies.push(Placed { position, entry })?;
        }
        Ok(copies)
    }

    /// Copies the joins that stand where the last declaration or drop is not at the position that is known, at the cost of
    /// `JoinSet::copy`. Where it is there, it compares two numbers and gives none.
    pub(crate) fn joins_unless(&self, known: u64) -> Result<Option<JoinSet>, OutOfMemory>
        ensures { IfOk result (λ told. (h : History) (floor : ℕ) → IsLog h floor self.now → TellsJoins floor h known told) }
    {
        let joins = self.standing.joins();
        if joins.changed_at() == known {
            return Ok(None);
        }
        Ok(Some(joins.copy()?))
    }

    /// Makes the joins of the first p entries, of which it lacks no more, at the cost of `Standing::joins_at`.
    pub(crate) fn joins_at(&self, p: u64) -> Result<JoinSet, OutOfMemory>
        requires { (h : History) × (lacks : ℕ) × IsLog h lacks self.now × (lacks ≤ p) × (p ≤ length h) }
        ensures { IfOk result (λ joins. (h : History) (lacks : ℕ) → IsLog h lacks self.now → AreJoins lacks joins (take p h)) }
    {
        self.standing.joins_at(p)
    }
}
