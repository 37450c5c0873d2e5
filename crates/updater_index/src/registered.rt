// The ranges that each id has registered.
ghost use Rattle.std.specs.Prelude.{◌≡◌, ℕ, ◌+◌, ◌-◌, ◌<◌, ◌≤◌, [], ◌∷◌, ◌++◌, IfOk, OnOk, OnErr, IfErr, MatchOption, length, max, take, slice_set};
ghost use Rattle.std.specs.Ordering.{nat_cmp};
ghost use Rattle.std.specs.List.Sorted.{IsStrictlySortedBy};
ghost use Rattle.updater_index.specs.Registered.{filled, ranges_of, stabbed, with_range, with_ranges};
ghost use Rattle.updater_index.specs.Indexed.{AreIndexed, Grows};

use crate::bounds::Bounds;
use crate::forks::Forks;
use key_space::{Key, Range};
use out_of_memory::OutOfMemory;
use std::alloc::{AllocFailed, Global};
use std::collections::BTreeSet;
use std::marker::Model;

/// The ranges of one id, in the order of registering.
#[derive(Debug, Drop)]
struct RangeList {
    ranges: Vec<Bounds>,
}

impl Model for RangeList {
    ghost use Rattle.std.specs.Prelude.{List};
    ghost use Rattle.semantics.specs.Texts.{Range};

    ghost Value = { List Range };

    ghost view = { λ l. l.ranges.items };
}

impl RangeList {
    /// No ranges. Nothing is allocated.
    fn new(alloc: Global) -> RangeList
        ensures { result ≡ [] }
    {
        RangeList {
            ranges: Vec::new(alloc),
        }
    }

    /// The number of ranges.
    fn len(&self) -> usize
        ensures { result ≡ length self.now }
    {
        self.ranges.len()
    }

    /// One range more, the last; it comes back where no memory is found for it.
    fn push(&mut self, bounds: Bounds) -> Result<(), AllocFailed<Bounds>>
        ensures ok { OnOk result (self.new ≡ self.old ++ bounds ∷ []) }
        ensures err { OnErr result (self.new ≡ self.old) }
        ensures back { IfErr result (λ failed. failed.value ≡ bounds) }
    {
        self.ranges.push(bounds)
    }

    /// The last range, which is taken out. With the only one the room of the list goes: else each id that ever had ranges would
    /// keep a small block, between which no large one finds room.
    fn pop(&mut self) -> Option<Bounds>
        ensures { MatchOption result ((self.old ≡ []) × (self.new ≡ [])) (λ bounds. self.old ≡ self.new ++ bounds ∷ []) }
    {
        let last = self.ranges.pop();
        if self.ranges.is_empty() {
            self.ranges.shrink_to_fit();
        }
        last
    }
}

/// The ranges of each id below a number that grows, each once, and where they are found by a key.
#[derive(Debug, Drop)]
pub struct Registered {
    alloc: Global,
    by_id: Vec<RangeList>,
    forks: Forks,
}

impl Model for Registered {
    ghost use Rattle.updater_index.specs.Registered.{Held};
    ghost use Rattle.updater_index.specs.Indexed.{AreIndexed};

    ghost Value = { Held };

    ghost view = { λ r. r.by_id.items };

    ghost invariant = { λ r. AreIndexed r.by_id.items r.forks };
}

/// Adds lists of no ranges behind the others, up to that of the id. On `OutOfMemory` some of them may have been added.
fn lengthen(alloc: Global, by_id: &mut Vec<RangeList>, id: u32) -> Result<(), OutOfMemory>
    ensures same { (ids : ℕ) → length by_id.new.items ≤ ids → filled ids by_id.new.items ≡ filled ids by_id.old.items }
    ensures upto { length by_id.new.items ≤ max (length by_id.old.items) (id + 1) }
    ensures reached { OnOk result (id < length by_id.new.items) }
{
    for _place in by_id.len()..id as usize + 1 {
        by_id.push(RangeList::new(alloc))?;
    }
    Ok(())
}

/// Adds the range as the last of the id, unless it is among them.
fn add_to(
    by_id: &mut Vec<RangeList>,
    forks: &mut Forks,
    id: u32,
    bounds: Bounds,
) -> Result<(), OutOfMemory>
    requires known { id < length by_id.old.items }
    requires indexed { AreIndexed by_id.old.items forks.old }
    ensures ok { OnOk result (by_id.new.items ≡ slice_set by_id.old.items id (with_range (ranges_of id by_id.old.items) bounds)) }
    ensures err { OnErr result (by_id.new.items ≡ by_id.old.items) }
    ensures indexed { AreIndexed by_id.new.items forks.new }
{
    if !forks.insert(&bounds, id)? {
        return Ok(());
    }
    match by_id[id as usize].push(bounds) {
        Ok(()) => Ok(()),
        Err(failed) => {
            let (memory, bounds) = OutOfMemory::split(failed);
            forks.remove(bounds, id);
            Err(memory)
        }
    }
}

/// Takes out the last range of the id.
fn drop_last(by_id: &mut Vec<RangeList>, forks: &mut Forks, id: u32)
    requires known { id < length by_id.old.items }
    requires indexed { AreIndexed by_id.old.items forks.old }
    ensures held { by_id.new.items ≡ slice_set by_id.old.items id (take (length (ranges_of id by_id.old.items) - 1) (ranges_of id by_id.old.items)) }
    ensures indexed { AreIndexed by_id.new.items forks.new }
{
    if let Some(bounds) = by_id[id as usize].pop() {
        forks.remove(bounds, id);
    }
}

/// The ids of a set, in order.
fn listed(alloc: Global, found: BTreeSet<u32>) -> Result<Vec<u32>, OutOfMemory>
    ensures ids { IfOk result (λ ids. ids.items ≡ found.keys) }
    ensures ascending { IsStrictlySortedBy nat_cmp found.keys }
{
    let mut ids = Vec::with_capacity(alloc, found.len())?;
    for id in found {
        ids.push(id)?;
    }
    Ok(ids)
}

impl Registered {
    /// No ranges, and no ids. Nothing is allocated.
    pub fn new(alloc: Global) -> Registered
        ensures { result ≡ [] }
    {
        Registered {
            alloc,
            by_id: Vec::new(alloc),
            forks: Forks::new(alloc),
        }
    }

    /// Adds ids up to this one, which have no ranges. It takes constant time where they are there, and is linear in those that
    /// are not. On `OutOfMemory` some of them may have been added.
    pub fn reach(&mut self, id: u32) -> Result<(), OutOfMemory>
        ensures same { (ids : ℕ) → length self.new ≤ ids → filled ids self.new ≡ filled ids self.old }
        ensures upto { length self.new ≤ max (length self.old) (id + 1) }
        ensures reached { OnOk result (id < length self.new) }
    {
        lengthen(self.alloc, &mut self.by_id, id)
    }

    /// The number of ids.
    fn ids(&self) -> usize
        ensures { result ≡ length self.now }
    {
        self.by_id.len()
    }

    /// The number of ranges of the id.
    fn count(&self, id: u32) -> usize
        requires { id < length self.now }
        ensures { result ≡ length (ranges_of id self.now) }
    {
        self.by_id[id as usize].len()
    }

    /// Adds the range as the last of the id, unless it is among them.
    fn add(&mut self, id: u32, range: &Range) -> Result<(), OutOfMemory>
        requires { id < length self.old }
        ensures ok { OnOk result (self.new ≡ slice_set self.old id (with_range (ranges_of id self.old) range.now)) }
        ensures err { OnErr result (self.new ≡ self.old) }
    {
        let bounds = Bounds::of(self.alloc, range)?;
        add_to(&mut self.by_id, &mut self.forks, id, bounds)
    }

    /// Adds the ranges, one after another. On `OutOfMemory` some of them are added.
    fn add_all(&mut self, id: u32, ranges: &[Range]) -> Result<(), OutOfMemory>
        requires { id < length self.old }
        ensures ok { OnOk result (self.new ≡ slice_set self.old id (with_ranges (ranges_of id self.old) ranges.now)) }
        ensures err { OnErr result (Grows id self.old self.new) }
    {
        for range in ranges {
            self.add(id, range)?;
        }
        Ok(())
    }

    /// Takes out the ranges of the id but the first so many, the last one first. Logarithmic in all ranges for each, and
    /// no memory is taken.
    fn shorten(&mut self, id: u32, keep: usize)
        requires known { id < length self.old }
        requires long { keep ≤ length (ranges_of id self.old) }
        ensures { self.new ≡ slice_set self.old id (take keep (ranges_of id self.old)) }
    {
        let mut count = self.count(id);
        while count > keep {
            drop_last(&mut self.by_id, &mut self.forks, id);
            count -= 1;
        }
    }

    /// Adds the ranges to those of the id, one after another, each unless it is among them. On `OutOfMemory` the ranges
    /// are those that were.
    pub fn register(&mut self, id: u32, ranges: &[Range]) -> Result<(), OutOfMemory>
        requires { id < length self.old }
        ensures ok { OnOk result (self.new ≡ slice_set self.old id (with_ranges (ranges_of id self.old) ranges.now)) }
        ensures err { OnErr result (self.new ≡ self.old) }
    {
        let before = self.count(id);
        match self.add_all(id, ranges) {
            Ok(()) => Ok(()),
            Err(error) => {
                self.shorten(id, before);
                Err(error)
            }
        }
    }

    /// Takes out all ranges of the id, if it is there. Logarithmic in all ranges for each, and no memory is taken.
    pub fn forget(&mut self, id: u32)
        ensures { self.new ≡ slice_set self.old id [] }
    {
        if (id as usize) < self.ids() {
            self.shorten(id, 0);
        }
    }

    /// The ids with a range that contains the key, ascending, each once.
    pub fn stab(&self, key: &Key) -> Result<Vec<u32>, OutOfMemory>
        ensures { IfOk result (λ ids. ids.items ≡ stabbed key.now self.now) }
    {
        let mut found = BTreeSet::new(self.alloc);
        self.forks.find(key, &mut found)?;
        listed(self.alloc, found)
    }
}
