// The ranges of ids by where their bounds part.
ghost use Rattle.std.specs.Prelude.{◌≡◌, ℕ, ◌≤◌, [], not, length, IfOk, OnOk, OnErr};
ghost use Rattle.std.specs.Ordering.{nat_cmp};
ghost use Rattle.semantics.specs.Texts.{Range};
ghost use Rattle.key_ranges.specs.Ranges.{just};
ghost use Rattle.updater_index.specs.Forks.{fork_of};
ghost use Rattle.updater_index.specs.Spans.{FindsHolders, AllFound};
ghost use Rattle.updater_index.specs.Sides.{AddsRange, KeepsRanges, RemovesRange, is_registered, is_registered_at, is_at_some};

use crate::bounds::Bounds;
use crate::fork::{Beginning, Fork, next_at};
use crate::side::Side;
use key_space::{Key, KeyBound, Range};
use out_of_memory::OutOfMemory;
use std::alloc::Global;
use std::collections::{BTreeMap, BTreeSet, btree_map};
use std::marker::Model;
use std::ops::Bound;

/// The ranges of ids by where their bounds part: at each such place the ranges stand in the order of either bound. A key
/// that lies in a range begins as its bounds do, so that only places on the way of the key are looked at, and at each
/// only ranges that contain it.
#[derive(Debug, Drop)]
pub struct Forks {
    alloc: Global,
    /// With how many bytes the bounds of some range, which may be gone, begin.
    lengths: BTreeSet<usize>,
    sides: BTreeMap<Fork, Side>,
}

impl Model for Forks {
    ghost use Rattle.updater_index.specs.Sides.{Sides, AreForks};

    ghost Value = { Sides };

    ghost view = { λ f. f.sides.entries };

    ghost invariant = { λ f. AreForks f.lengths f.sides.entries };
}

/// Adds the range to those of the id at its place, and says whether it is new.
fn insert_in(
    alloc: Global,
    sides: &mut BTreeMap<Fork, Side>,
    bounds: &Bounds,
    id: u32,
) -> Result<bool, OutOfMemory>
    ensures added { IfOk result (λ added. added ≡ not (is_registered sides.old.entries bounds.now id)) }
    ensures ok { OnOk result (AddsRange bounds.now id sides.old.entries sides.new.entries) }
    ensures err { OnErr result (KeepsRanges sides.old.entries sides.new.entries) }
{
    match sides.get_mut(bounds.fork()) {
        Some(side) => side.insert(bounds, id),
        None => {
            let mut side = Side::new(alloc);
            side.insert(bounds, id)?;
            sides.insert(bounds.fork().copy(alloc)?, side)?;
            Ok(true)
        }
    }
}

/// Takes the range out of those of the id at its place, and the place with its last range.
fn remove_in(sides: &mut BTreeMap<Fork, Side>, bounds: Bounds, id: u32)
    ensures { RemovesRange bounds id sides.old.entries sides.new.entries }
{
    let (fork, low, high) = bounds.into_parts();
    let Some(side) = sides.get_mut(&fork) else {
        return;
    };
    side.remove(low, high, id);
    if side.is_empty() {
        sides.remove(&fork);
    }
}

/// Finds the ids of the ranges at these places that contain the key. `next` is the byte of the key behind the beginning
/// of these places, plus one, and `after` the next text after the key.
fn find_among(
    sides: btree_map::Range<'_, Fork, Side>,
    next: u16,
    key: &Key,
    after: &KeyBound,
    found: &mut BTreeSet<u32>,
) -> Result<(), OutOfMemory>
    requires { after.now ≡ (just key.now).high }
    ensures finds { OnOk result (FindsHolders (is_at_some sides.entry) key.now found.old found.new) }
    ensures all { OnOk result (AllFound (is_at_some sides.entry) key.now found.new) }
{
    for (fork, side) in sides {
        if next < fork.next {
            side.find_by_low(key, after, found)?;
        } else {
            side.find_by_high(key, after, found)?;
        }
    }
    Ok(())
}

impl Forks {
    /// No ranges. Nothing is allocated.
    pub fn new(alloc: Global) -> Forks
        ensures { result ≡ [] }
    {
        Forks {
            alloc,
            lengths: BTreeSet::new(alloc),
            sides: BTreeMap::new(alloc),
        }
    }

    /// Adds the range to those of the id, and says whether it is new. Logarithmic in the ranges, and linear in the
    /// bounds. On `OutOfMemory` the ranges are those that were.
    pub fn insert(&mut self, bounds: &Bounds, id: u32) -> Result<bool, OutOfMemory>
        ensures added { IfOk result (λ added. added ≡ not (is_registered self.old bounds.now id)) }
        ensures ok { OnOk result (AddsRange bounds.now id self.old self.new) }
        ensures err { OnErr result (KeepsRanges self.old self.new) }
    {
        self.lengths.insert(bounds.fork().beginning.len())?;
        insert_in(self.alloc, &mut self.sides, bounds, id)
    }

    /// Takes the range out of those of the id. Logarithmic in the ranges, and linear in the bounds.
    pub fn remove(&mut self, bounds: Bounds, id: u32)
        ensures { RemovesRange bounds id self.old self.new }
    {
        remove_in(&mut self.sides, bounds, id);
    }

    /// Finds the ids of the ranges that contain the key.
    ///
    /// It takes a search for each length with which the bounds of some range begin alike, of which there are at most
    /// as many as the key has bytes; then a search at each place where bounds part behind such a beginning of the key,
    /// at the key's next byte or a greater one; and the ranges that it finds.
    pub fn find(&self, key: &Key, found: &mut BTreeSet<u32>) -> Result<(), OutOfMemory>
        ensures finds { OnOk result (FindsHolders (is_registered self.now) key.now found.old found.new) }
        ensures all { OnOk result (AllFound (is_registered self.now) key.now found.new) }
    {
        let after = Range::just(self.alloc, key)?.last_place()?;
        for length in self.lengths.range(..=key.text().len()) {
            self.find_at(*length, key, &after, found)?;
        }
        Ok(())
    }

    /// Finds the ids of the ranges that contain the key, among those whose bounds begin with so many equal bytes.
    fn find_at(
        &self,
        shared: usize,
        key: &Key,
        after: &KeyBound,
        found: &mut BTreeSet<u32>,
    ) -> Result<(), OutOfMemory>
        requires within { shared ≤ length key.now }
        requires after { after.now ≡ (just key.now).high }
        ensures finds { OnOk result (FindsHolders (is_registered self.now) key.now found.old found.new) }
        ensures all { OnOk result (AllFound (is_registered_at shared self.now) key.now found.new) }
    {
        let bytes = key.text().as_bytes();
        let next = next_at(bytes, shared);
        let first = Fork {
            beginning: Beginning::of(self.alloc, &bytes[..shared])?,
            next,
        };
        let last = Fork {
            beginning: Beginning::after(self.alloc, &bytes[..shared])?,
            next: 0,
        };
        let sides = self
            .sides
            .range((Bound::Included(first), Bound::Excluded(last)));
        find_among(sides, next, key, after, found)
    }
}
