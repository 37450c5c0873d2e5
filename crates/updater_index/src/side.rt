// The ranges of ids whose bounds part at one place.
ghost use Rattle.std.specs.Prelude.{◌≡◌, ℕ, [], ◌∷◌, ◌++◌, ◌||◌, ◌&&◌, not, length, IfOk, OnOk, OnErr, IsTrue, ◌↔◌, true, false};
ghost use Rattle.std.specs.List.{list_any};
ghost use Rattle.std.specs.Ordering.{nat_cmp};
ghost use Rattle.std.specs.BTreeSet.{contains};
ghost use Rattle.semantics.specs.Texts.{Range, within};
ghost use Rattle.key_ranges.specs.Ranges.{just};
ghost use Rattle.updater_index.specs.Spans.{low_span, high_span, has_low, has_high, is_same, holds, FindsHolders, AllFound};

use crate::bounds::Bounds;
use key_space::{Key, KeyBound};
use out_of_memory::OutOfMemory;
use std::alloc::Global;
use std::collections::{BTreeSet, btree_set};
use std::marker::Model;
use std::ops::Bound;

/// A range of an id, with the bound first by which it stands in order.
#[derive(Debug, Drop, PartialEq, Eq, PartialOrd, Ord)]
pub struct Span {
    pub first: KeyBound,
    pub id: u32,
    pub second: KeyBound,
}

/// Whether the key is not below the one bound and below the other.
fn lies_between(key: &Key, low: &KeyBound, high: &KeyBound) -> bool
    ensures { result ≡ within (record { low = low.now; high = high.now }) key.now }
{
    low.text() <= key.text() && key.text() < high.text()
}

/// Finds the ids of those spans whose ranges contain the key. Linear in the spans.
fn find_among(
    spans: btree_set::Range<'_, Span>,
    by_low: bool,
    key: &Key,
    found: &mut BTreeSet<u32>,
) -> Result<(), OutOfMemory>
    ensures { OnOk result ((id : ℕ) → contains nat_cmp found.new id ≡ (contains nat_cmp found.old id || list_any (holds by_low key.now id) spans.entry)) }
{
    for span in spans {
        let inside = if by_low {
            lies_between(key, &span.first, &span.second)
        } else {
            lies_between(key, &span.second, &span.first)
        };
        if inside {
            found.insert(span.id)?;
        }
    }
    Ok(())
}

impl Span {
    /// The same with its bounds in the other order.
    fn turned(self) -> Span
        ensures { result ≡ record { first = self.second; id = self.id; second = self.first } }
    {
        let Span { first, id, second } = self;
        Span {
            first: second,
            id,
            second: first,
        }
    }
}

/// The ranges of ids whose bounds part at one place, by their first bounds and by their last ones.
#[derive(Debug, Drop)]
pub struct Side {
    lows: BTreeSet<Span>,
    highs: BTreeSet<Span>,
}

impl Model for Side {
    ghost use Rattle.std.specs.Prelude.{◌≡◌, ℕ, List};
    ghost use Rattle.semantics.specs.Texts.{Range};
    ghost use Rattle.updater_index.specs.Spans.{has_low, has_high};
    ghost use Rattle.updater_index.specs.declared.side.Span.{Span};

    ghost Value = { List Span };

    ghost view = { λ s. s.lows.keys };

    ghost invariant = { λ s. (r : Range) (id : ℕ) → has_high s.highs.keys r id ≡ has_low s.lows.keys r id };
}

impl Side {
    /// No ranges. Nothing is allocated.
    pub fn new(alloc: Global) -> Side
        ensures { result ≡ [] }
    {
        Side {
            lows: BTreeSet::new(alloc),
            highs: BTreeSet::new(alloc),
        }
    }

    /// Adds the range to those of the id, and says whether it is new. Logarithmic in the ranges. On `OutOfMemory` the
    /// ranges are those that were.
    pub fn insert(&mut self, bounds: &Bounds, id: u32) -> Result<bool, OutOfMemory>
        ensures added { IfOk result (λ added. added ≡ not (has_low self.old bounds.now id)) }
        ensures ok { OnOk result ((r : Range) (q : ℕ) → has_low self.new r q ≡ (is_same bounds.now id r q || has_low self.old r q)) }
        ensures err { OnErr result ((r : Range) (q : ℕ) → has_low self.new r q ≡ has_low self.old r q) }
    {
        let low = Span {
            first: bounds.low().copy()?,
            id,
            second: bounds.high().copy()?,
        };
        let high = Span {
            first: bounds.high().copy()?,
            id,
            second: bounds.low().copy()?,
        };
        let added = self.lows.insert(low)?;
        match self.highs.insert(high) {
            Ok(_) => Ok(added),
            Err(failed) => {
                let (memory, span) = OutOfMemory::split(failed);
                if added {
                    self.lows.remove(&span.turned());
                    return Err(memory);
                }
                Err(memory)
            }
        }
    }

    /// Takes the range out of those of the id. Logarithmic in the ranges.
    pub fn remove(&mut self, low: KeyBound, high: KeyBound, id: u32)
        ensures { (r : Range) (q : ℕ) → has_low self.new r q ≡ (not (is_same (record { low = low; high = high }) id r q) && has_low self.old r q) }
    {
        let span = Span {
            first: low,
            id,
            second: high,
        };
        self.lows.remove(&span);
        self.highs.remove(&span.turned());
    }

    /// Finds the ids of the ranges that contain the key, among those whose first bound is not above it. `after` is the
    /// next text after the key. It takes the search for it, and is linear in these ranges.
    pub fn find_by_low(
        &self,
        key: &Key,
        after: &KeyBound,
        found: &mut BTreeSet<u32>,
    ) -> Result<(), OutOfMemory>
        requires { after.now ≡ (just key.now).high }
        ensures finds { OnOk result (FindsHolders (has_low self.now) key.now found.old found.new) }
        ensures all { OnOk result (AllFound (has_low self.now) key.now found.new) }
    {
        let end = Span {
            first: after.copy()?,
            id: 0,
            second: after.copy()?,
        };
        let spans = self.lows.range((Bound::Unbounded, Bound::Excluded(end)));
        find_among(spans, true, key, found)
    }

    /// Finds the ids of the ranges that contain the key, among those whose last bound is above it. `after` is the next
    /// text after the key. It takes the search for it, and is linear in these ranges.
    pub fn find_by_high(
        &self,
        key: &Key,
        after: &KeyBound,
        found: &mut BTreeSet<u32>,
    ) -> Result<(), OutOfMemory>
        requires { after.now ≡ (just key.now).high }
        ensures finds { OnOk result (FindsHolders (has_low self.now) key.now found.old found.new) }
        ensures all { OnOk result (AllFound (has_low self.now) key.now found.new) }
    {
        let start = Span {
            first: key.place().copy()?,
            id: u32::MAX,
            second: after.copy()?,
        };
        let spans = self.highs.range((Bound::Excluded(start), Bound::Unbounded));
        find_among(spans, false, key, found)
    }

    /// Whether there are no ranges.
    pub fn is_empty(&self) -> bool
        ensures { IsTrue result ↔ (self.now ≡ []) }
    {
        self.lows.is_empty()
    }
}
