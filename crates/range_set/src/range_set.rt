// Sets of ranges.
ghost use Rattle.std.specs.Prelude.{◌≡◌, ◌++◌, [], true, Contains, IfOk, OnOk, OnErr, string_bytes};
ghost use Rattle.std.specs.List.{list_all};
ghost use Rattle.std.specs.Ordering.{is_le};
ghost use Rattle.semantics.specs.Texts.{Range, is_range, table_of, text_cmp};
ghost use Rattle.key_ranges.specs.Ranges.{is_below, is_open};
ghost use Rattle.range_set.specs.Joined.{JoinTo};
ghost use Rattle.range_set.specs.Held.{are_apart, are_of_one_table, are_of_table, is_free, item_of, with_range, without_range};
ghost use Rattle.range_set.specs.Pieces.{are_gaps_apart, gaps_of, kept_of, parts_within, ranges_of};
ghost use Rattle.range_set.specs.Gaps.{gap_between};

use crate::piece::Piece;
use key_space::{Range, RangeFault};
use out_of_memory::OutOfMemory;
use std::alloc::Global;
use std::collections::BTreeMap;
use std::marker::Model;
use std::ops::Bound;

/// Ranges of one table, each with an item: none is empty, and no two meet.
///
/// Each stands at the text of its first bound, so that one is found by a text that is lent, which takes no memory.
#[derive(Debug, Drop)]
pub struct RangeSet<T: Copy> {
    alloc: Global,
    ranges: BTreeMap<String, (Range, T)>,
}

impl<T: Copy> Model for RangeSet<T> {
    ghost use Rattle.std.specs.Prelude.{string_bytes};
    ghost use Rattle.range_set.specs.Held.{Held};
    ghost use Rattle.range_set.specs.Stored.{AreStored, held_of};

    ghost Value = { Held T };

    ghost view = { λ s. held_of s.ranges.entries };

    ghost invariant = { λ s. AreStored string_bytes s.ranges.entries };
}

/// Adds the gap from one bound to another, where there is one. Linear in the bounds. On `OutOfMemory` the pieces are
/// those that were.
fn push_gap<T: Copy>(
    alloc: Global,
    pieces: &mut Vec<Piece<T>>,
    low: &str,
    high: &str,
) -> Result<(), OutOfMemory>
    requires { is_below low.now high.now ≡ true → is_range low.now high.now ≡ true }
    ensures { OnOk result (pieces.new.items ≡ pieces.old.items ++ gap_between low.now high.now) }
{
    if low >= high {
        return Ok(());
    }
    match Range::read(alloc, low, high) {
        Ok(range) => {
            pieces.push(Piece::Gap(range))?;
            Ok(())
        }
        Err(RangeFault::BadRange) => unreachable!(),
        Err(RangeFault::OutOfMemory(memory)) => Err(memory),
    }
}

impl<T: Copy> RangeSet<T> {
    /// No ranges, which grow by this allocator. Nothing is allocated yet.
    pub fn new(alloc: Global) -> RangeSet<T>
        ensures { result ≡ [] }
    {
        RangeSet {
            alloc,
            ranges: BTreeMap::new(alloc),
        }
    }

    /// The pieces of the range, in order: what it has in common with each kept range that it meets, and the gaps before,
    /// between and behind these. They join to the range; an empty range has none. Each gap may be inserted.
    ///
    /// It takes a search, which is logarithmic in the kept ranges, and is linear in the pieces and their bounds.
    pub fn cover(&self, range: &Range) -> Result<Vec<Piece<T>>, OutOfMemory>
        ensures joins { IfOk result (λ pieces. JoinTo range.now (ranges_of pieces.items)) }
        ensures kept { IfOk result (λ pieces. kept_of pieces.items ≡ parts_within range.now self.now) }
        ensures whole_gaps { IfOk result (λ pieces. are_gaps_apart pieces.items ≡ true) }
        ensures free_gaps { IfOk result (λ pieces. list_all (is_free self.now) (gaps_of pieces.items) ≡ true) }
        ensures apart { are_apart self.now ≡ true }
        ensures one_table { are_of_one_table self.now ≡ true }
    {
        let low = String::from_str(self.alloc, range.lo())?;
        let high = String::from_str(self.alloc, range.hi())?;
        let start = self.start(&low);
        let mut pieces = Vec::new(self.alloc);
        let mut place = range.first_place()?;
        for (_, held) in self
            .ranges
            .range((Bound::Included(start), Bound::Excluded(&high)))
        {
            if let Some(part) = held.0.cut(range)? {
                push_gap(self.alloc, &mut pieces, place.text(), part.lo())?;
                place = part.last_place()?;
                pieces.push(Piece::Kept(part, held.1))?;
            }
        }
        push_gap(self.alloc, &mut pieces, place.text(), range.hi())?;
        Ok(pieces)
    }

    /// The first bound of the last kept range that does not begin above a bound, and this bound where there is none: no
    /// range that begins before it ends above the bound.
    fn start<'a>(&'a self, low: &'a String) -> &'a String
        ensures up_to { is_le (text_cmp (string_bytes result.now) (string_bytes low.now)) ≡ true }
        ensures passed { (e : Range × T) → Contains self.now e → is_below e.0.low (string_bytes result.now) ≡ true → is_le (text_cmp e.0.high (string_bytes low.now)) ≡ true }
    {
        let mut before = self.ranges.range((Bound::Unbounded, Bound::Included(low)));
        match before.next_back() {
            None => low,
            Some((text, _)) => text,
        }
    }

    /// Keeps the range with its item. Logarithmic in the kept ranges, and linear in the first bound.
    ///
    /// On `OutOfMemory` the ranges are those that were.
    pub fn insert(&mut self, range: Range, item: T) -> Result<(), OutOfMemory>
        requires open { is_open range ≡ true }
        requires free { is_free self.old range ≡ true }
        requires table { are_of_table self.old (table_of range.low) ≡ true }
        ensures ok { OnOk result (self.new ≡ with_range range item self.old) }
        ensures err { OnErr result (self.new ≡ self.old) }
    {
        let low = String::from_str(self.alloc, range.lo())?;
        self.ranges.insert(low, (range, item))?;
        Ok(())
    }

    /// Takes out the kept range that has these bounds, and gives its item; none exactly where no kept range has them.
    /// Logarithmic in the kept ranges.
    pub fn remove(&mut self, range: &Range) -> Option<T>
        ensures item { result ≡ item_of range.now self.old }
        ensures left { self.new ≡ without_range range.now self.old }
    {
        let Some(held) = self.ranges.get(range.lo()) else {
            return None;
        };
        if range.hi() != held.0.hi() {
            return None;
        }
        let item = held.1;
        self.ranges.remove(range.lo());
        Some(item)
    }
}
