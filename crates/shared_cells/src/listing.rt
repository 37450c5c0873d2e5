// The ranges of one join that have a cell.
ghost use Rattle.std.specs.Prelude.{◌≡◌, [], true, false, IfOk, IfSome, OnErr};
ghost use Rattle.range_set.specs.Held.{are_apart, without_range};
ghost use Rattle.cell_slots.specs.Places.{ArePieces};
ghost use Rattle.shared_cells.specs.Listings.{IsAdded, IsLoneGap};

use key_space::Range;
use out_of_memory::OutOfMemory;
use range_set::{Piece, RangeSet};
use std::alloc::Global;
use std::marker::Model;

/// The ranges of one join that have a cell for one rank of it, each with the cell's number, and the table that they are of.
/// Contracts see the ranges.
#[derive(Drop)]
pub struct Listing {
    table: String,
    ranges: RangeSet<u32>,
}

impl Model for Listing {
    ghost use Rattle.std.specs.Prelude.{◌≡◌, ℕ, true, string_bytes};
    ghost use Rattle.range_set.specs.Held.{Held, are_of_table};

    ghost Value = { Held ℕ };

    ghost view = { λ l. l.ranges };

    ghost invariant = { λ l. are_of_table l.ranges (string_bytes l.table) ≡ true };
}

/// The range as a gap, if it is not empty and has nothing in common with ranges.
fn gap_among(ranges: &RangeSet<u32>, range: &Range) -> Result<Option<Range>, OutOfMemory>
    ensures { IfOk result (λ found. IfSome found (IsLoneGap ranges.now range.now)) }
{
    let mut pieces = ranges.cover(range)?;
    if pieces.len() != 1 {
        return Ok(None);
    }
    match pieces.pop() {
        Some(Piece::Gap(gap)) => Ok(Some(gap)),
        _ => Ok(None),
    }
}

impl Listing {
    /// No ranges, of the table of this one.
    pub fn new(alloc: Global, range: &Range) -> Result<Listing, OutOfMemory>
        ensures { IfOk result (λ listing. listing ≡ []) }
    {
        let table = String::from_str(alloc, range.table())?;
        Ok(Listing {
            table,
            ranges: RangeSet::new(alloc),
        })
    }

    /// The pieces of a range, in order: what it has in common with ranges that have a cell, and the gaps. It takes a search, and
    /// is linear in the pieces and their bounds.
    pub fn cover(&self, range: &Range) -> Result<Vec<Piece<u32>>, OutOfMemory>
        ensures pieces { IfOk result (λ pieces. ArePieces range.now self.now pieces.items) }
        ensures apart { are_apart self.now ≡ true }
    {
        self.ranges.cover(range)
    }

    /// Gives the range the cell with this number, and says whether it did: it does not where the range is empty or of another
    /// table, or has something in common with one that has a cell. It takes two searches.
    ///
    /// On `OutOfMemory` the ranges are those that were.
    pub fn add(&mut self, range: &Range, id: u32) -> Result<bool, OutOfMemory>
        ensures added { IfOk result (λ is_added. is_added ≡ true → IsAdded range.now id self.old self.new) }
        ensures left { IfOk result (λ is_added. is_added ≡ false → self.new ≡ self.old) }
        ensures err { OnErr result (self.new ≡ self.old) }
    {
        if range.table() != self.table.as_str() {
            return Ok(false);
        }
        let found = gap_among(&self.ranges, range)?;
        let Some(gap) = found else {
            return Ok(false);
        };
        self.ranges.insert(gap, id)?;
        Ok(true)
    }

    /// Takes out the range that has these bounds, if it is there. It takes a search, and no memory.
    pub fn remove(&mut self, range: &Range)
        ensures { self.new ≡ without_range range.now self.old }
    {
        self.ranges.remove(range);
    }
}
