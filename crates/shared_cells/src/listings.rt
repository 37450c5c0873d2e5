// The ranges that have a cell, by their join with its rank.
ghost use Rattle.std.specs.Prelude.{◌≡◌, [], true, false, IfOk, OnErr};
ghost use Rattle.range_set.specs.Held.{are_apart};
ghost use Rattle.cell_slots.specs.Places.{ArePieces};
ghost use Rattle.shared_cells.specs.Listings.{IsListed, IsUnlisted, ListsFollowed, StayListed, listed_at};

use crate::followed::Followed;
use crate::listing::Listing;
use crate::ranked_join::RankedJoin;
use key_space::Range;
use out_of_memory::OutOfMemory;
use range_set::{Piece, RangeSet};
use std::alloc::Global;
use std::collections::BTreeMap;
use std::marker::Model;

/// The ranges that have a cell, each with the cell's number, by their join with its rank. A join whose rank changed has other
/// ranges than before.
#[derive(Drop)]
pub struct Listings {
    alloc: Global,
    joins: BTreeMap<RankedJoin, Listing>,
}

impl Model for Listings {
    ghost use Rattle.shared_cells.specs.Listings.{Listed};

    ghost Value = { Listed };

    ghost view = { λ l. l.joins.entries };
}

/// Lists the first range of a join with the number of its cell, and says whether it did.
///
/// On `OutOfMemory` the ranges are those that were.
fn list_first(
    alloc: Global,
    joins: &mut BTreeMap<RankedJoin, Listing>,
    join: RankedJoin,
    range: &Range,
    id: u32,
) -> Result<bool, OutOfMemory>
    requires { listed_at joins.old.entries join ≡ [] }
    ensures listed { IfOk result (λ is_listed. is_listed ≡ true →
        IsListed join range.now id joins.old.entries joins.new.entries) }
    ensures left { IfOk result (λ is_listed. is_listed ≡ false → StayListed joins.old.entries joins.new.entries) }
    ensures err { OnErr result (StayListed joins.old.entries joins.new.entries) }
{
    let mut listing = Listing::new(alloc, range)?;
    let is_listed = listing.add(range, id)?;
    joins.insert(join, listing)?;
    Ok(is_listed)
}

/// Lists the range of a join with the number of its cell, and says whether it did.
///
/// On `OutOfMemory` the ranges are those that were.
fn list_in(
    alloc: Global,
    joins: &mut BTreeMap<RankedJoin, Listing>,
    join: RankedJoin,
    range: &Range,
    id: u32,
) -> Result<bool, OutOfMemory>
    ensures listed { IfOk result (λ is_listed. is_listed ≡ true →
        IsListed join range.now id joins.old.entries joins.new.entries) }
    ensures left { IfOk result (λ is_listed. is_listed ≡ false → StayListed joins.old.entries joins.new.entries) }
    ensures err { OnErr result (StayListed joins.old.entries joins.new.entries) }
{
    match joins.get_mut(&join) {
        Some(listing) => listing.add(range, id),
        None => list_first(alloc, joins, join, range, id),
    }
}

/// Takes the range of a join that has these bounds off the list, if it is there.
fn unlist_in(joins: &mut BTreeMap<RankedJoin, Listing>, join: RankedJoin, range: &Range)
    ensures { IsUnlisted join range.now joins.old.entries joins.new.entries }
{
    match joins.get_mut(&join) {
        None => {}
        Some(listing) => listing.remove(range),
    }
}

impl Listings {
    /// No ranges. Nothing is allocated.
    pub fn new(alloc: Global) -> Listings
        ensures { result ≡ [] }
    {
        Listings {
            alloc,
            joins: BTreeMap::new(alloc),
        }
    }

    /// The pieces of a range, in order: what it has in common with ranges of the join that have a cell for its rank, and the
    /// gaps. It takes two searches, which are logarithmic in the joins and in the ranges of this one, and is linear in the
    /// pieces.
    pub fn cover(&self, join: RankedJoin, range: &Range) -> Result<Vec<Piece<u32>>, OutOfMemory>
        ensures pieces { IfOk result (λ pieces. ArePieces range.now (listed_at self.now join) pieces.items) }
        ensures apart { are_apart (listed_at self.now join) ≡ true }
    {
        match self.joins.get(&join) {
            Some(listing) => listing.cover(range),
            None => {
                let none: RangeSet<u32> = RangeSet::new(self.alloc);
                none.cover(range)
            }
        }
    }

    /// Lists the range of the join for its rank, with the number of its cell, and says whether it did: it does not where the
    /// range is empty, is of another table than those of the join that are listed, or has something in common with one of them.
    /// It takes a few searches.
    ///
    /// On `OutOfMemory` the ranges are those that were.
    pub fn insert(&mut self, join: RankedJoin, range: &Range, id: u32) -> Result<bool, OutOfMemory>
        ensures listed { IfOk result (λ is_listed. is_listed ≡ true → IsListed join range.now id self.old self.new) }
        ensures left { IfOk result (λ is_listed. is_listed ≡ false → StayListed self.old self.new) }
        ensures err { OnErr result (StayListed self.old self.new) }
    {
        list_in(self.alloc, &mut self.joins, join, range, id)
    }

    /// Takes the range of the join with its rank off the list, if it is there. It takes two searches, and no memory.
    pub fn remove(&mut self, join: RankedJoin, range: &Range)
        ensures { IsUnlisted join range.now self.old self.new }
    {
        unlist_in(&mut self.joins, join, range);
    }

    /// Takes the ranges of all joins off the list that are not followed with their ranks. It takes a search for each join, and no
    /// memory.
    pub fn keep_followed(&mut self, followed: &Followed)
        ensures { ListsFollowed followed.now self.old self.new }
    {
        self.joins.retain(|join, _| followed.has(*join));
    }
}
