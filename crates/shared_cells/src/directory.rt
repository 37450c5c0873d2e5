// Which ranges have a cell, behind a lock.
ghost use Rattle.std.specs.Prelude.{◌≡◌, ◌≤◌, ℕ, [], ◌∷◌, All, Contains, false, length, map, replicate, slice_get, slice_set, true, IfOk, IfSome, MatchOption, None, OnErr, Some};
ghost use Rattle.semantics.specs.Texts.{Range as Bounds};
ghost use Rattle.key_ranges.specs.Ranges.{is_open};
ghost use Rattle.layering.specs.Parts.{IsWithin, JoinTo};
ghost use Rattle.range_set.specs.declared.piece.Piece.TheVariants.{Gap, Kept};
ghost use Rattle.range_set.specs.Held.{are_apart, is_free};
ghost use Rattle.range_set.specs.Pieces.{kept_of, range_of};
ghost use Rattle.cell_slots.specs.Places.{ArePieces, KeepsPlace, LiesInPlace};
ghost use Rattle.cell_slots.specs.Spending.{one_part};
ghost use Rattle.shared_cells.specs.Spots.{leaving, number_at, number_of, numbered, place_at, free};
ghost use Rattle.shared_cells.specs.Listings.{listed_at};
ghost use Rattle.shared_cells.specs.Directories.{GivesCell, GivesParts, IsLetGo, IsMadeOf, IsSame, NoneIsLetGo, directory_of};

use crate::followed::Followed;
use crate::listings::Listings;
use crate::ranked_join::RankedJoin;
use crate::spots::{SharedCell, Spots};
use crate::uses::Uses;
use base_shards::Naming;
use cell_slots::are_too_many;
use join_set::JoinSet;
use key_space::Range;
use out_of_memory::OutOfMemory;
use range_set::Piece;
use std::alloc::Global;
use std::marker::Model;
use std::sync::{Arc, Mutex};
use write_history::Pass;

/// A part of a range that was asked for, and the cell that has it with its number, if one does.
#[derive(Drop)]
pub struct Part<N: Naming> {
    /// The part.
    pub range: Range,
    /// The cell's number, and the cell.
    pub cell: Option<(u32, SharedCell<N>)>,
}

/// The ranges that have a cell, by their join with its rank, and what stands at each cell's number: each range that is listed is
/// the one for which the cell with its number is. A join whose rank changed has other cells than before. It follows the joins, to
/// know whose cells nobody reads any more. A read at an earlier position may still give cells to other joins, and there are
/// strays then.
#[derive(Drop)]
pub struct Directory<N: Naming> {
    alloc: Global,
    followed: Followed,
    has_strays: bool,
    listings: Listings,
    spots: Spots<N>,
    uses: Uses,
}

impl<N: Naming> Model for Directory<N> {
    ghost use Rattle.shared_cells.specs.Directories.{DirectoryView, IsDirectory, directory_of};

    ghost Value = { DirectoryView };

    ghost view = { λ d. directory_of d.spots d.listings };

    ghost invariant = { λ d. IsDirectory d.spots d.listings };
}

/// Says whether the gaps of a range in so many parts are to be kept: where they may be, and the parts are not too many. Constant.
fn are_gaps_kept(keep: bool, parts: usize, range: &Range) -> bool
    ensures { keep ≡ false → result ≡ false }
{
    keep && !are_too_many(parts, range)
}

/// Gives a range of the join a cell for its rank, and answers with the cell's number, for whose uses there is room then. It gives
/// none where each number has a cell, or where the range is empty or has something in common with one that has a cell for them.
///
/// On `OutOfMemory` nothing changes.
fn give_in<N: Naming>(
    alloc: Global,
    listings: &mut Listings,
    spots: &mut Spots<N>,
    uses: &mut Uses,
    join: RankedJoin,
    range: &Range,
) -> Result<Option<u32>, OutOfMemory>
    ensures given { IfOk result
        (GivesCell join range.now (directory_of spots.old listings.old) (directory_of spots.new listings.new)) }
    ensures err { OnErr result (IsSame (directory_of spots.old listings.old) (directory_of spots.new listings.new)) }
{
    let free = spots.next_free()?;
    let Some(id) = free else {
        return Ok(None);
    };
    uses.reach(id)?;
    let place = range.copy()?;
    let own = range.copy()?;
    let shared: SharedCell<N> = Arc::new(alloc, Mutex::new(None))?;
    let is_listed = listings.insert(join, range, id)?;
    if !is_listed {
        return Ok(None);
    }
    if !spots.put_cell(id, join, place, own, shared) {
        listings.remove(join, range);
        return Ok(None);
    }
    Ok(Some(id))
}

/// Takes the cell with a number out, if there is one, and its range off the list.
fn take_in<N: Naming>(
    listings: &mut Listings,
    spots: &mut Spots<N>,
    id: u32,
) -> Option<SharedCell<N>>
    ensures { MatchOption result (NoneIsLetGo id (directory_of spots.old listings.old) (directory_of spots.new listings.new))
        (λ _. IsLetGo id (directory_of spots.old listings.old) (directory_of spots.new listings.new)) }
{
    let Some(out) = spots.take_out(id) else {
        return None;
    };
    listings.remove(out.join, &out.range);
    Some(out.cell)
}

impl<N: Naming> Directory<N> {
    /// Makes a number for each pass, from 0 up, none of which has a cell. Nothing is allocated.
    pub fn new(alloc: Global, passes: Vec<Pass>) -> Directory<N>
        requires { All (λ pass. pass.history ≡ N.history) passes.items }
        ensures { result ≡ directory_of (replicate (length passes.items) free) [] }
    {
        let spots = Spots::new(alloc, passes);
        let listings = Listings::new(alloc);
        Directory {
            alloc,
            followed: Followed::new(alloc),
            has_strays: false,
            listings,
            spots,
            uses: Uses::new(alloc),
        }
    }

    /// Gives the pieces of a range, in order: what it has in common with ranges of the join that have a cell for its rank, which
    /// lies within the place that this cell keeps, and the gaps.
    fn pieces(&self, join: RankedJoin, range: &Range) -> Result<Vec<Piece<u32>>, OutOfMemory>
        ensures pieces { IfOk result (λ pieces. ArePieces range.now (listed_at self.now.listed join) pieces.items) }
        ensures apart { are_apart (listed_at self.now.listed join) ≡ true }
        ensures places { IfOk result (λ pieces. (id : ℕ) (part : Bounds) →
            Contains (kept_of pieces.items) (part, id) → LiesInPlace (place_at self.now.spots) id join part) }
    {
        self.listings.cover(join, range)
    }

    /// Says whether a cell may be of a join that is not among these, or has another rank there, and these are no earlier ones
    /// than those that are followed. It compares two numbers.
    fn is_behind(&self, joins: &JoinSet) -> bool {
        let changed = joins.changed_at();
        let followed = self.followed.changed_at();
        followed < changed || (followed == changed && self.has_strays)
    }

    /// Follows the joins of a set, where they are later than those that are followed, or there are strays, and gives the numbers
    /// of the cells that are of none of them with its rank. No range of these has a cell any more.
    ///
    /// It compares two numbers, and only where it follows the joins searches for each cell. On `OutOfMemory` nothing changes.
    pub fn follow(&mut self, joins: &JoinSet) -> Result<Vec<u32>, OutOfMemory>
        ensures { self.new.spots ≡ self.old.spots }
    {
        if !self.is_behind(joins) {
            return Ok(Vec::new(self.alloc));
        }
        let followed = Followed::of(self.alloc, joins)?;
        let left = self.left_by(&followed)?;
        self.listings.keep_followed(&followed);
        self.followed = followed;
        self.has_strays = false;
        Ok(left)
    }

    /// Gives the numbers of the cells whose joins are not followed with their ranks.
    fn left_by(&self, followed: &Followed) -> Result<Vec<u32>, OutOfMemory> {
        let mut left = Vec::new(self.alloc);
        for id in 0..self.spots.count() {
            if let Some(join) = self.spots.join_at(id)
                && !followed.has(join)
            {
                left.push(id)?;
            }
        }
        Ok(left)
    }

    /// Gives the range in parts, in order, each with the cell in whose place it lies, where there is one: each listed range that
    /// lies within the range is a part. To be kept, each gap between them is given a cell, while there is a number without one; of
    /// a range in more than 64 parts none is.
    ///
    /// It takes two searches, and for each part that is given a cell a few more. On `OutOfMemory` some gaps may have been given
    /// cells.
    pub fn cover(
        &mut self,
        join: RankedJoin,
        range: &Range,
        keep: bool,
    ) -> Result<Vec<Part<N>>, OutOfMemory>
        ensures join { IfOk result (λ parts. JoinTo range.now (map (λ part. part.range) parts.items)) }
        ensures kept { IfOk result (λ parts. (id : ℕ) (part : Bounds) →
            Contains (map (λ p. numbered p.range p.cell) parts.items) (record { range = part; cell = Some id }) →
            LiesInPlace (place_at self.new.spots) id join part) }
        ensures gaps { IfOk result (λ parts. (part : Bounds) →
            Contains (map (λ p. numbered p.range p.cell) parts.items) (record { range = part; cell = None }) →
            is_free (listed_at self.old.listed join) part ≡ true) }
        ensures served { IfOk result (λ parts. (id : ℕ) (place : Bounds) →
            Contains (listed_at self.old.listed join) (place, id) → IsWithin place range.now →
            Contains (map (λ p. numbered p.range p.cell) parts.items) (record { range = place; cell = Some id })) }
        ensures whole { IfOk result (λ parts. (id : ℕ) (place : Bounds) → is_open range.now ≡ true →
            Contains (listed_at self.old.listed join) (place, id) → IsWithin range.now place →
            map (λ p. numbered p.range p.cell) parts.items ≡ one_part range.now id) }
        ensures none { IfOk result (λ parts. is_open range.now ≡ true →
            is_free (listed_at self.old.listed join) range.now ≡ true →
            map (λ part. part.range) parts.items ≡ range.now ∷ []) }
        ensures given { GivesParts join range.now self.old self.new }
        ensures pulled { keep ≡ false → self.new ≡ self.old }
    {
        let pieces = self.pieces(join, range)?;
        let is_kept = are_gaps_kept(keep, pieces.len(), range);
        let mut parts = Vec::with_capacity(self.alloc, pieces.len())?;
        for piece in pieces {
            parts.push(self.part(join, piece, is_kept)?)?;
        }
        Ok(parts)
    }

    /// Gives a piece as a part. A gap that is to be kept is given a cell, if there is a number without one.
    ///
    /// On `OutOfMemory` the gap may have been given the cell.
    fn part(
        &mut self,
        join: RankedJoin,
        piece: Piece<u32>,
        keep: bool,
    ) -> Result<Part<N>, OutOfMemory>
        requires { (id : ℕ) (range : Bounds) → piece ≡ Kept range id → LiesInPlace (place_at self.old.spots) id join range }
        ensures made { IfOk result (λ part. IsMadeOf join self.new.spots piece (numbered part.range part.cell)) }
        ensures given { GivesParts join (range_of piece) self.old self.new }
        ensures pulled { keep ≡ false → self.new ≡ self.old }
    {
        match piece {
            Piece::Kept(range, id) => self.kept_part(range, id),
            Piece::Gap(range) => self.gap_part(join, range, keep),
        }
    }

    /// Gives a range as a part with the cell that has the number, if there is one, which is used now.
    fn kept_part(&mut self, range: Range, id: u32) -> Result<Part<N>, OutOfMemory>
        ensures range { IfOk result (λ part. part.range ≡ range) }
        ensures cell { IfOk result (λ part. number_of part.cell ≡ number_at self.old.spots id) }
        ensures same { self.new ≡ self.old }
    {
        let cell = self.cell(id)?;
        self.uses.note(id);
        Ok(Part { range, cell })
    }

    /// Gives a gap as a part. To be kept it is given a cell, if there is a number without one.
    ///
    /// On `OutOfMemory` it may have been given the cell.
    fn gap_part(
        &mut self,
        join: RankedJoin,
        range: Range,
        keep: bool,
    ) -> Result<Part<N>, OutOfMemory>
        ensures made { IfOk result (λ part. IsMadeOf join self.new.spots (Gap range) (numbered part.range part.cell)) }
        ensures given { GivesParts join range self.old self.new }
        ensures pulled { keep ≡ false → self.new ≡ self.old }
    {
        if !keep {
            return Ok(Part { range, cell: None });
        }
        let cell = self.give_cell(join, &range)?;
        Ok(Part { range, cell })
    }

    /// Gives the cell with a number, and the number, if there is a cell. It takes constant time.
    pub fn cell(&self, id: u32) -> Result<Option<(u32, SharedCell<N>)>, OutOfMemory>
        ensures { IfOk result (λ found. number_of found ≡ number_at self.now.spots id) }
    {
        self.spots.cell(id)
    }

    /// Gives a range of the join a cell for its rank, if there is a number without one and no other cell for them has some of it.
    ///
    /// On `OutOfMemory` the range may have been given the cell.
    fn give_cell(
        &mut self,
        join: RankedJoin,
        range: &Range,
    ) -> Result<Option<(u32, SharedCell<N>)>, OutOfMemory>
        ensures kept { IfOk result (λ found. IfSome (number_of found) (λ id.
            KeepsPlace (place_at self.new.spots) id join range.now)) }
        ensures given { GivesParts join range.now self.old self.new }
    {
        let given = self.give_place(join, range)?;
        let Some(id) = given else {
            return Ok(None);
        };
        self.note_given(join, id);
        self.cell(id)
    }

    /// Gives a range of the join a cell for its rank, and answers with the cell's number. It gives none where each number has a
    /// cell, or where the range is empty or has something in common with one that has a cell for them.
    ///
    /// On `OutOfMemory` nothing changes.
    fn give_place(&mut self, join: RankedJoin, range: &Range) -> Result<Option<u32>, OutOfMemory>
        ensures given { IfOk result (GivesCell join range.now self.old self.new) }
        ensures err { OnErr result (IsSame self.old self.new) }
    {
        give_in(
            self.alloc,
            &mut self.listings,
            &mut self.spots,
            &mut self.uses,
            join,
            range,
        )
    }

    /// Takes note that a cell was given to a join, and is used now.
    fn note_given(&mut self, join: RankedJoin, id: u32)
        ensures { self.new ≡ self.old }
    {
        let is_followed = self.followed.has(join);
        self.has_strays = self.has_strays || !is_followed;
        self.uses.note(id);
    }

    /// Tells after how many uses the cell with a number was last used, with that use, if there is one. It takes constant time.
    fn last_use(&self, id: u32) -> Option<u64> {
        match self.spots.join_at(id) {
            Some(_) => self.uses.last(id),
            None => None,
        }
    }

    /// Gives the use that is half way from the last one of the least recently used cell to the last one of all, and below which
    /// number all cells are. By then the least recently used cell at least was last used. Linear in the cells that there were at
    /// one time at most, and it takes no memory.
    pub fn older_half(&self) -> (u64, u32) {
        let mut oldest = self.uses.count();
        for id in 0..self.spots.count() {
            if let Some(last) = self.last_use(id)
                && last < oldest
            {
                oldest = last;
            }
        }
        let span = self.uses.count().saturating_sub(oldest);
        (oldest.saturating_add(span / 2), self.spots.count())
    }

    /// Says whether there is a cell with the number, which was not used after so many uses. It takes constant time, and no
    /// memory.
    pub fn was_last_used_by(&self, id: u32, until: u64) -> bool {
        match self.last_use(id) {
            Some(last) => last <= until,
            None => false,
        }
    }

    /// Takes the cell with a number out, if there is one: its range has no cell then, and the number waits for its pass. It
    /// takes a few searches, and no memory.
    pub fn take_out(&mut self, id: u32) -> Option<SharedCell<N>>
        ensures { MatchOption result (NoneIsLetGo id self.old self.new) (λ _. IsLetGo id self.old self.new) }
    {
        take_in(&mut self.listings, &mut self.spots, id)
    }

    /// Gives a number that waits for it back the pass of the cell that was evicted: it can have another cell. Where the number does
    /// not wait nothing changes, and the pass is let go. It takes constant time, and no memory.
    pub fn give_back(&mut self, id: u32, pass: Pass)
        requires { pass.history ≡ N.history }
        ensures back { slice_get self.old.spots id ≡ Some leaving →
            self.new ≡ directory_of (slice_set self.old.spots id free) self.old.listed }
        ensures same { (slice_get self.old.spots id ≡ Some leaving → ⊥) → self.new ≡ self.old }
    {
        self.spots.give_back(id, pass);
    }
}
