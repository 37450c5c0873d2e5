// What stands at the numbers of cells.
ghost use Rattle.std.specs.Prelude.{◌≡◌, ◌<◌, All, length, map, replicate, slice_get, slice_set, is_some, IfOk, MatchOption, Some, option_and_then, option_map};
ghost use Rattle.std.specs.Bool.{MatchBool};
ghost use Rattle.std.specs.Option.{option_copied};
ghost use Rattle.shared_cells.specs.Spots.{IsPut, IsTakenOut, NoneIsTakenOut, leaving, number_at, number_of, place_of, spot_view, free, with_unused};

use crate::cell::Cell;
use crate::idle::IdlePass;
use crate::ranked_join::RankedJoin;
use base_shards::Naming;
use key_space::Range;
use out_of_memory::OutOfMemory;
use std::alloc::Global;
use std::marker::Model;
use std::mem;
use std::sync::{Arc, Mutex};
use write_history::Pass;

/// A cell, which threads share; none once it is evicted.
pub type SharedCell<N> = Arc<Mutex<Option<Cell<N>>>>;

/// What stands at a cell's number.
#[derive(Drop)]
pub enum Spot<F, T> {
    /// No cell. What waits for one, and the next number that has none.
    Free(F, Option<u32>),
    /// A cell: its join with the rank that it is for, its range, and the cell.
    Taken(RankedJoin, Range, T),
    /// A cell that is being evicted. What is to wait here is on its way back.
    Leaving,
}

/// What stands at the number of a cell that threads share: where there is none, a pass waits for one.
type CellSpot<N> = Spot<IdlePass<N>, SharedCell<N>>;

/// A cell that was taken out, and the place that it kept: for which join with its rank, and the range.
#[derive(Drop)]
pub struct Evicted<N: Naming> {
    /// The join, with its rank.
    pub join: RankedJoin,
    /// The range.
    pub range: Range,
    /// The cell.
    pub cell: SharedCell<N>,
}

/// What stands at the numbers of up to 65,536 cells. Contracts see where a cell stands, and for what it is.
///
/// Numbers are taken into use from 0 up, each when no other is free. One that is not in use takes the four bytes of its pass.
#[derive(Drop)]
pub struct Spots<N: Naming> {
    alloc: Global,
    /// What stands at the numbers that are in use.
    spots: Vec<CellSpot<N>>,
    /// How many these are.
    count: u32,
    /// One of them that has no cell, if one has none. The others follow it, each the one before.
    free: Option<u32>,
    /// A pass for each number that is not in use.
    unused: Vec<Pass>,
}

impl<N: Naming> Model for Spots<N> {
    ghost use Rattle.std.specs.Prelude.{◌≡◌, All, List, length, map};
    ghost use Rattle.shared_cells.specs.Spots.{SpotView, spot_view, with_unused};

    ghost Value = { List SpotView };

    ghost view = { λ s. with_unused (map spot_view s.spots.items) (length s.unused.items) };

    ghost invariant = { λ s. All (λ pass. pass.history ≡ N.history) s.unused.items };
}

/// Gives what stands at a number; none where there is no such number. It takes constant time.
fn spot_at<N: Naming>(spots: &[CellSpot<N>], id: u32) -> Option<&CellSpot<N>>
    ensures { option_copied result ≡ slice_get spots.now id }
{
    spots.get(id as usize)
}

/// Gives the cell that stands there, if one does.
fn cell_of<N: Naming>(spot: Option<&CellSpot<N>>) -> Option<&SharedCell<N>>
    ensures { is_some result ≡ is_some (option_and_then place_of (option_map spot_view (option_copied spot.entry))) }
{
    match spot {
        Some(Spot::Taken(_, _, cell)) => Some(cell),
        Some(Spot::Free(_, _)) => None,
        Some(Spot::Leaving) => None,
        None => None,
    }
}

/// Puts something at a number, and gives what stood there. It takes constant time and no memory.
fn swap<N: Naming>(spots: &mut Vec<CellSpot<N>>, id: u32, spot: CellSpot<N>) -> CellSpot<N>
    requires { id < length spots.old.items }
    ensures set { spots.new.items ≡ slice_set spots.old.items id spot }
    ensures was { slice_get spots.old.items id ≡ Some result }
{
    let place = &mut spots[id as usize];
    mem::replace(place, spot)
}

/// Puts something at a number, if there is such a number, and gives what stood there. It takes constant time and no memory.
fn replace<N: Naming>(
    spots: &mut Vec<CellSpot<N>>,
    id: u32,
    spot: CellSpot<N>,
) -> Option<CellSpot<N>>
    ensures set { map spot_view spots.new.items ≡ slice_set (map spot_view spots.old.items) id (spot_view spot) }
    ensures was { slice_get (map spot_view spots.old.items) id ≡ option_map spot_view result }
{
    if id as usize >= spots.len() {
        return None;
    }
    Some(swap(spots, id, spot))
}

/// Takes the next number into use, with one of the passes of those that are not, and says whether there was one. No cell stands
/// there. It takes constant time. On `OutOfMemory` nothing changes.
fn add_number<N: Naming>(
    spots: &mut Vec<CellSpot<N>>,
    unused: &mut Vec<Pass>,
) -> Result<bool, OutOfMemory>
    requires { All (λ pass. pass.history ≡ N.history) unused.old.items }
    ensures same { with_unused (map spot_view spots.new.items) (length unused.new.items) ≡
        with_unused (map spot_view spots.old.items) (length unused.old.items) }
    ensures same_history { All (λ pass. pass.history ≡ N.history) unused.new.items }
{
    spots.reserve(1)?;
    let Some(pass) = unused.pop() else {
        return Ok(false);
    };
    match spots.push(Spot::Free(IdlePass::new(pass), None)) {
        Ok(()) => Ok(true),
        Err(_) => unreachable!(),
    }
}

impl<N: Naming> Spots<N> {
    /// Makes a number for each pass, from 0 up, none of which has a cell. Nothing is allocated.
    pub fn new(alloc: Global, passes: Vec<Pass>) -> Spots<N>
        requires { All (λ pass. pass.history ≡ N.history) passes.items }
        ensures { result ≡ replicate (length passes.items) free }
    {
        let spots = Vec::new(alloc);
        Spots {
            alloc,
            spots,
            count: 0,
            free: None,
            unused: passes,
        }
    }

    /// Tells how many numbers are in use: those below have a cell, or had one, and the others never had one.
    pub fn count(&self) -> u32 {
        self.count
    }

    /// Gives a number that has no cell, if there is one. It takes constant time, and memory where the number was not in use.
    ///
    /// On `OutOfMemory` nothing changes.
    pub fn next_free(&mut self) -> Result<Option<u32>, OutOfMemory>
        ensures { self.new ≡ self.old }
    {
        if self.free.is_some() {
            return Ok(self.free);
        }
        if !add_number(&mut self.spots, &mut self.unused)? {
            return Ok(None);
        }
        self.free = Some(self.count);
        self.count = self.count.saturating_add(1);
        Ok(self.free)
    }

    /// Gives the cell with a number, and the number, if there is a cell. It takes constant time.
    pub fn cell(&self, id: u32) -> Result<Option<(u32, SharedCell<N>)>, OutOfMemory>
        ensures { IfOk result (λ found. number_of found ≡ number_at self.now id) }
    {
        let Some(cell) = cell_of(spot_at(self.spots.as_slice(), id)) else {
            return Ok(None);
        };
        Ok(Some((id, Arc::try_clone(cell)?)))
    }

    /// Gives the join with its rank for which the cell with a number is, if there is one. It takes constant time.
    pub fn join_at(&self, id: u32) -> Option<RankedJoin> {
        match self.spots.get(id as usize) {
            Some(Spot::Taken(join, _, _)) => Some(*join),
            _ => None,
        }
    }

    /// Puts a cell for a range of the join and its rank at a number that has none, with the pass that waits there, and says
    /// whether it did: it does not where the number has a cell, or where another thread has seen the lock, behind which the
    /// cell is to lie. Then nothing changes. It takes constant time and no memory.
    pub fn put_cell(
        &mut self,
        id: u32,
        join: RankedJoin,
        place: Range,
        own: Range,
        mut shared: SharedCell<N>,
    ) -> bool
        ensures { MatchBool result (IsPut id join place self.old self.new) (self.new ≡ self.old) }
    {
        let Some(lock) = Arc::get_mut(&mut shared) else {
            return false;
        };
        match replace(&mut self.spots, id, Spot::Leaving) {
            Some(Spot::Free(idle, next)) => {
                *lock.get_mut() = Some(Cell::new(self.alloc, join, own, idle.pass));
                replace(&mut self.spots, id, Spot::Taken(join, place, shared));
                self.free = next;
                true
            }
            Some(Spot::Taken(former, range, cell)) => {
                replace(&mut self.spots, id, Spot::Taken(former, range, cell));
                false
            }
            Some(Spot::Leaving) => false,
            None => false,
        }
    }

    /// Takes the cell with a number out, if there is one: the number waits for its pass then. Otherwise nothing changes. It takes
    /// constant time and no memory.
    pub fn take_out(&mut self, id: u32) -> Option<Evicted<N>>
        ensures { MatchOption result (NoneIsTakenOut id self.old self.new)
            (λ out. IsTakenOut id out.join out.range self.old self.new) }
    {
        match replace(&mut self.spots, id, Spot::Leaving) {
            Some(Spot::Taken(join, range, cell)) => Some(Evicted { join, range, cell }),
            Some(Spot::Free(idle, next)) => {
                replace(&mut self.spots, id, Spot::Free(idle, next));
                None
            }
            Some(Spot::Leaving) => None,
            None => None,
        }
    }

    /// Gives a number that waits for it back the pass of the cell that was evicted: it can have another cell. Where the number does
    /// not wait nothing changes, and the pass is let go. It takes constant time and no memory.
    pub fn give_back(&mut self, id: u32, pass: Pass)
        requires { pass.history ≡ N.history }
        ensures back { slice_get self.old id ≡ Some leaving → self.new ≡ slice_set self.old id free }
        ensures same { (slice_get self.old id ≡ Some leaving → ⊥) → self.new ≡ self.old }
    {
        let next = self.free;
        match replace(&mut self.spots, id, Spot::Free(IdlePass::new(pass), next)) {
            Some(Spot::Leaving) => {
                self.free = Some(id);
            }
            Some(Spot::Free(idle, after)) => {
                replace(&mut self.spots, id, Spot::Free(idle, after));
            }
            Some(Spot::Taken(join, range, cell)) => {
                replace(&mut self.spots, id, Spot::Taken(join, range, cell));
            }
            None => {}
        }
    }
}
