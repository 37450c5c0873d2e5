// The cells that threads share.
ghost use Rattle.std.specs.Prelude.{◌≡◌, ◌≤◌, All, length, map, IfOk};
ghost use Rattle.layering.specs.Parts.{JoinTo};

use crate::book::CellBook;
use crate::directory::{Directory, Part};
use crate::ranked_join::RankedJoin;
use crate::spots::SharedCell;
use base_shards::{BaseShards, Naming};
use join_set::JoinSet;
use key_space::Range;
use out_of_memory::OutOfMemory;
use shared_reader::Use;
use std::alloc::Global;
use std::sync::{Mutex, Wait};
use write_history::Pass;

/// Cells that keep ranges of the outputs of joins, which threads share. A join is named by the position of its declaration,
/// and with it its rank, which later declarations and drops may change.
///
/// A cell is made for one range of one join while it has one rank, and is for no other range, join or rank as long as there
/// is the cell: who has looked it up and waits for its lock finds this range or none. So the order of locks, that of the ranks
/// from the greatest down, is one order for good: were a cell also used while its join has another rank, two threads that read
/// where the ranks of two joins stand the other way round could wait for each other. A join whose rank changed is given other
/// cells. Those that it had, and those of a join that was dropped, are evicted once the cells follow the change.
///
/// The directory and the book are locked alone, one after the other.
#[derive(Drop)]
pub struct SharedCells<N: Naming> {
    directory: Mutex<Directory<N>>,
    book: Mutex<CellBook>,
}

impl<N: Naming> SharedCells<N> {
    /// No cells, and as many as there are passes at most, which may weigh so much together: a cell weighs its rows and one
    /// more. It takes constant time; a cell takes memory from when it is given to a range.
    pub fn new(alloc: Global, passes: Vec<Pass>, limit: u64) -> Result<SharedCells<N>, OutOfMemory>
        requires some { 1 ≤ length passes.items }
        requires few { length passes.items ≤ 65536 }
        requires limit { 1 ≤ limit }
        requires same_history { All (λ pass. pass.history ≡ N.history) passes.items }
    {
        let cells = passes.len() as u32;
        let directory = Directory::new(alloc, passes);
        let book = CellBook::new(alloc, cells, limit)?;
        Ok(SharedCells {
            directory: Mutex::new(directory),
            book: Mutex::new(book),
        })
    }

    /// The range in parts, in order, each with the cell that has it for the join and its rank, where one does. To be kept, each
    /// gap between them is given a cell, while there are fewer than there may be; of a range in more than 64 parts none is. While
    /// another thread has the directory, this one sleeps.
    ///
    /// It takes two searches, and for each part that is given a cell a few more. On `OutOfMemory` some gaps may have been given
    /// cells.
    pub fn cover<W: Wait>(
        &self,
        rt: &W,
        join: RankedJoin,
        range: &Range,
        keep: bool,
    ) -> Result<Vec<Part<N>>, OutOfMemory>
        ensures { IfOk result (λ parts. JoinTo range.now (map (λ part. part.range) parts.items)) }
    {
        self.directory.lock(rt).cover(join, range, keep)
    }

    /// The cell with a number, if there is one. While another thread has the directory, this one sleeps. It takes constant
    /// time.
    pub fn find<W: Wait>(&self, rt: &W, id: u32) -> Result<Option<SharedCell<N>>, OutOfMemory> {
        match self.directory.lock(rt).cell(id)? {
            Some((_, cell)) => Ok(Some(cell)),
            None => Ok(None),
        }
    }

    /// Follows the joins: where they are no earlier ones than those that were followed last, the cells of a join that stands no
    /// more, or has another rank, are evicted. No lock of a cell or of a part may be held, as with `evict`. While another
    /// thread has the directory, the book, such a cell or a part, this one sleeps.
    ///
    /// It compares two numbers. Where a join was declared or dropped since, or a read at an earlier position was given a cell
    /// after that, it searches for each cell; where there is no memory for that, the next call does it.
    pub fn follow<W: Wait>(&self, rt: &W, shards: &BaseShards<N>, joins: &JoinSet) {
        let left = self.directory.lock(rt).follow(joins);
        if let Ok(left) = left {
            self.evict_all(rt, shards, left.as_slice());
        }
    }

    /// Evicts the cells with these numbers, of which the book is told.
    fn evict_all<W: Wait>(&self, rt: &W, shards: &BaseShards<N>, ids: &[u32]) {
        for id in ids {
            self.evict(rt, shards, *id);
        }
    }

    /// Tells the book of the cells that were used, in order, and evicts those that have to go. A cell that could not keep what it
    /// was used for is evicted, so that other ranges may have its place. Of a use for which there is no memory the book is not
    /// told. No lock of a cell or of a part may be held, as that of each victim and those of all parts are taken. While another
    /// thread has the directory, the book, a victim or a part, this one sleeps.
    pub fn settle<W: Wait>(&self, rt: &W, shards: &BaseShards<N>, used: &[Use]) {
        for one in used {
            match one.rows {
                Some(rows) => self.touch(rt, shards, one.id, rows),
                None => self.evict(rt, shards, one.id),
            }
        }
    }

    /// Tells the book that a cell with so many rows was used, and evicts the cells that have to go.
    fn touch<W: Wait>(&self, rt: &W, shards: &BaseShards<N>, id: u32, rows: u64) {
        let victims = self.book.lock(rt).touch(id, rows);
        if let Ok(victims) = victims {
            self.free_all(rt, shards, victims.as_slice());
        }
    }

    /// Evicts the cells with these numbers.
    fn free_all<W: Wait>(&self, rt: &W, shards: &BaseShards<N>, ids: &[u32]) {
        for id in ids {
            self.free(rt, shards, *id);
        }
    }

    /// Evicts the cell with a number, if there is one: it follows no range of the parts any more, and is not marked. No lock of
    /// a cell or of a part may be held. It takes a few searches, and no memory. While another thread has the directory, the
    /// book, the cell or a part, this one sleeps.
    pub fn evict<W: Wait>(&self, rt: &W, shards: &BaseShards<N>, id: u32) {
        self.book.lock(rt).gone(id);
        self.free(rt, shards, id);
    }

    /// Evicts the least recently used cells, to make room: with the one that was used least recently all that were last used in
    /// the older half of the uses since then. So at least one goes where there is one, and the others after a few more calls: no
    /// more than the number of uses has binary digits. It says whether one went.
    ///
    /// It is linear in the cells that there were at one time at most, with what `evict` takes for each that goes, and takes no
    /// memory. No lock of a cell or of a part may be held, as with `evict`. While another thread has the directory, the book, such
    /// a cell or a part, this one sleeps.
    pub fn make_room<W: Wait>(&self, rt: &W, shards: &BaseShards<N>) -> bool {
        let (until, cells) = self.directory.lock(rt).older_half();
        let mut has_gone = false;
        for id in 0..cells {
            let is_old = self.directory.lock(rt).was_last_used_by(id, until);
            if is_old {
                self.evict(rt, shards, id);
                has_gone = true;
            }
        }
        has_gone
    }

    /// Takes a cell out of the directory, then what it keeps out of the cell, then the ranges that it follows out of the parts,
    /// and gives its number back the pass. A cell follows ranges under its own lock alone, so none comes under its number
    /// between the second step and the last, after which the number may be another cell's.
    fn free<W: Wait>(&self, rt: &W, shards: &BaseShards<N>, id: u32) {
        let taken = self.directory.lock(rt).take_out(id);
        let Some(shared) = taken else {
            return;
        };
        let cell = shared.lock(rt).take();
        if let Some(cell) = cell {
            let pass = cell.into_pass();
            shards.forget(rt, id);
            self.directory.lock(rt).give_back(id, pass);
        }
    }
}
