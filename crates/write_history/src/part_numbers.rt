// For each part of the tables the positions of its entries.
ghost use Rattle.std.specs.Prelude.{◌≡◌, ◌≢◌, ℕ, ◌+◌, ◌<◌, ◌≤◌, [], ◌∷◌, ◌++◌, List, length, count_by, drop, nat_le, if◌then◌else◌, true, IfOk, OnOk, slice_index_or};
ghost use Rattle.join_types.specs.Writes.{plain_write};
ghost use Rattle.base_versions.specs.Own.{is_of};
ghost use Rattle.base_versions.specs.Positions.{AscendBy};
ghost use Rattle.write_history.specs.Numbers.{numbers_of, positions_of};

use base_versions::shard_written;
use join_types::Write;
use out_of_memory::OutOfMemory;
use std::alloc::Global;
use std::collections::VecDeque;
use std::marker::Model;

/// The number of parts: a table is of the part whose number is the sum of its name's bytes modulo it.
const PARTS: u8 = 16;

/// The positions of the entries of one part, in order. Contracts see them, and for how many more there is room.
#[derive(Debug, Drop)]
struct Positions {
    queue: VecDeque<u64>,
}

impl Model for Positions {
    ghost use Rattle.std.specs.Prelude.{◌-◌};
    ghost use Rattle.std.specs.VecDeque.{deque_len, deque_capacity};
    ghost use Rattle.write_history.specs.Numbers.{Numbers};

    ghost Value = { Numbers };

    ghost view = { λ p. record { positions = p.queue.items; room = deque_capacity p.queue - deque_len p.queue } };
}

impl Positions {
    /// No positions. Nothing is allocated.
    fn new(alloc: Global) -> Positions
        ensures { result.positions ≡ [] }
    {
        Positions {
            queue: VecDeque::new(alloc),
        }
    }

    /// Makes room for one position more.
    fn reserve(&mut self) -> Result<(), OutOfMemory>
        ensures positions { self.new.positions ≡ self.old.positions }
        ensures room { OnOk result (0 < self.new.room) }
    {
        self.queue.reserve(1)?;
        Ok(())
    }

    /// Adds a position, for which there is room, as the last.
    fn push(&mut self, position: u64)
        requires { 0 < self.old.room }
        ensures { self.new.positions ≡ self.old.positions ++ position ∷ [] }
    {
        self.queue.push_back_reserved(position);
    }

    /// How many of them are at most a position, if they ascend. They are searched by halves.
    fn count_upto(&self, position: u64) -> usize
        ensures { AscendBy (λ n. n) 0 self.now.positions → result ≡ count_by (λ n. nat_le n position) self.now.positions }
    {
        self.queue.partition_point(|number| *number <= position)
    }

    /// The one at a place.
    fn get(&self, place: usize) -> u64
        requires { place < length self.now.positions }
        ensures { result ≡ slice_index_or self.now.positions place result }
    {
        self.queue[place]
    }

    /// Takes those out that are at most a position, if they ascend.
    fn drop_upto(&mut self, position: u64)
        ensures { AscendBy (λ n. n) 0 self.old.positions → self.new.positions ≡ drop (count_by (λ n. nat_le n position) self.old.positions) self.old.positions }
    {
        for _number in 0..self.count_upto(position) {
            self.queue.pop_front();
        }
    }
}

/// For each part of the tables the positions of the entries that put or remove its keys, in order.
#[derive(Debug, Drop)]
pub(crate) struct PartNumbers {
    parts: Vec<Positions>,
}

impl Model for PartNumbers {
    ghost use Rattle.std.specs.Prelude.{◌≡◌, List, length};
    ghost use Rattle.write_history.specs.Numbers.{Numbers};

    ghost Value = { List Numbers };

    ghost view = { λ n. n.parts.items };

    ghost invariant = { λ n. length n.parts.items ≡ 16 };
}

impl PartNumbers {
    /// No positions in any part.
    pub(crate) fn new(alloc: Global) -> Result<PartNumbers, OutOfMemory>
        ensures { IfOk result (λ numbers. (part : ℕ) → positions_of part numbers ≡ []) }
    {
        let mut parts = Vec::with_capacity(alloc, PARTS as usize)?;
        for _part in 0..PARTS {
            parts.push(Positions::new(alloc))?;
        }
        Ok(PartNumbers { parts })
    }

    /// Makes room for the position of an entry with a write, where the write puts or removes a key.
    pub(crate) fn reserve(&mut self, write: &Write) -> Result<(), OutOfMemory>
        ensures positions { (part : ℕ) → positions_of part self.new ≡ positions_of part self.old }
        ensures room { OnOk result ((part : ℕ) → is_of 16 part (plain_write write.now) ≡ true → 0 < (numbers_of part self.new).room) }
    {
        match shard_written(write, PARTS) {
            None => Ok(()),
            Some(part) => self.parts[part as usize].reserve(),
        }
    }

    /// Adds the position of an entry with a write, for which there is room, to the part whose key the write puts or removes.
    pub(crate) fn push(&mut self, write: &Write, position: u64)
        requires { (part : ℕ) → is_of 16 part (plain_write write.now) ≡ true → 0 < (numbers_of part self.old).room }
        ensures { (part : ℕ) → positions_of part self.new ≡ positions_of part self.old ++ (if is_of 16 part (plain_write write.now) then position ∷ [] else []) }
    {
        if let Some(part) = shard_written(write, PARTS) {
            self.parts[part as usize].push(position);
        }
    }

    /// How many positions of a part are at most a position, if they ascend; none where there is no such part.
    pub(crate) fn count_upto(&self, part: u8, position: u64) -> usize
        ensures { AscendBy (λ n. n) 0 (positions_of part self.now) → result ≡ count_by (λ n. nat_le n position) (positions_of part self.now) }
    {
        match self.parts.get(part as usize) {
            None => 0,
            Some(positions) => positions.count_upto(position),
        }
    }

    /// The position at a place among those of a part.
    pub(crate) fn get(&self, part: u8, place: usize) -> u64
        requires { place < length (positions_of part self.now) }
        ensures { result ≡ slice_index_or (positions_of part self.now) place result }
    {
        self.parts[part as usize].get(place)
    }

    /// Takes the positions of each part out that are at most a position, if they ascend.
    pub(crate) fn drop_upto(&mut self, position: u64)
        ensures { (part : ℕ) → AscendBy (λ n. n) 0 (positions_of part self.old) → positions_of part self.new ≡ drop (count_by (λ n. nat_le n position) (positions_of part self.old)) (positions_of part self.old) }
    {
        for part in 0..PARTS {
            self.drop_in(part, position);
        }
    }

    /// Takes the positions of one part out that are at most a position, if they ascend.
    fn drop_in(&mut self, part: u8, position: u64)
        requires { part < 16 }
        ensures own { AscendBy (λ n. n) 0 (positions_of part self.old) → positions_of part self.new ≡ drop (count_by (λ n. nat_le n position) (positions_of part self.old)) (positions_of part self.old) }
        ensures others { (other : ℕ) → other ≢ part → positions_of other self.new ≡ positions_of other self.old }
        ensures none { (other : ℕ) → 16 ≤ other → positions_of other self.new ≡ [] }
    {
        self.parts[part as usize].drop_upto(position);
    }
}
