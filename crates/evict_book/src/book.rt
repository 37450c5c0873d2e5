// Books of last use.
ghost use Rattle.std.specs.Prelude.{◌≡◌, ◌+◌, ◌*◌, ◌≤◌, ◌<◌, ◌^◌, ◌∷◌, ◌++◌, [], IfOk, OnOk, OnErr};
ghost use Rattle.evict_book.specs.Books.{book, left_of, total_weight, victims_of, weigh, with_use, without};

use lru::LruCache;
use out_of_memory::OutOfMemory;
use std::alloc::Global;
use std::marker::Model;
use std::num::NonZeroUsize;

/// The most that an id weighs.
const MAX_WEIGHT: u128 = 1 << 48;

/// Ids of kept ranges with their weights, in the order of their last use. It says which of them have to go where they weigh
/// more than a limit together.
#[derive(Debug, Drop)]
pub struct EvictBook {
    alloc: Global,
    cells: u32,
    limit: u64,
    weights: LruCache<u32, u128>,
    /// What all ids weigh together.
    total: u128,
}

impl Model for EvictBook {
    ghost use Rattle.std.specs.Prelude.{reverse};
    ghost use Rattle.evict_book.specs.Books.{Book, book};
    ghost use Rattle.evict_book.specs.Weighed.{AreWeighed};

    ghost Value = { Book };

    ghost view = { λ b. book (reverse b.weights.entries) b.cells b.limit };

    ghost invariant = { λ b. AreWeighed b.weights b.total b.cells };
}

/// What a range with so many rows weighs: one more than its rows, and 2^48 at most.
fn weigh(rows: u64) -> u128
    ensures { result ≡ weigh rows }
{
    (u128::from(rows) + 1).min(MAX_WEIGHT)
}

impl EvictBook {
    /// No ids, for ids below `cells`, which may weigh so much together. Nothing is reserved for them.
    pub fn new(alloc: Global, cells: u32, limit: u64) -> Result<EvictBook, OutOfMemory>
        requires cells { 1 ≤ cells }
        requires limit { 1 ≤ limit }
        ensures { IfOk result (λ made. made ≡ book [] cells limit) }
    {
        let Some(most) = NonZeroUsize::new(cells as usize) else {
            unreachable!()
        };
        let weights = LruCache::sparse(alloc, most)?;
        Ok(EvictBook {
            alloc,
            cells,
            limit,
            weights,
            total: 0,
        })
    }

    /// Makes the id, with so many rows, the most recently used. Then ids are taken out, the least recently used first and
    /// this one last, until the others weigh no more than the limit together; these ids are given in that order.
    ///
    /// It takes a look-up, and is linear in the ids that it gives. On `OutOfMemory` the book is unchanged.
    pub fn touch(&mut self, id: u32, rows: u64) -> Result<Vec<u32>, OutOfMemory>
        requires { id < self.old.cells }
        ensures victims { IfOk result (λ victims. victims.items ≡ victims_of self.old.limit (with_use id rows self.old.used)) }
        ensures ok { OnOk result (self.new ≡ book (left_of self.old.limit (with_use id rows self.old.used)) self.old.cells self.old.limit) }
        ensures err { OnErr result (self.new ≡ self.old) }
    {
        let weight = weigh(rows);
        let total = self.total_without(id) + weight;
        let victims = self.victims(id, weight, total)?;
        self.weights.put(id, weight)?;
        self.total = total;
        self.evict();
        Ok(victims)
    }

    /// Takes the id out, if it is there. It takes a look-up.
    pub fn gone(&mut self, id: u32)
        requires { id < self.old.cells }
        ensures { self.new ≡ book (without id self.old.used) self.old.cells self.old.limit }
    {
        if let Some(weight) = self.weights.pop(&id) {
            self.total -= weight;
        }
    }

    /// What the ids but this one weigh together.
    fn total_without(&self, id: u32) -> u128
        ensures total { result ≡ total_weight (without id self.now.used) }
        ensures bound { result ≤ 2 ^ 48 * self.now.cells }
    {
        match self.weights.peek(&id) {
            Some(weight) => self.total - *weight,
            None => self.total,
        }
    }

    /// The ids that have to go once this one is the most recently used, with this weight. `total` is what all of them weigh
    /// then. Linear in these ids.
    fn victims(&self, id: u32, weight: u128, total: u128) -> Result<Vec<u32>, OutOfMemory>
        requires { total ≡ total_weight (without id self.now.used) + weight }
        ensures { IfOk result (λ victims. victims.items ≡ victims_of self.now.limit (without id self.now.used ++ (id, weight) ∷ [])) }
    {
        let limit = u128::from(self.limit);
        let mut victims = Vec::new(self.alloc);
        let mut left = total;
        for (other, other_weight) in self.weights.iter().rev() {
            if left <= limit {
                return Ok(victims);
            }
            if *other != id {
                left -= *other_weight;
                victims.push(*other)?;
            }
        }
        if left > limit {
            victims.push(id)?;
        }
        Ok(victims)
    }

    /// Takes out ids, the least recently used first, until the others weigh no more than the limit together.
    fn evict(&mut self)
        ensures { self.new ≡ book (left_of self.old.limit self.old.used) self.old.cells self.old.limit }
    {
        while self.total > u128::from(self.limit) {
            let Some((_, weight)) = self.weights.pop_lru() else {
                unreachable!()
            };
            self.total -= weight;
        }
    }
}
