// Sets of joins that may stand.
ghost use Rattle.std.specs.Prelude.{◌≡◌, ◌<◌, ◌≤◌, ◌==◌, IfOk, OnOk, IfErr, OnErr, Some, None, length, slice_get, slice_index, option_map, is_some};
ghost use Rattle.std.specs.List.{list_any};
ghost use Rattle.semantics.specs.Histories.{is_computed};
ghost use Rattle.semantics.specs.States.{IsAdmissible, ranks_of};
ghost use Rattle.semantics.specs.Verdicts.{drop_cause, join_cause, joined};
ghost use Rattle.join_set.specs.Faults.{IsFaultOf, IsRemoveFaultOf};
ghost use Rattle.join_set.specs.Sets.{AreUpTo, bare_since, no_joins, owner_of, with_join, without_drops, without_join};

use crate::drops::{LastDrop, copy_drops, drops_made, keep_behind, last_drop, put_drops};
use crate::fault::{AddFault, RemoveFault};
use crate::stands::{Stands, copy_all, copy_without, has_position, is_without, owner};
use crate::weighing::{ranks_of, weigh};
use join_types::Join;
use key_space::Key;
use out_of_memory::OutOfMemory;
use std::alloc::Global;
use std::marker::Model;

/// A set of joins that may stand, each with the position of its declaration: each meets the rules, no two outputs overlap,
/// the reading has no cycle, ranks are at most 7, and there are at most 64. The joins are numbered from 0 in the order in
/// which they were added. Of the joins that were taken out it remembers the last drop of each table, until it forgets the drops up
/// to a floor.
#[derive(Debug, Drop)]
pub struct JoinSet {
    alloc: Global,
    joins: Vec<Stands>,
    ranks: Vec<u64>,
    changed: u64,
    drops: Vec<LastDrop>,
}

impl Model for JoinSet {
    ghost use Rattle.join_set.specs.Sets.{Joins, IsSound};

    ghost Value = { Joins };

    ghost view = { λ s. record { standing = s.joins.items; changed = s.changed; drops = s.drops.items } };

    ghost invariant = { λ s. IsSound (record { standing = s.joins.items; changed = s.changed; drops = s.drops.items }) s.ranks.items };
}

impl JoinSet {
    /// The set of no joins, which will grow by this allocator. Nothing is allocated yet.
    pub fn new(alloc: Global) -> JoinSet
        ensures { result ≡ no_joins }
    {
        JoinSet {
            alloc,
            joins: Vec::new(alloc),
            ranks: Vec::new(alloc),
            changed: 0,
            drops: Vec::new(alloc),
        }
    }

    /// Makes the set of joins that may stand, and their ranks: each join is compared with each.
    pub(crate) fn of(
        alloc: Global,
        joins: Vec<Stands>,
        changed: u64,
        drops: Vec<LastDrop>,
    ) -> Result<JoinSet, OutOfMemory>
        requires admissible { IsAdmissible joins.items }
        requires up_to { AreUpTo changed joins.items }
        ensures { IfOk result (λ set. set ≡ record { standing = joins.items; changed = changed; drops = drops.items }) }
    {
        let ranks = ranks_of(alloc, joins.as_slice())?;
        Ok(JoinSet {
            alloc,
            joins,
            ranks,
            changed,
            drops,
        })
    }

    /// The number of joins.
    pub fn len(&self) -> usize
        ensures len { result ≡ length self.now.standing }
        ensures admissible { IsAdmissible self.now.standing }
    {
        self.joins.len()
    }

    /// Whether there is no join.
    pub fn is_empty(&self) -> bool
        ensures { result ≡ (length self.now.standing == 0) }
    {
        self.joins.is_empty()
    }

    /// The join with this number.
    pub fn join(&self, i: usize) -> &Join
        requires { i < length self.now.standing }
        ensures { option_map (λ s. s.join) (slice_get self.now.standing i) ≡ Some result.now }
    {
        &self.joins[i].join
    }

    /// The position of the join with this number.
    pub fn at(&self, i: usize) -> u64
        requires { i < length self.now.standing }
        ensures { option_map (λ s. s.position) (slice_get self.now.standing i) ≡ Some result }
    {
        self.joins[i].position
    }

    /// Gives the position of the last declaration or drop, 0 where there is none: it tells whether the joins that somebody else
    /// knows are these. Each join that stands was declared up to it. It takes constant time.
    pub fn changed_at(&self) -> u64
        ensures changed { result ≡ self.now.changed }
        ensures up_to { AreUpTo result self.now.standing }
    {
        self.changed
    }

    /// Returns whether no join that stood at some position from q to now has its output in the table. It is exact for each q from
    /// the floor on, up to which drops were forgotten; an earlier q may be answered true although a join with its output there was
    /// dropped up to that floor. Linear in the joins and in the tables of the drops that it remembers.
    pub fn bare_since(&self, q: u64, table: &str) -> bool
        ensures { result ≡ bare_since q table.now self.now }
    {
        is_without(self.joins.as_slice(), table) && last_drop(self.drops.as_slice(), table) <= q
    }

    /// The rank of the join with this number, at most 7: 0 where it reads none, otherwise 1 more than the greatest rank
    /// that it reads.
    pub fn rank(&self, i: usize) -> u8
        requires { i < length self.now.standing }
        ensures exact { result ≡ slice_index (ranks_of self.now.standing) i }
        ensures shallow { result ≤ 7 }
    {
        self.ranks[i] as u8
    }

    /// Whether a join of the set was declared at the position. Linear in the joins.
    pub fn has(&self, position: u64) -> bool
        ensures { result ≡ list_any (λ s. s.position == position) self.now.standing }
    {
        has_position(self.joins.as_slice(), position)
    }

    /// The position of the join whose output the key fits; none exactly where it fits none. At most one output of a set
    /// is fitted. Linear in the joins and the key.
    pub fn owner(&self, key: &Key) -> Option<u64>
        ensures position { result ≡ owner_of key.now self.now.standing }
        ensures computed { is_some result ≡ is_computed self.now.standing key.now }
    {
        owner(self.joins.as_slice(), key)
    }

    /// An equal set, whose joins are copied, with the same allocator. Linear in the joins and in the tables of the drops that it
    /// remembers.
    pub fn copy(&self) -> Result<JoinSet, OutOfMemory>
        ensures { IfOk result (λ copy. copy ≡ self.now) }
    {
        let joins = copy_all(self.alloc, self.joins.as_slice())?;
        let ranks = Vec::from_slice(self.alloc, self.ranks.as_slice())?;
        let drops = copy_drops(self.alloc, self.drops.as_slice())?;
        Ok(JoinSet {
            alloc: self.alloc,
            joins,
            ranks,
            changed: self.changed,
            drops,
        })
    }

    /// The ranks of the set with the join, or why it may not be added.
    fn weigh(&self, at: u64, join: &Join) -> Result<Vec<u64>, AddFault>
        ensures ok { IfOk result (λ ranks. ranks.items ≡ ranks_of (joined self.now.standing at join.now)) }
        ensures free { IfOk result (λ ranks. join_cause self.now.standing at join.now ≡ None) }
        ensures err { IfErr result (λ fault. IsFaultOf fault (join_cause self.now.standing at join.now)) }
    {
        weigh(self.alloc, self.joins.as_slice(), at, join)
    }

    /// Why the join may not be added at a position, tried in the order of `AddFault`'s variants, or nothing. Each join is
    /// compared with each.
    pub fn refuses(&self, at: u64, join: &Join) -> Result<(), AddFault>
        ensures ok { OnOk result (join_cause self.now.standing at join.now ≡ None) }
        ensures err { IfErr result (λ fault. IsFaultOf fault (join_cause self.now.standing at join.now)) }
    {
        let _ranks = self.weigh(at, join)?;
        Ok(())
    }

    /// The join is added at the position, which is above each that the set has seen, and has the last number.
    ///
    /// It is refused by the first that holds: `Slots` and `Sources` where it breaks that rule, `Clash` where its output
    /// overlaps that of a join, with the least position of such a join, `Cycle` where the reading with it has a cycle,
    /// with the positions of the shortest and least through it, `Deep` where some rank would be above 7, and `Many` where
    /// 64 joins stand. After an error the set is unchanged. The reading is computed anew: each join is compared with
    /// each.
    pub fn add(&mut self, at: u64, join: Join) -> Result<(), AddFault>
        requires { self.old.changed < at }
        ensures added { OnOk result (self.new ≡ with_join at join self.old) }
        ensures free { OnOk result (join_cause self.old.standing at join ≡ None) }
        ensures refused { IfErr result (λ fault. IsFaultOf fault (join_cause self.old.standing at join)) }
        ensures unchanged { OnErr result (self.new ≡ self.old) }
    {
        let ranks = self.weigh(at, &join)?;
        self.joins.push(Stands { position: at, join })?;
        self.ranks = ranks;
        self.changed = at;
        Ok(())
    }

    /// Takes out the join that was declared at a position, by a drop at another, which is above each that the set has seen.
    ///
    /// The joins that are left keep their order, and their ranks are made anew: each is compared with each. The table is compared
    /// with those of the drops that are remembered. `NoJoin` comes exactly where no join of the set was declared at the position.
    /// After an error the set is unchanged.
    pub fn remove(&mut self, at: u64, position: u64) -> Result<(), RemoveFault>
        requires { self.old.changed < at }
        ensures removed { OnOk result (self.new ≡ without_join position at self.old) }
        ensures stood { OnOk result (drop_cause position self.old.standing ≡ None) }
        ensures refused { IfErr result (λ fault. IsRemoveFaultOf fault (drop_cause position self.old.standing)) }
        ensures unchanged { OnErr result (self.new ≡ self.old) }
    {
        let joins = self.joins.as_slice();
        if !has_position(joins, position) {
            return Err(RemoveFault::NoJoin);
        }
        let left = copy_without(self.alloc, joins, position)?;
        let ranks = ranks_of(self.alloc, left.as_slice())?;
        let made = drops_made(self.alloc, joins, position, at)?;
        put_drops(&mut self.drops, made)?;
        self.joins = left;
        self.ranks = ranks;
        self.changed = at;
        Ok(())
    }

    /// Forgets the drops up to a floor. It takes no memory, and is linear in the tables of the drops that are remembered.
    pub(crate) fn forget_drops(&mut self, floor: u64)
        ensures { self.new ≡ without_drops floor self.old }
    {
        keep_behind(&mut self.drops, floor);
    }
}
