// What is kept of a history to judge the next write.
ghost use Rattle.std.specs.Prelude.{◌≡◌, ℕ, ◌+◌, ◌∷◌, [], ◌++◌, ◌<◌, ◌≤◌, ◌^◌, take, IfOk, OnOk, OnErr, Some, None, option_map};
ghost use Rattle.semantics.specs.Histories.{History, declare, drop_join};
ghost use Rattle.semantics.specs.Verdicts.{computed_cause, drop_cause, join_cause, verdict};
ghost use Rattle.join_types.specs.Causes.{plain_cause};
ghost use Rattle.join_types.specs.Writes.{plain_write};
ghost use Rattle.join_set.specs.Faults.{plain_fault};
ghost use Rattle.join_set.specs.Sets.{AreJoins, with_join, without_join};
ghost use Rattle.join_set.specs.Summaries.{StandsFor, cause_over, own_cause, summary_after, summary_settled};

use crate::fault::{AddFault, RemoveFault};
use crate::set::JoinSet;
use crate::stays::{Stay, changed_up_to, drops_up_to, end_stays, joins_at, keep_stays};
use join_types::{Cause, Join, Write};
use key_space::Key;
use out_of_memory::OutOfMemory;
use std::alloc::Global;
use std::marker::Model;

/// The number of entries with which a history is full.
pub const FULL: u64 = (1 << 48) - 1;

/// What is kept of a history each of whose entries entered: the joins that stand, the number of entries, and each join that stood
/// at a floor or was declared after it, with the positions from which and until which it stood.
#[derive(Debug, Drop)]
pub struct Standing {
    alloc: Global,
    joins: JoinSet,
    entries: u64,
    floor: u64,
    /// The position of the last declaration or drop up to the floor.
    changed_at_floor: u64,
    stays: Vec<Stay>,
}

impl Model for Standing {
    ghost use Rattle.join_set.specs.Summaries.{Summary, IsOfSome};

    ghost Value = { Summary };

    ghost view = { λ s. record { joins = s.joins; length = s.entries; floor = s.floor; changed_at_floor = s.changed_at_floor; stays = s.stays.items } };

    ghost invariant = { λ s. IsOfSome (record { joins = s.joins; length = s.entries; floor = s.floor; changed_at_floor = s.changed_at_floor; stays = s.stays.items }) };
}

impl Standing {
    /// What is kept of the history with no entries, which will grow by this allocator. Nothing is allocated yet.
    pub fn new(alloc: Global) -> Standing
        ensures { StandsFor result [] }
    {
        Standing {
            alloc,
            joins: JoinSet::new(alloc),
            entries: 0,
            floor: 0,
            changed_at_floor: 0,
            stays: Vec::new(alloc),
        }
    }

    /// The joins that stand. Their last declaration or drop lies up to the number of entries.
    pub fn joins(&self) -> &JoinSet
        ensures joins { result.now ≡ self.now.joins }
        ensures within { result.now.changed ≤ self.now.length }
    {
        &self.joins
    }

    /// Makes the set of the joins that stand after the first p entries, from the floor on, and their ranks: each join is compared
    /// with each. Of dropped joins the set knows from the floor on. Linear in the joins that stood at the floor or were declared
    /// later, with a search among the tables of dropped ones for each.
    pub fn joins_at(&self, p: u64) -> Result<JoinSet, OutOfMemory>
        requires above { self.now.floor ≤ p }
        requires within { p ≤ self.now.length }
        ensures { IfOk result (λ joins. (h : History) → StandsFor self.now h → AreJoins self.now.floor joins (take p h)) }
    {
        let stays = self.stays.as_slice();
        let joins = joins_at(self.alloc, stays, p)?;
        let drops = drops_up_to(self.alloc, stays, p)?;
        let changed = self.changed_at_floor.max(changed_up_to(stays, p));
        JoinSet::of(self.alloc, joins, changed, drops)
    }

    /// Raises the floor, from which on it knows the joins of earlier positions and which tables are bare: the joins that were
    /// dropped up to there are let go, and their drops are forgotten. It takes no memory, and is linear in the joins that stood at
    /// the floor before or were declared later.
    pub fn settle(&mut self, floor: u64)
        requires rises { self.old.floor ≤ floor }
        requires within { floor ≤ self.old.length }
        ensures exact { self.new ≡ summary_settled floor self.old }
        ensures history { (h : History) → StandsFor self.old h → StandsFor self.new h }
    {
        let last = changed_up_to(self.stays.as_slice(), floor);
        let changed = self.changed_at_floor.max(last);
        keep_stays(&mut self.stays, floor);
        self.joins.forget_drops(floor);
        self.changed_at_floor = changed;
        self.floor = floor;
    }

    /// Gives the floor, from which on it knows the joins of earlier positions. Constant.
    pub fn floor(&self) -> u64
        ensures { result ≡ self.now.floor }
    {
        self.floor
    }

    /// The number of entries, below 2^48.
    pub fn length(&self) -> u64
        ensures length { result ≡ self.now.length }
        ensures room { result < 2 ^ 48 }
    {
        self.entries
    }

    /// The verdict of the write after the history: why it may not enter, or nothing. A put or remove matches the
    /// key against each output, and a declaration compares each join with each.
    pub fn judge(&self, write: &Write) -> Result<Option<Cause>, OutOfMemory>
        ensures exact { IfOk result (λ found. option_map plain_cause found ≡ cause_over self.now (plain_write write.now)) }
        ensures verdict { IfOk result (λ found. (h : History) → StandsFor self.now h → option_map plain_cause found ≡ verdict (plain_write write.now) h) }
    {
        self.cause(write)
    }

    /// Why the write may not enter.
    fn cause(&self, write: &Write) -> Result<Option<Cause>, OutOfMemory>
        ensures { IfOk result (λ found. option_map plain_cause found ≡ cause_over self.now (plain_write write.now)) }
    {
        if self.entries >= FULL {
            return Ok(Some(Cause::Full));
        }
        self.own_cause(write)
    }

    /// Why the write may not enter, once the history has room.
    fn own_cause(&self, write: &Write) -> Result<Option<Cause>, OutOfMemory>
        ensures { IfOk result (λ found. option_map plain_cause found ≡ own_cause self.now (plain_write write.now)) }
    {
        match write {
            Write::Put(key, _) => Ok(judge_key(&self.joins, key)),
            Write::Remove(key) => Ok(judge_key(&self.joins, key)),
            Write::Declare(join) => judge_join(&self.joins, self.entries + 1, join),
            Write::Drop(position) => Ok(judge_drop(&self.joins, *position)),
        }
    }

    /// Enters the write, which no cause refuses. After `OutOfMemory` nothing is changed. A put or remove takes constant
    /// time. A declaration copies the join, a drop those that are left, and both compare each join with each. A drop is also
    /// linear in the joins that stood at the floor or were declared later.
    pub fn enter(&mut self, write: &Write) -> Result<(), OutOfMemory>
        requires { cause_over self.old (plain_write write.now) ≡ None }
        ensures exact { OnOk result (self.new ≡ summary_after self.old (plain_write write.now)) }
        ensures history { OnOk result ((h : History) (client : ℕ) → StandsFor self.old h → StandsFor self.new (h ++ record { client = client; write = plain_write write.now } ∷ [])) }
        ensures unchanged { OnErr result (self.new ≡ self.old) }
    {
        self.take(write)
    }

    /// Enters the write.
    fn take(&mut self, write: &Write) -> Result<(), OutOfMemory>
        requires { cause_over self.old (plain_write write.now) ≡ None }
        ensures ok { OnOk result (self.new ≡ summary_after self.old (plain_write write.now)) }
        ensures err { OnErr result (self.new ≡ self.old) }
    {
        match write {
            Write::Put(_, _) => {
                self.entries += 1;
                Ok(())
            }
            Write::Remove(_) => {
                self.entries += 1;
                Ok(())
            }
            Write::Declare(join) => self.take_join(join),
            Write::Drop(position) => self.take_drop(*position),
        }
    }

    /// Enters a declaration.
    fn take_join(&mut self, join: &Join) -> Result<(), OutOfMemory>
        requires { cause_over self.old (declare join.now) ≡ None }
        ensures ok { OnOk result (self.new ≡ summary_after self.old (declare join.now)) }
        ensures err { OnErr result (self.new ≡ self.old) }
    {
        let at = self.entries + 1;
        let stay = Stay {
            position: at,
            join: join.copy(self.alloc)?,
            until: None,
        };
        self.stays.reserve(1)?;
        add(&mut self.joins, at, join.copy(self.alloc)?)?;
        self.entries = at;
        match self.stays.push(stay) {
            Ok(()) => Ok(()),
            Err(_fault) => unreachable!(),
        }
    }

    /// Enters a drop.
    fn take_drop(&mut self, position: u64) -> Result<(), OutOfMemory>
        requires { cause_over self.old (drop_join position) ≡ None }
        ensures ok { OnOk result (self.new ≡ summary_after self.old (drop_join position)) }
        ensures err { OnErr result (self.new ≡ self.old) }
    {
        let at = self.entries + 1;
        take_out(&mut self.joins, at, position)?;
        end_stays(self.stays.as_mut_slice(), position, at);
        self.entries = at;
        Ok(())
    }
}

/// Why a pair at the key may not be changed.
fn judge_key(joins: &JoinSet, key: &Key) -> Option<Cause>
    ensures { option_map plain_cause result ≡ computed_cause key.now joins.now.standing }
{
    match joins.owner(key) {
        Some(position) => Some(Cause::Computed(position)),
        None => None,
    }
}

/// Why the join that was declared at the position may not be dropped.
fn judge_drop(joins: &JoinSet, position: u64) -> Option<Cause>
    ensures { option_map plain_cause result ≡ drop_cause position joins.now.standing }
{
    if joins.has(position) {
        None
    } else {
        Some(Cause::NoJoin)
    }
}

/// Takes out the join that was declared at a position, by a drop at another, against which no cause is.
fn take_out(joins: &mut JoinSet, at: u64, position: u64) -> Result<(), OutOfMemory>
    requires later { joins.old.changed < at }
    requires free { drop_cause position joins.old.standing ≡ None }
    ensures removed { OnOk result (joins.new ≡ without_join position at joins.old) }
    ensures unchanged { OnErr result (joins.new ≡ joins.old) }
{
    match joins.remove(at, position) {
        Ok(()) => Ok(()),
        Err(RemoveFault::OutOfMemory(memory)) => Err(memory),
        Err(_fault) => unreachable!(),
    }
}

/// Why the join may not be declared at the position.
fn judge_join(joins: &JoinSet, at: u64, join: &Join) -> Result<Option<Cause>, OutOfMemory>
    ensures { IfOk result (λ found. option_map plain_cause found ≡ join_cause joins.now.standing at join.now) }
{
    match joins.refuses(at, join) {
        Ok(()) => Ok(None),
        Err(fault) => Ok(Some(cause_of(fault)?)),
    }
}

/// The cause that the fault is.
fn cause_of(fault: AddFault) -> Result<Cause, OutOfMemory>
    ensures { IfOk result (λ cause. plain_fault fault ≡ Some (plain_cause cause)) }
{
    match fault {
        AddFault::Slots => Ok(Cause::Slots),
        AddFault::Sources => Ok(Cause::Sources),
        AddFault::Clash(position) => Ok(Cause::Clash(position)),
        AddFault::Cycle(positions) => Ok(Cause::Cycle(positions)),
        AddFault::Deep => Ok(Cause::Deep),
        AddFault::Many => Ok(Cause::Many),
        AddFault::OutOfMemory(memory) => Err(memory),
    }
}

/// Adds the join at the position, which no cause refuses.
fn add(joins: &mut JoinSet, at: u64, join: Join) -> Result<(), OutOfMemory>
    requires later { joins.old.changed < at }
    requires free { join_cause joins.old.standing at join ≡ None }
    ensures added { OnOk result (joins.new ≡ with_join at join joins.old) }
    ensures unchanged { OnErr result (joins.new ≡ joins.old) }
{
    match joins.add(at, join) {
        Ok(()) => Ok(()),
        Err(AddFault::OutOfMemory(memory)) => Err(memory),
        Err(_fault) => unreachable!(),
    }
}
