// The changes of one table by the groups of their keys.
ghost use Rattle.std.specs.Prelude.{◌≡◌, ◌<◌, List, [], ◌∷◌, ◌++◌, OnOk, drop, false, length, option_copied, true};
ghost use Rattle.std.specs.Option.{unwrap_or};
ghost use Rattle.semantics.specs.Texts.{Text};
ghost use Rattle.base_versions.specs.declared.changes.Change.{Change as PlainChange};
ghost use Rattle.base_versions.specs.Named.{named};
ghost use Rattle.base_versions.specs.Groups.{AddsChange, AreGrouped, EachHasChange, LosesFirst, OthersHaveChanges, changes_among, group_of};

use crate::changes::Change;
use crate::group::group_of;
use crate::room::let_room_go;
use key_space::Key;
use out_of_memory::OutOfMemory;
use std::alloc::Global;
use std::collections::{BTreeMap, VecDeque};
use std::marker::Model;

/// The changes of one group, in order of position: new ones come last, and trimming takes the first ones out.
#[derive(Debug, Drop)]
pub(crate) struct GroupQueue {
    queue: VecDeque<Change>,
}

impl Model for GroupQueue {
    ghost use Rattle.std.specs.Prelude.{List};
    ghost use Rattle.base_versions.specs.declared.changes.Change.{Change};

    ghost Value = { List Change };

    ghost view = { λ g. g.queue.items };
}

impl GroupQueue {
    /// No changes yet. Nothing is allocated.
    fn new(alloc: Global) -> GroupQueue
        ensures { result ≡ [] }
    {
        GroupQueue {
            queue: VecDeque::new(alloc),
        }
    }

    /// One change more, the last.
    fn push(&mut self, change: Change) -> Result<(), OutOfMemory>
        ensures { OnOk result (self.new ≡ self.old ++ change ∷ []) }
    {
        self.queue.push_back(change)?;
        Ok(())
    }

    /// Takes the first change out, if there is one.
    fn take_first(&mut self)
        ensures { self.new ≡ drop 1 self.old }
    {
        self.queue.pop_front();
        let_room_go(&mut self.queue);
    }

    /// Whether there are none.
    fn is_empty(&self) -> bool
        ensures none { result ≡ true → self.now ≡ [] }
        ensures some { result ≡ false → 0 < length self.now }
    {
        self.queue.is_empty()
    }

    /// Lends the changes.
    pub fn changes(&self) -> &VecDeque<Change>
        ensures { result.now.items ≡ self.now }
    {
        &self.queue
    }
}

/// The changes of one table by the groups of their keys, each group's in order of position. They stand beside the queue of all its
/// changes, for questions inside one group. Where no memory is found for one of them, all are let go, and that queue answers alone
/// until it has been empty.
#[derive(Debug, Drop)]
pub(crate) struct ChangesByGroup {
    kept: bool,
    queues: BTreeMap<String, GroupQueue>,
}

impl Model for ChangesByGroup {
    ghost use Rattle.base_versions.specs.Named.{named};
    ghost use Rattle.base_versions.specs.Groups.{ByGroup, EachHasChange};

    ghost Value = { ByGroup };

    ghost view = { λ c. record { kept = c.kept; queues = named c.queues.entries } };

    ghost invariant = { λ c. EachHasChange (named c.queues.entries) };
}

impl ChangesByGroup {
    /// The groups of no changes. Nothing is allocated.
    pub fn new(alloc: Global) -> ChangesByGroup
        ensures { AreGrouped result [] }
    {
        ChangesByGroup {
            kept: true,
            queues: BTreeMap::new(alloc),
        }
    }

    /// Whether the groups are kept.
    pub fn are_kept(&self) -> bool
        ensures { result ≡ self.now.kept }
    {
        self.kept
    }

    /// Finds the changes of a group, if there are any. Logarithmic in the groups that have changes.
    pub fn find(&self, group: &str) -> Option<&GroupQueue>
        ensures { unwrap_or (option_copied result) [] ≡ changes_among group.now self.now.queues }
    {
        self.queues.get(group)
    }

    /// One change more, the last, at a key. Where no memory is found for it, the groups are let go. Logarithmic in the groups.
    pub fn push(&mut self, alloc: Global, position: u64, key: &Key)
        ensures { (changes : List PlainChange) → AreGrouped self.old changes → AreGrouped self.new (changes ++ record { position = position; key = key.now } ∷ []) }
    {
        if !self.kept {
            return;
        }
        if add_change(alloc, &mut self.queues, position, key).is_err() {
            self.kept = false;
            self.queues.clear();
        }
    }

    /// Takes the first of all changes out, which is at this key: it is the first of its group. A group without changes goes.
    /// Logarithmic in the groups.
    pub fn take_first(&mut self, key: &Key)
        ensures { (first : PlainChange) (changes : List PlainChange) → first.key ≡ key.now → AreGrouped self.old (first ∷ changes) → AreGrouped self.new changes }
    {
        let group = group_of(key.text());
        if lose_first(&mut self.queues, group) {
            remove_group(&mut self.queues, group);
        }
    }

    /// Begins anew, with no changes.
    pub fn begin_anew(&mut self)
        ensures { AreGrouped self.new [] }
    {
        self.kept = true;
        self.queues.clear();
    }
}

/// The group of the key has one change more, the last. Nothing is said of the groups after `OutOfMemory`.
fn add_change(
    alloc: Global,
    queues: &mut BTreeMap<String, GroupQueue>,
    position: u64,
    key: &Key,
) -> Result<(), OutOfMemory>
    ensures adds { OnOk result (AddsChange (record { position = position; key = key.now }) (named queues.old.entries) (named queues.new.entries)) }
    ensures some { OnOk result (EachHasChange (named queues.old.entries) → EachHasChange (named queues.new.entries)) }
{
    let group = group_of(key.text());
    let change = Change {
        position,
        key: key.copy()?,
    };
    match queues.get_mut(group) {
        Some(queue) => queue.push(change),
        None => {
            let mut queue = GroupQueue::new(alloc);
            queue.push(change)?;
            let name = String::from_str(alloc, group)?;
            queues.insert(name, queue)?;
            Ok(())
        }
    }
}

/// Takes the first change of a group out, and says whether none is left, if there is the group.
fn lose_first(queues: &mut BTreeMap<String, GroupQueue>, group: &str) -> bool
    ensures loses { LosesFirst group.now (named queues.old.entries) (named queues.new.entries) }
    ensures none { result ≡ true → changes_among group.now (named queues.new.entries) ≡ [] }
    ensures some { result ≡ false → EachHasChange (named queues.old.entries) → EachHasChange (named queues.new.entries) }
    ensures others { EachHasChange (named queues.old.entries) → OthersHaveChanges group.now (named queues.new.entries) }
{
    match queues.get_mut(group) {
        None => false,
        Some(queue) => {
            queue.take_first();
            queue.is_empty()
        }
    }
}

/// Takes a group out, which has no changes.
fn remove_group(queues: &mut BTreeMap<String, GroupQueue>, group: &str)
    requires { changes_among group.now (named queues.old.entries) ≡ [] }
    ensures same { (other : Text) → changes_among other (named queues.new.entries) ≡ changes_among other (named queues.old.entries) }
    ensures gone { OthersHaveChanges group.now (named queues.old.entries) → EachHasChange (named queues.new.entries) }
{
    queues.remove(group);
}
