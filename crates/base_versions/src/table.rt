// The versions and the changes of one table.
ghost use Rattle.std.specs.Prelude.{◌≡◌, ◌≤◌, [], ◌∷◌, ◌++◌, IfNone, IfOk, IfSome, OnOk, OnErr, false, filter, length, map, option_copied, true};
ghost use Rattle.std.specs.List.{AllByRecursion};
ghost use Rattle.std.specs.List.Sorted.{IsStrictlySortedBy};
ghost use Rattle.std.specs.Map.{keys_of};
ghost use Rattle.semantics.specs.Texts.{is_key, text_cmp, within};
ghost use Rattle.base_versions.specs.Positions.{KeepsTo};
ghost use Rattle.base_versions.specs.Versions.{AddsVersion, AllAscend, AscendFrom, EachHasVersion, KeepsVersions, OthersHaveVersions, TrimsTracks, keys_changed, pairs_in, value_in, versions_at};
ghost use Rattle.base_versions.specs.Changes.{Ascend};
ghost use Rattle.base_versions.specs.Groups.{AreGrouped, HoldsChanges};
ghost use Rattle.base_versions.specs.Kept.{FindsChanged, HasKeyOrChange, empty_table};
ghost use Rattle.base_versions.specs.Valued.{HasVersion};

use crate::changes::{Change, between, keys_in_order, take_early};
use crate::group::group_within;
use crate::groups::ChangesByGroup;
use crate::room::let_room_go;
use crate::versions::{Version, Versions};
use join_types::{Change as ValuedChange, Pair};
use key_space::{Key, KeyBound, Range, Value};
use out_of_memory::OutOfMemory;
use std::alloc::Global;
use std::collections::{BTreeMap, VecDeque, btree_map};
use std::marker::Model;
use std::ops::Bound;

/// Of so many changes the keys are sorted without a look at how many keys the range has.
const FEW: usize = 16;

/// The versions of each key of one table, and the table's changes in order of position, which stand once more by groups.
#[derive(Debug, Drop)]
pub struct TableVersions {
    tracks: BTreeMap<KeyBound, Versions>,
    changes: VecDeque<Change>,
    groups: ChangesByGroup,
}

impl Model for TableVersions {
    ghost use Rattle.std.specs.Prelude.{◌≡◌, true};
    ghost use Rattle.std.specs.List.{AllByRecursion};
    ghost use Rattle.semantics.specs.Texts.{is_key};
    ghost use Rattle.base_versions.specs.Versions.{EachHasVersion};
    ghost use Rattle.base_versions.specs.Groups.{AreGrouped};
    ghost use Rattle.base_versions.specs.Kept.{TableKept};

    ghost Value = { TableKept };

    ghost view = { λ t. record { tracks = t.tracks.entries; changes = t.changes.items } };

    ghost invariant = { λ t. AllByRecursion (λ track. is_key track.0 ≡ true) t.tracks.entries × AreGrouped t.groups t.changes.items × EachHasVersion t.tracks.entries };
}

impl TableVersions {
    /// The table of which nothing is known. Nothing is allocated.
    pub fn new(alloc: Global) -> TableVersions
        ensures { result ≡ empty_table }
    {
        TableVersions {
            tracks: BTreeMap::new(alloc),
            changes: VecDeque::new(alloc),
            groups: ChangesByGroup::new(alloc),
        }
    }

    /// The key is given a value at a position, or none. Logarithmic in the keys, and in the groups that have changes. On
    /// `OutOfMemory` each key has the versions that it had.
    pub fn enter(
        &mut self,
        alloc: Global,
        position: u64,
        key: &Key,
        value: Option<Value>,
    ) -> Result<(), OutOfMemory>
        ensures versions { OnOk result (AddsVersion key.now (record { position = position; value = value }) self.old.tracks self.new.tracks) }
        ensures changes { OnOk result (self.new.changes ≡ self.old.changes ++ record { position = position; key = key.now } ∷ []) }
        ensures no_version { OnErr result (KeepsVersions self.old.tracks self.new.tracks) }
        ensures no_change { OnErr result (self.new.changes ≡ self.old.changes) }
        ensures some { HasKeyOrChange self.old → HasKeyOrChange self.new }
    {
        let change = Change {
            position,
            key: key.copy()?,
        };
        self.changes.push_back(change)?;
        let added = add_version(alloc, &mut self.tracks, key, Version { position, value });
        if added.is_err() {
            self.changes.pop_back();
            return added;
        }
        self.groups.push(alloc, position, key);
        added
    }

    /// What stands at the key after p entries. Logarithmic in the keys and in the key's versions.
    pub fn value_at(&self, p: u64, key: &Key) -> Option<&Value>
        ensures { AscendFrom 0 (versions_at key.now self.now.tracks) → option_copied result ≡ value_in p (versions_at key.now self.now.tracks) }
    {
        match self.tracks.get(key.place()) {
            None => None,
            Some(versions) => versions.value_at(p),
        }
    }

    /// The keys of the range that ever had a version, with their versions, in order. It takes the search for the range.
    fn within(&self, range: &Range) -> Result<btree_map::Range<'_, KeyBound, Versions>, OutOfMemory>
        ensures tracks { IfOk result (λ tracks. tracks ≡ filter (λ track. within range.now track.0) self.now.tracks) }
        ensures keys { IfOk result (λ tracks. AllByRecursion (λ track. is_key track.0 ≡ true) tracks) }
        ensures ordered { OnOk result (IsStrictlySortedBy text_cmp (keys_of self.now.tracks)) }
    {
        let bounds = (
            Bound::Included(range.first_place()?),
            Bound::Excluded(range.last_place()?),
        );
        Ok(self.tracks.range(bounds))
    }

    /// The pairs of the range after p entries, in order. It takes as long as to find the range and to look at each of
    /// its keys that ever had a version.
    pub fn pairs_at(&self, alloc: Global, p: u64, range: &Range) -> Result<Vec<Pair>, OutOfMemory>
        ensures ordered { OnOk result (IsStrictlySortedBy text_cmp (keys_of self.now.tracks)) }
        ensures pairs { AllAscend (filter (λ track. within range.now track.0) self.now.tracks) → IfOk result (λ pairs. pairs.items ≡ pairs_in p (filter (λ track. within range.now track.0) self.now.tracks)) }
    {
        let tracks = self.within(range)?;
        listed(alloc, p, tracks)
    }

    /// The keys of the range that are put or removed after the first q entries, up to the p-th: in order, each once. It takes the
    /// search for these changes: of the range's group where it lies inside one, and otherwise of the table. At most 16 are sorted.
    /// Of more it takes the search for the range too, and then as long as to look at its keys or at these changes, whichever are
    /// fewer.
    pub fn changed(
        &self,
        alloc: Global,
        q: u64,
        p: u64,
        range: &Range,
    ) -> Result<Vec<Key>, OutOfMemory>
        ensures { Ascend 0 self.now.changes → IfOk result (λ keys. FindsChanged q p range.now self.now keys.items) }
    {
        let Some(changes) = changes_for(&self.changes, &self.groups, range) else {
            return Ok(Vec::new(alloc));
        };
        let (first, last) = between(changes, q, p);
        if last - first <= FEW {
            return keys_in_order(alloc, changes, first, last, range);
        }
        let tracks = self.within(range)?;
        match changed_of_few(alloc, q, p, last - first, tracks)? {
            Some(keys) => Ok(keys),
            None => keys_in_order(alloc, changes, first, last, range),
        }
    }

    /// The keys of the range that are put or removed after the first q entries, up to the p-th: in order, each once. None where
    /// more than so many changes would be sorted for them: those of the range's group where it lies inside one, and otherwise of
    /// the table. It takes the search for these changes, and to sort them where they are not more.
    fn few_changed(
        &self,
        alloc: Global,
        q: u64,
        p: u64,
        range: &Range,
        most: usize,
    ) -> Result<Option<Vec<Key>>, OutOfMemory>
        ensures { Ascend 0 self.now.changes → IfOk result (λ found. IfSome found (λ keys. FindsChanged q p range.now self.now keys.items)) }
    {
        let Some(changes) = changes_for(&self.changes, &self.groups, range) else {
            return Ok(Some(Vec::new(alloc)));
        };
        let (first, last) = between(changes, q, p);
        if last - first > most {
            return Ok(None);
        }
        let keys = keys_in_order(alloc, changes, first, last, range)?;
        Ok(Some(keys))
    }

    /// The keys, each with what stands at it after p entries, in their order. Logarithmic for each of them in the keys of the table
    /// and in the key's versions. Long texts are shared.
    fn with_values(
        &self,
        alloc: Global,
        p: u64,
        keys: Vec<Key>,
    ) -> Result<Vec<ValuedChange>, OutOfMemory>
        ensures keys { IfOk result (λ found. map (λ change. change.key) found.items ≡ keys.items) }
        ensures values { IfOk result (λ found. AllByRecursion (HasVersion p self.now.tracks) found.items) }
    {
        let mut found = Vec::with_capacity(alloc, keys.len())?;
        for key in keys {
            let value = self.value_at(p, &key);
            found.push(ValuedChange::of(key, value)?)?;
        }
        Ok(found)
    }

    /// Lists the keys of the range that are put or removed after the first q entries, up to the p-th, each with what stands at it
    /// after the first p: in order, each once. It takes what `changed` takes, and for each key the search for it and for its
    /// version.
    pub fn changes(
        &self,
        alloc: Global,
        q: u64,
        p: u64,
        range: &Range,
    ) -> Result<Vec<ValuedChange>, OutOfMemory>
        ensures keys { Ascend 0 self.now.changes → IfOk result (λ found. FindsChanged q p range.now self.now (map (λ change. change.key) found.items)) }
        ensures values { IfOk result (λ found. AllByRecursion (HasVersion p self.now.tracks) found.items) }
    {
        let keys = self.changed(alloc, q, p, range)?;
        self.with_values(alloc, p, keys)
    }

    /// Lists the changes as `changes` does. None where more than so many would be sorted for them: those of the range's group
    /// where it lies inside one, and otherwise of the table. It takes the search for these, and where they are not more, to sort
    /// them and to search for each key and for its version.
    pub fn few_changes(
        &self,
        alloc: Global,
        q: u64,
        p: u64,
        range: &Range,
        most: usize,
    ) -> Result<Option<Vec<ValuedChange>>, OutOfMemory>
        ensures keys { Ascend 0 self.now.changes → IfOk result (λ few. IfSome few (λ found. FindsChanged q p range.now self.now (map (λ change. change.key) found.items))) }
        ensures values { IfOk result (λ few. IfSome few (λ found. AllByRecursion (HasVersion p self.now.tracks) found.items)) }
    {
        let Some(keys) = self.few_changed(alloc, q, p, range, most)? else {
            return Ok(None);
        };
        let found = self.with_values(alloc, p, keys)?;
        Ok(Some(found))
    }

    /// Takes out what nobody asks for who asks from a position on: the first change, where it is not after it, and versions of the
    /// key as `Versions::trim` does. A key without versions is taken out too. Logarithmic in the keys and in the groups that have
    /// changes.
    pub fn trim(&mut self, to: u64, key: &Key)
        ensures versions { TrimsTracks to self.old.tracks self.new.tracks }
        ensures changes { KeepsTo (λ c. c.position) to self.old.changes self.new.changes }
    {
        take_first(&mut self.changes, &mut self.groups, to);
        if trim_versions(&mut self.tracks, to, key) {
            remove_track(&mut self.tracks, key);
        }
    }

    /// Whether it has no key and no change.
    pub fn is_empty(&self) -> bool
        ensures none { result ≡ true → self.now ≡ empty_table }
        ensures some { result ≡ false → HasKeyOrChange self.now }
    {
        self.tracks.is_empty() && self.changes.is_empty()
    }
}

/// Finds the changes among which are all at keys of a range: those of its group where the bounds say that it lies inside one and
/// the groups are kept, and otherwise all. None where the group has none. Logarithmic in the groups.
fn changes_for<'a>(
    changes: &'a VecDeque<Change>,
    groups: &'a ChangesByGroup,
    range: &Range,
) -> Option<&'a VecDeque<Change>>
    requires { AreGrouped groups.now changes.now.items }
    ensures some { IfSome result (λ found. HoldsChanges range.now changes.now.items found.now.items) }
    ensures none { IfNone result (HoldsChanges range.now changes.now.items []) }
{
    let Some(group) = group_within(range) else {
        return Some(changes);
    };
    if !groups.are_kept() {
        return Some(changes);
    }
    match groups.find(group) {
        None => None,
        Some(queue) => Some(queue.changes()),
    }
}

/// Takes the first change out of a queue and of its group, where it is not after a position. Where none is left then, the groups
/// are kept from then on, if they were let go. Room that the queue does not need goes.
fn take_first(changes: &mut VecDeque<Change>, groups: &mut ChangesByGroup, to: u64)
    ensures keeps { KeepsTo (λ c. c.position) to changes.old.items changes.new.items }
    ensures grouped { AreGrouped groups.old changes.old.items → AreGrouped groups.new changes.new.items }
{
    let Some(first) = take_early(changes, to) else {
        return;
    };
    groups.take_first(&first.key);
    let_room_go(changes);
    if changes.is_empty() {
        groups.begin_anew();
    }
}

/// Those of the keys that are walked which have a version after the first q entries, up to the p-th, in order. None where
/// there are more than so many. It looks at no more than so many of them and one.
fn changed_of_few(
    alloc: Global,
    q: u64,
    p: u64,
    most: usize,
    tracks: btree_map::Range<'_, KeyBound, Versions>,
) -> Result<Option<Vec<Key>>, OutOfMemory>
    requires { AllByRecursion (λ track. is_key track.0 ≡ true) tracks }
    ensures { AllAscend tracks.entry → IfOk result (λ found. IfSome found (λ keys. keys.items ≡ keys_changed q p tracks.entry)) }
{
    let mut keys = Vec::new(alloc);
    let mut left = most;
    for (place, versions) in tracks {
        if left == 0 {
            return Ok(None);
        }
        left -= 1;
        if versions.has_between(q, p) {
            keys.push(Key::at(place)?)?;
        }
    }
    Ok(Some(keys))
}

/// The pairs after p entries of the keys that are walked, in order.
fn listed(
    alloc: Global,
    p: u64,
    tracks: btree_map::Range<'_, KeyBound, Versions>,
) -> Result<Vec<Pair>, OutOfMemory>
    requires { AllByRecursion (λ track. is_key track.0 ≡ true) tracks }
    ensures { AllAscend tracks.entry → IfOk result (λ pairs. pairs.items ≡ pairs_in p tracks.entry) }
{
    let mut pairs = Vec::new(alloc);
    for (place, versions) in tracks {
        if let Some(value) = versions.value_at(p) {
            let key = Key::at(place)?;
            let value = value.copy()?;
            pairs.push(Pair { key, value })?;
        }
    }
    Ok(pairs)
}

/// The key has one version more, the last. On `OutOfMemory` it has none more.
fn add_version(
    alloc: Global,
    tracks: &mut BTreeMap<KeyBound, Versions>,
    key: &Key,
    version: Version,
) -> Result<(), OutOfMemory>
    ensures ok { OnOk result (AddsVersion key.now version tracks.old.entries tracks.new.entries) }
    ensures err { OnErr result (KeepsVersions tracks.old.entries tracks.new.entries) }
    ensures keys { AllByRecursion (λ track. is_key track.0 ≡ true) tracks.old.entries → AllByRecursion (λ track. is_key track.0 ≡ true) tracks.new.entries }
    ensures some { EachHasVersion tracks.old.entries → EachHasVersion tracks.new.entries }
    ensures stay { length tracks.old.entries ≤ length tracks.new.entries }
{
    match tracks.get_mut(key.place()) {
        Some(versions) => versions.push(version),
        None => {
            let mut versions = Versions::new(alloc);
            versions.push(version)?;
            tracks.insert(key.place().copy()?, versions)?;
            Ok(())
        }
    }
}

/// Takes versions of the key out as `Versions::trim` does, and says whether none are left, if there is the key.
fn trim_versions(tracks: &mut BTreeMap<KeyBound, Versions>, to: u64, key: &Key) -> bool
    ensures trims { TrimsTracks to tracks.old.entries tracks.new.entries }
    ensures none { result ≡ true → versions_at key.now tracks.new.entries ≡ [] }
    ensures keys { AllByRecursion (λ track. is_key track.0 ≡ true) tracks.old.entries → AllByRecursion (λ track. is_key track.0 ≡ true) tracks.new.entries }
    ensures some { result ≡ false → EachHasVersion tracks.old.entries → EachHasVersion tracks.new.entries }
    ensures others { EachHasVersion tracks.old.entries → OthersHaveVersions key.now tracks.new.entries }
{
    match tracks.get_mut(key.place()) {
        None => false,
        Some(versions) => {
            versions.trim(to);
            versions.is_empty()
        }
    }
}

/// Takes the key out, which has no versions.
fn remove_track(tracks: &mut BTreeMap<KeyBound, Versions>, key: &Key)
    requires { versions_at key.now tracks.old.entries ≡ [] }
    ensures same { KeepsVersions tracks.old.entries tracks.new.entries }
    ensures keys { AllByRecursion (λ track. is_key track.0 ≡ true) tracks.old.entries → AllByRecursion (λ track. is_key track.0 ≡ true) tracks.new.entries }
    ensures gone { OthersHaveVersions key.now tracks.old.entries → EachHasVersion tracks.new.entries }
{
    tracks.remove(key.place());
}
