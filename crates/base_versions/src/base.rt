// The base pairs of the tables of one shard, at every position from its start to its own.
ghost use Rattle.std.specs.Prelude.{◌≡◌, ℕ, ◌+◌, ◌^◌, ◌<◌, ◌≤◌, [], ◌∷◌, ◌++◌, IfOk, IfSome, OnOk, OnErr, false, length, option_copied, take, true};
ghost use Rattle.semantics.specs.Texts.{Text, pairs_within, table_of, value_at};
ghost use Rattle.semantics.specs.Histories.{History, base_of};
ghost use Rattle.growing_history.specs.Changes.{changed_keys};
ghost use Rattle.join_types.specs.Writes.{plain_write};
ghost use Rattle.base_versions.specs.Own.{AreOwn, shard_written};
ghost use Rattle.base_versions.specs.Kept.{StandsFor, EachHasKeyOrChange, HasEnteredInPart, IsChanged, IsEntered, IsKept, IsTrimmedTo, OthersHaveKeyOrChange, empty_table, has_table, shard_of, table_among};
ghost use Rattle.base_versions.specs.Named.{named};
ghost use Rattle.base_versions.specs.Valued.{base_changes};

use crate::changes::{Change, take_early};
use crate::placed::Placed;
use crate::table::TableVersions;
use join_types::{Change as ValuedChange, Entry, Pair, Write};
use key_space::{Key, Range, Value};
use out_of_memory::OutOfMemory;
use std::alloc::Global;
use std::collections::{BTreeMap, VecDeque};
use std::marker::Model;
use std::sync::ledger::Ledger;
use steps::Steps;

/// The base pairs of some tables at every position from its start to its own: of those whose name's bytes have a sum that is,
/// modulo the number of shards, the number of its shard. It keeps no entries, but for each key the versions that the
/// entries gave it, and for each table the keys that were put or removed, in order, and once more by groups of keys. Trimming it
/// lets go what is older than a position, but for what still stands there.
#[derive(Debug, Drop)]
pub struct BaseVersions {
    alloc: Global,
    shard: u8,
    shards: u8,
    start: u64,
    position: u64,
    tables: BTreeMap<String, TableVersions>,
    entered: VecDeque<Change>,
}

impl Model for BaseVersions {
    ghost use Rattle.std.specs.Prelude.{◌<◌, ◌≤◌, ◌^◌};
    ghost use Rattle.base_versions.specs.Named.{named};
    ghost use Rattle.base_versions.specs.Kept.{EachHasKeyOrChange, Kept};

    ghost Value = { Kept };

    ghost view = { λ b. record { shard = b.shard; shards = b.shards; start = b.start; position = b.position; tables = named b.tables.entries } };

    ghost invariant = { λ b. (b.shard < b.shards) × (b.position < 2 ^ 48) × (b.start ≤ b.position) × EachHasKeyOrChange (named b.tables.entries) };
}

impl BaseVersions {
    /// The base pairs of a shard after no entries, which grow by this allocator. Nothing is allocated yet.
    pub fn new(alloc: Global, shard: u8, shards: u8) -> BaseVersions
        requires { shard < shards }
        ensures none { StandsFor 0 result [] }
        ensures start { result.start ≡ 0 }
        ensures shard { result.shard ≡ shard }
        ensures shards { result.shards ≡ shards }
    {
        BaseVersions {
            alloc,
            shard,
            shards,
            start: 0,
            position: 0,
            tables: BTreeMap::new(alloc),
            entered: VecDeque::new(alloc),
        }
    }

    /// The number of entries that it knows, below 2^48.
    pub fn position(&self) -> u64
        ensures position { result ≡ self.now.position }
        ensures room { result < 2 ^ 48 }
    {
        self.position
    }

    /// The position to which it was trimmed: from there on up to its own it knows the base pairs.
    pub fn start(&self) -> u64
        ensures start { result ≡ self.now.start }
        ensures within { result ≤ self.now.position }
    {
        self.start
    }

    /// The entries enter, which follow its position. Each costs a look-up of its table, of its key and of its group.
    ///
    /// On `OutOfMemory` some first entries have entered, each of them whole.
    pub fn advance(&mut self, entries: &[Entry]) -> Result<(), OutOfMemory>
        requires { self.old.position + length entries.now < 2 ^ 48 }
        ensures ok { OnOk result ((start : ℕ) (h : History) → StandsFor start self.old h → StandsFor start self.new (h ++ entries.now)) }
        ensures position { OnOk result (self.new.position ≡ self.old.position + length entries.now) }
        ensures start { self.new.start ≡ self.old.start }
        ensures shard { self.new.shard ≡ self.old.shard }
        ensures shards { self.new.shards ≡ self.old.shards }
        ensures err { OnErr result (HasEnteredInPart self.old entries.now self.new) }
    {
        for entry in entries {
            self.enter(entry)?;
        }
        Ok(())
    }

    /// The entries up to a position enter, which follow its own, and of which it is given those that put or remove keys of its
    /// tables. Each of these costs a look-up of its table, of its key and of its group, and the others nothing.
    ///
    /// On `OutOfMemory` some first entries have entered, each of them whole.
    pub fn advance_own(&mut self, own: &[Placed], to: u64) -> Result<(), OutOfMemory>
        requires own { (es : History) × AreOwn self.old to own.now es }
        requires room { to < 2 ^ 48 }
        ensures ok { OnOk result ((es : History) → AreOwn self.old to own.now es → (start : ℕ) (h : History) → StandsFor start self.old h → StandsFor start self.new (h ++ es)) }
        ensures position { OnOk result (self.new.position ≡ to) }
        ensures start { self.new.start ≡ self.old.start }
        ensures shard { self.new.shard ≡ self.old.shard }
        ensures shards { self.new.shards ≡ self.old.shards }
        ensures err { OnErr result ((es : History) → AreOwn self.old to own.now es → HasEnteredInPart self.old es self.new) }
    {
        for placed in own {
            self.skip_to(placed.position - 1);
            self.enter(&placed.entry)?;
        }
        self.skip_to(to);
        Ok(())
    }

    /// Knows the entries up to a position, which put or remove none of its keys.
    fn skip_to(&mut self, position: u64)
        requires later { self.old.position ≤ position }
        requires room { position < 2 ^ 48 }
        ensures { self.new ≡ record self.old { position = position } }
    {
        self.position = position;
    }

    /// The base pairs of the range after the first p entries, in the order of their keys. It costs the search for the
    /// range, and for each of its keys that stands or changed since the start the search for its version.
    ///
    /// The steps are as many as the pairs, and one. On `OutOfMemory` they are not counted.
    pub fn pairs_at<L: Ledger>(
        &self,
        p: u64,
        range: &Range,
        steps: &mut Steps<L>,
    ) -> Result<Vec<Pair>, OutOfMemory>
        requires within { p ≤ self.now.position }
        requires own { has_table self.now (table_of range.now.low) ≡ true }
        ensures exact { IfOk result (λ pairs. (start : ℕ) (h : History) → StandsFor start self.now h → start ≤ p → pairs.items ≡ pairs_within range.now (base_of (take p h))) }
        ensures cost { IfOk result (λ pairs. steps.new ≡ steps.old + 1 + length pairs.items) }
        ensures spent { steps.old ≤ steps.new }
    {
        let pairs = self.find_pairs(p, range)?;
        steps.count_call(pairs.len());
        Ok(pairs)
    }

    /// The value of the base pair at the key after the first p entries, which is lent; none where there is no such pair.
    /// It costs the search for the key and for its version.
    pub fn get_at(&self, p: u64, key: &Key) -> Option<&Value>
        requires within { p ≤ self.now.position }
        requires own { has_table self.now (table_of key.now) ≡ true }
        ensures { (start : ℕ) (h : History) → StandsFor start self.now h → start ≤ p → option_copied result ≡ value_at key.now (base_of (take p h)) }
    {
        match self.tables.get(key.table()) {
            None => None,
            Some(table) => table.value_at(p, key),
        }
    }

    /// The keys of the range that are put or removed after the first q entries, up to the p-th: in order, each once. It costs the
    /// search for these changes: of the range's group where it lies inside one, and otherwise of its table. At most 16 are sorted.
    /// Of more it costs the search for the range too, and then a look at each key of the range that stands or changed since the
    /// start, or to sort these changes, whichever are fewer.
    ///
    /// The steps are as many as the keys, and one. On `OutOfMemory` they are not counted.
    pub fn changed<L: Ledger>(
        &self,
        q: u64,
        p: u64,
        range: &Range,
        steps: &mut Steps<L>,
    ) -> Result<Vec<Key>, OutOfMemory>
        requires order { q ≤ p }
        requires within { p ≤ self.now.position }
        requires own { has_table self.now (table_of range.now.low) ≡ true }
        ensures exact { IfOk result (λ keys. (start : ℕ) (h : History) → StandsFor start self.now h → start ≤ q → keys.items ≡ changed_keys q p range.now h) }
        ensures cost { IfOk result (λ keys. steps.new ≡ steps.old + 1 + length keys.items) }
        ensures spent { steps.old ≤ steps.new }
    {
        let keys = self.find_changed(q, p, range)?;
        steps.count_call(keys.len());
        Ok(keys)
    }

    /// Lists the keys of the range that are put or removed after the first q entries, up to the p-th, each with the value of its
    /// base pair after the first p, or none: in order, each once. It costs what `changed` does, and for each key the search for
    /// it and for its version.
    ///
    /// The steps are as many as the keys, and one. On `OutOfMemory` they are not counted.
    pub fn changes<L: Ledger>(
        &self,
        q: u64,
        p: u64,
        range: &Range,
        steps: &mut Steps<L>,
    ) -> Result<Vec<ValuedChange>, OutOfMemory>
        requires order { q ≤ p }
        requires within { p ≤ self.now.position }
        requires own { has_table self.now (table_of range.now.low) ≡ true }
        ensures exact { IfOk result (λ found. (start : ℕ) (h : History) → StandsFor start self.now h → start ≤ q → found.items ≡ base_changes q p range.now h) }
        ensures cost { IfOk result (λ found. steps.new ≡ steps.old + 1 + length found.items) }
        ensures spent { steps.old ≤ steps.new }
    {
        let found = self.find_changes(q, p, range)?;
        steps.count_call(found.len());
        Ok(found)
    }

    /// Lists the changes as `changes` does. None where more than so many would be sorted for them: those of the range's group
    /// where it lies inside one, and otherwise of its table. It costs the search for these, and where they are not more, to sort
    /// them and to search for each key and for its version.
    ///
    /// No step is counted: who asks counts what it hands on.
    pub fn few_changes(
        &self,
        q: u64,
        p: u64,
        range: &Range,
        most: usize,
    ) -> Result<Option<Vec<ValuedChange>>, OutOfMemory>
        requires order { q ≤ p }
        requires own { has_table self.now (table_of range.now.low) ≡ true }
        ensures { IfOk result (λ few. (start : ℕ) (h : History) → StandsFor start self.now h → start ≤ q → IfSome few (λ found. found.items ≡ base_changes q p range.now h)) }
    {
        match self.tables.get(range.table()) {
            None => Ok(Some(Vec::new(self.alloc))),
            Some(table) => table.few_changes(self.alloc, q, p, range, most),
        }
    }

    /// The base pairs of the range after the first p entries.
    fn find_pairs(&self, p: u64, range: &Range) -> Result<Vec<Pair>, OutOfMemory>
        requires { has_table self.now (table_of range.now.low) ≡ true }
        ensures { IfOk result (λ pairs. (start : ℕ) (h : History) → StandsFor start self.now h → start ≤ p → pairs.items ≡ pairs_within range.now (base_of (take p h))) }
    {
        match self.tables.get(range.table()) {
            None => Ok(Vec::new(self.alloc)),
            Some(table) => table.pairs_at(self.alloc, p, range),
        }
    }

    /// The keys of the range that are put or removed after the first q entries, up to the p-th.
    fn find_changed(&self, q: u64, p: u64, range: &Range) -> Result<Vec<Key>, OutOfMemory>
        requires order { q ≤ p }
        requires own { has_table self.now (table_of range.now.low) ≡ true }
        ensures { IfOk result (λ keys. (start : ℕ) (h : History) → StandsFor start self.now h → start ≤ q → keys.items ≡ changed_keys q p range.now h) }
    {
        match self.tables.get(range.table()) {
            None => Ok(Vec::new(self.alloc)),
            Some(table) => table.changed(self.alloc, q, p, range),
        }
    }

    /// The keys of the range that are put or removed after the first q entries, up to the p-th, with what stands there after p.
    fn find_changes(&self, q: u64, p: u64, range: &Range) -> Result<Vec<ValuedChange>, OutOfMemory>
        requires order { q ≤ p }
        requires own { has_table self.now (table_of range.now.low) ≡ true }
        ensures { IfOk result (λ found. (start : ℕ) (h : History) → StandsFor start self.now h → start ≤ q → found.items ≡ base_changes q p range.now h) }
    {
        match self.tables.get(range.table()) {
            None => Ok(Vec::new(self.alloc)),
            Some(table) => table.changes(self.alloc, q, p, range),
        }
    }

    /// The entry enters, the next one. On `OutOfMemory` it has not entered.
    fn enter(&mut self, entry: &Entry) -> Result<(), OutOfMemory>
        requires { self.old.position + 1 < 2 ^ 48 }
        ensures ok { OnOk result ((start : ℕ) (h : History) → StandsFor start self.old h → StandsFor start self.new (h ++ entry.now ∷ [])) }
        ensures position { OnOk result (self.new.position ≡ self.old.position + 1) }
        ensures start { self.new.start ≡ self.old.start }
        ensures shard { self.new.shard ≡ self.old.shard }
        ensures shards { self.new.shards ≡ self.old.shards }
        ensures err { OnErr result ((start : ℕ) (h : History) → StandsFor start self.old h → StandsFor start self.new h) }
        ensures stays { OnErr result (self.new.position ≡ self.old.position) }
    {
        match &entry.write {
            Write::Put(key, value) => self.change(key, Some(value.copy()?))?,
            Write::Remove(key) => self.change(key, None)?,
            Write::Declare(_) => {}
            Write::Drop(_) => {}
        }
        self.position += 1;
        Ok(())
    }

    /// The next entry gives the key a value, or none, where the key's table is of the shard. On `OutOfMemory` it does not.
    fn change(&mut self, key: &Key, value: Option<Value>) -> Result<(), OutOfMemory>
        requires { self.old.position + 1 < 2 ^ 48 }
        ensures ok { OnOk result (IsChanged (self.old.position + 1) key.now value self.old self.new) }
        ensures err { OnErr result (IsKept self.old.tables self.new.tables) }
        ensures position { self.new.position ≡ self.old.position }
        ensures start { self.new.start ≡ self.old.start }
        ensures shard { self.new.shard ≡ self.old.shard }
        ensures shards { self.new.shards ≡ self.old.shards }
    {
        if shard_of(key.table(), self.shards) != self.shard {
            return Ok(());
        }
        let position = self.position + 1;
        let change = Change {
            position,
            key: key.copy()?,
        };
        self.entered.push_back(change)?;
        let entered = enter_in(self.alloc, &mut self.tables, position, key, value);
        if entered.is_err() {
            self.entered.pop_back();
        }
        entered
    }

    /// Lets go what nobody asks for who asks from a position on: the changes up to there, and of each of their keys the versions
    /// up to there but the last, or that too where it is a removal and no other follows. Nothing is allocated.
    ///
    /// It costs look-ups of the table, of the key and of its group for each of these changes. So a caller who must not be long goes
    /// on in steps of some hundred positions.
    pub fn trim(&mut self, to: u64)
        requires order { self.old.start ≤ to }
        requires within { to ≤ self.old.position }
        ensures start { self.new.start ≡ to }
        ensures stands { (start : ℕ) (h : History) → StandsFor start self.old h → start ≤ to → StandsFor to self.new h }
        ensures position { self.new.position ≡ self.old.position }
        ensures shard { self.new.shard ≡ self.old.shard }
        ensures shards { self.new.shards ≡ self.old.shards }
    {
        trim_tables(&mut self.entered, &mut self.tables, to);
        self.start = to;
    }
}

/// Of which of so many shards the table is: the sum of its name's bytes modulo their number. Linear in the name.
pub fn shard_of(table: &str, shards: u8) -> u8
    requires some { 0 < shards }
    requires short { length table.now ≤ 64 }
    ensures { result ≡ shard_of shards table.now }
{
    let sum: u32 = table.as_bytes().iter().map(|byte| u32::from(*byte)).sum();
    (sum % u32::from(shards)) as u8
}

/// Of which of so many shards the table is whose key the write puts or removes; of none where it does neither. Linear in the
/// table's name.
pub fn shard_written(write: &Write, shards: u8) -> Option<u8>
    requires some { 0 < shards }
    ensures is { result ≡ shard_written shards (plain_write write.now) }
    ensures within { IfSome result (λ shard. shard < shards) }
{
    match write {
        Write::Put(key, _) => Some(shard_of(key.table(), shards)),
        Write::Remove(key) => Some(shard_of(key.table(), shards)),
        Write::Declare(_) => None,
        Write::Drop(_) => None,
    }
}

/// The key is given a value at a position, or none, in its table.
fn enter_in(
    alloc: Global,
    tables: &mut BTreeMap<String, TableVersions>,
    position: u64,
    key: &Key,
    value: Option<Value>,
) -> Result<(), OutOfMemory>
    ensures ok { OnOk result (IsEntered position key.now value (named tables.old.entries) (named tables.new.entries)) }
    ensures err { OnErr result (IsKept (named tables.old.entries) (named tables.new.entries)) }
    ensures some { EachHasKeyOrChange (named tables.old.entries) → EachHasKeyOrChange (named tables.new.entries) }
{
    match tables.get_mut(key.table()) {
        Some(table) => table.enter(alloc, position, key, value),
        None => {
            let mut table = TableVersions::new(alloc);
            table.enter(alloc, position, key, value)?;
            let name = String::from_str(alloc, key.table())?;
            tables.insert(name, table)?;
            Ok(())
        }
    }
}

/// Takes the changes out that are not after a position, and lets go of their keys what nobody asks for who asks from there on.
fn trim_tables(
    entered: &mut VecDeque<Change>,
    tables: &mut BTreeMap<String, TableVersions>,
    to: u64,
)
    ensures trims { IsTrimmedTo to (named tables.old.entries) (named tables.new.entries) }
    ensures some { EachHasKeyOrChange (named tables.old.entries) → EachHasKeyOrChange (named tables.new.entries) }
{
    while let Some(change) = take_early(entered, to) {
        trim_in(tables, to, &change.key);
    }
}

/// Lets go of the key's table what nobody asks for who asks from a position on, as `TableVersions::trim` does, and the table where
/// nothing is left of it.
fn trim_in(tables: &mut BTreeMap<String, TableVersions>, to: u64, key: &Key)
    ensures trims { IsTrimmedTo to (named tables.old.entries) (named tables.new.entries) }
    ensures some { EachHasKeyOrChange (named tables.old.entries) → EachHasKeyOrChange (named tables.new.entries) }
{
    if trim_table(tables, to, key) {
        remove_table(tables, key);
    }
}

/// Lets go of the key's table what nobody asks for who asks from a position on, and says whether nothing is left, if there is the
/// table.
fn trim_table(tables: &mut BTreeMap<String, TableVersions>, to: u64, key: &Key) -> bool
    ensures trims { IsTrimmedTo to (named tables.old.entries) (named tables.new.entries) }
    ensures none { result ≡ true → table_among (table_of key.now) (named tables.new.entries) ≡ empty_table }
    ensures some { result ≡ false → EachHasKeyOrChange (named tables.old.entries) → EachHasKeyOrChange (named tables.new.entries) }
    ensures others { EachHasKeyOrChange (named tables.old.entries) → OthersHaveKeyOrChange (table_of key.now) (named tables.new.entries) }
{
    match tables.get_mut(key.table()) {
        None => false,
        Some(table) => {
            table.trim(to, key);
            table.is_empty()
        }
    }
}

/// Takes the key's table out, which has no key and no change.
fn remove_table(tables: &mut BTreeMap<String, TableVersions>, key: &Key)
    requires { table_among (table_of key.now) (named tables.old.entries) ≡ empty_table }
    ensures same { (table : Text) → table_among table (named tables.new.entries) ≡ table_among table (named tables.old.entries) }
    ensures gone { OthersHaveKeyOrChange (table_of key.now) (named tables.old.entries) → EachHasKeyOrChange (named tables.new.entries) }
{
    tables.remove(key.table());
}
