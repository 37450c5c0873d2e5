// What changed from one table to another, by the definition.
ghost use Rattle.std.specs.Prelude.{◌≡◌, ◌∷◌, ◌++◌, [], map, IfOk, OnOk, IsTrue, option_copied};
ghost use Rattle.std.specs.FinMap.Entries.{is_sorted};
ghost use Rattle.semantics.specs.Texts.{text_cmp};
ghost use Rattle.semantics.specs.States.{merged};
ghost use Rattle.growing_history.specs.StateChanges.{changes_among, changes_between, same_value};

use join_model::Table;
use join_types::{Change, Pair};
use key_space::{Key, Range, Value};
use out_of_memory::OutOfMemory;
use std::alloc::Global;

/// Whether a key has the same value in both tables, or none.
fn is_same(before: Option<&Value>, after: Option<&Value>) -> bool
    ensures { result ≡ same_value (option_copied before.entry) (option_copied after.entry) }
{
    match (before, after) {
        (Some(before), Some(after)) => before.text() == after.text(),
        (None, None) => true,
        _ => false,
    }
}

/// A copy of the value, if there is one.
fn copy(value: Option<&Value>) -> Result<Option<Value>, OutOfMemory>
    ensures { IfOk result (λ copied. copied ≡ option_copied value.entry) }
{
    match value {
        Some(value) => Ok(Some(value.copy()?)),
        None => Ok(None),
    }
}

/// Puts the pairs into a table.
fn put_all(table: &mut Table, pairs: Vec<Pair>) -> Result<(), OutOfMemory>
    ensures { OnOk result (table.new ≡ merged table.old pairs.items) }
{
    for pair in pairs {
        let Pair { key, value } = pair;
        table.put(key, value)?;
    }
    Ok(())
}

/// Adds the change at a key, if the tables have not the same pair there.
fn add_change(
    changes: &mut Vec<Change>,
    key: Key,
    before: &Table,
    after: &Table,
) -> Result<(), OutOfMemory>
    ensures { OnOk result (changes.new.items ≡ changes.old.items ++ changes_among (key ∷ []) before.now after.now) }
{
    let old = before.get(&key);
    let new = after.get(&key);
    if is_same(old, new) {
        return Ok(());
    }
    let value = copy(new)?;
    changes.push(Change { key, value })?;
    Ok(())
}

/// The changes at the keys of these pairs, in order.
fn changes_at(
    alloc: Global,
    pairs: Vec<Pair>,
    before: &Table,
    after: &Table,
) -> Result<Vec<Change>, OutOfMemory>
    ensures { IfOk result (λ changes. changes.items ≡ changes_among (map (λ pair. pair.0) pairs.items) before.now after.now) }
{
    let mut changes = Vec::new(alloc);
    for pair in pairs {
        let Pair { key, .. } = pair;
        add_change(&mut changes, key, before, after)?;
    }
    Ok(changes)
}

/// The keys of the range at which the tables differ, in order, each with its value in the second or none. It looks up each key that
/// either has in the range, in both.
pub fn compare(
    alloc: Global,
    before: &Table,
    after: &Table,
    range: &Range,
) -> Result<Vec<Change>, OutOfMemory>
    requires ascends { IsTrue (is_sorted text_cmp before.now) }
    requires other_ascends { IsTrue (is_sorted text_cmp after.now) }
    ensures { IfOk result (λ changes. changes.items ≡ changes_between range.now before.now after.now) }
{
    let mut either = Table::new(alloc);
    let old = before.within(range)?;
    put_all(&mut either, old)?;
    let new = after.within(range)?;
    put_all(&mut either, new)?;
    let pairs = either.within(range)?;
    changes_at(alloc, pairs, before, after)
}
