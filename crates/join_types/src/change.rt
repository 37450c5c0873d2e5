// A key that changed.
ghost use Rattle.std.specs.Prelude.{◌≡◌, IfOk, map, option_copied};

use key_space::{Key, Value};
use out_of_memory::OutOfMemory;
use std::alloc::Global;
use std::marker::Model;

/// A key with its value, or with none where it has gone.
#[derive(Debug, Drop)]
pub struct Change {
    /// What changed.
    pub key: Key,
    /// What stands there now, if anything does.
    pub value: Option<Value>,
}

impl Model for Change {
    ghost use Rattle.growing_history.specs.StateChanges as plain;

    ghost Value = { plain.Change };

    ghost view = { λ c. record { key = c.key; value = c.value } };
}

impl Change {
    /// Makes a change of the key to a value that is lent, or to none where none is. A long text is shared, and it takes constant
    /// time.
    pub fn of(key: Key, value: Option<&Value>) -> Result<Change, OutOfMemory>
        ensures { IfOk result (λ change. change ≡ record { key = key; value = option_copied value.entry }) }
    {
        let value = copy_value(value)?;
        Ok(Change { key, value })
    }

    /// Makes an equal change, which shares long texts. It takes constant time.
    pub fn copy(&self) -> Result<Change, OutOfMemory>
        ensures { IfOk result (λ copy. copy ≡ self.now) }
    {
        Change::of(self.key.copy()?, self.value.as_ref())
    }
}

/// Makes a copy of a value that is lent, if one is, which shares a long text. It takes constant time.
pub fn copy_value(value: Option<&Value>) -> Result<Option<Value>, OutOfMemory>
    ensures { IfOk result (λ copy. copy ≡ option_copied value.entry) }
{
    match value {
        Some(value) => Ok(Some(value.copy()?)),
        None => Ok(None),
    }
}

/// Gives the keys of the changes, in their order. Linear in them.
pub fn keys_of(alloc: Global, changes: Vec<Change>) -> Result<Vec<Key>, OutOfMemory>
    ensures { IfOk result (λ keys. keys.items ≡ map (λ change. change.key) changes.items) }
{
    let mut keys = Vec::with_capacity(alloc, changes.len())?;
    for change in changes {
        let Change { key, .. } = change;
        keys.push(key)?;
    }
    Ok(keys)
}
