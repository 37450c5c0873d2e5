// Keys in order, each once.
ghost use Rattle.std.specs.Prelude.{◌≡◌, ◌++◌, List, IfOk, OnOk};
ghost use Rattle.semantics.specs.Texts.{Text};
ghost use Rattle.growing_history.specs.Changes.{in_order};

use key_space::Key;
use out_of_memory::OutOfMemory;
use std::alloc::Global;
use std::collections::BTreeSet;

/// Adds the keys to those that were found. Logarithmic in all of them for each.
///
/// On `OutOfMemory` some of them may have been added.
pub(crate) fn add_keys(found: &mut BTreeSet<Key>, keys: Vec<Key>) -> Result<(), OutOfMemory>
    ensures { OnOk result ((before : List Text) → found.old.keys ≡ in_order before → found.new.keys ≡ in_order (before ++ keys.items)) }
{
    for key in keys {
        found.insert(key)?;
    }
    Ok(())
}

/// The keys of a set, in order.
pub(crate) fn listed(alloc: Global, found: BTreeSet<Key>) -> Result<Vec<Key>, OutOfMemory>
    ensures { IfOk result (λ keys. keys.items ≡ found.keys) }
{
    let mut keys = Vec::with_capacity(alloc, found.len())?;
    for key in found {
        keys.push(key)?;
    }
    Ok(keys)
}
