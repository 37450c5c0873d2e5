// What stands at keys after some entries.
ghost use Rattle.std.specs.Prelude.{◌≡◌, ◌≤◌, map, IfOk};
ghost use Rattle.semantics.specs.States.{below};
ghost use Rattle.semantics.specs.Verdicts.{AllEntered};
ghost use Rattle.growing_history.specs.StateChanges.{change_to};

use join_model::state_below;
use join_types::{Change, Entry};
use key_space::Key;
use out_of_memory::OutOfMemory;
use std::alloc::Global;

/// Gives the keys, each with what stands there after the entries with the joins of ranks below a rank alone, in their order. It
/// evaluates all joins afresh once.
pub fn valued(
    alloc: Global,
    entries: &[Entry],
    keys: Vec<Key>,
    rank: u8,
) -> Result<Vec<Change>, OutOfMemory>
    requires entered { AllEntered entries.now }
    requires ranked { rank ≤ 8 }
    ensures { IfOk result (λ changes. changes.items ≡ map (change_to (below entries.now rank)) keys.items) }
{
    let table = state_below(alloc, entries, rank)?;
    let mut changes = Vec::with_capacity(alloc, keys.len())?;
    for key in keys {
        let value = table.get(&key);
        changes.push(Change::of(key, value)?)?;
    }
    Ok(changes)
}
