// Keys and changes put in order.
ghost use Rattle.std.specs.Prelude.{◌↔◌, IfOk, Contains};
ghost use Rattle.std.specs.List.{AllByRecursion};
ghost use Rattle.std.specs.List.Sorted.{IsStrictlySortedBy};
ghost use Rattle.semantics.specs.Texts.{Text, text_cmp};
ghost use Rattle.join_eval.specs.Answers.{change_keys};

use join_types::Change;
use key_space::Key;
use out_of_memory::OutOfMemory;

/// Puts keys in order: gives the same keys, ascending, each once. It takes one sort, which is linear where they are two lists that
/// ascend, one behind the other.
pub fn merged(mut keys: Vec<Key>) -> Result<Vec<Key>, OutOfMemory>
    ensures ascend { IfOk result (λ list. IsStrictlySortedBy text_cmp list.items) }
    ensures same { IfOk result (λ list. (key : Text) → Contains list.items key ↔ Contains keys.items key) }
{
    keys.sort()?;
    keys.dedup();
    Ok(keys)
}

/// Puts changes in order of their keys: of each key that is among them it gives one change, the keys ascending. It takes one sort,
/// which is linear where they are two lists that ascend, one behind the other.
pub fn merged_changes(mut changes: Vec<Change>) -> Result<Vec<Change>, OutOfMemory>
    ensures ascend { IfOk result (λ list. IsStrictlySortedBy text_cmp (change_keys list.items)) }
    ensures same { IfOk result (λ list. (key : Text) → Contains (change_keys list.items) key ↔ Contains (change_keys changes.items) key) }
    ensures among { IfOk result (λ list. AllByRecursion (Contains changes.items) list.items) }
{
    changes.sort_by(|one, other| one.key.cmp(&other.key))?;
    changes.dedup_by(|later, before| later.key == before.key);
    Ok(changes)
}
