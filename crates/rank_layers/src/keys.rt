// Keys in order, put together.
ghost use Rattle.std.specs.Prelude.{◌↔◌, ◌⊎◌, IfOk, Contains};
ghost use Rattle.std.specs.List.Sorted.{IsStrictlySortedBy};
ghost use Rattle.semantics.specs.Texts.{Text, text_cmp};

use key_space::Key;
use out_of_memory::OutOfMemory;
use range_state::merged;

/// Puts two lists of keys that ascend together: gives the keys of both, ascending, each once. Linear in both, as a sort of one
/// behind the other is; where one is empty the other is given back.
pub fn united(first: Vec<Key>, other: Vec<Key>) -> Result<Vec<Key>, OutOfMemory>
    requires ascends { IsStrictlySortedBy text_cmp first.items }
    requires other_ascends { IsStrictlySortedBy text_cmp other.items }
    ensures ascend { IfOk result (λ all. IsStrictlySortedBy text_cmp all.items) }
    ensures same { IfOk result (λ all. (key : Text) → Contains all.items key ↔ (Contains first.items key ⊎ Contains other.items key)) }
{
    if first.is_empty() {
        return Ok(other);
    }
    if other.is_empty() {
        return Ok(first);
    }
    let mut all = first;
    let mut rest = other;
    all.append(&mut rest)?;
    merged(all)
}
