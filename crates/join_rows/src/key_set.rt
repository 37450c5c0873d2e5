// Keys that many needs are looked at for, in order.
ghost use Rattle.std.specs.Prelude.{◌≡◌, IfOk};
ghost use Rattle.std.specs.BTreeSet.{IsFromIterResult};
ghost use Rattle.semantics.specs.Texts.{text_cmp};
ghost use Rattle.join_rows.specs.Order.{HasJustKeys, came_by_member};

use crate::need::{Need, copy_keys};
use key_space::Key;
use out_of_memory::OutOfMemory;
use std::alloc::{AllocError, Global};
use std::collections::BTreeSet;

/// Returns the set of the keys. It takes one sort.
fn set_of(alloc: Global, keys: Vec<Key>) -> Result<BTreeSet<Key>, AllocError>
    ensures { IfOk result (IsFromIterResult text_cmp keys.items) }
{
    keys.into_iter().collect(alloc)
}

/// Returns the set of copies of the keys, which share their long texts. It takes one sort.
pub fn keys_in_order(alloc: Global, keys: &[Key]) -> Result<BTreeSet<Key>, OutOfMemory>
    ensures { IfOk result (λ set. HasJustKeys set keys.now) }
{
    let copies = copy_keys(alloc, keys)?;
    Ok(set_of(alloc, copies)?)
}

/// Returns whether the need came by one of the keys. Logarithmic in the keys for each by which it came.
pub fn came_by_one_of(need: &Need, keys: &BTreeSet<Key>) -> bool
    ensures { result ≡ came_by_member keys.now.keys need.now }
{
    need.by.iter().any(|by| keys.contains(by))
}
