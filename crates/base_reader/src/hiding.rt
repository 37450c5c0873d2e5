// What no output hides.
ghost use Rattle.std.specs.Prelude.{◌≡◌, IfOk, map, not, true};
ghost use Rattle.semantics.specs.Texts.{pairs_where};
ghost use Rattle.semantics.specs.Histories.{is_computed};
ghost use Rattle.growing_history.specs.Changes.{is_bare};
ghost use Rattle.base_reader.specs.Hiding.{HidesNoPair, HidesNoValue, without_hidden};

use join_set::JoinSet;
use join_types::{Change, Pair};
use key_space::Range;
use out_of_memory::OutOfMemory;
use std::alloc::Global;

/// Whether no join that stands has its output in the range's table. Linear in the joins, and in the tables of the drops that they
/// remember.
fn is_bare(joins: &JoinSet, range: &Range) -> bool
    ensures { result ≡ true → is_bare range.now joins.now.standing ≡ true }
{
    joins.bare_since(joins.changed_at(), range.table())
}

/// Those of the pairs of a range whose keys fit the output of no join that stands. Where a join has its output in the range's
/// table it looks for each pair at each join; otherwise it hands the pairs back.
pub fn hide_computed(
    alloc: Global,
    joins: &JoinSet,
    range: &Range,
    pairs: Vec<Pair>,
) -> Result<Vec<Pair>, OutOfMemory>
    requires { HidesNoPair joins.now.standing range.now pairs.items }
    ensures { IfOk result (λ left. left.items ≡ pairs_where (λ key. not (is_computed joins.now.standing key)) pairs.items) }
{
    if is_bare(joins, range) {
        return Ok(pairs);
    }
    let mut left = Vec::new(alloc);
    for pair in pairs {
        if joins.owner(&pair.key).is_none() {
            left.push(pair)?;
        }
    }
    Ok(left)
}

/// The change, without its value where the key fits the output of a join that stands. It looks at each join.
fn seen(joins: &JoinSet, change: Change) -> Change
    ensures { result ≡ without_hidden joins.now.standing change }
{
    if joins.owner(&change.key).is_none() {
        return change;
    }
    let Change { key, .. } = change;
    Change { key, value: None }
}

/// The changes of a range in their order, without the values at keys that fit the output of a join that stands. Where a join has
/// its output in the range's table it looks for each change at each join; otherwise it hands the changes back.
pub fn hide_values(
    alloc: Global,
    joins: &JoinSet,
    range: &Range,
    changes: Vec<Change>,
) -> Result<Vec<Change>, OutOfMemory>
    requires { HidesNoValue joins.now.standing range.now changes.items }
    ensures { IfOk result (λ left. left.items ≡ map (without_hidden joins.now.standing) changes.items) }
{
    if is_bare(joins, range) {
        return Ok(changes);
    }
    let mut left = Vec::with_capacity(alloc, changes.len())?;
    for change in changes {
        left.push(seen(joins, change))?;
    }
    Ok(left)
}
