// What changed between two lists of pairs.
ghost use Rattle.std.specs.Prelude.{◌≡◌, ◌++◌, map, IfOk, OnOk};
ghost use Rattle.layering.specs.Merging.{Ascends};
ghost use Rattle.range_cells.specs.Comparing.{change_of_both, changes_of, gone_pair, new_pair};

use join_types::{Change, Pair};
use out_of_memory::OutOfMemory;
use std::alloc::Global;
use std::cmp::Ordering;

/// A pair that has gone, as a change, whose key's text is shared.
fn gone(pair: &Pair) -> Result<Change, OutOfMemory>
    ensures { IfOk result (λ change. change ≡ gone_pair pair.now) }
{
    Ok(Change {
        key: pair.key.copy()?,
        value: None,
    })
}

/// A pair that has come, as a change, whose long texts are shared.
fn come(pair: &Pair) -> Result<Change, OutOfMemory>
    ensures { IfOk result (λ change. change ≡ new_pair pair.now) }
{
    Ok(Change {
        key: pair.key.copy()?,
        value: Some(pair.value.copy()?),
    })
}

/// Adds that all pairs of a list have gone. Linear in it.
fn push_gone(changes: &mut Vec<Change>, pairs: &[Pair]) -> Result<(), OutOfMemory>
    ensures { OnOk result (changes.new.items ≡ changes.old.items ++ map gone_pair pairs.now) }
{
    for pair in pairs {
        changes.push(gone(pair)?)?;
    }
    Ok(())
}

/// Adds that all pairs of a list have come. Linear in it.
fn push_come(changes: &mut Vec<Change>, pairs: &[Pair]) -> Result<(), OutOfMemory>
    ensures { OnOk result (changes.new.items ≡ changes.old.items ++ map new_pair pairs.now) }
{
    for pair in pairs {
        changes.push(come(pair)?)?;
    }
    Ok(())
}

/// Adds the change from a pair to another at its key, if they have not the same value.
fn push_both(changes: &mut Vec<Change>, first: &Pair, next: &Pair) -> Result<(), OutOfMemory>
    ensures { OnOk result (changes.new.items ≡ changes.old.items ++ change_of_both first.now next.now) }
{
    if first.value.text() == next.value.text() {
        return Ok(());
    }
    changes.push(come(next)?)?;
    Ok(())
}

/// Lists what changed between two lists of pairs whose keys ascend, in key order: each key at which they have not the same pair,
/// with the value of the second or none. Linear in both; long texts are shared.
pub fn compare(alloc: Global, before: &[Pair], after: &[Pair]) -> Result<Vec<Change>, OutOfMemory>
    requires ascends { Ascends before.now }
    requires other_ascends { Ascends after.now }
    ensures { IfOk result (λ changes. changes.items ≡ changes_of before.now after.now) }
{
    let mut changes = Vec::new(alloc);
    let mut i = 0;
    let mut k = 0;
    while i < before.len() && k < after.len() {
        let one = &before[i];
        let two = &after[k];
        match one.key.cmp(&two.key) {
            Ordering::Less => {
                changes.push(gone(one)?)?;
                i += 1;
            }
            Ordering::Equal => {
                push_both(&mut changes, one, two)?;
                i += 1;
                k += 1;
            }
            Ordering::Greater => {
                changes.push(come(two)?)?;
                k += 1;
            }
        }
    }
    push_gone(&mut changes, &before[i..])?;
    push_come(&mut changes, &after[k..])?;
    Ok(changes)
}
