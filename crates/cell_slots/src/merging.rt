// Pairs in the order of their keys, put together.
ghost use Rattle.std.specs.Prelude.{◌≡◌, ◌++◌, ◌<◌, ◌≤◌, [], drop, length, IfOk, OnOk};
ghost use Rattle.semantics.specs.States.{merged};
ghost use Rattle.layering.specs.Merging.{Ascends};

use join_types::Pair;
use out_of_memory::OutOfMemory;
use std::alloc::Global;
use std::cmp::Ordering;

/// Adds copies of all pairs of a list. Linear in the list.
fn push_copies(all: &mut Vec<Pair>, pairs: &[Pair]) -> Result<(), OutOfMemory>
    ensures { OnOk result (all.new.items ≡ all.old.items ++ pairs.now) }
{
    for pair in pairs {
        all.push(pair.copy()?)?;
    }
    Ok(())
}

/// The pairs of both lists in the order of their keys, those of the other at the keys that both have.
fn interleave(alloc: Global, first: &[Pair], other: &[Pair]) -> Result<Vec<Pair>, OutOfMemory>
    requires ascends { Ascends first.now }
    requires other_ascends { Ascends other.now }
    ensures { IfOk result (λ all. all.items ≡ merged first.now other.now) }
{
    let mut all = Vec::new(alloc);
    let mut i = 0;
    let mut k = 0;
    while i < first.len() && k < other.len() {
        let one = &first[i];
        let two = &other[k];
        match one.key.cmp(&two.key) {
            Ordering::Less => {
                all.push(one.copy()?)?;
                i += 1;
            }
            Ordering::Equal => {
                all.push(two.copy()?)?;
                i += 1;
                k += 1;
            }
            Ordering::Greater => {
                all.push(two.copy()?)?;
                k += 1;
            }
        }
    }
    push_copies(&mut all, &first[i..])?;
    push_copies(&mut all, &other[k..])?;
    Ok(all)
}

/// Two lists of pairs whose keys ascend, as one: all their pairs in the order of their keys, those of the other list at
/// the keys that both have. Linear in both; where one is empty the other is given back, and otherwise texts are shared.
pub fn merge(alloc: Global, first: Vec<Pair>, other: Vec<Pair>) -> Result<Vec<Pair>, OutOfMemory>
    requires ascends { Ascends first.items }
    requires other_ascends { Ascends other.items }
    ensures { IfOk result (λ all. all.items ≡ merged first.items other.items) }
{
    if first.is_empty() {
        return Ok(other);
    }
    if other.is_empty() {
        return Ok(first);
    }
    interleave(alloc, first.as_slice(), other.as_slice())
}
