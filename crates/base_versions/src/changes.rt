// The changes of one table.
ghost use Rattle.std.specs.Prelude.{◌≡◌, ◌+◌, ◌-◌, ◌<◌, ◌≤◌, ◌∷◌, IfOk, IfSome, MatchOption, drop, filter, length, take};
ghost use Rattle.growing_history.specs.Changes.{in_order};
ghost use Rattle.base_versions.specs.Positions.{KeepsTo};
ghost use Rattle.base_versions.specs.Changes.{Ascend, is_between, keys_within};

use key_space::{Key, Range};
use out_of_memory::OutOfMemory;
use std::alloc::Global;
use std::collections::{BTreeSet, VecDeque};

/// A key that was put or removed at a position.
#[derive(Debug, Drop)]
pub struct Change {
    pub position: u64,
    pub key: Key,
}

/// Where the changes after the first q entries, up to the p-th, stand in a queue: from one place up to another. They are searched
/// by halves.
pub fn between(changes: &VecDeque<Change>, q: u64, p: u64) -> (usize, usize)
    ensures order { result.0 ≤ result.1 }
    ensures within { result.1 ≤ length changes.now.items }
    ensures exact { Ascend 0 changes.now.items → take (result.1 - result.0) (drop result.0 changes.now.items) ≡ filter (is_between q p) changes.now.items }
{
    let first = changes.partition_point(|change| change.position <= q);
    let last = changes.partition_point(|change| change.position <= p);
    (first, last.max(first))
}

/// The keys of the changes from one place up to another that lie in the range, in order, each once. It takes as long as to sort
/// them.
pub fn keys_in_order(
    alloc: Global,
    changes: &VecDeque<Change>,
    first: usize,
    last: usize,
    range: &Range,
) -> Result<Vec<Key>, OutOfMemory>
    requires order { first ≤ last }
    requires within { last ≤ length changes.now.items }
    ensures { IfOk result (λ keys. keys.items ≡ in_order (keys_within range.now (take (last - first) (drop first changes.now.items)))) }
{
    let mut sorted = BTreeSet::new(alloc);
    for place in first..last {
        let change = &changes[place];
        if range.contains(&change.key) {
            sorted.insert(change.key.copy()?)?;
        }
    }
    listed(alloc, sorted)
}

/// The keys of a set, in order.
fn listed(alloc: Global, sorted: BTreeSet<Key>) -> Result<Vec<Key>, OutOfMemory>
    ensures { IfOk result (λ keys. keys.items ≡ sorted.keys) }
{
    let mut keys = Vec::new(alloc);
    for key in sorted {
        keys.push(key)?;
    }
    Ok(keys)
}

/// Takes the first change out of a queue, where it is not after a position.
pub fn take_early(changes: &mut VecDeque<Change>, to: u64) -> Option<Change>
    ensures fewer { IfSome result (λ _. length changes.new.items < length changes.old.items) }
    ensures first { MatchOption result (changes.new.items ≡ changes.old.items) (λ first. changes.old.items ≡ first ∷ changes.new.items) }
    ensures keeps { KeepsTo (λ c. c.position) to changes.old.items changes.new.items }
{
    match changes.front() {
        Some(first) if first.position <= to => changes.pop_front(),
        _ => None,
    }
}
