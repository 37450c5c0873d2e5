// What changed up to one rank more than a reader's, with what stands there.
ghost use Rattle.std.specs.Prelude.{◌≡◌, ◌+◌, ◌≤◌, length, map, take, true, IfOk};
ghost use Rattle.std.specs.List.{AllByRecursion};
ghost use Rattle.std.specs.List.Sorted.{IsStrictlySortedBy};
ghost use Rattle.semantics.specs.Texts.{text_cmp, value_at, within};
ghost use Rattle.semantics.specs.Histories.{joins_of};
ghost use Rattle.semantics.specs.States.{below};
ghost use Rattle.growing_history.specs.StateChanges.{change_to};
ghost use Rattle.growing_history.specs.Changes.{changed_keys, IsBareThroughout};
ghost use Rattle.growing_history.specs.Entered.{HasEntered};
ghost use Rattle.layering.specs.Reached.{reached};
ghost use Rattle.join_eval.specs.Answers.{TellsAtCost, TellsChanges, TellsExactly, TellsValues, change_keys};
ghost use Rattle.join_eval.specs.Moves.{Moves};
ghost use Rattle.rank_layers.specs.Telling.{AddsTold};

use crate::above::{is_open, pairs_above};
use crate::range_cache::RangeCache;
use crate::telling::add_changes;
use join_eval::{Between, Changed, Changes, Reader};
use join_types::{Change, keys_of};
use key_space::range::look_at;
use key_space::{Key, Range, Value};
use out_of_memory::OutOfMemory;
use std::sync::ledger::Ledger;
use steps::Steps;

/// What stands at the key after the first p entries, with the joins up to the reader's own top rank: the value of the only pair in
/// the range of just the key, or none.
fn value_above<R: Reader, C: RangeCache<R>, L: Ledger>(
    cache: &C,
    rank: u8,
    p: u64,
    key: &Key,
    reader: &mut R,
    steps: &mut Steps<L>,
) -> Result<Option<Value>, OutOfMemory>
    requires within { p ≤ length (R.list reader.old) }
    requires above { R.floor reader.old ≤ p }
    requires next { R.top ≡ rank }
    ensures value { IfOk result (λ value. value ≡ value_at key.now (below (take p (R.list reader.old)) (rank + 1))) }
    ensures moves { Moves R.list R.floor (C.left (rank + 1)) reader.old reader.new }
    ensures counted { steps.old ≤ steps.new }
{
    let range = Range::just(cache.alloc(), key)?;
    let mut pairs = pairs_above(cache, rank, p, &range, reader, steps)?;
    match pairs.pop() {
        None => Ok(None),
        Some(pair) => Ok(Some(pair.value)),
    }
}

/// The keys, each with what stands there after the first p entries, with the joins up to the reader's own top rank, in their order.
/// Each key is read as the range of just it.
fn values_above<R: Reader, C: RangeCache<R>, L: Ledger>(
    cache: &C,
    rank: u8,
    p: u64,
    keys: &[Key],
    reader: &mut R,
    steps: &mut Steps<L>,
) -> Result<Vec<Change>, OutOfMemory>
    requires within { p ≤ length (R.list reader.old) }
    requires above { R.floor reader.old ≤ p }
    requires next { R.top ≡ rank }
    ensures exact { IfOk result (λ changes. changes.items ≡ map (change_to (below (take p (R.list reader.old)) (rank + 1))) keys.now) }
    ensures moves { Moves R.list R.floor (C.left (rank + 1)) reader.old reader.new }
    ensures counted { steps.old ≤ steps.new }
{
    let mut changes = Vec::with_capacity(cache.alloc(), keys.len())?;
    for key in keys {
        let value = value_above(cache, rank, p, key, reader, steps)?;
        let copy = key.copy()?;
        changes.push(Change { key: copy, value })?;
    }
    Ok(changes)
}

/// Adds to changes of keys of a range those keys of it at which the outputs of joins of a rank may have changed since a position,
/// as `add_changes` does, and reads what stands at each of all these keys.
///
/// `Unlisted` comes only where `add_changes` answers `All`. It costs what that does, and reads the range of just the key for each.
fn add_valued<R: Reader, C: RangeCache<R>, L: Ledger>(
    cache: &C,
    ats: &[u64],
    rank: u8,
    since: u64,
    p: u64,
    range: &Range,
    changes: Vec<Change>,
    reader: &mut R,
    steps: &mut Steps<L>,
) -> Result<Changes, OutOfMemory>
    requires order { since ≤ p }
    requires within { p ≤ length (R.list reader.old) }
    requires above { R.floor reader.old ≤ p }
    requires entered { HasEntered (R.list reader.old) }
    requires next { R.top ≡ rank }
    requires listed { ats.now ≡ map (λ s. s.position) (reached range.now rank (joins_of (take p (R.list reader.old)))) }
    requires ascends { IsStrictlySortedBy text_cmp (change_keys changes.items) }
    requires inside { AllByRecursion (λ key. within range.now key ≡ true) (change_keys changes.items) }
    ensures told { IfOk result (AddsTold (R.list reader.old) since p rank range.now (reached range.now rank (joins_of (take p (R.list reader.old)))) (change_keys changes.items)) }
    ensures values { IfOk result (TellsValues (below (take p (R.list reader.old)) (rank + 1))) }
    ensures moves { Moves R.list R.floor (C.left (rank + 1)) reader.old reader.new }
    ensures counted { steps.old ≤ steps.new }
{
    let given = keys_of(cache.alloc(), changes)?;
    let Changed::Keys(keys) = add_changes(cache, ats, rank, since, p, range, given, reader, steps)?
    else {
        return Ok(Changes::Unlisted);
    };
    let valued = values_above(cache, rank, p, keys.as_slice(), reader, steps)?;
    Ok(Changes::Listed(valued))
}

/// Says what may have changed in the range as `changed_above` does, and beside each key what stands there after the first p
/// entries, with the joins up to the reader's own top rank: as the reader says it, and where the range reaches outputs of this
/// rank as they are read, key by key.
///
/// Over a range that is bare throughout it costs what the reader's answer does.
pub fn changes_above<R: Reader, C: RangeCache<R>, L: Ledger>(
    cache: &C,
    rank: u8,
    q: u64,
    p: u64,
    range: &Range,
    reader: &mut R,
    steps: &mut Steps<L>,
) -> Result<Changes, OutOfMemory>
    requires order { q ≤ p }
    requires within { p ≤ length (R.list reader.old) }
    requires above { R.floor reader.old ≤ q }
    requires next { R.top ≡ rank }
    ensures exact { IfOk result (TellsChanges (R.list reader.old) q p (rank + 1) range.now) }
    ensures values { IfOk result (TellsValues (below (take p (R.list reader.old)) (rank + 1))) }
    ensures moves { Moves R.list R.floor (C.left (rank + 1)) reader.old reader.new }
    ensures entered { HasEntered (R.list reader.new) }
    ensures counted { steps.old ≤ steps.new }
    ensures cost { IfOk result (TellsAtCost steps.old steps.new) }
    ensures bare { IsBareThroughout (R.list reader.old) q p range.now → IfOk result (TellsExactly (changed_keys q p range.now (R.list reader.old))) }
    ensures bare_cost { IsBareThroughout (R.list reader.old) q p range.now → IfOk result (λ _. steps.new ≡ steps.old + 1 + length (changed_keys q p range.now (R.list reader.old))) }
{
    look_at(range);
    let Changes::Listed(changes) = reader.changes(q, p, range, rank, steps)? else {
        return Ok(Changes::Unlisted);
    };
    match cache.between(q, p, range, reader)? {
        Between::Steady => {}
        Between::Bare => return Ok(Changes::Listed(changes)),
        Between::Other => return Ok(Changes::Unlisted),
    }
    let ats = cache.reached(p, range, rank, reader)?;
    if ats.is_empty() {
        return Ok(Changes::Listed(changes));
    }
    if !is_open(range) {
        return Ok(Changes::Listed(changes));
    }
    add_valued(
        cache,
        ats.as_slice(),
        rank,
        q,
        p,
        range,
        changes,
        reader,
        steps,
    )
}
