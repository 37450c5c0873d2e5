// The state after a history, and what a reader asks of it.
ghost use Rattle.std.specs.Prelude.{◌≡◌, ◌≤◌, IfOk};
ghost use Rattle.semantics.specs.Texts.{value_at, pairs_within};
ghost use Rattle.semantics.specs.States.{below, state};
ghost use Rattle.semantics.specs.Verdicts.{AllEntered};

use crate::hiding::hide_computed;
use crate::outputs::rank_outputs;
use crate::replay::{Left, replay};
use join_rows::Table;
use join_types::{Entry, Pair};
use key_space::{Key, Range, Value};
use out_of_memory::OutOfMemory;
use std::alloc::Global;

/// The number of ranks that a join may have, from 0.
pub const RANKS: u8 = 8;

/// What stands after the entries, each of which entered at its place, with the joins of ranks below this one alone: the
/// base pairs that no output hides, with the outputs of these joins, rank by rank upwards. Each join is evaluated as it is
/// defined, over the whole table: that takes the table's size to the power of the number of its sources.
pub fn state_below(alloc: Global, entries: &[Entry], rank: u8) -> Result<Table, OutOfMemory>
    requires entered { AllEntered entries.now }
    requires rank { rank ≤ 8 }
    ensures { IfOk result (λ table. table ≡ below entries.now rank) }
{
    let Left {
        standing,
        base: mut table,
    } = replay(alloc, entries)?;
    let joins = standing.joins();
    hide_computed(&mut table, joins);
    for lower in 0..rank {
        let outputs = rank_outputs(alloc, joins, lower, &table)?;
        table = table.merge(outputs)?;
    }
    Ok(table)
}

/// The state after the entries, each of which entered at its place: what stands with the joins of all ranks, at the cost
/// of `state_below`.
pub fn state(alloc: Global, entries: &[Entry]) -> Result<Table, OutOfMemory>
    requires { AllEntered entries.now }
    ensures { IfOk result (λ table. table ≡ state entries.now) }
{
    state_below(alloc, entries, RANKS)
}

/// Copies of the pairs that stand after the entries with the joins of ranks below this one alone, of those whose keys lie
/// in the range, in order, at the cost of `state_below`.
pub fn afresh_below(
    alloc: Global,
    entries: &[Entry],
    rank: u8,
    range: &Range,
) -> Result<Vec<Pair>, OutOfMemory>
    requires entered { AllEntered entries.now }
    requires rank { rank ≤ 8 }
    ensures { IfOk result (λ pairs. pairs.items ≡ pairs_within range.now (below entries.now rank)) }
{
    state_below(alloc, entries, rank)?.within(range)
}

/// Copies of the pairs of the state after the entries whose keys lie in the range, in order, at the cost of `state`.
pub fn afresh(alloc: Global, entries: &[Entry], range: &Range) -> Result<Vec<Pair>, OutOfMemory>
    requires { AllEntered entries.now }
    ensures { IfOk result (λ pairs. pairs.items ≡ pairs_within range.now (state entries.now)) }
{
    state(alloc, entries)?.within(range)
}

/// A copy of the value at the key in the state after the entries, at the cost of `state`.
pub fn value_afresh(
    alloc: Global,
    entries: &[Entry],
    key: &Key,
) -> Result<Option<Value>, OutOfMemory>
    requires { AllEntered entries.now }
    ensures { IfOk result (λ value. value ≡ value_at key.now (state entries.now)) }
{
    let table = state(alloc, entries)?;
    match table.get(key) {
        None => Ok(None),
        Some(value) => Ok(Some(value.copy()?)),
    }
}
