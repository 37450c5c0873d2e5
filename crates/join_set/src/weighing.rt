// Whether a join may be added to a set, and the ranks that the set then has.
ghost use Rattle.std.specs.Prelude.{◌≡◌, ◌≤◌, IfOk, IfErr, None, length, map, nat_lt};
ghost use Rattle.std.specs.List.{All, list_any};
ghost use Rattle.semantics.specs.Joins.{Join as PlainJoin};
ghost use Rattle.semantics.specs.States.{IsAdmissible, ranks_of};
ghost use Rattle.semantics.specs.Verdicts.{cycle_cause, join_cause, joined, position_at};
ghost use Rattle.join_set.specs.Faults.{IsFaultOf};
ghost use Rattle.join_set.specs.Sets.{IsRankedWith};

use crate::fault::AddFault;
use crate::reading::edges;
use crate::rules::{keeps_slot_rule, keeps_source_rule};
use crate::stands::{Stands, clash};
use join_types::{Join, Positions};
use out_of_memory::OutOfMemory;
use rank_order::{Ranked, ranks};
use std::alloc::Global;

/// The greatest rank of a join.
pub const MAX_RANK: u64 = 7;

/// The most joins of a set.
pub const MAX_JOINS: usize = 64;

/// The position of the join with the number, of which the last is that of the new join.
fn position(joins: &[Stands], at: u64, number: usize) -> u64
    requires { number ≤ length joins.now }
    ensures { (join : PlainJoin) → result ≡ position_at (joined joins.now at join) number }
{
    if number < joins.len() {
        let stands = &joins[number];
        stands.position
    } else {
        at
    }
}

/// The positions of the joins with these numbers, of which the last is that of the new join.
fn positions(
    alloc: Global,
    joins: &[Stands],
    at: u64,
    numbers: &[usize],
) -> Result<Positions, OutOfMemory>
    requires { All (λ number. number ≤ length joins.now) numbers.now }
    ensures { IfOk result (λ found. (join : PlainJoin) → found ≡ map (position_at (joined joins.now at join)) numbers.now) }
{
    let mut found = Vec::with_capacity(alloc, numbers.len())?;
    for &number in numbers {
        found.push(position(joins, at, number))?;
    }
    Ok(Positions::of(found))
}

/// The ranks of the set with the new join, or the cycle of its reading. Each join is compared with each, and the ranks
/// are those of a graph.
fn rank_with(alloc: Global, joins: &[Stands], at: u64, join: &Join) -> Result<Vec<u64>, AddFault>
    requires { IsAdmissible joins.now }
    ensures ok { IfOk result (λ ranks. IsRankedWith joins.now at join.now ranks.items) }
    ensures err { IfErr result (λ fault. IsFaultOf fault (cycle_cause (length joins.now) (joined joins.now at join.now))) }
{
    let edges = edges(alloc, joins, join)?;
    match ranks(alloc, joins.len() + 1, edges.as_slice(), joins.len())? {
        Ranked::Ranks(ranks) => Ok(ranks),
        Ranked::Cycle(cycle) => {
            Err(AddFault::Cycle(positions(alloc, joins, at, cycle.as_slice())?))
        }
    }
}

/// Whether some rank is above the greatest that a join may have.
fn are_deep(ranks: &[u64]) -> bool
    ensures { result ≡ list_any (nat_lt 7) ranks.now }
{
    ranks.iter().any(|rank| *rank > MAX_RANK)
}

/// The ranks of the set with the new join, or why the join may not be added: the first that holds of the rules on slots
/// and on sources, a clash, a cycle, a rank above 7, and 64 joins that stand. Each join is compared with each.
pub fn weigh(alloc: Global, joins: &[Stands], at: u64, join: &Join) -> Result<Vec<u64>, AddFault>
    requires { IsAdmissible joins.now }
    ensures ok { IfOk result (λ ranks. ranks.items ≡ ranks_of (joined joins.now at join.now)) }
    ensures free { IfOk result (λ ranks. join_cause joins.now at join.now ≡ None) }
    ensures err { IfErr result (λ fault. IsFaultOf fault (join_cause joins.now at join.now)) }
{
    if !keeps_slot_rule(join) {
        return Err(AddFault::Slots);
    }
    if !keeps_source_rule(join) {
        return Err(AddFault::Sources);
    }
    if let Some(position) = clash(joins, join) {
        return Err(AddFault::Clash(position));
    }
    let ranks = rank_with(alloc, joins, at, join)?;
    if are_deep(ranks.as_slice()) {
        return Err(AddFault::Deep);
    }
    if joins.len() >= MAX_JOINS {
        return Err(AddFault::Many);
    }
    Ok(ranks)
}

/// The ranks of a set that may stand. Each join is compared with each, and the ranks are those of a graph.
pub fn ranks_of(alloc: Global, joins: &[Stands]) -> Result<Vec<u64>, OutOfMemory>
    requires { IsAdmissible joins.now }
    ensures { IfOk result (λ ranks. ranks.items ≡ ranks_of joins.now) }
{
    let Some(last) = joins.len().checked_sub(1) else {
        return Ok(Vec::new(alloc));
    };
    let stands = &joins[last];
    let edges = edges(alloc, &joins[..last], &stands.join)?;
    match ranks(alloc, joins.len(), edges.as_slice(), last)? {
        Ranked::Ranks(ranks) => Ok(ranks),
        Ranked::Cycle(_) => unreachable!(),
    }
}
