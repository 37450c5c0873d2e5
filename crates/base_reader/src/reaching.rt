// The joins of a set by their positions and ranks, and those whose outputs a range reaches.
ghost use Rattle.std.specs.Prelude.{◌≡◌, ◌<◌, ◌≤◌, IfOk, IfSome, false, length, map, option_copied};
ghost use Rattle.layering.specs.Reached.{reached};
ghost use Rattle.cell_slots.specs.Slots.{IsRankIn};
ghost use Rattle.base_reader.specs.Reaching.{AreUnreachedBut, IsJoinIn, IsNumberIn, IsOnlyReached, IsReachedAt, IsReachedBeside, SaysBetween};

use join_eval::Between;
use join_set::JoinSet;
use join_types::Join;
use key_space::Range;
use out_of_memory::OutOfMemory;
use std::alloc::Global;

/// Whether the join with a number has the rank, and the range reaches its output. Linear in the bounds.
fn is_reached(joins: &JoinSet, i: usize, rank: u8, range: &Range) -> bool
    requires { i < length joins.now.standing }
    ensures { IsReachedAt joins.now.standing i rank range.now result }
{
    if joins.rank(i) != rank {
        return false;
    }
    let join = joins.join(i);
    join.output.bind_range(range).is_some()
}

/// The positions of the joins of a rank whose outputs the range reaches, in order. Linear in the joins, and in the bounds
/// for each of the rank.
pub fn reached_in(
    alloc: Global,
    joins: &JoinSet,
    rank: u8,
    range: &Range,
) -> Result<Vec<u64>, OutOfMemory>
    ensures { IfOk result (λ ats. ats.items ≡ map (λ s. s.position) (reached range.now rank joins.now.standing)) }
{
    let mut ats = Vec::new(alloc);
    for i in 0..joins.len() {
        if is_reached(joins, i, rank, range) {
            ats.push(joins.at(i))?;
        }
    }
    Ok(ats)
}

/// Whether the join with a number is not the one with another, and the range reaches its output. Linear in the bounds.
fn is_reached_beside(joins: &JoinSet, k: usize, i: usize, range: &Range) -> bool
    requires { k < length joins.now.standing }
    ensures { IsReachedBeside joins.now.standing k i range.now result }
{
    if k == i {
        return false;
    }
    let join = joins.join(k);
    join.output.bind_range(range).is_some()
}

/// Finds the number of the first join whose output the range reaches. Linear in the joins, and in the bounds for each.
fn first_reached(joins: &JoinSet, range: &Range) -> Option<usize>
    ensures { IfSome result (λ i. i < length joins.now.standing) }
{
    for i in 0..joins.len() {
        if joins.join(i).output.bind_range(range).is_some() {
            return Some(i);
        }
    }
    None
}

/// Whether the range reaches the output of a join beside the one with a number. Linear in the joins, and in the bounds for each.
fn reaches_beside(joins: &JoinSet, i: usize, range: &Range) -> bool
    ensures { result ≡ false → AreUnreachedBut joins.now.standing range.now i (length joins.now.standing) }
{
    for k in 0..joins.len() {
        if is_reached_beside(joins, k, i, range) {
            return true;
        }
    }
    false
}

/// Finds the one join whose output the range reaches: the position of its declaration, and its rank. None where the range reaches
/// none, or several. Linear in the joins, and in the bounds for each.
pub fn only_reached(joins: &JoinSet, range: &Range) -> Option<(u64, u8)>
    ensures only { IfSome result (λ one. IsOnlyReached joins.now.standing range.now one.0 one.1) }
    ensures shallow { IfSome result (λ one. one.1 ≤ 7) }
{
    let i = first_reached(joins, range)?;
    let others = reaches_beside(joins, i, range);
    if others {
        return None;
    }
    Some((joins.at(i), joins.rank(i)))
}

/// Finds the number of the join that was declared at a position; none exactly where it does not stand among the joins. Linear in
/// the joins.
fn number_of(joins: &JoinSet, at: u64) -> Option<usize>
    ensures within { IfSome result (λ i. i < length joins.now.standing) }
    ensures number { IsNumberIn joins.now.standing at result }
{
    for i in 0..joins.len() {
        if joins.at(i) == at {
            return Some(i);
        }
    }
    None
}

/// Finds the rank of the join that was declared at a position; none exactly where it does not stand among the joins. Linear in
/// the joins.
pub fn rank_of(joins: &JoinSet, at: u64) -> Option<u8>
    ensures rank { IsRankIn joins.now.standing at result }
    ensures shallow { IfSome result (λ rank. rank ≤ 7) }
{
    let i = number_of(joins, at)?;
    Some(joins.rank(i))
}

/// Finds the join that was declared at a position; none exactly where it does not stand among the joins. Linear in the joins.
pub fn join_of(joins: &JoinSet, at: u64) -> Option<&Join>
    ensures { IsJoinIn joins.now.standing at (option_copied result) }
{
    let i = number_of(joins, at)?;
    Some(joins.join(i))
}

/// Says what is so of the joins, for the range, from a position on up to the one after which these stand. It compares two
/// numbers; where a join is declared or dropped between, it is linear in the joins, and in the tables of the drops that they
/// remember.
pub fn between(joins: &JoinSet, q: u64, range: &Range) -> Between
    ensures { SaysBetween joins.now q range.now result }
{
    if joins.changed_at() <= q {
        return Between::Steady;
    }
    if joins.bare_since(q, range.table()) {
        return Between::Bare;
    }
    Between::Other
}
