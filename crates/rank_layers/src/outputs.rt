// What joins of one rank give in a range.
ghost use Rattle.std.specs.Prelude.{◌≡◌, ◌+◌, ◌-◌, ◌≤◌, ◌++◌, ◌∷◌, [], flat_map, length, map, take, IfOk};
ghost use Rattle.semantics.specs.Texts.{pairs_within};
ghost use Rattle.semantics.specs.Joins.{Join as PlainJoin};
ghost use Rattle.semantics.specs.Histories.{joins_of};
ghost use Rattle.semantics.specs.Outputs.{out};
ghost use Rattle.semantics.specs.States.{below};
ghost use Rattle.growing_history.specs.Entered.{HasEntered};
ghost use Rattle.layering.specs.Merging.{Ascends};
ghost use Rattle.layering.specs.Parts.{JoinTo};
ghost use Rattle.layering.specs.Reached.{reached, with_parts};
ghost use Rattle.join_eval.specs.Moves.{Moves};
ghost use Rattle.cell_slots.specs.Slots.{IsOutput, IsReached, StandsAs};
ghost use Rattle.cell_slots.specs.Spending.{JoinsSpend};

use crate::query::Query;
use crate::range_cache::RangeCache;
use cell_slots::{are_too_many, merge};
use join_eval::Reader;
use join_types::{Join, Pair};
use key_space::Range;
use out_of_memory::OutOfMemory;
use std::sync::ledger::Ledger;
use steps::Steps;

/// The most gaps that may read all of what a join reads first, one after another: as many as there can be between 64 parts.
const MOST_WIDE: usize = 32;

/// Pairs, and others behind them. Linear in the others; where there are no pairs the others are given back.
fn put_behind(pairs: Vec<Pair>, more: Vec<Pair>) -> Result<Vec<Pair>, OutOfMemory>
    ensures { IfOk result (λ all. all.items ≡ pairs.items ++ more.items) }
{
    if pairs.is_empty() {
        return Ok(more);
    }
    let mut all = pairs;
    let mut rest = more;
    all.append(&mut rest)?;
    Ok(all)
}

/// What a join gives in parts of a range, one after another.
fn read_each<R: Reader, C: RangeCache<R>, L: Ledger>(
    cache: &C,
    query: Query,
    parts: &[C::Part],
    reader: &mut R,
    steps: &mut Steps<L>,
) -> Result<Vec<Pair>, OutOfMemory>
    requires within { query.p ≤ length (R.list reader.old) }
    requires above { R.floor reader.old ≤ query.p }
    requires entered { HasEntered (R.list reader.old) }
    requires stands { (j : PlainJoin) × StandsAs (R.list reader.old) query.p query.at query.rank j }
    requires next { R.top ≡ query.rank }
    ensures output { IfOk result (λ pairs. (j : PlainJoin) → StandsAs (R.list reader.old) query.p query.at query.rank j →
        pairs.items ≡ flat_map (λ part. pairs_within (C.range_of part) (out j (below (take query.p (R.list reader.old)) query.rank))) parts.now) }
    ensures moves { Moves R.list R.floor (C.left (query.rank + 1)) reader.old reader.new }
    ensures counted { steps.old ≤ steps.new }
    ensures cost { IfOk result (λ pairs. steps.old + length pairs.items ≤ steps.new) }
{
    let mut pairs = Vec::new(cache.alloc());
    for part in parts {
        let more = cache.read(query, part, reader, steps)?;
        pairs = put_behind(pairs, more)?;
    }
    Ok(pairs)
}

/// What a join gives in parts of a range, one after another. The pairs of one part alone are given as they are.
fn read_parts<R: Reader, C: RangeCache<R>, L: Ledger>(
    cache: &C,
    query: Query,
    parts: &[C::Part],
    reader: &mut R,
    steps: &mut Steps<L>,
) -> Result<Vec<Pair>, OutOfMemory>
    requires within { query.p ≤ length (R.list reader.old) }
    requires above { R.floor reader.old ≤ query.p }
    requires entered { HasEntered (R.list reader.old) }
    requires stands { (j : PlainJoin) × StandsAs (R.list reader.old) query.p query.at query.rank j }
    requires next { R.top ≡ query.rank }
    ensures output { IfOk result (λ pairs. (j : PlainJoin) → StandsAs (R.list reader.old) query.p query.at query.rank j →
        pairs.items ≡ flat_map (λ part. pairs_within (C.range_of part) (out j (below (take query.p (R.list reader.old)) query.rank))) parts.now) }
    ensures moves { Moves R.list R.floor (C.left (query.rank + 1)) reader.old reader.new }
    ensures counted { steps.old ≤ steps.new }
    ensures cost { IfOk result (λ pairs. steps.old + length pairs.items ≤ steps.new) }
    ensures took { (part : C.Part) → parts.now ≡ part ∷ [] → IfOk result (λ pairs. C.took reader.old reader.new query.at query.rank query.p part (length pairs.items) (steps.new - steps.old)) }
{
    if parts.len() == 1 {
        return cache.read(query, &parts[0], reader, steps);
    }
    read_each(cache, query, parts, reader, steps)
}

/// Says whether at most 32 of the parts, of which nothing is kept, would each read all of what the join reads first. It looks at
/// them up to the next one.
fn are_few_wide<R: Reader, C: RangeCache<R>>(
    cache: &C,
    join: &Join,
    parts: &[C::Part],
) -> Result<bool, OutOfMemory> {
    let mut left = MOST_WIDE;
    for part in parts {
        if cache.reads_all(join, part)? {
            let Some(less) = left.checked_sub(1) else {
                return Ok(false);
            };
            left = less;
        }
    }
    Ok(true)
}

/// Says whether parts of a range are read one by one: at most 32 of those of which nothing is kept would each read all of what the
/// join reads first. It takes a copy of the join, and a few texts for each part.
fn are_read_apart<R: Reader, C: RangeCache<R>>(
    cache: &C,
    query: Query,
    parts: &[C::Part],
    reader: &mut R,
) -> Result<bool, OutOfMemory>
    requires within { query.p ≤ length (R.list reader.old) }
    requires above { R.floor reader.old ≤ query.p }
    requires stands { (j : PlainJoin) × StandsAs (R.list reader.old) query.p query.at query.rank j }
    ensures moves { Moves R.list R.floor (C.left (query.rank + 1)) reader.old reader.new }
{
    let join = cache.copy_join(query, reader)?;
    are_few_wide::<R, C>(cache, &join, parts)
}

/// What a join gives in a range that is in very many parts, of which no more are to be kept: what is kept of it is read, and only
/// the gaps between are evaluated. Where more than 32 of them would read all of what the join reads first, one after another, the
/// range is evaluated as a whole instead.
fn read_many<R: Reader, C: RangeCache<R>, L: Ledger>(
    cache: &C,
    query: Query,
    range: &Range,
    parts: &[C::Part],
    reader: &mut R,
    steps: &mut Steps<L>,
) -> Result<Vec<Pair>, OutOfMemory>
    requires within { query.p ≤ length (R.list reader.old) }
    requires above { R.floor reader.old ≤ query.p }
    requires entered { HasEntered (R.list reader.old) }
    requires stands { (j : PlainJoin) × StandsAs (R.list reader.old) query.p query.at query.rank j }
    requires next { R.top ≡ query.rank }
    requires joins { JoinTo range.now (map C.range_of parts.now) }
    ensures output { IfOk result (λ pairs. IsOutput (R.list reader.old) query.p query.at query.rank range.now pairs.items) }
    ensures moves { Moves R.list R.floor (C.left (query.rank + 1)) reader.old reader.new }
    ensures counted { steps.old ≤ steps.new }
    ensures cost { IfOk result (λ pairs. steps.old + length pairs.items ≤ steps.new) }
{
    let are_apart = are_read_apart(cache, query, parts, reader)?;
    if are_apart {
        return read_each(cache, query, parts, reader, steps);
    }
    cache.read_whole(query, range, reader, steps)
}

/// What a join gives in a range: from where parts of it are kept, and for the rest from where it may be kept.
fn read_join<R: Reader, C: RangeCache<R>, L: Ledger>(
    cache: &C,
    query: Query,
    range: &Range,
    reader: &mut R,
    steps: &mut Steps<L>,
) -> Result<Vec<Pair>, OutOfMemory>
    requires within { query.p ≤ length (R.list reader.old) }
    requires above { R.floor reader.old ≤ query.p }
    requires entered { HasEntered (R.list reader.old) }
    requires reached { IsReached (R.list reader.old) query.p query.at query.rank range.now }
    requires next { R.top ≡ query.rank }
    ensures output { IfOk result (λ pairs. IsOutput (R.list reader.old) query.p query.at query.rank range.now pairs.items) }
    ensures moves { Moves R.list R.floor (C.left (query.rank + 1)) reader.old reader.new }
    ensures counted { steps.old ≤ steps.new }
    ensures cost { IfOk result (λ pairs. steps.old + length pairs.items ≤ steps.new) }
    ensures spent { IfOk result (λ _. (j : PlainJoin) → StandsAs (R.list reader.old) query.p query.at query.rank j →
        C.cost_one reader.old reader.new query.at query.rank query.p range.now j (steps.new - steps.old)) }
{
    let parts = cache.cover(query, range, reader)?;
    let all = parts.as_slice();
    if are_too_many(all.len(), range) {
        return read_many(cache, query, range, all, reader, steps);
    }
    read_parts(cache, query, all, reader, steps)
}

/// Adds to the pairs that stand below a rank in a range what the joins of this rank give in it that the range reaches: these
/// are named by the positions of their declarations, in order.
///
/// It is linear in the pairs for each of the joins, beside what reading them takes.
pub fn add_outputs<R: Reader, C: RangeCache<R>, L: Ledger>(
    cache: &C,
    ats: &[u64],
    rank: u8,
    p: u64,
    range: &Range,
    pairs: Vec<Pair>,
    reader: &mut R,
    steps: &mut Steps<L>,
) -> Result<Vec<Pair>, OutOfMemory>
    requires within { p ≤ length (R.list reader.old) }
    requires above { R.floor reader.old ≤ p }
    requires entered { HasEntered (R.list reader.old) }
    requires next { R.top ≡ rank }
    requires listed { ats.now ≡ map (λ s. s.position) (reached range.now rank (joins_of (take p (R.list reader.old)))) }
    requires ascends { Ascends pairs.items }
    ensures output { IfOk result (λ all. all.items ≡ with_parts range.now (reached range.now rank (joins_of (take p (R.list reader.old)))) (below (take p (R.list reader.old)) rank) pairs.items) }
    ensures moves { Moves R.list R.floor (C.left (rank + 1)) reader.old reader.new }
    ensures counted { steps.old ≤ steps.new }
    ensures cost { IfOk result (λ all. length all.items + steps.old ≤ length pairs.items + steps.new) }
    ensures spent { IfOk result (λ _. JoinsSpend (λ x y at j added. C.cost_one x y at rank p range.now j added) reader.old reader.new (reached range.now rank (joins_of (take p (R.list reader.old)))) (steps.new - steps.old)) }
{
    let mut all = pairs;
    for at in ats {
        let query = Query { at: *at, rank, p };
        let more = read_join(cache, query, range, reader, steps)?;
        all = merge(cache.alloc(), all, more)?;
    }
    Ok(all)
}
