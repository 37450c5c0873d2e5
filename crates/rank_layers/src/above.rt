// Reading one rank more than a reader does.
ghost use Rattle.std.specs.Prelude.{◌≡◌, ◌+◌, ◌-◌, ◌≤◌, length, take, IfOk};
ghost use Rattle.semantics.specs.Texts.{pairs_within};
ghost use Rattle.semantics.specs.States.{below};
ghost use Rattle.key_ranges.specs.Ranges.{is_open};
ghost use Rattle.growing_history.specs.Changes.{changed_keys, IsBareAt, IsBareThroughout};
ghost use Rattle.growing_history.specs.Entered.{HasEntered};
ghost use Rattle.join_eval.specs.Answers.{AnswersChanges, ListsExactly, CostsOne};
ghost use Rattle.join_eval.specs.Moves.{Moves};

use crate::outputs::add_outputs;
use crate::range_cache::RangeCache;
use crate::telling::add_changes;
use join_eval::{Between, Changed, Reader};
use join_types::Pair;
use key_space::Range;
use key_space::range::look_at;
use out_of_memory::OutOfMemory;
use std::sync::ledger::Ledger;
use steps::Steps;

/// Whether the range is not empty.
pub(crate) fn is_open(range: &Range) -> bool
    ensures { result ≡ is_open range.now }
{
    range.lo() < range.hi()
}

/// Reads the pairs of the range after the first p entries, with the joins up to the reader's own top rank: what the reader gives
/// of the ranks below, and the outputs of the joins of this rank that the range reaches, from the cache.
pub fn pairs_above<R: Reader, C: RangeCache<R>, L: Ledger>(
    cache: &C,
    rank: u8,
    p: u64,
    range: &Range,
    reader: &mut R,
    steps: &mut Steps<L>,
) -> Result<Vec<Pair>, OutOfMemory>
    requires within { p ≤ length (R.list reader.old) }
    requires above { R.floor reader.old ≤ p }
    requires next { R.top ≡ rank }
    ensures exact { IfOk result (λ pairs. pairs.items ≡ pairs_within range.now (below (take p (R.list reader.old)) (rank + 1))) }
    ensures moves { Moves R.list R.floor (C.left (rank + 1)) reader.old reader.new }
    ensures entered { HasEntered (R.list reader.new) }
    ensures counted { steps.old ≤ steps.new }
    ensures cost { IfOk result (λ pairs. steps.old + 1 + length pairs.items ≤ steps.new) }
    ensures bare { IsBareAt (R.list reader.old) p range.now → IfOk result (λ pairs. steps.new ≡ steps.old + 1 + length pairs.items) }
    ensures spent { IfOk result (λ _. C.spends reader.old reader.new p range.now (rank + 1) (steps.new - steps.old)) }
{
    look_at(range);
    let pairs = reader.pairs(p, range, rank, steps)?;
    let ats = cache.reached(p, range, rank, reader)?;
    add_outputs(cache, ats.as_slice(), rank, p, range, pairs, reader, steps)
}

/// Says what may have changed in the range between the first q and the first p entries, with the joins up to the reader's own
/// top rank: what the reader says of the ranks below, and what the cache says of the outputs of the joins of this rank that the
/// range reaches.
///
/// Where a join is declared or dropped between, they are the reader's keys if the range is bare throughout, and otherwise
/// it is not known which. Nor is it where the reader does not know it of the ranks below, and where the cache does not know it
/// of some part of the range for such a join.
pub fn changed_above<R: Reader, C: RangeCache<R>, L: Ledger>(
    cache: &C,
    rank: u8,
    q: u64,
    p: u64,
    range: &Range,
    reader: &mut R,
    steps: &mut Steps<L>,
) -> Result<Changed, OutOfMemory>
    requires order { q ≤ p }
    requires within { p ≤ length (R.list reader.old) }
    requires above { R.floor reader.old ≤ q }
    requires next { R.top ≡ rank }
    ensures exact { IfOk result (AnswersChanges (R.list reader.old) q p (rank + 1) range.now) }
    ensures moves { Moves R.list R.floor (C.left (rank + 1)) reader.old reader.new }
    ensures entered { HasEntered (R.list reader.new) }
    ensures counted { steps.old ≤ steps.new }
    ensures cost { IfOk result (CostsOne steps.old steps.new) }
    ensures bare { IsBareThroughout (R.list reader.old) q p range.now → IfOk result (ListsExactly (changed_keys q p range.now (R.list reader.old))) }
    ensures bare_cost { IsBareThroughout (R.list reader.old) q p range.now → IfOk result (λ _. steps.new ≡ steps.old + 1 + length (changed_keys q p range.now (R.list reader.old))) }
{
    look_at(range);
    let Changed::Keys(keys) = reader.changed(q, p, range, rank, steps)? else {
        return Ok(Changed::All);
    };
    match cache.between(q, p, range, reader)? {
        Between::Steady => {}
        Between::Bare => return Ok(Changed::Keys(keys)),
        Between::Other => return Ok(Changed::All),
    }
    let ats = cache.reached(p, range, rank, reader)?;
    if ats.is_empty() {
        return Ok(Changed::Keys(keys));
    }
    if !is_open(range) {
        return Ok(Changed::Keys(keys));
    }
    add_changes(
        cache,
        ats.as_slice(),
        rank,
        q,
        p,
        range,
        keys,
        reader,
        steps,
    )
}
