// Reading at rank 0, from any source of base pairs and joins.
ghost use Rattle.std.specs.Prelude.{◌≡◌, ◌+◌, ◌≤◌, length, map, not, take, IfOk};
ghost use Rattle.semantics.specs.Texts.{pairs_where, pairs_within};
ghost use Rattle.semantics.specs.Histories.{base_of, is_computed, joins_of};
ghost use Rattle.semantics.specs.States.{below};
ghost use Rattle.growing_history.specs.Changes.{changed_keys, IsBareAt, IsBareThroughout};
ghost use Rattle.growing_history.specs.Entered.{HasEntered};
ghost use Rattle.layering.specs.Reached.{reached};
ghost use Rattle.join_eval.specs.Answers.{AnswersChanges, CostsOne, ListsExactly, TellsAtCost, TellsBetween, TellsChanges, TellsExactly, TellsValues};
ghost use Rattle.join_eval.specs.Moves.{Moves};
ghost use Rattle.base_reader.specs.Hiding.{HidesNoPair, HidesNoValue, without_hidden};
ghost use Rattle.base_reader.specs.Reaching.{AnswersKeys, is_known};

use crate::hiding::{hide_computed, hide_values};
use crate::reaching::{between, reached_in};
use crate::source::BaseSource;
use join_eval::{Between, Changed, Changes};
use join_types::{Change, Pair, keys_of};
use key_space::range::look_at;
use key_space::{Key, Range};
use out_of_memory::OutOfMemory;
use std::sync::ledger::Ledger;
use steps::Steps;

/// Those of the base pairs of a range after the first p entries that no output hides.
fn visible<S: BaseSource>(
    source: &mut S,
    p: u64,
    range: &Range,
    pairs: Vec<Pair>,
) -> Result<Vec<Pair>, OutOfMemory>
    requires within { p ≤ length (S.list source.old) }
    requires above { S.floor source.old ≤ p }
    requires bare { HidesNoPair (joins_of (take p (S.list source.old))) range.now pairs.items }
    ensures visible { IfOk result (λ left. left.items ≡ pairs_where (λ key. not (is_computed (joins_of (take p (S.list source.old))) key)) pairs.items) }
    ensures moves { Moves S.list S.floor S.went source.old source.new }
{
    let alloc = source.alloc();
    if let Some(joins) = source.joins_at_hand(p) {
        return hide_computed(alloc, joins, range, pairs);
    }
    let joins = source.make_joins(p)?;
    hide_computed(alloc, &joins, range, pairs)
}

/// These changes of a range, without the values at keys that an output holds after the first p entries.
fn visible_changes<S: BaseSource>(
    source: &mut S,
    p: u64,
    range: &Range,
    changes: Vec<Change>,
) -> Result<Vec<Change>, OutOfMemory>
    requires within { p ≤ length (S.list source.old) }
    requires above { S.floor source.old ≤ p }
    requires bare { HidesNoValue (joins_of (take p (S.list source.old))) range.now changes.items }
    ensures visible { IfOk result (λ left. left.items ≡ map (without_hidden (joins_of (take p (S.list source.old)))) changes.items) }
    ensures moves { Moves S.list S.floor S.went source.old source.new }
{
    let alloc = source.alloc();
    if let Some(joins) = source.joins_at_hand(p) {
        return hide_values(alloc, joins, range, changes);
    }
    let joins = source.make_joins(p)?;
    hide_values(alloc, &joins, range, changes)
}

/// Reads what stands in the range after the first p entries below a rank, which is 0: the base pairs that no output hides.
///
/// The steps are as many as the base pairs, and one.
pub fn lowest_pairs<S: BaseSource, L: Ledger>(
    source: &mut S,
    p: u64,
    range: &Range,
    rank: u8,
    steps: &mut Steps<L>,
) -> Result<Vec<Pair>, OutOfMemory>
    requires within { p ≤ length (S.list source.old) }
    requires above { S.floor source.old ≤ p }
    requires ranked { rank ≤ 0 }
    ensures exact { IfOk result (λ pairs. pairs.items ≡ pairs_within range.now (below (take p (S.list source.old)) rank)) }
    ensures moves { Moves S.list S.floor S.went source.old source.new }
    ensures entered { HasEntered (S.list source.new) }
    ensures counted { steps.old ≤ steps.new }
    ensures cost { IfOk result (λ pairs. steps.old + 1 + length pairs.items ≤ steps.new) }
    ensures bare { IsBareAt (S.list source.old) p range.now → IfOk result (λ pairs. steps.new ≡ steps.old + 1 + length pairs.items) }
    ensures spent { IfOk result (λ _. steps.new ≡ steps.old + 1 + length (pairs_within range.now (base_of (take p (S.list source.old))))) }
{
    look_at(range);
    let pairs = source.base_pairs(p, range, steps)?;
    visible(source, p, range, pairs)
}

/// Says what is so of the joins between the first q and the first p entries, for the range. It compares two numbers where the
/// source has the joins after p entries at hand and none is declared or dropped after the first q.
pub fn lowest_between<S: BaseSource>(
    source: &mut S,
    q: u64,
    p: u64,
    range: &Range,
) -> Result<Between, OutOfMemory>
    requires order { q ≤ p }
    requires within { p ≤ length (S.list source.old) }
    requires above { S.floor source.old ≤ q }
    ensures said { IfOk result (TellsBetween (S.list source.old) q p range.now) }
    ensures moves { Moves S.list S.floor S.went source.old source.new }
{
    if let Some(joins) = source.joins_at_hand(p) {
        return Ok(between(joins, q, range));
    }
    let joins = source.make_joins(p)?;
    Ok(between(&joins, q, range))
}

/// Lists the joins of a rank whose outputs the range reaches, after the first p entries, by the positions of their
/// declarations, in order. Linear in the joins, and in the bounds for each of the rank, beside what making the joins takes where
/// the source has them not at hand.
pub fn lowest_reached<S: BaseSource>(
    source: &mut S,
    p: u64,
    range: &Range,
    rank: u8,
) -> Result<Vec<u64>, OutOfMemory>
    requires within { p ≤ length (S.list source.old) }
    requires above { S.floor source.old ≤ p }
    ensures reached { IfOk result (λ ats. ats.items ≡ map (λ s. s.position) (reached range.now rank (joins_of (take p (S.list source.old))))) }
    ensures moves { Moves S.list S.floor S.went source.old source.new }
{
    let alloc = source.alloc();
    if let Some(joins) = source.joins_at_hand(p) {
        return reached_in(alloc, joins, rank, range);
    }
    let joins = source.make_joins(p)?;
    reached_in(alloc, &joins, rank, range)
}

/// What is answered where these keys were put or removed, and this is so of the joins.
fn known(keys: Vec<Key>, joins: Between) -> Changed
    ensures { AnswersKeys keys.items joins result }
{
    match joins {
        Between::Steady => Changed::Keys(keys),
        Between::Bare => Changed::Keys(keys),
        Between::Other => Changed::All,
    }
}

/// Whether it is known which keys changed, where this is so of the joins.
fn is_known(joins: Between) -> bool
    ensures { result ≡ is_known joins }
{
    match joins {
        Between::Steady => true,
        Between::Bare => true,
        Between::Other => false,
    }
}

/// Says what may have changed in the range between the first q and the first p entries below a rank, which is 0: the keys that
/// the entries between put or remove, where no join is declared or dropped between or the range is bare throughout, and
/// otherwise it is not known which.
///
/// The steps are as many as these keys, and one.
pub fn lowest_changed<S: BaseSource, L: Ledger>(
    source: &mut S,
    q: u64,
    p: u64,
    range: &Range,
    rank: u8,
    steps: &mut Steps<L>,
) -> Result<Changed, OutOfMemory>
    requires order { q ≤ p }
    requires within { p ≤ length (S.list source.old) }
    requires above { S.floor source.old ≤ q }
    requires ranked { rank ≤ 0 }
    ensures exact { IfOk result (AnswersChanges (S.list source.old) q p rank range.now) }
    ensures moves { Moves S.list S.floor S.went source.old source.new }
    ensures entered { HasEntered (S.list source.new) }
    ensures counted { steps.old ≤ steps.new }
    ensures cost { IfOk result (CostsOne steps.old steps.new) }
    ensures bare { IsBareThroughout (S.list source.old) q p range.now → IfOk result (ListsExactly (changed_keys q p range.now (S.list source.old))) }
    ensures bare_cost { IsBareThroughout (S.list source.old) q p range.now → IfOk result (λ _. steps.new ≡ steps.old + 1 + length (changed_keys q p range.now (S.list source.old))) }
{
    look_at(range);
    let changes = source.base_changes(q, p, range, steps)?;
    let joins = lowest_between(source, q, p, range)?;
    let keys = keys_of(source.alloc(), changes)?;
    Ok(known(keys, joins))
}

/// Says what may have changed in the range as `lowest_changed` does, and beside each key what stands there after the first p
/// entries: the value of its base pair, if there is one and no output hides it.
///
/// The steps are as many as these keys, and one.
pub fn lowest_changes<S: BaseSource, L: Ledger>(
    source: &mut S,
    q: u64,
    p: u64,
    range: &Range,
    rank: u8,
    steps: &mut Steps<L>,
) -> Result<Changes, OutOfMemory>
    requires order { q ≤ p }
    requires within { p ≤ length (S.list source.old) }
    requires above { S.floor source.old ≤ q }
    requires ranked { rank ≤ 0 }
    ensures exact { IfOk result (TellsChanges (S.list source.old) q p rank range.now) }
    ensures values { IfOk result (TellsValues (below (take p (S.list source.old)) rank)) }
    ensures moves { Moves S.list S.floor S.went source.old source.new }
    ensures entered { HasEntered (S.list source.new) }
    ensures counted { steps.old ≤ steps.new }
    ensures cost { IfOk result (TellsAtCost steps.old steps.new) }
    ensures bare { IsBareThroughout (S.list source.old) q p range.now → IfOk result (TellsExactly (changed_keys q p range.now (S.list source.old))) }
    ensures bare_cost { IsBareThroughout (S.list source.old) q p range.now → IfOk result (λ _. steps.new ≡ steps.old + 1 + length (changed_keys q p range.now (S.list source.old))) }
{
    look_at(range);
    let found = source.base_changes(q, p, range, steps)?;
    let joins = lowest_between(source, q, p, range)?;
    if !is_known(joins) {
        return Ok(Changes::Unlisted);
    }
    let changes = visible_changes(source, p, range, found)?;
    Ok(Changes::Listed(changes))
}
