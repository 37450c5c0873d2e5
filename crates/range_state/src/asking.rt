// What a reader says of the ranges of needs.
ghost use Rattle.std.specs.Prelude.{◌≡◌, ◌+◌, ◌≤◌, ◌⊎◌, [], length, take, flat_map, option_copied, true, Any, IfOk, IfSome, IfNone, Some};
ghost use Rattle.std.specs.Option.{IsSomeAnd};
ghost use Rattle.std.specs.List.Sorted.{IsStrictlySortedBy};
ghost use Rattle.semantics.specs.Texts.{text_cmp};
ghost use Rattle.semantics.specs.States.{below};
ghost use Rattle.growing_history.specs.Changes.{changed_keys, IsBareThroughout};
ghost use Rattle.kept_ranges.specs.SoundLaws.{AreReportedBetween};
ghost use Rattle.join_eval.specs.Answers.{HaveValues, MayNotBeKnown, TellsAtCost, TellsChanges, TellsExactly, TellsValues, change_keys};
ghost use Rattle.join_eval.specs.Moves.{Moves};
ghost use Rattle.range_state.specs.Asking.{HaveRanges, IsQuiet, AreBareThroughout, LieInRanges, AreListed, asking_steps};

use crate::merging::merged_changes;
use join_eval::{Changes, Reader};
use join_rows::{Need, are_same_ranges};
use join_types::Change;
use key_space::Range;
use key_space::range::look_at;
use out_of_memory::OutOfMemory;
use std::alloc::Global;
use std::sync::ledger::Ledger;
use steps::Steps;

/// Looks at the range of each need.
fn look_at_ranges(needs: &[Need])
    ensures { HaveRanges needs.now }
{
    for need in needs {
        look_at(&need.range);
    }
}

/// Whether the range is the quiet one, if there is one. Linear in the bounds.
fn is_quiet(quiet: Option<&Range>, range: &Range) -> bool
    ensures { result ≡ true → option_copied quiet.entry ≡ Some range.now }
{
    match quiet {
        None => false,
        Some(quiet) => are_same_ranges(quiet, range),
    }
}

/// Asks what changed in the range and what stands there, and takes one step and no more where it is the quiet one, in which nothing
/// did.
fn ask<R: Reader, L: Ledger>(
    alloc: Global,
    quiet: Option<&Range>,
    range: &Range,
    rank: u8,
    q: u64,
    p: u64,
    reader: &mut R,
    steps: &mut Steps<L>,
) -> Result<Changes, OutOfMemory>
    requires order { q ≤ p }
    requires within { p ≤ length (R.list reader.old) }
    requires above { R.floor reader.old ≤ q }
    requires ranked { rank ≤ R.top }
    requires quiet { IfSome (option_copied quiet) (IsQuiet (R.list reader.old) q p rank) }
    ensures exact { IfOk result (TellsChanges (R.list reader.old) q p rank range.now) }
    ensures values { IfOk result (TellsValues (below (take p (R.list reader.old)) rank)) }
    ensures bare { IsBareThroughout (R.list reader.old) q p range.now → IfOk result (TellsExactly (changed_keys q p range.now (R.list reader.old))) }
    ensures bare_cost { IsBareThroughout (R.list reader.old) q p range.now → IfOk result (λ _. steps.new ≡ steps.old + 1 + length (changed_keys q p range.now (R.list reader.old))) }
    ensures moves { Moves R.list R.floor R.went reader.old reader.new }
    ensures counted { steps.old ≤ steps.new }
    ensures cost { IfOk result (TellsAtCost steps.old steps.new) }
{
    if is_quiet(quiet, range) {
        steps.count_call(0);
        return Ok(Changes::Listed(Vec::new(alloc)));
    }
    reader.changes(q, p, range, rank, steps)
}

/// The range that is known to be quiet after an answer: the one that was asked for, where no change is listed, and otherwise the
/// one before.
fn quiet_after<'a>(
    quiet: Option<&'a Range>,
    range: &'a Range,
    changes: &[Change],
) -> Option<&'a Range>
    ensures { (option_copied result ≡ option_copied quiet.entry) ⊎ ((changes.now ≡ []) × (option_copied result ≡ Some range.now)) }
{
    if changes.is_empty() {
        Some(range)
    } else {
        quiet
    }
}

/// Asks for each need what changed in its range, and puts the answers one after another; none where some answer is that it
/// is not known. It does not ask again for the last range in which nothing changed.
fn gather_answers<R: Reader, L: Ledger>(
    alloc: Global,
    needs: &[Need],
    rank: u8,
    q: u64,
    p: u64,
    reader: &mut R,
    steps: &mut Steps<L>,
) -> Result<Option<Vec<Change>>, OutOfMemory>
    requires order { q ≤ p }
    requires within { p ≤ length (R.list reader.old) }
    requires above { R.floor reader.old ≤ q }
    requires ranked { rank ≤ R.top }
    ensures inside { IfOk result (λ found. IfSome found (λ changes. LieInRanges needs.now (change_keys changes.items))) }
    ensures complete { IfOk result (λ found. IfSome found (λ changes. AreReportedBetween (R.list reader.old) q p rank needs.now (change_keys changes.items))) }
    ensures values { IfOk result (λ found. IfSome found (λ changes. HaveValues (below (take p (R.list reader.old)) rank) changes.items)) }
    ensures unknown { IfOk result (λ found. IfNone found (Any (λ need. MayNotBeKnown (R.list reader.old) q p rank need.range) needs.now)) }
    ensures bare { AreBareThroughout (R.list reader.old) q p needs.now → IfOk result (λ found. IsSomeAnd found (λ changes. change_keys changes.items ≡ flat_map (λ need. changed_keys q p need.range (R.list reader.old)) needs.now)) }
    ensures bare_cost { AreBareThroughout (R.list reader.old) q p needs.now → IfOk result (λ _. steps.new ≡ steps.old + asking_steps q p (R.list reader.old) needs.now) }
    ensures moves { Moves R.list R.floor R.went reader.old reader.new }
    ensures counted { steps.old ≤ steps.new }
    ensures least { IfOk result (λ found. IfSome found (λ _. steps.old + length needs.now ≤ steps.new)) }
{
    let mut answers = Vec::new(alloc);
    let mut quiet = None;
    for need in needs {
        match ask(alloc, quiet, &need.range, rank, q, p, reader, steps)? {
            Changes::Listed(mut changes) => {
                quiet = quiet_after(quiet, &need.range, changes.as_slice());
                answers.append(&mut changes)?;
            }
            Changes::Unlisted => return Ok(None),
        }
    }
    Ok(Some(answers))
}

/// Asks the reader for what changed in the range of each need from q to p: the keys of all answers, ascending, each once, each
/// with what stands there at p below the rank, or none; or none of it where some answer is that it is not known. That comes only
/// where the range of some need is not bare at some position from q to p, and either a join is declared or dropped between, or
/// the range meets the output of a join below the rank. At a key of a need's range that is not among the keys the same stands at
/// all positions from q to p. Where the ranges of all needs are bare from q to p, the keys are those in them that the entries
/// between put or remove.
///
/// It asks once for each need, but not again for the last range in which nothing changed: needs that follow one another are often
/// of one range. It sorts what is answered. The steps are those of the reader, and one for each need for which it does not ask:
/// where keys are handed out, one for each need at least; where the ranges are bare, one for each need and one for each changed key
/// of its range.
///
/// On `OutOfMemory` the reader may have gone on and steps may have been taken.
pub fn ask_needs<R: Reader, L: Ledger>(
    alloc: Global,
    needs: &[Need],
    rank: u8,
    q: u64,
    p: u64,
    reader: &mut R,
    steps: &mut Steps<L>,
) -> Result<Option<Vec<Change>>, OutOfMemory>
    requires order { q ≤ p }
    requires within { p ≤ length (R.list reader.old) }
    requires above { R.floor reader.old ≤ q }
    requires ranked { rank ≤ R.top }
    ensures ascending { IfOk result (λ found. IfSome found (λ changes. IsStrictlySortedBy text_cmp (change_keys changes.items))) }
    ensures inside { IfOk result (λ found. IfSome found (λ changes. LieInRanges needs.now (change_keys changes.items))) }
    ensures complete { IfOk result (λ found. IfSome found (λ changes. AreReportedBetween (R.list reader.old) q p rank needs.now (change_keys changes.items))) }
    ensures values { IfOk result (λ found. IfSome found (λ changes. HaveValues (below (take p (R.list reader.old)) rank) changes.items)) }
    ensures unknown { IfOk result (λ found. IfNone found (Any (λ need. MayNotBeKnown (R.list reader.old) q p rank need.range) needs.now)) }
    ensures bare { AreBareThroughout (R.list reader.old) q p needs.now → IfOk result (λ found. IsSomeAnd found (λ changes. AreListed q p (R.list reader.old) needs.now (change_keys changes.items))) }
    ensures bare_cost { AreBareThroughout (R.list reader.old) q p needs.now → IfOk result (λ _. steps.new ≡ steps.old + asking_steps q p (R.list reader.old) needs.now) }
    ensures ranges { HaveRanges needs.now }
    ensures moves { Moves R.list R.floor R.went reader.old reader.new }
    ensures counted { steps.old ≤ steps.new }
    ensures least { IfOk result (λ found. IfSome found (λ _. steps.old + length needs.now ≤ steps.new)) }
{
    look_at_ranges(needs);
    let Some(answers) = gather_answers(alloc, needs, rank, q, p, reader, steps)? else {
        return Ok(None);
    };
    let changes = merged_changes(answers)?;
    Ok(Some(changes))
}
