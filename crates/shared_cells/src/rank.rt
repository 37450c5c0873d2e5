// Ranks as types, where threads share the history.
ghost use Rattle.std.specs.Prelude.{◌≡◌, ℕ, ◌+◌, ◌≤◌, length, take, IfOk};
ghost use Rattle.semantics.specs.Texts.{pairs_within};
ghost use Rattle.semantics.specs.States.{below};
ghost use Rattle.growing_history.specs.Changes.{changed_keys, IsBareAt, IsBareThroughout};
ghost use Rattle.growing_history.specs.Entered.{HasEntered};
ghost use Rattle.join_eval.specs.Answers.{AnswersChanges, ListsExactly, CostsOne, TellsAtCost, TellsChanges, TellsExactly, TellsValues};
ghost use Rattle.join_eval.specs.Moves.{Moves};

use crate::room::Room;
use base_shards::Naming;
use join_eval::{Changed, Changes};
use join_types::Pair;
use key_space::Range;
use out_of_memory::OutOfMemory;
use pq_io::Gate;
use shared_reader::Stacked;
use std::sync::Wait;
use std::sync::ledger::Ledger;
use steps::Steps;

/// A rank, as a type without values: it reads with the joins of the ranks below it, over any lowest reader, and keeps what they
/// give in the cells of a room.
///
/// The lowest reader is lent for each call.
pub trait Rank {
    /// The rank.
    ghost top: { ℕ };

    /// Gives the rank.
    fn top_rank() -> u8
        ensures { result ≡ top };

    /// Reads the pairs of the range after the first p entries, in the order of their keys, with the joins of ranks below `rank`.
    ///
    /// The steps are at least as many as the pairs, and one; exactly so many where the range is bare.
    fn pairs<N: Naming, W: Wait, G: Gate, S: Stacked<N>, L: Ledger>(
        room: &Room<'_, N, W, G>,
        lowest: &mut S,
        p: u64,
        range: &Range,
        rank: u8,
        steps: &mut Steps<L>,
    ) -> Result<Vec<Pair>, OutOfMemory>
        requires within { p ≤ length (S.list lowest.old) }
        requires above { S.floor lowest.old ≤ p }
        requires ranked { rank ≤ top }
        ensures exact { IfOk result (λ pairs. pairs.items ≡ pairs_within range.now (below (take p (S.list lowest.old)) rank)) }
        ensures moves { Moves S.list S.floor S.went lowest.old lowest.new }
        ensures entered { HasEntered (S.list lowest.new) }
        ensures counted { steps.old ≤ steps.new }
        ensures cost { IfOk result (λ pairs. steps.old + 1 + length pairs.items ≤ steps.new) }
        ensures bare { IsBareAt (S.list lowest.old) p range.now → IfOk result (λ pairs. steps.new ≡ steps.old + 1 + length pairs.items) };

    /// Says what may have changed in the range between the first q and the first p entries, with the joins of ranks below `rank`,
    /// as a reader's `changed` does.
    fn changed<N: Naming, W: Wait, G: Gate, S: Stacked<N>, L: Ledger>(
        room: &Room<'_, N, W, G>,
        lowest: &mut S,
        q: u64,
        p: u64,
        range: &Range,
        rank: u8,
        steps: &mut Steps<L>,
    ) -> Result<Changed, OutOfMemory>
        requires order { q ≤ p }
        requires within { p ≤ length (S.list lowest.old) }
        requires above { S.floor lowest.old ≤ q }
        requires ranked { rank ≤ top }
        ensures exact { IfOk result (AnswersChanges (S.list lowest.old) q p rank range.now) }
        ensures moves { Moves S.list S.floor S.went lowest.old lowest.new }
        ensures entered { HasEntered (S.list lowest.new) }
        ensures counted { steps.old ≤ steps.new }
        ensures cost { IfOk result (CostsOne steps.old steps.new) }
        ensures bare { IsBareThroughout (S.list lowest.old) q p range.now → IfOk result (ListsExactly (changed_keys q p range.now (S.list lowest.old))) }
        ensures bare_cost { IsBareThroughout (S.list lowest.old) q p range.now → IfOk result (λ _. steps.new ≡ steps.old + 1 + length (changed_keys q p range.now (S.list lowest.old))) };

    /// Says what may have changed in the range between the first q and the first p entries, with the joins of ranks below `rank`,
    /// and what stands at each listed key after the first p, as a reader's `changes` does.
    fn changes<N: Naming, W: Wait, G: Gate, S: Stacked<N>, L: Ledger>(
        room: &Room<'_, N, W, G>,
        lowest: &mut S,
        q: u64,
        p: u64,
        range: &Range,
        rank: u8,
        steps: &mut Steps<L>,
    ) -> Result<Changes, OutOfMemory>
        requires order { q ≤ p }
        requires within { p ≤ length (S.list lowest.old) }
        requires above { S.floor lowest.old ≤ q }
        requires ranked { rank ≤ top }
        ensures exact { IfOk result (TellsChanges (S.list lowest.old) q p rank range.now) }
        ensures values { IfOk result (TellsValues (below (take p (S.list lowest.old)) rank)) }
        ensures moves { Moves S.list S.floor S.went lowest.old lowest.new }
        ensures entered { HasEntered (S.list lowest.new) }
        ensures counted { steps.old ≤ steps.new }
        ensures cost { IfOk result (TellsAtCost steps.old steps.new) }
        ensures bare { IsBareThroughout (S.list lowest.old) q p range.now → IfOk result (TellsExactly (changed_keys q p range.now (S.list lowest.old))) }
        ensures bare_cost { IsBareThroughout (S.list lowest.old) q p range.now → IfOk result (λ _. steps.new ≡ steps.old + 1 + length (changed_keys q p range.now (S.list lowest.old))) };

    /// The rank is one that joins may have, or 8.
    ghost top_small: { top ≤ 8 };
}
