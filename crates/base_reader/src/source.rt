// Where a lowest reader takes base pairs and joins from.
ghost use Rattle.std.specs.Prelude.{◌≡◌, ℕ, ◌+◌, ◌≤◌, length, take, IfOk, IfSome, option_copied};
ghost use Rattle.semantics.specs.Texts.{pairs_within};
ghost use Rattle.semantics.specs.Histories.{History, base_of};
ghost use Rattle.growing_history.specs.Entered.{HasEntered};
ghost use Rattle.base_versions.specs.Valued.{base_changes};
ghost use Rattle.join_set.specs.Sets.{AreJoins};
ghost use Rattle.join_eval.specs.Moves.{Moves};

use join_set::JoinSet;
use join_types::{Change, Pair};
use key_space::Range;
use out_of_memory::OutOfMemory;
use std::alloc::Global;
use std::sync::ledger::Ledger;
use steps::Steps;

/// A list of entries, with the base pairs at each of its positions and the joins that stand there.
///
/// The list may grow in a call and keeps its beginning. Each of its entries entered at its place. No call changes the floor,
/// below which no position is read. What a call leaves of the source beside its list is `went`.
pub trait BaseSource {
    /// The list of entries.
    ghost list: { Self → History };

    /// The least position that is read at.
    ghost floor: { Self → ℕ };

    /// How a call leaves a source, from before to after.
    ghost went: { Self → Self → Type 0 };

    /// Gives the allocator of what is read.
    fn alloc(&self) -> Global;

    /// Reads the base pairs of the range after the first p entries, in the order of their keys.
    ///
    /// The steps are as many as the pairs, and one.
    fn base_pairs<L: Ledger>(
        &mut self,
        p: u64,
        range: &Range,
        steps: &mut Steps<L>,
    ) -> Result<Vec<Pair>, OutOfMemory>
        requires within { p ≤ length (list self.old) }
        requires above { floor self.old ≤ p }
        ensures exact { IfOk result (λ pairs. pairs.items ≡ pairs_within range.now (base_of (take p (list self.old)))) }
        ensures moves { Moves list floor went self.old self.new }
        ensures entered { HasEntered (list self.old) }
        ensures counted { steps.old ≤ steps.new }
        ensures cost { IfOk result (λ pairs. steps.new ≡ steps.old + 1 + length pairs.items) };

    /// Lists the keys of the range that are put or removed after the first q entries, up to the p-th, each with the value of its
    /// base pair after the first p, or none: in order, each once.
    ///
    /// The steps are as many as the keys, and one.
    fn base_changes<L: Ledger>(
        &mut self,
        q: u64,
        p: u64,
        range: &Range,
        steps: &mut Steps<L>,
    ) -> Result<Vec<Change>, OutOfMemory>
        requires order { q ≤ p }
        requires within { p ≤ length (list self.old) }
        requires above { floor self.old ≤ q }
        ensures exact { IfOk result (λ found. found.items ≡ base_changes q p range.now (list self.old)) }
        ensures moves { Moves list floor went self.old self.new }
        ensures entered { HasEntered (list self.old) }
        ensures counted { steps.old ≤ steps.new }
        ensures cost { IfOk result (λ found. steps.new ≡ steps.old + 1 + length found.items) };

    /// Lends the joins after the first p entries, where the source has them at hand. What they tell of dropped joins holds from the
    /// floor on. Constant.
    fn joins_at_hand(&self, p: u64) -> Option<&JoinSet>
        requires { p ≤ length (list self.now) }
        ensures { IfSome (option_copied result) (λ joins. AreJoins (floor self.now) joins (take p (list self.now))) };

    /// Makes the joins after the first p entries. What they tell of dropped joins holds from the floor on. Linear in the joins that
    /// stood at the floor or were declared later; each that stands then is compared with each.
    fn make_joins(&mut self, p: u64) -> Result<JoinSet, OutOfMemory>
        requires within { p ≤ length (list self.old) }
        requires above { floor self.old ≤ p }
        ensures joins { IfOk result (λ joins. AreJoins (floor self.old) joins (take p (list self.old))) }
        ensures moves { Moves list floor went self.old self.new };

    /// What two calls leave, one after the other.
    ghost went_trans: { (a b c : Self) → went a b → went b c → went a c };

    /// A source is as it was where nothing was called.
    ghost went_refl: { (a : Self) → went a a };
}
