// What a layer asks of who keeps ranges.
ghost use Rattle.std.specs.Prelude.{◌≡◌, ℕ, ◌+◌, ◌-◌, ◌≤◌, List, [], ◌∷◌, length, map, take, IfOk};
ghost use Rattle.semantics.specs.Texts.{Range as Bounds, pairs_within};
ghost use Rattle.semantics.specs.Joins.{Join as PlainJoin};
ghost use Rattle.semantics.specs.Histories.{IsPrefix, joins_of};
ghost use Rattle.semantics.specs.Outputs.{out};
ghost use Rattle.semantics.specs.States.{below};
ghost use Rattle.growing_history.specs.Entered.{HasEntered};
ghost use Rattle.layering.specs.Parts.{JoinTo};
ghost use Rattle.layering.specs.Reached.{reached};
ghost use Rattle.join_eval.specs.Answers.{TellsBetween};
ghost use Rattle.join_eval.specs.declared.reading.Changed.TheVariants.{All};
ghost use Rattle.join_eval.specs.Moves.{Moves};
ghost use Rattle.cell_slots.specs.Slots.{IsDeclared, IsOutput, IsReached, StandsAs};
ghost use Rattle.cell_slots.specs.Spending.{JoinsSpend};
ghost use Rattle.rank_layers.specs.Telling.{TellsJoin};

use crate::query::Query;
use join_eval::{Between, Changed, Reader};
use join_types::{Join, Pair};
use key_space::Range;
use out_of_memory::OutOfMemory;
use std::alloc::Global;
use std::sync::ledger::Ledger;
use steps::Steps;

/// Keeps ranges of the outputs of joins, for a layer that stands on a reader: it has one owner, or threads share it. A join is
/// named by the position of its declaration, and is of the reader's top rank.
///
/// What a call leaves of the reader beside its list is `left`, what a look at the joins leaves is `looked`, that it is not known
/// what changed in a part is `unknown`, and what reading costs and leaves is `spends`. That is put together from `covered`, what
/// covering a range leaves, and `took`, what reading a part of it costs and leaves. All are the implementing type's to say.
pub trait RangeCache<R: Reader> {
    /// A part of a range, with where it is kept, if it is.
    type Part: Drop;

    /// The part's range.
    ghost range_of: { Self.Part → Bounds };

    /// How work for joins of ranks below a rank leaves a reader, from before to after.
    ghost left: { ℕ → R → R → Type 0 };

    /// How a look at the joins leaves a reader.
    ghost looked: { R → R → Type 0 };

    /// That a range was covered by parts for the join that was declared at a position, with a rank, after p entries.
    ghost covered: { R → R → ℕ → ℕ → ℕ → Bounds → List Self.Part → Type 0 };

    /// That a part was read for the join that was declared at a position, with a rank, after p entries, with so many pairs and
    /// steps.
    ghost took: { R → R → ℕ → ℕ → ℕ → Self.Part → ℕ → ℕ → Type 0 };

    /// That what is kept of a part does not know what changed since a position in the output of the join that was declared at a
    /// position, with a rank, after p entries.
    ghost unknown: { R → R → ℕ → ℕ → ℕ → ℕ → Self.Part → Type 0 };

    /// That a range was read for the join that was declared at a position, with a rank, after p entries, with so many steps.
    ghost cost_one: { R → R → ℕ → ℕ → ℕ → Bounds → PlainJoin → ℕ → Type 0 };

    /// That a reader, from before to after, hands out its pairs at a position, over a range and below a rank, with so many
    /// steps.
    ghost spends: { R → R → ℕ → Bounds → ℕ → ℕ → Type 0 };

    /// Gives the allocator by which what is read and kept grows.
    fn alloc(&self) -> Global;

    /// Lists the joins of a rank whose outputs the range reaches, after the first p entries, in order of position.
    fn reached(
        &self,
        p: u64,
        range: &Range,
        rank: u8,
        reader: &mut R,
    ) -> Result<Vec<u64>, OutOfMemory>
        requires within { p ≤ length (R.list reader.old) }
        requires above { R.floor reader.old ≤ p }
        ensures reached { IfOk result (λ ats. ats.items ≡ map (λ s. s.position) (reached range.now rank (joins_of (take p (R.list reader.old))))) }
        ensures moves { Moves R.list R.floor looked reader.old reader.new };

    /// Says what is so of the joins between the first q and the first p entries, for the range.
    fn between(&self, q: u64, p: u64, range: &Range, reader: &mut R) -> Result<Between, OutOfMemory>
        requires order { q ≤ p }
        requires within { p ≤ length (R.list reader.old) }
        requires above { R.floor reader.old ≤ q }
        ensures said { IfOk result (TellsBetween (R.list reader.old) q p range.now) }
        ensures moves { Moves R.list R.floor looked reader.old reader.new };

    /// Gives the range, which reaches the join's output, in parts, in order, each with where it is kept, if it is. What is not
    /// kept yet may be kept from now on.
    fn cover(
        &self,
        query: Query,
        range: &Range,
        reader: &mut R,
    ) -> Result<Vec<Self::Part>, OutOfMemory>
        requires within { query.p ≤ length (R.list reader.old) }
        requires above { R.floor reader.old ≤ query.p }
        requires reached { IsReached (R.list reader.old) query.p query.at query.rank range.now }
        requires next { R.top ≡ query.rank }
        ensures parts { IfOk result (λ parts. JoinTo range.now (map range_of parts.items)) }
        ensures covered { IfOk result (λ parts. covered reader.old reader.new query.at query.rank query.p range.now parts.items) }
        ensures moves { Moves R.list R.floor (left (query.rank + 1)) reader.old reader.new };

    /// Gives the range in parts, in order, each with where it is kept, if it is.
    fn parts(&self, query: Query, range: &Range, reader: &R) -> Result<Vec<Self::Part>, OutOfMemory>
        ensures { IfOk result (λ parts. JoinTo range.now (map range_of parts.items)) };

    /// Reads what the join gives in the part.
    fn read<L: Ledger>(
        &self,
        query: Query,
        part: &Self::Part,
        reader: &mut R,
        steps: &mut Steps<L>,
    ) -> Result<Vec<Pair>, OutOfMemory>
        requires within { query.p ≤ length (R.list reader.old) }
        requires above { R.floor reader.old ≤ query.p }
        requires entered { HasEntered (R.list reader.old) }
        requires stands { (j : PlainJoin) × StandsAs (R.list reader.old) query.p query.at query.rank j }
        requires next { R.top ≡ query.rank }
        ensures output { IfOk result (λ pairs. IsOutput (R.list reader.old) query.p query.at query.rank (range_of part.now) pairs.items) }
        ensures moves { Moves R.list R.floor (left (query.rank + 1)) reader.old reader.new }
        ensures counted { steps.old ≤ steps.new }
        ensures cost { IfOk result (λ pairs. steps.old + 1 + length pairs.items ≤ steps.new) }
        ensures took { IfOk result (λ pairs. took reader.old reader.new query.at query.rank query.p part.now (length pairs.items) (steps.new - steps.old)) };

    /// Reads what the join gives in a range, as where nothing of it is kept.
    fn read_whole<L: Ledger>(
        &self,
        query: Query,
        range: &Range,
        reader: &mut R,
        steps: &mut Steps<L>,
    ) -> Result<Vec<Pair>, OutOfMemory>
        requires within { query.p ≤ length (R.list reader.old) }
        requires above { R.floor reader.old ≤ query.p }
        requires entered { HasEntered (R.list reader.old) }
        requires stands { (j : PlainJoin) × StandsAs (R.list reader.old) query.p query.at query.rank j }
        requires next { R.top ≡ query.rank }
        ensures output { IfOk result (λ pairs. IsOutput (R.list reader.old) query.p query.at query.rank range.now pairs.items) }
        ensures moves { Moves R.list R.floor (left (query.rank + 1)) reader.old reader.new }
        ensures counted { steps.old ≤ steps.new }
        ensures cost { IfOk result (λ pairs. steps.old + 1 + length pairs.items ≤ steps.new) };

    /// Gives a copy of the join. Linear in it.
    fn copy_join(&self, query: Query, reader: &mut R) -> Result<Join, OutOfMemory>
        requires within { query.p ≤ length (R.list reader.old) }
        requires above { R.floor reader.old ≤ query.p }
        requires stands { (j : PlainJoin) × StandsAs (R.list reader.old) query.p query.at query.rank j }
        ensures declared { IfOk result (IsDeclared (R.list reader.old) query.at) }
        ensures moves { Moves R.list R.floor looked reader.old reader.new };

    /// Says whether nothing is kept of the part, and reading it reads all of what the join reads first. No answer rests on it.
    fn reads_all(&self, join: &Join, part: &Self::Part) -> Result<bool, OutOfMemory>;

    /// Says what changed in the join's output in the part since a position, as what is kept of it knows. `All` comes where that
    /// is not known.
    fn changes_since<L: Ledger>(
        &self,
        query: Query,
        since: u64,
        part: &Self::Part,
        reader: &mut R,
        steps: &mut Steps<L>,
    ) -> Result<Changed, OutOfMemory>
        requires order { since ≤ query.p }
        requires within { query.p ≤ length (R.list reader.old) }
        requires above { R.floor reader.old ≤ query.p }
        requires entered { HasEntered (R.list reader.old) }
        requires stands { (j : PlainJoin) × StandsAs (R.list reader.old) query.p query.at query.rank j }
        requires next { R.top ≡ query.rank }
        ensures told { IfOk result (λ told. (j : PlainJoin) → StandsAs (R.list reader.old) query.p query.at query.rank j →
            TellsJoin (R.list reader.old) since query.p query.rank j (range_of part.now) told) }
        ensures unknown { IfOk result (λ told. told ≡ All → unknown reader.old reader.new query.at query.rank query.p since part.now) }
        ensures moves { Moves R.list R.floor (left (query.rank + 1)) reader.old reader.new }
        ensures counted { steps.old ≤ steps.new };

    /// A reader is as it was where nothing was called.
    ghost left_refl: { (rank : ℕ) (a : R) → left rank a a };

    /// What two calls leave, one after the other.
    ghost left_trans: { (rank : ℕ) (a b c : R) → left rank a b → left rank b c → left rank a c };

    /// What a call of the reader below leaves.
    ghost left_below: { (rank : ℕ) (a b : R) → R.top ≤ rank → R.went a b → left rank a b };

    /// What a look at the joins leaves.
    ghost left_looked: { (rank : ℕ) (a b : R) → looked a b → left rank a b };

    /// What is spent where one part was covered and read, and the join gives so many pairs in the range.
    ghost cost_of_part: { (a b c : R) (at rank p : ℕ) (range : Bounds) (part : Self.Part) (j : PlainJoin) (n m : ℕ) → p ≤ length (R.list a) → IsPrefix (R.list a) (R.list b) → StandsAs (R.list a) p at rank j →
        n ≡ length (pairs_within range (out j (below (take p (R.list a)) rank))) →
        covered a b at rank p range (part ∷ []) → took b c at rank p part n m → cost_one a c at rank p range j m };

    /// What is spent where none or several parts were covered.
    ghost cost_of_parts: { (a b c : R) (at rank p : ℕ) (range : Bounds) (parts : List Self.Part) (j : PlainJoin) (m : ℕ) → StandsAs (R.list a) p at rank j →
        covered a b at rank p range parts → (length parts ≡ 1 → ⊥) → cost_one a c at rank p range j m };

    /// What is spent below the next rank: what the reader below spends, and what the joins of the rank cost.
    ghost spends_next: { (a b c d : R) (p : ℕ) (range : Bounds) (rank n m k : ℕ) → k ≡ n + m → p ≤ length (R.list a) → IsPrefix (R.list a) (R.list c) → R.spends a b p range rank n → looked b c →
        JoinsSpend (λ x y at j added. cost_one x y at rank p range j added) c d (reached range rank (joins_of (take p (R.list c)))) m → spends a d p range (rank + 1) k };
}
