// What layers ask of the lowest reader.
ghost use Rattle.std.specs.Prelude.{◌≡◌, ℕ, ◌+◌, ◌-◌, ◌≤◌, Contains, List, length, map, take, slice_get, slice_set, true, MatchOption, IfOk, OnErr, Some, None};
ghost use Rattle.semantics.specs.Texts.{Range as Bounds};
ghost use Rattle.semantics.specs.Joins.{Join as PlainJoin, push};
ghost use Rattle.semantics.specs.Histories.{History, joins_of};
ghost use Rattle.key_ranges.specs.Ranges.{is_open};
ghost use Rattle.layering.specs.Reached.{reached};
ghost use Rattle.layering.specs.Parts.{IsWithin, JoinTo};
ghost use Rattle.join_eval.specs.Answers.{TellsBetween};
ghost use Rattle.kept_ranges.specs.Sound.{KeptRange};
ghost use Rattle.cell_slots.specs.Serving.{IsPast};
ghost use Rattle.cell_slots.specs.declared.slot.Slot.TheVariants.{Lent, Held};
ghost use Rattle.cell_slots.specs.Places.{LiesInPlace};
ghost use Rattle.cell_slots.specs.Slots.{Frame, Holdings, IsDeclared, IsReached, IsReadySlot, IsRightFor, MeetsNone, StandsAs, Takes, place_at, with_slot};
ghost use Rattle.cell_slots.specs.Spending.{CoversAlone, MayKeep, Reserves, Spends};

use crate::slot::Part;
use join_eval::{Between, Reader};
use join_types::Join;
use key_space::Range;
use out_of_memory::OutOfMemory;
use range_state::RangeState;

/// A reader over cells, from which the layers above borrow.
///
/// A join is named by the position of its declaration.
pub trait Cells: Reader {
    /// What the cells hold, and which were lent.
    ghost holdings: { Self → Holdings };

    /// Lists the joins of a rank whose outputs the range reaches, after the first p entries, in order of position.
    fn reached(&mut self, p: u64, range: &Range, rank: u8) -> Result<Vec<u64>, OutOfMemory>
        requires { p ≤ length (Self.list self.old) }
        ensures reached { IfOk result (λ ats. ats.items ≡ map (λ s. s.position) (reached range.now rank (joins_of (take p (Self.list self.old))))) }
        ensures same { self.new ≡ self.old };

    /// Says what is so of the joins between the first q and the first p entries, for the range.
    fn between(&mut self, q: u64, p: u64, range: &Range) -> Result<Between, OutOfMemory>
        requires order { q ≤ p }
        requires within { p ≤ length (Self.list self.old) }
        ensures said { IfOk result (TellsBetween (Self.list self.old) q p range.now) }
        ensures same { self.new ≡ self.old };

    /// A copy of the join that was declared at a position.
    fn join_at(&self, at: u64) -> Result<Join, OutOfMemory>
        requires { (j : PlainJoin) × IsDeclared (Self.list self.now) at j }
        ensures { IfOk result (IsDeclared (Self.list self.now) at) };

    /// The range in parts, in order, each with the cell in whose place for the join it lies, where it lies in one. One without a
    /// cell meets no such place.
    fn parts(&self, at: u64, range: &Range) -> Result<Vec<Part>, OutOfMemory>
        ensures join { IfOk result (λ parts. JoinTo range.now (map (λ part. part.range) parts.items)) }
        ensures kept { IfOk result (λ parts. (id : ℕ) (part : Bounds) → Contains parts.items (record { range = part; cell = Some id }) → LiesInPlace (place_at (holdings self.now).slots) id at part) }
        ensures gaps { IfOk result (λ parts. (part : Bounds) → Contains parts.items (record { range = part; cell = None }) → MeetsNone (holdings self.now).slots at part) };

    /// The range, which reaches the join's output, in parts, in order, each with the cell that holds it, where one does. What is
    /// not empty and lies in one cell's place is one part, and no cell changes. For a push join the gaps between what is held are
    /// reserved, unless there are very many parts: the lowest free cell holds each of them from now on, while there is one, with
    /// nothing kept yet. For a pull join no cell changes.
    fn cover(&mut self, at: u64, rank: u8, p: u64, range: &Range) -> Result<Vec<Part>, OutOfMemory>
        requires within { p ≤ length (Self.list self.old) }
        requires reached { IsReached (Self.list self.old) p at rank range.now }
        ensures parts { IfOk result (λ parts. JoinTo range.now (map (λ part. part.range) parts.items)) }
        ensures alone { IfOk result (λ parts. (id : ℕ) → is_open range.now ≡ true → LiesInPlace (place_at (holdings self.old).slots) id at range.now → CoversAlone (holdings self.old) (holdings self.new) id range.now parts.items) }
        ensures ranked { (id : ℕ) (s : KeptRange) → IsReadySlot (holdings self.old).slots id at p range.now s → s.rank ≡ rank }
        ensures reserved { IfOk result (λ parts. (j : PlainJoin) → StandsAs (Self.list self.old) p at rank j → is_open range.now ≡ true → MayKeep (holdings self.old).slots at j range.now →
            Reserves (holdings self.old) (holdings self.new) at rank j range.now parts.items) }
        ensures pulled { (j : PlainJoin) → StandsAs (Self.list self.old) p at rank j → (j.kind ≡ push → ⊥) → holdings self.new ≡ holdings self.old }
        ensures frame { Frame 0 (holdings self.old) (holdings self.new) }
        ensures list { Self.list self.new ≡ Self.list self.old }
        ensures same_floor { Self.floor self.new ≡ Self.floor self.old };

    /// Takes the kept range out of a cell, whose slot keeps its place, where the cell still holds the part for this join and
    /// does not stand past p; otherwise none. Where it was kept while the join had a lesser rank, it is made anew with this
    /// one, and nothing is kept for it yet. The cell is used.
    fn lend(
        &mut self,
        id: u32,
        at: u64,
        rank: u8,
        p: u64,
        part: &Range,
    ) -> Result<Option<RangeState>, OutOfMemory>
        requires within { p ≤ length (Self.list self.old) }
        requires stands { (j : PlainJoin) × StandsAs (Self.list self.old) p at rank j }
        ensures taken { IfOk result (λ found. MatchOption found (holdings self.new ≡ holdings self.old)
            (Takes (Self.list self.old) (Self.floor self.old) (holdings self.old) (holdings self.new) id at rank p part.now)) }
        ensures held { IfOk result (λ found. (s : KeptRange) → slice_get (holdings self.old).slots id ≡ Some (Held at s) → s.rank ≡ rank → (IsPast p s → ⊥) → IsWithin part.now s.range → found ≡ Some s) }
        ensures err { OnErr result (holdings self.new ≡ holdings self.old) }
        ensures list { Self.list self.new ≡ Self.list self.old }
        ensures same_floor { Self.floor self.new ≡ Self.floor self.old };

    /// Puts a kept range back into the slot that keeps its place.
    fn give_back(&mut self, id: u32, at: u64, state: RangeState)
        requires lent { slice_get (holdings self.old).slots id ≡ Some (Lent at state.range) }
        requires right { IsRightFor (Self.list self.old) at state }
        ensures held { holdings self.new ≡ with_slot id (Held at state) (holdings self.old) }
        ensures list { Self.list self.new ≡ Self.list self.old }
        ensures same_floor { Self.floor self.new ≡ Self.floor self.old };

    /// How a call of the reader leaves the cells.
    ghost went_frame: { (a b : Self) → Self.went a b → Frame 0 (holdings a) (holdings b) };

    /// What reading costs, and what it leaves in the cells.
    ghost spends_so: { (a b : Self) (p : ℕ) (range : Bounds) (rank added : ℕ) → Self.spends a b p range rank added → Spends (Self.list a) (holdings a) (holdings b) p range rank added };
}
