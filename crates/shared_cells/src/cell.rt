// What lies behind the lock of a cell.
ghost use Rattle.std.specs.Prelude.{◌≡◌, ℕ, ◌+◌, ◌<◌, ◌≤◌, ◌⊎◌, [], length, take, false, true, IfErr, IfOk, IfSome, MatchOption, OnErr, OnOk, Some, None};
ghost use Rattle.std.specs.Option.{IsSomeAnd};
ghost use Rattle.semantics.specs.Joins.{Join as PlainJoin};
ghost use Rattle.growing_history.specs.Entered.{HasEntered};
ghost use Rattle.join_eval.specs.Bounds.{OnTooWide};
ghost use Rattle.join_eval.specs.Moves.{Moves};
ghost use Rattle.kept_ranges.specs.Sound.{KeptRange};
ghost use Rattle.range_state.specs.Held.{forgotten};
ghost use Rattle.range_state.specs.Ready.{StandsAt, pending_meets};
ghost use Rattle.range_state.specs.Since.{AnswersSince, told_count};
ghost use Rattle.range_state.specs.Work.{advance_steps, TouchesLittle};
ghost use Rattle.cell_slots.specs.Serving.{CountsFill, CountsForward, CountsReach, HasTooMany, IsCaughtUp, IsPast, StandsFrom, WasAdvanced, WasMended};
ghost use Rattle.cell_slots.specs.Slots.{IsOutput, IsRankAt, IsRightFor, StandsAs};
ghost use Rattle.rank_layers.specs.Telling.{TellsJoin};
ghost use Rattle.shared_cells.specs.Advancing.{AdvancesCell, CanAdvance, StandsBare};
ghost use Rattle.shared_cells.specs.Cells.{CanBeLent, CanServe, HasSamePlace, IsHeldOrEmpty, IsHeldOrStandsAt, IsLentFor, IsReadyCell, IsRightIn, IsWideCell};
ghost use Rattle.shared_cells.specs.Cells.{KeepsWithin};

use crate::advancing::advance_to;
use crate::ranked_join::RankedJoin;
use base_shards::Naming;
use cell_slots::{changes_since, is_past, serve_up_to, stands_from};
use join_eval::{Changed, KeepFault, NeedBound, TooMany};
use join_types::Pair;
use key_space::Range;
use out_of_memory::OutOfMemory;
use pq_io::Gate;
use range_state::RangeState;
use rank_layers::Query;
use shared_reader::followed::is_within;
use shared_reader::{Followed, Stacked};
use std::alloc::Global;
use std::convert::Infallible;
use std::marker::{Model, PhantomData};
use std::sync::ledger::Ledger;
use steps::Steps;
use write_history::Pass;

/// A cell for a range of the output of a join while it has one rank: what is kept of it, and a pass. What is kept is kept with
/// that rank, and is right for what the pass has seen: that is true whenever the lock is free. The cell is for this rank of
/// this join and for this range as long as there is the cell. So whoever holds its lock and works on it reads joins of ranks
/// below the cell's, at whichever position.
#[derive(Drop)]
pub struct Cell<N: Naming> {
    at: u64,
    rank: u8,
    range: Range,
    held: Option<RangeState>,
    pass: Pass,
    followed: Followed,
    of: PhantomData<N>,
}

impl<N: Naming> Model for Cell<N> {
    ghost use Rattle.shared_cells.specs.Cells.{CellView, IsCell};

    ghost Value = { CellView };

    ghost view = { λ c. record { at = c.at; rank = c.rank; range = c.range; held = c.held; pass = c.pass } };

    ghost invariant = { λ c. IsCell N.history c.at c.rank c.range c.held c.pass };
}

impl<N: Naming> Cell<N> {
    /// Makes a cell with a pass, for a range of the output of a join while it has its rank. Nothing is kept yet, and the cell
    /// follows no range. Nothing is allocated.
    pub fn new(alloc: Global, join: RankedJoin, range: Range, pass: Pass) -> Cell<N>
        requires { pass.history ≡ N.history }
        ensures at { result.at ≡ join.at }
        ensures rank { result.rank ≡ join.rank }
        ensures range { result.range ≡ range }
        ensures held { result.held ≡ None }
        ensures pass { result.pass ≡ pass }
    {
        Cell {
            at: join.at,
            rank: join.rank,
            range,
            held: None,
            pass,
            followed: Followed::new(alloc),
            of: PhantomData,
        }
    }

    /// Gives the pass; what is kept is let go.
    pub fn into_pass(self) -> Pass
        ensures pass { result ≡ self.pass }
        ensures same_history { result.history ≡ N.history }
    {
        self.pass
    }

    /// Gives the position of its join's declaration.
    pub fn at(&self) -> u64
        ensures { result ≡ self.now.at }
    {
        self.at
    }

    /// Tells where what is kept stands: after how many entries. None where nothing is kept.
    pub fn position(&self) -> Option<u64>
        ensures position { MatchOption self.now.held (result ≡ None) (λ s. result ≡ s.position) }
        ensures within { IfSome result (λ q. q ≤ length self.now.pass.view) }
    {
        match &self.held {
            Some(state) => state.position(),
            None => None,
        }
    }

    /// Ends the work on the cell: under its number it follows the ranges of base pairs that the reader noted since so many were
    /// noted, or none of them where it is not said since when.
    pub fn follow<R: Stacked<N>>(&mut self, id: u32, since: Option<usize>, reader: &mut R)
        ensures same { self.new ≡ self.old }
        ensures reader { reader.new ≡ reader.old }
    {
        reader.follow_noted(id, since, &mut self.followed);
    }

    /// Tells how many rows are kept.
    pub fn rows(&self) -> u64
        ensures { MatchOption self.now.held (result ≡ 0) (λ s. result ≡ length s.kept.rows) }
    {
        match &self.held {
            Some(state) => state.rows(),
            None => 0,
        }
    }

    /// Says whether what is kept stands past a position.
    fn is_past(&self, p: u64) -> bool
        ensures yes { result ≡ true → IsSomeAnd self.now.held (IsPast p) }
        ensures no { result ≡ false → IfSome self.now.held (λ s. IsPast p s → ⊥) }
    {
        match &self.held {
            Some(state) => is_past(state, p),
            None => false,
        }
    }

    /// Says whether it is for the join that is asked for and for its rank, for a range that has the whole part, and keeps nothing
    /// that stands past the position.
    fn can_serve(&self, query: Query, part: &Range) -> bool
        ensures yes { result ≡ true → CanServe self.now query.at query.rank query.p part.now }
        ensures no { CanServe self.now query.at query.rank query.p part.now → result ≡ true }
    {
        self.at == query.at
            && self.rank == query.rank
            && is_within(part, &self.range)
            && !self.is_past(query.p)
    }

    /// Lets the pass and the reader see what either has seen.
    fn meet<R: Stacked<N>>(&mut self, reader: &mut R)
        ensures held { self.new.held ≡ self.old.held }
        ensures same_place { HasSamePlace self.old self.new }
        ensures met { self.new.pass.view ≡ R.list reader.new }
        ensures entered { HasEntered (R.list reader.new) }
        ensures moves { Moves R.list R.floor R.went reader.old reader.new }
    {
        reader.meet(&mut self.pass);
    }

    /// Makes what keeps nothing yet of the cell's range, for its join, which stands after p entries, and its rank. The pass and
    /// the reader see what either has seen.
    fn begin<R: Stacked<N>>(
        &mut self,
        alloc: Global,
        p: u64,
        reader: &mut R,
    ) -> Result<RangeState, OutOfMemory>
        requires within { p ≤ length (R.list reader.old) }
        requires above { R.floor reader.old ≤ p }
        requires stands { (rank : ℕ) × (j : PlainJoin) × StandsAs (R.list reader.old) p self.old.at rank j }
        ensures right { IfOk result (IsRightIn self.new.at self.new.rank self.new.range self.new.pass) }
        ensures fresh { IfOk result (λ state. state.position ≡ None) }
        ensures empty { IfOk result (λ state. state.kept.needs ≡ []) }
        ensures held { self.new.held ≡ self.old.held }
        ensures same_place { HasSamePlace self.old self.new }
        ensures met { self.new.pass.view ≡ R.list reader.new }
        ensures entered { HasEntered (R.list reader.new) }
        ensures moves { Moves R.list R.floor R.went reader.old reader.new }
    {
        let join = reader.join_at(p, self.at);
        let range = self.range.copy();
        let rank = self.rank;
        self.meet(reader);
        Ok(RangeState::new(alloc, join?, rank, range?))
    }

    /// Says whether it is for this rank. Where none is given, it is not.
    fn is_for(&self, rank: Option<u8>) -> bool
        ensures yes { result ≡ true → rank ≡ Some self.now.rank }
        ensures no { rank ≡ Some self.now.rank → result ≡ true }
    {
        rank == Some(self.rank)
    }

    /// Takes out what is kept: nothing is kept then.
    fn take_held(&mut self) -> Option<RangeState>
        ensures taken { result ≡ self.old.held }
        ensures right { IfSome result (IsRightIn self.new.at self.new.rank self.new.range self.new.pass) }
        ensures left { self.new.held ≡ None }
        ensures pass { self.new.pass ≡ self.old.pass }
        ensures same_place { HasSamePlace self.old self.new }
    {
        self.held.take()
    }

    /// Takes out what is kept, where it does not stand below a floor; what does is let go. Nothing is kept then.
    fn take_from(&mut self, floor: u64) -> Option<RangeState>
        ensures taken { IfSome self.old.held (StandsFrom floor) → result ≡ self.old.held }
        ensures some { IfSome result (λ s. self.old.held ≡ Some s) }
        ensures from { IfSome result (StandsFrom floor) }
        ensures right { IfSome result (IsRightIn self.new.at self.new.rank self.new.range self.new.pass) }
        ensures left { self.new.held ≡ None }
        ensures pass { self.new.pass ≡ self.old.pass }
        ensures same_place { HasSamePlace self.old self.new }
    {
        let state = self.take_held()?;
        if stands_from(&state, floor) {
            return Some(state);
        }
        None
    }

    /// Takes out what is kept, to read it over a part. None exactly where the cell cannot serve the part at the position: then
    /// what is kept stays. Where nothing is kept, or what stands below the reader's floor, what is given keeps nothing yet. The
    /// pass and the reader see what either has seen.
    ///
    /// On `OutOfMemory` nothing is kept.
    pub(crate) fn lend<R: Stacked<N>>(
        &mut self,
        alloc: Global,
        query: Query,
        part: &Range,
        reader: &mut R,
    ) -> Result<Option<RangeState>, OutOfMemory>
        requires within { query.p ≤ length (R.list reader.old) }
        requires above { R.floor reader.old ≤ query.p }
        requires stands { (j : PlainJoin) × StandsAs (R.list reader.old) query.p query.at query.rank j }
        ensures lent { IfOk result (λ found. IfSome found (IsLentFor self.new query.at query.rank query.p part.now)) }
        ensures whose { IfOk result (λ found. IfSome found (IsHeldOrEmpty self.old.held)) }
        ensures from { IfOk result (λ found. IfSome found (StandsFrom (R.floor reader.new))) }
        ensures kept { (s : KeptRange) → CanBeLent self.old query.at query.rank query.p (R.floor reader.old) part.now s → IfOk result (λ found. found ≡ Some s) }
        ensures served { CanServe self.old query.at query.rank query.p part.now → IfOk result (λ found. found ≡ None → ⊥) }
        ensures none { (CanServe self.old query.at query.rank query.p part.now → ⊥) → IfOk result (λ found. found ≡ None) }
        ensures left { (CanServe self.old query.at query.rank query.p part.now → ⊥) → self.new.held ≡ self.old.held }
        ensures err { OnErr result (self.new.held ≡ None) }
        ensures ready { IsReadyCell self.old query.at query.rank query.p part.now → IfOk result (λ found. found ≡ self.old.held) }
        ensures same_place { HasSamePlace self.old self.new }
        ensures met { self.new.pass.view ≡ R.list reader.new }
        ensures entered { HasEntered (R.list reader.new) }
        ensures moves { Moves R.list R.floor R.went reader.old reader.new }
    {
        self.meet(reader);
        if !self.can_serve(query, part) {
            return Ok(None);
        }
        if let Some(state) = self.take_from(reader.least_position()) {
            return Ok(Some(state));
        }
        let state = self.begin(alloc, query.p, reader)?;
        Ok(Some(state))
    }

    /// Keeps what was taken out. The pass and the reader see what either has seen.
    pub(crate) fn give_back<R: Stacked<N>>(&mut self, state: RangeState, reader: &mut R)
        requires right { IsRightFor (R.list reader.old) self.old.at state }
        requires ranked { state.rank ≡ self.old.rank }
        requires just { state.range ≡ self.old.range }
        ensures held { self.new.held ≡ Some state }
        ensures same_place { HasSamePlace self.old self.new }
        ensures met { self.new.pass.view ≡ R.list reader.new }
        ensures moves { Moves R.list R.floor R.went reader.old reader.new }
    {
        reader.meet(&mut self.pass);
        self.held = Some(state);
    }

    /// Gives what the join gives in a part after p entries, from what is kept. None, and then what is kept stays, exactly where
    /// the cell is for another join or for another rank of it or has not the whole part, and where what is kept stands past p.
    /// Where nothing is kept the cell's whole range is filled, and so where it stands below the reader's floor: then it is let go
    /// first; where it stands below p it is advanced, and where something pending meets the part it is mended there. The gate is
    /// passed before a fill and before a mend.
    ///
    /// It keeps no more than `most` needs, if it kept no more before. What would have more once it is brought there and mended is let
    /// go and filled. Where filling takes more, nothing is kept, and what was found is given all the same; no more than `most` are
    /// held meanwhile.
    ///
    /// The cell's pass and the reader see what either has seen. Where the cell can be read over the part at once, it takes one
    /// step and one for each pair, and what it keeps stays as it is; where it gave pairs, it can be so read afterwards, or its range
    /// takes too many needs. Where what it keeps stands from the floor on, below p with bare ranges, or at p with something pending
    /// that meets the part, it is not filled again unless it would have more than `most` needs, and takes these steps and no more
    /// than those of an advance and a mend. What it fills and what it advances it counts: where it serves, it takes beside one step
    /// and one for each pair what filling takes, or, where what it keeps stands below p, from the floor on, one for each of its
    /// needs at least. Where it cannot serve, it takes no step, so that the reader reads nothing below a rank that is not the cell's.
    ///
    /// On `OutOfMemory` what is kept is as it was, or stands at p, or nothing is kept.
    pub fn serve<R: Stacked<N>, G: Gate, L: Ledger>(
        &mut self,
        alloc: Global,
        query: Query,
        part: &Range,
        most: u64,
        gate: &G,
        reader: &mut R,
        steps: &mut Steps<L>,
    ) -> Result<Option<Vec<Pair>>, OutOfMemory>
        requires within { query.p ≤ length (R.list reader.old) }
        requires above { R.floor reader.old ≤ query.p }
        requires stands { (j : PlainJoin) × StandsAs (R.list reader.old) query.p query.at query.rank j }
        requires ranked { query.rank ≤ R.top }
        ensures output { IfOk result (λ found. IfSome found (λ pairs. IsOutput (R.list reader.old) query.p query.at query.rank part.now pairs.items)) }
        ensures served { CanServe self.old query.at query.rank query.p part.now → IfOk result (λ found. found ≡ None → ⊥) }
        ensures none { (CanServe self.old query.at query.rank query.p part.now → ⊥) → IfOk result (λ found. found ≡ None) }
        ensures left { (CanServe self.old query.at query.rank query.p part.now → ⊥) → self.new.held ≡ self.old.held }
        ensures idle { (CanServe self.old query.at query.rank query.p part.now → ⊥) → steps.new ≡ steps.old }
        ensures still { IsReadyCell self.old query.at query.rank query.p part.now → OnOk result (self.new.held ≡ self.old.held) }
        ensures few { KeepsWithin most self.old.held → OnOk result (KeepsWithin most self.new.held) }
        ensures err { OnErr result (IsHeldOrStandsAt query.p self.old.held self.new.held) }
        ensures ready { IfOk result (λ found. IfSome found (λ _. IsReadyCell self.new query.at query.rank query.p part.now ⊎ IsWideCell most (R.list reader.old) query.p self.new)) }
        ensures same_place { HasSamePlace self.old self.new }
        ensures met { self.new.pass.view ≡ R.list reader.new }
        ensures moves { Moves R.list R.floor R.went reader.old reader.new }
        ensures counted { steps.old ≤ steps.new }
        ensures cost { IfOk result (λ found. IfSome found (λ pairs. steps.old + 1 + length pairs.items ≤ steps.new)) }
        ensures least { (s : KeptRange) → CanBeLent self.old query.at query.rank query.p (R.floor reader.old) part.now s →
            IfOk result (λ found. IfSome found (λ pairs. CountsReach (R.list reader.old) query.p s (steps.old + 1 + length pairs.items) steps.new)) }
        ensures least_filled { (j : PlainJoin) → StandsAs (R.list reader.old) query.p query.at query.rank j → IfSome self.old.held (λ s. StandsFrom (R.floor reader.old) s → ⊥) →
            IfOk result (λ found. IfSome found (λ pairs. CountsFill (R.list reader.old) query.p (forgotten j query.rank self.old.range) (steps.old + 1 + length pairs.items) steps.new)) }
        ensures at_once { IsReadyCell self.old query.at query.rank query.p part.now → IfOk result (λ found. IsSomeAnd found (λ pairs. steps.new ≡ steps.old + 1 + length pairs.items)) }
        ensures behind { (s : KeptRange) (q : ℕ) → CanBeLent self.old query.at query.rank query.p (R.floor reader.old) part.now s → StandsBare (R.list reader.old) q query.p s →
            IfOk result (λ found. IfSome found (λ pairs. IsSomeAnd self.new.held (λ after. WasAdvanced (R.list reader.old) q query.p part.now s after (steps.old + 1 + length pairs.items) steps.new)
            ⊎ HasTooMany (Some most) (R.list reader.old) query.p part.now s)) }
        ensures pending { (s : KeptRange) → CanBeLent self.old query.at query.rank query.p (R.floor reader.old) part.now s → StandsAt query.p s → pending_meets s part.now ≡ true →
            IfOk result (λ found. IfSome found (λ pairs. IsSomeAnd self.new.held (λ after. WasMended (R.list reader.old) query.p part.now s after (steps.old + 1 + length pairs.items) steps.new)
            ⊎ HasTooMany (Some most) (R.list reader.old) query.p part.now s)) }
    {
        let Some(state) = self.lend(alloc, query, part, reader)? else {
            return Ok(None);
        };
        let mut state = state;
        let read = serve_up_to(&mut state, query.p, part, most, gate, reader, steps);
        self.give_back(state, reader);
        Ok(Some(read?))
    }

    /// Tells what changed in the join's output in a part between two positions, as what is kept says: it is advanced to the later
    /// one where it stands below; where it stands there already, or is forgotten, it is left as it is. Then `All` comes exactly
    /// where it does not know, as `RangeState::changed_since` says. `All` may also come where the cell is for another join or for
    /// another rank of it or has not the whole part, and where what is kept stands past the later position: then it stays, and no
    /// step is taken. It comes too where nothing is kept, and where it stands below the reader's floor: then it is let go.
    ///
    /// The cell's pass and the reader see what either has seen. Where what is kept stands from the floor on, below the later
    /// position with bare ranges, what no changed key touches is left, and it takes no more steps than an advance, one step more
    /// and one for each key that it lists. Where it stands below, from the floor on, it takes beside these one step at least for each
    /// need, or what filling takes.
    ///
    /// On a fault what is kept is as it was, or stands at the later position, or nothing is kept. `TooWide` comes only where the
    /// cell's range is filled instead of advanced and that takes more than `most` needs; then nothing is kept. Where it kept no more
    /// needs, it keeps no more afterwards.
    pub fn changes_since<R: Stacked<N>, L: Ledger>(
        &mut self,
        alloc: Global,
        query: Query,
        since: u64,
        part: &Range,
        most: u64,
        reader: &mut R,
        steps: &mut Steps<L>,
    ) -> Result<Changed, KeepFault<TooMany>>
        requires order { since ≤ query.p }
        requires within { query.p ≤ length (R.list reader.old) }
        requires above { R.floor reader.old ≤ query.p }
        requires stands { (j : PlainJoin) × StandsAs (R.list reader.old) query.p query.at query.rank j }
        requires ranked { query.rank ≤ R.top }
        ensures told { IfOk result (λ told. (j : PlainJoin) → StandsAs (R.list reader.old) query.p query.at query.rank j →
            TellsJoin (R.list reader.old) since query.p query.rank j part.now told) }
        ensures advanced { (s : KeptRange) → CanBeLent self.old query.at query.rank query.p (R.floor reader.old) part.now s → OnOk result (IsSomeAnd self.new.held (IsCaughtUp query.p s)) }
        ensures since { (s : KeptRange) → CanBeLent self.old query.at query.rank query.p (R.floor reader.old) part.now s →
            IfOk result (λ told. IsSomeAnd self.new.held (λ after. AnswersSince since part.now after told)) }
        ensures little { (s : KeptRange) (q : ℕ) → CanBeLent self.old query.at query.rank query.p (R.floor reader.old) part.now s → StandsBare (R.list reader.old) q query.p s →
            OnOk result (IsSomeAnd self.new.held (TouchesLittle (R.list reader.old) q query.p s)) }
        ensures few { KeepsWithin most self.old.held → OnOk result (KeepsWithin most self.new.held) }
        ensures err { OnErr result (IsHeldOrStandsAt query.p self.old.held self.new.held) }
        ensures wide { IfErr result (OnTooWide (IsWideCell most (R.list reader.old) query.p self.new)) }
        ensures known { (s : KeptRange) (q : ℕ) → CanBeLent self.old query.at query.rank query.p (R.floor reader.old) part.now s → StandsBare (R.list reader.old) q query.p s → IfErr result (OnTooWide ⊥) }
        ensures left { (CanServe self.old query.at query.rank query.p part.now → ⊥) → self.new.held ≡ self.old.held }
        ensures idle { (CanServe self.old query.at query.rank query.p part.now → ⊥) → steps.new ≡ steps.old }
        ensures same_place { HasSamePlace self.old self.new }
        ensures met { self.new.pass.view ≡ R.list reader.new }
        ensures moves { Moves R.list R.floor R.went reader.old reader.new }
        ensures counted { steps.old ≤ steps.new }
        ensures least { (s : KeptRange) (q : ℕ) → CanBeLent self.old query.at query.rank query.p (R.floor reader.old) part.now s → StandsAt q s → q < query.p →
            IfOk result (λ told. CountsForward (R.list reader.old) query.p s (steps.old + 1 + told_count told) steps.new) }
        ensures cost { (s : KeptRange) (q : ℕ) → CanBeLent self.old query.at query.rank query.p (R.floor reader.old) part.now s → StandsBare (R.list reader.old) q query.p s →
            IfOk result (λ told. steps.new ≤ steps.old + advance_steps (R.list reader.old) q query.p s.kept.needs + 1 + told_count told) }
    {
        let Some(state) = self.lend(alloc, query, part, reader)? else {
            return Ok(Changed::All);
        };
        let mut state = state;
        let bound: NeedBound<TooMany, Infallible> = NeedBound::EndsPast(most, TooMany);
        let told = changes_since(&mut state, since, query.p, part, bound, reader, steps);
        self.give_back(state, reader);
        told
    }

    /// Advances what is kept to where the first p entries stand, where it stands below. What is pending then stays
    /// so, what is forgotten stays so, and what stands past p stays there. What stands below the reader's floor is let go, and the
    /// cell's whole range is filled; the gate is passed before. The rank is the one that the join has after p entries, and none
    /// where it does not stand then; where it is not the cell's, what is kept stays as it is and no step is taken, so that nothing
    /// changes but what the cell's pass has seen. It and the reader see what either has seen. Where what is kept stands from the
    /// floor on, below p with bare ranges, what no changed key touches is left, and it takes no more steps than an advance. Where it
    /// stands below p, it takes one step at least for each need, or what filling takes.
    ///
    /// On a fault what is kept is as it was, or it is forgotten. `TooWide` comes only where the cell's range is filled, because
    /// what is kept stands below the floor or the reader does not know what changed, and that takes more than `most` needs; then it
    /// is forgotten. Where it kept no more needs, it keeps no more afterwards.
    pub fn advance_to<R: Stacked<N>, G: Gate, L: Ledger>(
        &mut self,
        p: u64,
        rank: Option<u8>,
        most: u64,
        gate: &G,
        reader: &mut R,
        steps: &mut Steps<L>,
    ) -> Result<(), KeepFault<TooMany>>
        requires within { p ≤ length (R.list reader.old) }
        requires above { R.floor reader.old ≤ p }
        requires rank { IsRankAt (R.list reader.old) p self.old.at rank }
        requires ranked { IfSome rank (λ r. r ≤ R.top) }
        ensures advances { AdvancesCell (R.floor reader.old) p rank result self.old self.new }
        ensures little { (s : KeptRange) (q : ℕ) → CanAdvance (R.list reader.old) (R.floor reader.old) q p rank self.old s → OnOk result (IsSomeAnd self.new.held (TouchesLittle (R.list reader.old) q p s)) }
        ensures few { KeepsWithin most self.old.held → OnOk result (KeepsWithin most self.new.held) }
        ensures wide { IfErr result (OnTooWide (IsWideCell most (R.list reader.old) p self.new)) }
        ensures known { (s : KeptRange) (q : ℕ) → CanAdvance (R.list reader.old) (R.floor reader.old) q p rank self.old s → IfErr result (OnTooWide ⊥) }
        ensures idle { (rank ≡ Some self.old.rank → ⊥) → steps.new ≡ steps.old }
        ensures same_place { HasSamePlace self.old self.new }
        ensures met { self.new.pass.view ≡ R.list reader.new }
        ensures moves { Moves R.list R.floor R.went reader.old reader.new }
        ensures counted { steps.old ≤ steps.new }
        ensures least { (s : KeptRange) (q : ℕ) → rank ≡ Some self.old.rank → self.old.held ≡ Some s → StandsAt q s → q < p → OnOk result (CountsForward (R.list reader.old) p s steps.old steps.new) }
        ensures cost { (s : KeptRange) (q : ℕ) → CanAdvance (R.list reader.old) (R.floor reader.old) q p rank self.old s → OnOk result (steps.new ≤ steps.old + advance_steps (R.list reader.old) q p s.kept.needs) }
    {
        self.meet(reader);
        if !self.is_for(rank) {
            return Ok(());
        }
        let Some(state) = self.take_held() else {
            return Ok(());
        };
        let mut state = state;
        let bound: NeedBound<TooMany, Infallible> = NeedBound::EndsPast(most, TooMany);
        let advanced = advance_to(&mut state, p, bound, gate, reader, steps);
        self.give_back(state, reader);
        advanced
    }
}
