// The reader of all ranks, where threads share the history.
ghost use Rattle.std.specs.Prelude.{◌≡◌, ◌≤◌, length, take, IfErr, IfOk, IfSome, MatchOption};
ghost use Rattle.std.specs.Bool.{OnTrue};
ghost use Rattle.semantics.specs.Texts.{pairs_within};
ghost use Rattle.semantics.specs.Histories.{joins_of};
ghost use Rattle.semantics.specs.States.{state};
ghost use Rattle.write_history.specs.Marks.{reach};
ghost use Rattle.join_eval.specs.Answers.{AnswersChanges};
ghost use Rattle.join_eval.specs.Bounds.{OnTooWide};
ghost use Rattle.join_eval.specs.Moves.{Moves};
ghost use Rattle.cell_slots.specs.Slots.{IsRankAt};
ghost use Rattle.base_reader.specs.Reaching.{IsOnlyReached};
ghost use Rattle.shared_cells.specs.Advancing.{AdvancesCell};
ghost use Rattle.shared_cells.specs.Cells.{IsWideCell};
ghost use Rattle.shared_reader.specs.Lent.{LentReadsOn};
ghost use Rattle.range_cells.specs.Turns.{AdvancesLittle};

use base_shards::Naming;
use join_eval::{Changed, KeepFault, TooMany};
use join_types::{Pair, RowSink};
use key_space::Range;
use out_of_memory::OutOfMemory;
use pq_io::Gate;
use shared_cells::{AllRanks, Cell, Rank, RankReader, Room, hand_range};
use shared_reader::{SharedReader, Stacked, Use};
use std::marker::{Model, PhantomData};
use std::sync::Wait;
use std::sync::ledger::Ledger;
use steps::Steps;
use write_history::Pass;

/// Reads what a pass has seen with the joins of all ranks, and keeps what they give in cells that threads share. Contracts
/// see it as the pass that it was lent.
#[derive(Drop)]
pub struct Stack<'a, N: Naming, W, G> {
    room: &'a Room<'a, N, W, G>,
    lowest: SharedReader<'a, N, W>,
}

impl<'a, N: Naming, W, G> Model for Stack<'a, N, W, G> {
    ghost use Rattle.shared_reader.specs.Lent.{LentPass};

    ghost Value = { LentPass };

    ghost view = { λ s. s.lowest };
}

/// Advances what a cell keeps to where the first p entries stand, by a reader, if the cell is for the rank. The cell follows the
/// ranges of base pairs that are read for it. What stands behind with bare ranges is left as an advance leaves it, with no more
/// steps than that takes.
///
/// `TooWide` comes only where the cell's range is filled for that and takes more than `most` needs; then it is forgotten.
fn advance_by<N: Naming, R: Stacked<N>, G: Gate, L: Ledger>(
    reader: &mut R,
    cell: &mut Cell<N>,
    id: u32,
    p: u64,
    rank: Option<u8>,
    most: u64,
    gate: &G,
    steps: &mut Steps<L>,
) -> Result<(), KeepFault<TooMany>>
    requires within { p ≤ length (R.list reader.old) }
    requires above { R.floor reader.old ≤ p }
    requires rank { IsRankAt (R.list reader.old) p cell.old.at rank }
    requires ranked { IfSome rank (λ r. r ≤ R.top) }
    ensures advances { AdvancesCell (R.floor reader.old) p rank result cell.old cell.new }
    ensures little { AdvancesLittle (R.list reader.old) (R.floor reader.old) p rank result cell.old cell.new steps.old steps.new }
    ensures wide { IfErr result (OnTooWide (IsWideCell most (R.list reader.old) p cell.new)) }
    ensures met { cell.new.pass.view ≡ R.list reader.new }
    ensures moves { Moves R.list R.floor R.went reader.old reader.new }
    ensures counted { steps.old ≤ steps.new }
{
    let since = reader.start_noting();
    let advanced = cell.advance_to(p, rank, most, gate, reader, steps);
    cell.follow(id, Some(since), reader);
    advanced
}

impl<'a, N: Naming, W, G> Stack<'a, N, W, G> {
    /// The reader over a lowest one.
    pub fn new(room: &'a Room<'a, N, W, G>, lowest: SharedReader<'a, N, W>) -> Stack<'a, N, W, G>
        ensures { result ≡ lowest.entry }
    {
        Stack { room, lowest }
    }

    /// Takes out which cells were used, in order.
    pub fn take_used(&mut self) -> Vec<Use>
        ensures { self.new ≡ self.old }
    {
        self.lowest.take_used()
    }

    /// Gives the pass back that it was lent, so that its lender knows what it has seen.
    pub fn into_pass(self) -> &'a mut Pass
        ensures lent { result.ghost_name ≡ self.entry.lent }
        ensures pass { result.now ≡ self.entry.pass }
    {
        self.lowest.into_pass()
    }
}

impl<'a, N: Naming, W: Wait, G: Gate> Stack<'a, N, W, G> {
    /// The pairs of a range in the state after the first p entries that the pass has seen.
    pub fn read<L: Ledger>(
        &mut self,
        p: u64,
        range: &Range,
        steps: &mut Steps<L>,
    ) -> Result<Vec<Pair>, OutOfMemory>
        requires within { p ≤ length self.old.pass.view }
        requires above { reach self.old.pass.mark ≤ p }
        ensures exact { IfOk result (λ pairs. pairs.items ≡ pairs_within range.now (state (take p self.old.pass.view))) }
        ensures reads_on { LentReadsOn self.old self.new }
        ensures counted { steps.old ≤ steps.new }
    {
        AllRanks::pairs(self.room, &mut self.lowest, p, range, 8, steps)
    }

    /// Hands the pairs of a range in the state after the first p entries that the pass has seen to the sink, in key order, and says
    /// whether it did, as `hand_range` does: only where one join's output is reached, which is named, and one cell has it.
    fn hand<K: RowSink, L: Ledger>(
        &mut self,
        p: u64,
        range: &Range,
        at: u64,
        rank: u8,
        sink: &mut K,
        steps: &mut Steps<L>,
    ) -> Result<bool, OutOfMemory>
        requires within { p ≤ length self.old.pass.view }
        requires above { reach self.old.pass.mark ≤ p }
        requires only { IsOnlyReached (joins_of (take p self.old.pass.view)) range.now at rank }
        requires shallow { rank ≤ 7 }
        ensures handed { IfOk result (λ gave. OnTrue gave (K.got sink.old sink.new (pairs_within range.now (state (take p self.old.pass.view))))) }
        ensures reads_on { LentReadsOn self.old self.new }
        ensures counted { steps.old ≤ steps.new }
    {
        let mut reader: RankReader<'_, 'a, N, W, G, SharedReader<'a, N, W>, AllRanks> = RankReader {
            room: self.room,
            lowest: &mut self.lowest,
            rank: PhantomData,
        };
        hand_range(self.room, p, range, at, rank, &mut reader, sink, steps)
    }

    /// Hands the pairs of a range out as `hand` does, where one join's output alone is reached.
    fn try_hand<K: RowSink, L: Ledger>(
        &mut self,
        p: u64,
        range: &Range,
        only: Option<(u64, u8)>,
        sink: &mut K,
        steps: &mut Steps<L>,
    ) -> Result<bool, OutOfMemory>
        requires within { p ≤ length self.old.pass.view }
        requires above { reach self.old.pass.mark ≤ p }
        requires only { IfSome only (λ one. IsOnlyReached (joins_of (take p self.old.pass.view)) range.now one.0 one.1) }
        requires shallow { IfSome only (λ one. one.1 ≤ 7) }
        ensures handed { IfOk result (λ gave. OnTrue gave (K.got sink.old sink.new (pairs_within range.now (state (take p self.old.pass.view))))) }
        ensures reads_on { LentReadsOn self.old self.new }
        ensures counted { steps.old ≤ steps.new }
    {
        match only {
            None => Ok(false),
            Some((at, rank)) => self.hand(p, range, at, rank, sink, steps),
        }
    }

    /// Hands the pairs of a range in the state after the first p entries that the pass has seen to the sink, in key order, or gives
    /// them: where one cell has them all they are handed out, and none is copied. What the sink has then is not said where they are
    /// given. The join whose output alone the range reaches is named by the position of its declaration, with its rank, if there is
    /// one.
    pub fn scan<K: RowSink, L: Ledger>(
        &mut self,
        p: u64,
        range: &Range,
        only: Option<(u64, u8)>,
        sink: &mut K,
        steps: &mut Steps<L>,
    ) -> Result<Option<Vec<Pair>>, OutOfMemory>
        requires within { p ≤ length self.old.pass.view }
        requires above { reach self.old.pass.mark ≤ p }
        requires only { IfSome only (λ one. IsOnlyReached (joins_of (take p self.old.pass.view)) range.now one.0 one.1) }
        requires shallow { IfSome only (λ one. one.1 ≤ 7) }
        ensures exact { IfOk result (λ found. MatchOption found (K.got sink.old sink.new (pairs_within range.now (state (take p self.old.pass.view))))
            (λ pairs. pairs.items ≡ pairs_within range.now (state (take p self.old.pass.view)))) }
        ensures reads_on { LentReadsOn self.old self.new }
        ensures counted { steps.old ≤ steps.new }
    {
        let handed = self.try_hand(p, range, only, sink, steps)?;
        if handed {
            return Ok(None);
        }
        let pairs = self.read(p, range, steps)?;
        Ok(Some(pairs))
    }

    /// What may have changed in a range of the state between the first q and the first p entries that the pass has seen: keys of
    /// the range, among which is each at which the state is not the same at all positions between, or that it is not known.
    pub fn changed<L: Ledger>(
        &mut self,
        q: u64,
        p: u64,
        range: &Range,
        steps: &mut Steps<L>,
    ) -> Result<Changed, OutOfMemory>
        requires order { q ≤ p }
        requires within { p ≤ length self.old.pass.view }
        requires above { reach self.old.pass.mark ≤ q }
        ensures exact { IfOk result (AnswersChanges self.old.pass.view q p 8 range.now) }
        ensures reads_on { LentReadsOn self.old self.new }
        ensures counted { steps.old ≤ steps.new }
    {
        AllRanks::changed(self.room, &mut self.lowest, q, p, range, 8, steps)
    }

    /// Advances what a cell with a number keeps to where the first p entries that the pass has seen stand, where it stands below.
    /// The rank is the one that its join has then, and none where the join does not stand; where it is not the cell's, what it
    /// keeps stays as it is. What stands below where the pin reaches back to is let go and filled there; the gate is passed before.
    /// What stands from there on, below p with bare ranges, is left as an advance leaves it, with no more steps than that takes.
    /// The cell follows the ranges of base pairs that are read for it; its pass and this one see what either has seen.
    ///
    /// On a fault what is kept is as it was, or it is forgotten. `TooWide` comes only where the cell's range is filled and that
    /// takes more than `most` needs; then it is forgotten.
    pub fn advance_to<L: Ledger>(
        &mut self,
        cell: &mut Cell<N>,
        id: u32,
        p: u64,
        rank: Option<u8>,
        most: u64,
        gate: &G,
        steps: &mut Steps<L>,
    ) -> Result<(), KeepFault<TooMany>>
        requires within { p ≤ length self.old.pass.view }
        requires above { reach self.old.pass.mark ≤ p }
        requires rank { IsRankAt self.old.pass.view p cell.old.at rank }
        requires ranked { IfSome rank (λ r. r ≤ 7) }
        ensures advances { AdvancesCell (reach self.old.pass.mark) p rank result cell.old cell.new }
        ensures little { AdvancesLittle self.old.pass.view (reach self.old.pass.mark) p rank result cell.old cell.new steps.old steps.new }
        ensures wide { IfErr result (OnTooWide (IsWideCell most self.old.pass.view p cell.new)) }
        ensures met { cell.new.pass.view ≡ self.new.pass.view }
        ensures reads_on { LentReadsOn self.old self.new }
        ensures counted { steps.old ≤ steps.new }
    {
        let mut reader: RankReader<'_, 'a, N, W, G, SharedReader<'a, N, W>, AllRanks> = RankReader {
            room: self.room,
            lowest: &mut self.lowest,
            rank: PhantomData,
        };
        advance_by(&mut reader, cell, id, p, rank, most, gate, steps)
    }
}
