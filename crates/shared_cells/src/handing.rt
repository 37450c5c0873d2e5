// What lies behind the lock of a cell, handed out row by row.
ghost use Rattle.std.specs.Prelude.{◌≡◌, ℕ, ◌+◌, ◌≤◌, ◌⊎◌, length, true, IfOk, None, OnErr, OnOk, Some};
ghost use Rattle.std.specs.Bool.{OnFalse, OnTrue};
ghost use Rattle.std.specs.Option.{IsSomeAnd};
ghost use Rattle.semantics.specs.Joins.{Join as PlainJoin};
ghost use Rattle.join_eval.specs.Moves.{Moves};
ghost use Rattle.kept_ranges.specs.Sound.{KeptRange};
ghost use Rattle.range_state.specs.Ready.{StandsAt, pending_meets};
ghost use Rattle.cell_slots.specs.Serving.{CountsReach, HasTooMany, WasAdvanced, WasMended, output_within};
ghost use Rattle.cell_slots.specs.Slots.{StandsAs};
ghost use Rattle.shared_cells.specs.Advancing.{StandsBare};
ghost use Rattle.shared_cells.specs.Cells.{CanBeLent, CanServe, HasSamePlace, IsHeldOrStandsAt, IsReadyCell, KeepsNothing, KeepsWithin};
ghost use Rattle.shared_cells.specs.Handing.{HandsOut};

use crate::cell::Cell;
use base_shards::Naming;
use cell_slots::hand_kept;
use join_types::RowSink;
use key_space::Range;
use out_of_memory::OutOfMemory;
use pq_io::Gate;
use rank_layers::Query;
use shared_reader::Stacked;
use std::alloc::Global;
use std::sync::ledger::Ledger;
use steps::Steps;

impl<N: Naming> Cell<N> {
    /// Hands what the join gives in a part after p entries to the sink, from what is kept, and says whether it did. What is kept is
    /// advanced where it stands below p, and mended where something pending meets the part; the gate is passed before a mend, and
    /// before what is kept is filled again. Nothing is handed out, and what is kept stays, where the cell is for another join or
    /// for another rank of it or has not the whole part, and where what is kept stands past p. Nor is it where nothing is kept, or
    /// what is kept stands below the reader's floor or would have more than `most` needs: then nothing is kept.
    ///
    /// The cell's pass and the reader see what either has seen. Where the cell can be read over the part at once, it takes one
    /// step and one for each pair, and what it keeps stays as it is. Where what it keeps stands from the floor on, below p with
    /// bare ranges, or at p with something pending that meets the part, it is not filled again, and takes these steps and no more
    /// than those of an advance and a mend. Where it hands out what stands below p, from the floor on, it takes beside one step
    /// and one for each pair one for each of its needs at least, or what filling takes. Where it cannot serve the part, it takes no
    /// step.
    ///
    /// On `OutOfMemory` what is kept is as it was, or stands at p, or nothing is kept.
    pub fn hand<R: Stacked<N>, G: Gate, K: RowSink, L: Ledger>(
        &mut self,
        alloc: Global,
        query: Query,
        part: &Range,
        most: u64,
        gate: &G,
        reader: &mut R,
        sink: &mut K,
        steps: &mut Steps<L>,
    ) -> Result<bool, OutOfMemory>
        requires within { query.p ≤ length (R.list reader.old) }
        requires above { R.floor reader.old ≤ query.p }
        requires stands { (j : PlainJoin) × StandsAs (R.list reader.old) query.p query.at query.rank j }
        requires ranked { query.rank ≤ R.top }
        ensures handed { IfOk result (λ gave. OnTrue gave (HandsOut K.got (R.list reader.old) query.p query.at query.rank part.now sink.old sink.new steps.old steps.new)) }
        ensures left { (CanServe self.old query.at query.rank query.p part.now → ⊥) → self.new.held ≡ self.old.held }
        ensures idle { (CanServe self.old query.at query.rank query.p part.now → ⊥) → steps.new ≡ steps.old }
        ensures still { IsReadyCell self.old query.at query.rank query.p part.now → OnOk result (self.new.held ≡ self.old.held) }
        ensures few { KeepsWithin most self.old.held → IfOk result (λ gave. OnTrue gave (KeepsWithin most self.new.held)) }
        ensures wide { (s : KeptRange) → CanBeLent self.old query.at query.rank query.p (R.floor reader.old) part.now s →
            IfOk result (λ gave. OnFalse gave ((s.position ≡ None) ⊎ HasTooMany (Some most) (R.list reader.old) query.p part.now s)) }
        ensures gone { CanServe self.old query.at query.rank query.p part.now → IfOk result (λ gave. OnFalse gave (KeepsNothing self.new.held)) }
        ensures err { OnErr result (IsHeldOrStandsAt query.p self.old.held self.new.held) }
        ensures same_place { HasSamePlace self.old self.new }
        ensures met { self.new.pass.view ≡ R.list reader.new }
        ensures moves { Moves R.list R.floor R.went reader.old reader.new }
        ensures counted { steps.old ≤ steps.new }
        ensures least { (s : KeptRange) → CanBeLent self.old query.at query.rank query.p (R.floor reader.old) part.now s →
            IfOk result (λ gave. OnTrue gave (CountsReach (R.list reader.old) query.p s (steps.old + 1 + length (output_within s (R.list reader.old) query.p part.now)) steps.new)) }
        ensures at_once { (cell : IsReadyCell self.old query.at query.rank query.p part.now) →
            OnOk result (steps.new ≡ steps.old + 1 + length (output_within cell.state (R.list reader.old) query.p part.now)) }
        ensures behind { (s : KeptRange) (q : ℕ) → CanBeLent self.old query.at query.rank query.p (R.floor reader.old) part.now s → StandsBare (R.list reader.old) q query.p s →
            IfOk result (λ gave. OnTrue gave (IsSomeAnd self.new.held (λ after. WasAdvanced (R.list reader.old) q query.p part.now s after (steps.old + 1 + length (output_within s (R.list reader.old) query.p part.now)) steps.new))) }
        ensures pending { (s : KeptRange) → CanBeLent self.old query.at query.rank query.p (R.floor reader.old) part.now s → StandsAt query.p s → pending_meets s part.now ≡ true →
            IfOk result (λ gave. OnTrue gave (IsSomeAnd self.new.held (λ after. WasMended (R.list reader.old) query.p part.now s after (steps.old + 1 + length (output_within s (R.list reader.old) query.p part.now)) steps.new))) }
    {
        let Some(state) = self.lend(alloc, query, part, reader)? else {
            return Ok(false);
        };
        let mut state = state;
        let handed = hand_kept(&mut state, query.p, part, most, gate, reader, sink, steps);
        self.give_back(state, reader);
        Ok(handed?)
    }
}
