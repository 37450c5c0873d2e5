// What a scan's piece and events of cells do to the core.
ghost use Rattle.std.specs.Prelude.{◌≡◌, ℕ, ◌+◌, ◌-◌, ◌<◌, ◌≤◌, length, take, IfOk, OnOk};
ghost use Rattle.semantics.specs.Texts.{pairs_within};
ghost use Rattle.semantics.specs.Histories.{joins_of};
ghost use Rattle.semantics.specs.States.{below, state};
ghost use Rattle.growing_history.specs.Entered.{HasEntered, HasRank};
ghost use Rattle.kept_ranges.specs.Sound.{KeptRange};
ghost use Rattle.range_state.specs.Ready.{StandsAt};
ghost use Rattle.range_state.specs.Asking.{AreBareThroughout};
ghost use Rattle.range_state.specs.Work.{advance_steps, AreBareUnder, mend_steps};
ghost use Rattle.cell_slots.specs.Serving.{IsPast};
ghost use Rattle.cell_slots.specs.Slots.{Frame};
ghost use Rattle.cell_slots.specs.Spending.{Spends};
ghost use Rattle.scan_core.specs.Cells.{HoldsAt, IsHeldAt};
ghost use Rattle.scan_core.specs.Rights.{AreRight};
ghost use Rattle.scan_core.specs.Worlds.{IsAdvancedIn, IsMendedIn, NoneLent, PieceSpends};

use crate::cell_events::{advance_to, mend};
use crate::contents::Core;
use cell_slots::Cells;
use join_types::Pair;
use key_space::Range;
use out_of_memory::OutOfMemory;
use rank_layers::{AllRanks, Rank, RankReader};
use std::alloc::Global;
use std::marker::PhantomData;
use std::sync::ledger::Ledger;
use steps::Steps;

/// The pairs of a range after the first p entries, with the joins of all ranks. The history stays, and no more cells are lent.
fn read_all<L: Ledger>(
    alloc: Global,
    core: &mut Core,
    p: u64,
    range: &Range,
    steps: &mut Steps<L>,
) -> Result<Vec<Pair>, OutOfMemory>
    requires { p ≤ length core.old.history }
    ensures exact { IfOk result (λ pairs. pairs.items ≡ pairs_within range.now (state (take p core.old.history))) }
    ensures spent { IfOk result (λ _. Spends core.old.history core.old.cells core.new.cells p range.now 8 (steps.new - steps.old)) }
    ensures counted { steps.old ≤ steps.new }
    ensures history { core.new.history ≡ core.old.history }
    ensures frame { Frame 8 core.old.cells core.new.cells }
    ensures entered { HasEntered core.old.history }
    ensures right { AreRight core.new.history core.new.cells.slots }
{
    core.look();
    let found = AllRanks::pairs(alloc, core, p, range, 8, steps);
    core.look();
    found
}

/// Reads the pairs of a range after the first p entries. After a declaration or a drop the cells of former joins and former
/// ranks are freed before the first read that stands at or behind the last declaration or drop. The book is told of the cells
/// that were used, and frees those that have to go. The history stays.
pub fn read_piece<L: Ledger>(
    alloc: Global,
    core: &mut Core,
    p: u64,
    range: &Range,
    steps: &mut Steps<L>,
) -> Result<Vec<Pair>, OutOfMemory>
    requires { p ≤ length core.old.history }
    ensures exact { IfOk result (λ pairs. pairs.items ≡ pairs_within range.now (state (take p core.old.history))) }
    ensures spends { OnOk result (PieceSpends core.old.history core.old.cells core.new.cells p range.now (steps.new - steps.old)) }
    ensures counted { steps.old ≤ steps.new }
    ensures history { core.new.history ≡ core.old.history }
    ensures unlent { NoneLent core.old.cells.slots → NoneLent core.new.cells.slots }
    ensures room { core.new.cells.setting.room ≡ core.old.cells.setting.room }
{
    let _low = range.lo();
    core.look();
    core.let_go(p)?;
    core.clear_used();
    let found = read_all(alloc, core, p, range, steps);
    let settled = core.settle();
    let pairs = found?;
    settled?;
    Ok(pairs)
}

/// Advances what a cell holds to a position, with the rank that its join has there. Where it has that rank and stands below,
/// and the ranges of its needs are bare from there on, it takes no more steps than an advance.
///
/// On `OutOfMemory` the cell holds what it held, or nothing is kept for its range.
pub fn advance_cell<L: Ledger>(
    alloc: Global,
    core: &mut Core,
    id: u32,
    rank: u8,
    to: u64,
    steps: &mut Steps<L>,
) -> Result<(), OutOfMemory>
    requires within { to ≤ length core.old.history }
    requires held { IsHeldAt core.old.cells.slots id }
    requires before { (at : ℕ) (s : KeptRange) → HoldsAt core.old.cells.slots id at s → IsPast to s → ⊥ }
    requires stands { (at : ℕ) (s : KeptRange) → HoldsAt core.old.cells.slots id at s → HasRank (joins_of (take to core.old.history)) s.join rank }
    requires small { rank ≤ 8 }
    ensures advanced { OnOk result (IsAdvancedIn core.old.history core.old.cells.slots core.new.cells.slots id to) }
    ensures cost { (at q : ℕ) (s : KeptRange) → HoldsAt core.old.cells.slots id at s → s.rank ≡ rank → StandsAt q s → q < to → AreBareThroughout core.old.history q to s.kept.needs →
        OnOk result (steps.new ≤ steps.old + advance_steps core.old.history q to s.kept.needs) }
    ensures counted { steps.old ≤ steps.new }
    ensures history { core.new.history ≡ core.old.history }
    ensures unlent { NoneLent core.old.cells.slots → NoneLent core.new.cells.slots }
    ensures room { core.new.cells.setting.room ≡ core.old.cells.setting.room }
{
    let Some((at, state)) = core.take(id)? else {
        unreachable!()
    };
    let mut state = state;
    core.look();
    let mut reader: RankReader<'_, Core, AllRanks> = RankReader {
        alloc,
        lowest: &mut *core,
        rank: PhantomData,
    };
    let advanced = advance_to(alloc, &mut state, rank, to, &mut reader, steps);
    core.look();
    core.give_back(id, at, state);
    advanced
}

/// Finds anew what is pending in a range of what a cell holds. Where the ranges that are read for it are bare, it takes no more
/// steps than a mend.
///
/// On `OutOfMemory` the cell holds what it held, or nothing is kept for its range.
pub fn mend_cell<L: Ledger>(
    alloc: Global,
    core: &mut Core,
    id: u32,
    range: &Range,
    steps: &mut Steps<L>,
) -> Result<(), OutOfMemory>
    requires { IsHeldAt core.old.cells.slots id }
    ensures mended { OnOk result (IsMendedIn core.old.history core.old.cells.slots core.new.cells.slots id range.now) }
    ensures cost { (at q : ℕ) (s : KeptRange) → HoldsAt core.old.cells.slots id at s → StandsAt q s → AreBareUnder s core.old.history q range.now →
        OnOk result (steps.new ≤ steps.old + mend_steps s (below (take q core.old.history) s.rank) range.now) }
    ensures counted { steps.old ≤ steps.new }
    ensures history { core.new.history ≡ core.old.history }
    ensures unlent { NoneLent core.old.cells.slots → NoneLent core.new.cells.slots }
    ensures room { core.new.cells.setting.room ≡ core.old.cells.setting.room }
{
    let Some((at, state)) = core.take(id)? else {
        unreachable!()
    };
    let mut state = state;
    core.look();
    let mut reader: RankReader<'_, Core, AllRanks> = RankReader {
        alloc,
        lowest: &mut *core,
        rank: PhantomData,
    };
    let mended = mend(&mut state, range, &mut reader, steps);
    core.look();
    core.give_back(id, at, state);
    mended
}
