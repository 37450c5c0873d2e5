// What a cell may lend.
ghost use Rattle.std.specs.Prelude.{◌≡◌, ℕ, IfOk, IfSome, Some, unwrap_or};
ghost use Rattle.std.specs.Option.{option_copied};
ghost use Rattle.kept_ranges.specs.Sound.{KeptRange};
ghost use Rattle.cell_slots.specs.declared.slot.Slot.TheVariants.{Held};
ghost use Rattle.cell_table.specs.Moves.{MayLend, anew_for};

use cell_slots::{Slot, is_past, renew};
use key_space::Range;
use out_of_memory::OutOfMemory;
use range_state::RangeState;
use std::alloc::Global;

/// The kept range of a slot, where it may be lent. Linear in the bounds.
pub fn lendable<'a>(
    slot: Option<&'a Slot>,
    at: u64,
    rank: u8,
    p: u64,
    part: &Range,
) -> Option<&'a RangeState>
    ensures may { IfSome result (λ state. MayLend (option_copied slot.entry) at rank p part.now state.now) }
    ensures always { (s : KeptRange) → MayLend (option_copied slot.entry) at rank p part.now s → option_copied result ≡ Some s }
{
    let Some(Slot::Held(place, state)) = slot else {
        return None;
    };
    let range = state.range();
    let is_within = range.lo() <= part.lo() && part.hi() <= range.hi();
    if *place == at && state.rank() <= rank && !is_past(state, p) && is_within {
        Some(state)
    } else {
        None
    }
}

/// A kept range with the rank, with nothing kept, where another has not this rank. Linear in its join.
pub fn made_anew(
    alloc: Global,
    state: &RangeState,
    rank: u8,
) -> Result<Option<RangeState>, OutOfMemory>
    ensures { IfOk result (λ made. made ≡ anew_for rank state.now) }
{
    if state.rank() == rank {
        return Ok(None);
    }
    Ok(Some(renew(alloc, state, rank)?))
}

/// What is lent: what the slot held or, where that was made anew, this.
pub fn given(taken: Slot, anew: Option<RangeState>) -> Option<RangeState>
    ensures { (at : ℕ) (s : KeptRange) → taken ≡ Held at s → result ≡ Some (unwrap_or anew s) }
{
    match (taken, anew) {
        (Slot::Held(_, state), None) => Some(state),
        (Slot::Held(_, _), Some(made)) => Some(made),
        (_, _) => None,
    }
}

/// What a slot held, with the position of its join's declaration.
pub fn held_in(taken: Slot) -> Option<(u64, RangeState)>
    ensures { (at : ℕ) (s : KeptRange) → taken ≡ Held at s → result ≡ Some (at, s) }
{
    match taken {
        Slot::Held(at, state) => Some((at, state)),
        _ => None,
    }
}
