// The declarations of a load's joins.
ghost use Rattle.std.specs.Prelude.{◌≡◌, ◌+◌, ◌∷◌, [], IfOk, OnOk, slice_get, Some};
ghost use Rattle.semantics.specs.Histories.{IsPrefix, declare};
ghost use Rattle.load_gen.specs.Entries.{declared_joins, entry_by};
ghost use Rattle.pequod_cache.specs.Adding.{HasAdded};

use base_shards::Naming;
use join_types::Join;
use load_gen::load_joins;
use out_of_memory::OutOfMemory;
use pequod_cache::Client;
use pq_io::Gate;
use request_codec::Reply;
use std::alloc::{AllocError, Global};
use std::sync::Wait;

/// Declares the join with the client that has the number 0, as the entry after so many, and gives its position.
///
/// `OutOfMemory`: it did not enter, or not there.
fn declare_next<N: Naming, G: Gate, R: Wait>(
    rt: &R,
    first: &mut Client<'_, N, G>,
    join: Join,
    before: u64,
) -> Result<u64, OutOfMemory>
    requires numbered { first.old.number ≡ 0 }
    ensures position { IfOk result (λ position. position ≡ before + 1) }
    ensures added { OnOk result (HasAdded (entry_by 0 (declare join) ∷ []) first.old first.new) }
    ensures entry { OnOk result (slice_get first.new.view before ≡ Some (entry_by 0 (declare join))) }
{
    let position = match first.declare(rt, join) {
        Reply::Done(position) => position,
        Reply::Memory(memory) => return Err(memory),
        // It never comes: nobody else writes yet, and the joins may be declared in turn. No contract tells the first.
        _ => return Err(OutOfMemory::from(AllocError)),
    };
    if before.checked_add(1) != Some(position) {
        return Err(OutOfMemory::from(AllocError));
    }
    Ok(position)
}

/// Declares the joins of a load with the client that has the number 0, in order, as the first entries of its history.
///
/// `OutOfMemory`: one did not enter, or not there. Those before it have entered.
pub fn declare_joins<N: Naming, G: Gate, R: Wait>(
    rt: &R,
    alloc: Global,
    first: &mut Client<'_, N, G>,
) -> Result<(), OutOfMemory>
    requires numbered { first.old.number ≡ 0 }
    ensures added { OnOk result (HasAdded declared_joins first.old first.new) }
    ensures begins { OnOk result (IsPrefix declared_joins first.new.view) }
{
    let mut position = 0;
    for join in load_joins(alloc)? {
        position = declare_next(rt, first, join, position)?;
    }
    Ok(())
}
