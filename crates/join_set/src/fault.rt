// Why a join may not be added to a set.
ghost use Rattle.std.specs.Prelude.{◌≡◌};
ghost use Rattle.join_set.specs.declared.fault.AddFault.TheVariants.{OutOfMemory as NoMemory};
ghost use Rattle.join_set.specs.declared.fault.RemoveFault.TheVariants.{OutOfMemory as NoRoom};

use join_types::Positions;
use out_of_memory::OutOfMemory;
use std::alloc::AllocFailed;
use thiserror::Error;

/// Why a join may not be added to a set of joins.
#[derive(Debug, Drop, Error)]
pub enum AddFault {
    /// The join breaks the rule on slots.
    #[error("the join breaks the rule on slots")]
    Slots,
    /// The join breaks the rule on sources.
    #[error("the join breaks the rule on sources")]
    Sources,
    /// The output overlaps that of the join at this position, the least such.
    #[error("the output overlaps that of the join at position {0}")]
    Clash(u64),
    /// With the join the reading would have a cycle: the shortest through it, and among these the least.
    #[error("the joins at the positions {:?} would read each other in a cycle", .0.as_slice())]
    Cycle(Positions),
    /// Some rank would be above 7.
    #[error("some rank would be above 7")]
    Deep,
    /// 64 joins stand already.
    #[error("64 joins stand already")]
    Many,
    /// No memory was found.
    #[error("out of memory")]
    OutOfMemory(OutOfMemory),
}

impl From<OutOfMemory> for AddFault {
    ghost from_gives = { λ memory fault. fault ≡ NoMemory memory };

    fn from(memory: OutOfMemory) -> Self {
        AddFault::OutOfMemory(memory)
    }
}

impl<T: Drop> From<AllocFailed<T>> for AddFault {
    ghost from_gives = { λ _ fault. fault ≡ NoMemory tt };

    fn from(failed: AllocFailed<T>) -> Self {
        AddFault::OutOfMemory(failed.into())
    }
}

/// Why a join may not be taken out of a set of joins.
#[derive(Debug, Drop, Error)]
pub enum RemoveFault {
    /// No join of the set was declared at the position.
    #[error("no join of the set was declared at the position")]
    NoJoin,
    /// No memory was found.
    #[error("out of memory")]
    OutOfMemory(OutOfMemory),
}

impl From<OutOfMemory> for RemoveFault {
    ghost from_gives = { λ memory fault. fault ≡ NoRoom memory };

    fn from(memory: OutOfMemory) -> Self {
        RemoveFault::OutOfMemory(memory)
    }
}
