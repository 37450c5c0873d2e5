// Why a text was not read as a join.
ghost use Rattle.std.specs.Prelude.{◌≡◌};
ghost use Rattle.join_lang.specs.declared.fault.ParseFault.TheVariants.{OutOfMemory as NoMemory};

use out_of_memory::OutOfMemory;
use std::alloc::{AllocError, AllocFailed};
use thiserror::Error;

/// Why a text was not read as a join.
#[derive(Debug, Drop, Error)]
pub enum ParseFault {
    /// The text is no join; `at` is the first byte of the first token that is not accepted in its place.
    #[error("the text is no join: byte {at} is not accepted")]
    Syntax { at: usize },
    /// No memory was found for the join.
    #[error("out of memory")]
    OutOfMemory(OutOfMemory),
}

impl From<OutOfMemory> for ParseFault {
    ghost from_gives = { λ memory fault. fault ≡ NoMemory memory };

    fn from(memory: OutOfMemory) -> Self {
        ParseFault::OutOfMemory(memory)
    }
}

impl From<AllocError> for ParseFault {
    ghost from_gives = { λ _ fault. fault ≡ NoMemory tt };

    fn from(error: AllocError) -> Self {
        ParseFault::OutOfMemory(error.into())
    }
}

impl<T: Drop> From<AllocFailed<T>> for ParseFault {
    ghost from_gives = { λ _ fault. fault ≡ NoMemory tt };

    fn from(failed: AllocFailed<T>) -> Self {
        ParseFault::OutOfMemory(failed.into())
    }
}
