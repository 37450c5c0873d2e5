// The answer of a call that finds no memory, one type for every crate above. It stands on std alone.
#![tactic(auto)]

ghost use Rattle.std.specs.Prelude.{◌≡◌, ◌↔◌, IsSome};
ghost use Rattle.std.specs.IoError.{error_kind};

use std::alloc::{AllocError, AllocFailed};
use std::io;
use std::io::ErrorKind;
use std::marker::Model;

/// No memory was found for what a call had to keep. Unless the call says otherwise, its arguments are unchanged.
///
/// It is made of what stands for a refusal of the allocator or of the system, and in no other way, and it can't be copied. The
/// types of std that stand for one can be written by anybody: `bench/made_refusals.sh` lists where that is done. In contracts all
/// are equal.
#[derive(Debug, Drop, PartialEq, Eq)]
pub struct OutOfMemory {
    refused: (),
}

impl Model for OutOfMemory {
    ghost use Rattle.std.specs.Prelude.{⊤};

    ghost Value = { ⊤ };

    ghost view = { λ _. tt };

    ghost inverse = { λ _. record { refused = tt } };
}

impl From<AllocError> for OutOfMemory {
    fn from(_error: AllocError) -> Self {
        OutOfMemory { refused: () }
    }
}

impl<T: Drop> From<AllocFailed<T>> for OutOfMemory {
    fn from(_failed: AllocFailed<T>) -> Self {
        OutOfMemory { refused: () }
    }
}

impl OutOfMemory {
    /// Takes a refusal apart: gives it, and beside it the value that found no place. It takes constant time.
    pub fn split<T>(failed: AllocFailed<T>) -> (OutOfMemory, T)
        ensures { result.1 ≡ failed.value }
    {
        let AllocFailed { value } = failed;
        (OutOfMemory { refused: () }, value)
    }

    /// Reads an error of the system: gives the refusal exactly where the error's kind is that no memory was found. It takes
    /// constant time.
    pub fn of_system(error: &io::Error) -> Option<OutOfMemory>
        ensures { IsSome result ↔ (error_kind error.now ≡ ErrorKind.OutOfMemory) }
    {
        match error.kind() {
            ErrorKind::OutOfMemory => Some(OutOfMemory { refused: () }),
            _ => None,
        }
    }
}
