// Where whole files are taken from by their names.
ghost use Rattle.std.specs.Prelude.{◌≡◌, ◌≢◌, ◌≤◌, List, ℕ, IfOk, IfSome, Some, vec_len, Err};
ghost use Rattle.std.specs.declared.option.Option.{Option};
ghost use Rattle.pq_io.specs.Faults.{Rose};
ghost use Rattle.pq_io.specs.Shelf.{File, bytes_under};
ghost use Rattle.pq_io.specs.declared.shelf.TakeFault.TheVariants as faults;

use crate::{Failed, MAX_FILE_BYTES};
use out_of_memory::OutOfMemory;
use std::alloc::{AllocError, Global};

/// Why a shelf gave no file.
#[derive(Debug, Drop, PartialEq, Eq)]
pub enum TakeFault {
    /// The shelf couldn't give the file, and its count of faults rose.
    Failed,
    /// There was no memory for the bytes.
    OutOfMemory(OutOfMemory),
}

impl From<Failed> for TakeFault {
    ghost from_gives = { λ _ fault. fault ≡ faults.Failed };

    fn from(_: Failed) -> Self {
        TakeFault::Failed
    }
}

impl From<AllocError> for TakeFault {
    ghost from_gives = { λ _ fault. fault ≡ faults.OutOfMemory tt };

    fn from(error: AllocError) -> Self {
        TakeFault::OutOfMemory(error.into())
    }
}

/// Files by their names.
pub trait Shelf {
    /// The files that it holds, where they are told.
    ghost held: { Self → Option (List File) };

    /// How many calls have failed, up to the last value 2^64 - 1.
    ghost faults: { Self → ℕ };

    /// The bytes of the first file of that name, at most `MAX_FILE_BYTES`. The shelf keeps all that it
    /// holds. `Failed`: the count of faults rose; so it does where the file has more bytes than that.
    /// `OutOfMemory`: there was no memory for the bytes.
    fn take(&mut self, alloc: Global, name: &str) -> Result<Vec<u8>, TakeFault>
        ensures bytes { IfOk result (λ bytes. IfSome (held self.old)
            (λ files. bytes_under files name.now ≡ Some bytes.items)) }
        ensures bound { IfOk result (λ bytes. vec_len bytes ≤ MAX_FILE_BYTES) }
        ensures same_held { held self.new ≡ held self.old }
        ensures later { faults self.old ≤ faults self.new }
        ensures cause { result ≡ Err TakeFault.Failed → Rose (faults self.old) (faults self.new) }
        ensures kept { result ≢ Err TakeFault.Failed → faults self.new ≡ faults self.old };
}
