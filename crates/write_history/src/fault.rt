// Why a write did not enter.
ghost use Rattle.std.specs.Prelude.{◌≡◌};
ghost use Rattle.write_history.specs.declared.fault.AppendFault.TheVariants.{OutOfMemory as NoMemory};

use join_types::Cause;
use out_of_memory::OutOfMemory;

/// Why a write did not enter the history.
#[derive(Debug, Drop)]
pub enum AppendFault {
    /// The verdict of the write after so many entries.
    Refused(u64, Cause),
    /// No memory was found.
    OutOfMemory(OutOfMemory),
}

impl From<OutOfMemory> for AppendFault {
    ghost from_gives = { λ memory fault. fault ≡ NoMemory memory };

    fn from(memory: OutOfMemory) -> Self {
        AppendFault::OutOfMemory(memory)
    }
}
