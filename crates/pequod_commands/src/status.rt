// How the program ends.
ghost use Rattle.std.specs.Prelude.{◌≡◌, option_map};
ghost use Rattle.pequod_commands.specs.Messages.{message_of};

use out_of_memory::OutOfMemory;
use std::marker::Model;

/// How the program ended, as the number that it exits with. The constants and calls below alone make one.
#[derive(Clone, Copy, Debug, PartialEq, Eq)]
pub struct Status {
    number: u8,
}

impl Model for Status {
    ghost use Rattle.pequod_commands.specs.Numbered.{Numbered};

    ghost Value = { Numbered };

    ghost view = { λ s. record { number = s.number } };

    ghost inverse = { λ n. record { number = n.number } };
}

/// The line of a number that the program exits with.
fn message_of(number: u8) -> Option<&'static str>
    ensures { option_map (λ text. text.now) result ≡ message_of number }
{
    match number {
        2 => Some("pequod: words"),
        3 => Some("pequod: long"),
        4 => Some("pequod: read fault"),
        5 => Some("pequod: write fault"),
        6 => Some("pequod: memory"),
        7 => Some("pequod: file refused"),
        8 => Some("pequod: doors fault"),
        9 => Some("pequod: shelf fault"),
        10 => Some("pequod: spent"),
        _ => None,
    }
}

impl Status {
    /// The command did its work.
    pub const DONE: Status = Status { number: 0 };
    /// The words form no command.
    pub const WORDS: Status = Status { number: 2 };
    /// A line of `run`'s input was too long.
    pub const LONG: Status = Status { number: 3 };
    /// A read failed.
    pub const READ_FAULT: Status = Status { number: 4 };
    /// A write failed.
    pub const WRITE_FAULT: Status = Status { number: 5 };
    /// The joins file or the script has a refused line, which was written.
    pub const REFUSED: Status = Status { number: 7 };
    /// The doors could not be opened, or failed.
    pub const DOORS_FAULT: Status = Status { number: 8 };
    /// The shelf gave no file.
    pub const SHELF_FAULT: Status = Status { number: 9 };
    /// The input gave bytes 2^40 times and did not end.
    pub const SPENT: Status = Status { number: 10 };

    /// Takes a refusal, and tells that there was no memory: to begin `run` or `serve`, for the words or a file, or for what
    /// `check`, `replay` or `load` would write.
    pub fn memory(_memory: OutOfMemory) -> Status
        ensures { result.number ≡ 6 }
    {
        Status { number: 6 }
    }

    /// Gives the number that the program exits with.
    pub fn number(&self) -> u8
        ensures { result ≡ self.now.number }
    {
        self.number
    }

    /// Gives the line that is printed on standard error, nothing where the command did its work.
    pub fn message(&self) -> Option<&'static str>
        ensures { option_map (λ text. text.now) result ≡ message_of self.now.number }
    {
        message_of(self.number)
    }
}
