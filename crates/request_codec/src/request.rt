// Requests, and why a line is none.
ghost use Rattle.std.specs.Prelude.{◌≡◌};

use join_lang::ParseFault;
use join_types::Join;
use key_space::{Key, KeyFault, Range, RangeFault, Value, ValueFault};
use out_of_memory::OutOfMemory;

/// What a line asks for.
#[derive(Debug, Drop)]
pub enum Request {
    /// The pair of a key and a value takes the place of whatever stood at the key.
    Put(Key, Value),
    /// Nothing stands at the key.
    Remove(Key),
    /// The value at a key.
    Get(Key),
    /// The pairs in a range.
    Scan(Range),
    /// The pairs in a range after so many entries.
    ScanAt(Range, u64),
    /// What changed in a range since the first so many entries.
    Changes(Range, u64),
    /// The entries after the first so many.
    Feed(u64),
    /// The join stands from now on.
    Declare(Join),
    /// The join that was declared at the position stands no more.
    Drop(u64),
    /// The session ends.
    Quit,
}

/// Why a line was not read as a request.
#[derive(Debug, Drop, PartialEq, Eq)]
pub enum LineFault {
    /// The line is no JSON value.
    Json,
    /// The value is none of the request forms.
    Form,
    /// The key's text is no key.
    Key,
    /// The value's text is no value.
    Value,
    /// The bounds are no range.
    Range,
    /// The join's text stops being one at this byte.
    Syntax(usize),
    /// No memory was found for the request. This says nothing of the line.
    OutOfMemory(OutOfMemory),
}

impl From<KeyFault> for LineFault {
    ghost use Rattle.request_codec.specs.LineFaults.{fault_of_key};

    ghost from_gives = { λ fault given. given ≡ fault_of_key fault };

    fn from(fault: KeyFault) -> Self {
        match fault {
            KeyFault::BadKey => LineFault::Key,
            KeyFault::OutOfMemory(memory) => LineFault::OutOfMemory(memory),
        }
    }
}

impl From<ValueFault> for LineFault {
    ghost use Rattle.request_codec.specs.LineFaults.{fault_of_value};

    ghost from_gives = { λ fault given. given ≡ fault_of_value fault };

    fn from(fault: ValueFault) -> Self {
        match fault {
            ValueFault::BadValue => LineFault::Value,
            ValueFault::OutOfMemory(memory) => LineFault::OutOfMemory(memory),
        }
    }
}

impl From<RangeFault> for LineFault {
    ghost use Rattle.request_codec.specs.LineFaults.{fault_of_range};

    ghost from_gives = { λ fault given. given ≡ fault_of_range fault };

    fn from(fault: RangeFault) -> Self {
        match fault {
            RangeFault::BadRange => LineFault::Range,
            RangeFault::OutOfMemory(memory) => LineFault::OutOfMemory(memory),
        }
    }
}

impl From<ParseFault> for LineFault {
    ghost use Rattle.request_codec.specs.LineFaults.{fault_of_join};

    ghost from_gives = { λ fault given. given ≡ fault_of_join fault };

    fn from(fault: ParseFault) -> Self {
        match fault {
            ParseFault::Syntax { at } => LineFault::Syntax(at),
            ParseFault::OutOfMemory(memory) => LineFault::OutOfMemory(memory),
        }
    }
}
