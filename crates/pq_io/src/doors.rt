// Where links come from.
ghost use Rattle.std.specs.Prelude.{◌≡◌, List, ℕ, IfSome, OnErr, OnOk};
ghost use Rattle.std.specs.declared.option.Option.{Option};
ghost use Rattle.pq_io.specs.Doors.{GivesNextLink, OpenedAt, lists_of};
ghost use Rattle.pq_io.specs.Faults.{HasCause};

use crate::{Failed, Link};

/// An object that gives links, one after another, until it closes, and takes back their receipts.
pub trait Doors {
    /// What it gives.
    type Wire: Link + Send + Drop;

    /// The links that it will give, in order, where they are told.
    ghost held: { Self → Option (List Self.Wire) };

    /// The receipts that came back last, where they are told: a list of each who served links, in the order of serving.
    ghost returned: { Self → Option (List (List Self.Wire.Receipt)) };

    /// The addresses at which it was opened, in order, where they are told.
    ghost opened: { Self → Option (List (List ℕ)) };

    /// How many calls have failed, up to the last value 2^64 - 1.
    ghost faults: { Self → ℕ };

    /// Opens the doors at an address. What they hold stays.
    /// `Failed`: they could not be opened there, and the count of faults rose.
    fn open_at(&mut self, address: &str) -> Result<(), Failed>
        ensures cause { HasCause (faults self.old) (faults self.new) result }
        ensures opened { OnOk result (OpenedAt (opened self.old) (opened self.new) address.now) }
        ensures same_opened { OnErr result (opened self.new ≡ opened self.old) }
        ensures same_held { held self.new ≡ held self.old };

    /// The next link. None says that the doors are closed, which they are where they hold no link any more.
    /// `Failed`: no link was given, and the count of faults rose.
    fn next(&mut self) -> Result<Option<Self::Wire>, Failed>
        ensures links { GivesNextLink (held self.old) (held self.new) result }
        ensures cause { HasCause (faults self.old) (faults self.new) result }
        ensures same_opened { opened self.new ≡ opened self.old };

    /// Takes back the receipts of links that it gave. What it holds stays. It takes no memory.
    fn take_back(&mut self, receipts: Vec<Vec<<Self::Wire as Link>::Receipt>>)
        ensures returned { IfSome (returned self.new) (λ lists. lists ≡ lists_of receipts.items) }
        ensures same_held { held self.new ≡ held self.old }
        ensures same_opened { opened self.new ≡ opened self.old }
        ensures same_faults { faults self.new ≡ faults self.old };
}
