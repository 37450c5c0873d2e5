// Counting of steps: what a call reads is counted, what it costs can be said in its contract, and a test can ask how much it was.
//
// The layers above may use all that is public here: contracts see a counter as a number.
#![tactic(auto)]

ghost use Rattle.std.specs.Prelude.{◌≡◌, ◌+◌, ◌-◌, ◌^◌, ◌<◌, min};

use std::marker::Model;
use std::sync::ledger::{Blank, Book, Ledger, Share};

/// How many steps were taken. A step is one pair or one changed key that a base table or a row list hands out, and one
/// more for each call that hands out any number of them. Contracts see the number of steps, which has no bound. At run time
/// it is one number, which counts up to the largest `u64`.
///
/// A caller that counts nothing calls a function over any ledger that is given a `Blank` and opens a counter on it:
/// `count::<Brand>(.., Blank::new(1))`.
#[derive(Drop)]
pub struct Steps<L: Ledger> {
    book: Book<L>,
    share: Share<L>,
    taken: u64,
}

impl<L: Ledger> Model for Steps<L> {
    ghost use Rattle.std.specs.Prelude.{◌≡◌, ℕ, ◌-◌, ◌^◌, ◌<◌, min};

    ghost Value = { ℕ };

    ghost view = { λ s. s.book.total };

    ghost invariant = { λ s. (0 < s.share.parts) × (s.taken ≡ min s.book.total (2 ^ 64 - 1)) };
}

impl<L: Ledger> Steps<L> {
    /// A counter that stands at 0, on a new ledger of at least one part.
    pub fn open(blank: Blank) -> Steps<L>
        requires name { blank.name ≡ L.name }
        requires parts { blank.parts ≡ L.parts }
        requires some { 0 < blank.parts }
        ensures { result ≡ 0 }
    {
        let (book, share) = blank.open();
        Steps {
            book,
            share,
            taken: 0,
        }
    }

    /// Counts one call that hands out so many pairs or keys: as many steps, and one more. It is the only way to count.
    pub fn count_call(&mut self, handed_out: usize)
        ensures { self.new ≡ self.old + 1 + handed_out }
    {
        self.book.add(&mut self.share, 1);
        self.book.add(&mut self.share, handed_out as u64);
        self.taken = self
            .taken
            .saturating_add(1)
            .saturating_add(handed_out as u64);
    }

    /// How many steps were taken, or the largest `u64` where there were more.
    pub fn taken(&self) -> u64
        ensures { result ≡ min self.now (2 ^ 64 - 1) }
    {
        self.taken
    }
}
