// What a layer asks of the reader that it stands on, where threads share the history.
ghost use Rattle.std.specs.Prelude.{◌≡◌, ℕ, ◌≤◌, length, map, take, true, IfOk};
ghost use Rattle.semantics.specs.Joins.{Join as PlainJoin};
ghost use Rattle.semantics.specs.Histories.{joins_of};
ghost use Rattle.growing_history.specs.Entered.{HasEntered};
ghost use Rattle.layering.specs.Reached.{reached};
ghost use Rattle.write_history.specs.Passes.{GoesOn, own};
ghost use Rattle.join_eval.specs.Answers.{TellsBetween};
ghost use Rattle.join_eval.specs.Moves.{Moves};
ghost use Rattle.cell_slots.specs.Slots.{IsDeclared, StandsAs};
ghost use Rattle.shared_reader.specs.Keeping.{IsKept};

use crate::followed::Followed;
use base_shards::Naming;
use join_eval::{Between, Reader};
use join_types::Join;
use key_space::Range;
use out_of_memory::OutOfMemory;
use write_history::Pass;

/// That a cell was used, and how many rows it holds then.
#[derive(Clone, Copy, Debug)]
pub struct Use {
    /// The cell's number.
    pub id: u32,
    /// The rows. None where it gave what it was asked for and could not keep it.
    pub rows: Option<u64>,
}

/// A reader whose list is what a pass of a history has seen. It can be read at every position of it that is not below its floor.
///
/// A join is named by the position of its declaration.
pub trait Stacked<N: Naming>: Reader {
    /// Gives the floor: the least position that can be read at. Constant.
    fn least_position(&self) -> u64
        ensures { result ≡ Self.floor self.now };

    /// The reader and the pass see what either has seen.
    fn meet(&mut self, pass: &mut Pass)
        requires same_history { pass.old.history ≡ N.history }
        ensures goes_on { GoesOn pass.old pass.new }
        ensures own { own pass.new ≡ own pass.old }
        ensures met { pass.new.view ≡ Self.list self.new }
        ensures entered { HasEntered (Self.list self.new) }
        ensures moves { Moves Self.list Self.floor Self.went self.old self.new };

    /// The joins of a rank whose outputs the range reaches, after the first p entries, in order of position.
    fn reached(&mut self, p: u64, range: &Range, rank: u8) -> Result<Vec<u64>, OutOfMemory>
        requires within { p ≤ length (Self.list self.old) }
        requires above { Self.floor self.old ≤ p }
        ensures reached { IfOk result (λ ats. ats.items ≡ map (λ s. s.position) (reached range.now rank (joins_of (take p (Self.list self.old))))) }
        ensures moves { Moves Self.list Self.floor Self.went self.old self.new };

    /// Says what is so of the joins between the first q and the first p entries, for the range.
    fn between(&mut self, q: u64, p: u64, range: &Range) -> Result<Between, OutOfMemory>
        requires order { q ≤ p }
        requires within { p ≤ length (Self.list self.old) }
        requires above { Self.floor self.old ≤ q }
        ensures said { IfOk result (TellsBetween (Self.list self.old) q p range.now) }
        ensures moves { Moves Self.list Self.floor Self.went self.old self.new };

    /// A copy of the join that was declared at a position and stands after the first p entries.
    fn join_at(&mut self, p: u64, at: u64) -> Result<Join, OutOfMemory>
        requires within { p ≤ length (Self.list self.old) }
        requires above { Self.floor self.old ≤ p }
        requires stands { (rank : ℕ) × (j : PlainJoin) × StandsAs (Self.list self.old) p at rank j }
        ensures declared { IfOk result (IsDeclared (Self.list self.old) at) }
        ensures moves { Moves Self.list Self.floor Self.went self.old self.new };

    /// Says whether what the join gives is to be kept: only where it was declared, and is pushed. What is read does not rest on it.
    /// Linear in the joins.
    fn is_kept(&self, at: u64) -> bool
        ensures { result ≡ true → IsKept (Self.list self.now) at };

    /// Takes note that a cell was used, so that the book is told of it. Of uses of one cell that follow one another the last alone
    /// is told, and a use for which there is no room is not.
    fn note_use(&mut self, used: Use)
        ensures { Moves Self.list Self.floor Self.went self.old self.new };

    /// Takes note that a cell told what changed of it, as of a use, unless another cell is at work, which asked it: that is no
    /// use. It is called while the cell itself is at work.
    fn note_told(&mut self, used: Use)
        ensures { Moves Self.list Self.floor Self.went self.old self.new };

    /// A cell is at work: from now on the ranges of base pairs that are read are noted, until the `follow_noted` that ends its
    /// work. Gives how many are noted already, for cells that are at work too. What is read does not rest on it.
    fn start_noting(&mut self) -> usize
        ensures { self.new ≡ self.old };

    /// The work of a cell ends. Under its number it follows the ranges that were noted since so many were, and they are added
    /// to those that it follows; one that lies in a range which it follows already is left out. Where it is not said since when, it
    /// follows none of them. A range for which there was no room was not noted. Where there is no room to follow them all, some
    /// may be followed, and it is taken to follow none. What is read does not rest on it.
    fn follow_noted(&mut self, id: u32, since: Option<usize>, followed: &mut Followed)
        ensures { self.new ≡ self.old };
}
