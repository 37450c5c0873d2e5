// Ids by the source ranges that they have registered.
ghost use Rattle.std.specs.Prelude.{◌≡◌, ℕ, ◌<◌, [], ◌∷◌, IfOk, OnOk, OnErr, MatchOption, length, replicate, slice_set};
ghost use Rattle.updater_index.specs.Registered.{Index, IsMarkedInPart, ranges_of, stabbed, with_mark, with_marks, with_ranges, without_mark};

use crate::marks::Marks;
use crate::registered::Registered;
use key_space::{Key, Range};
use out_of_memory::OutOfMemory;
use std::alloc::Global;
use std::marker::Model;

/// Ids below a number, each with the ranges that it has registered, and those that are marked, in the order of marking.
///
/// Ranges stand by the place where their two bounds part. A key is looked for at each length with which the bounds of
/// some range begin alike, and there at each place behind that beginning of the key, at its next byte or a greater one.
/// So `stab` costs a search for each such place, commonly a handful of them, and the ranges that contain the key: none of
/// the others, however many they are, nested or alike.
///
/// It takes memory for the ids up to the greatest that ever had a range, and for marks up to the greatest that ever had one: so
/// ids had better be given from 0 up, and again before greater ones.
#[derive(Debug, Drop)]
pub struct UpdaterIndex {
    /// Below which number the ids are.
    ids: u32,
    /// The ranges of the first ids. Those behind them have none.
    registered: Registered,
    marks: Marks,
}

impl Model for UpdaterIndex {
    ghost use Rattle.std.specs.Prelude.{◌≤◌, length};
    ghost use Rattle.updater_index.specs.Registered.{Index, filled};

    ghost Value = { Index };

    ghost view = { λ i. record { held = filled i.ids i.registered; marked = i.marks } };

    ghost invariant = { λ i. length i.registered ≤ i.ids };
}

impl UpdaterIndex {
    /// No ranges and no marks, for ids below a number. Nothing is allocated.
    pub fn new(alloc: Global, ids: u32) -> UpdaterIndex
        ensures held { result.held ≡ replicate ids [] }
        ensures marked { result.marked ≡ [] }
    {
        let registered = Registered::new(alloc);
        let marks = Marks::new(alloc);
        UpdaterIndex {
            ids,
            registered,
            marks,
        }
    }

    /// The number below which the ids are. It takes constant time.
    pub fn ids(&self) -> usize
        ensures { result ≡ length self.now.held }
    {
        self.ids as usize
    }

    /// Adds the ranges to those of the id, in order; one that the id has already is not added again. Logarithmic in all
    /// ranges for each of them, and linear in its bounds; where no id so high had ranges yet, linear too in the ids up to it.
    ///
    /// On `OutOfMemory` none of them is added.
    pub fn register(&mut self, id: u32, ranges: Vec<Range>) -> Result<(), OutOfMemory>
        requires { id < length self.old.held }
        ensures ok { OnOk result (self.new ≡ record self.old { held = slice_set self.old.held id (with_ranges (ranges_of id self.old.held) ranges.items) }) }
        ensures err { OnErr result (self.new ≡ self.old) }
    {
        self.registered.reach(id)?;
        self.registered.register(id, ranges.as_slice())
    }

    /// Takes away all ranges of the id, and its mark. Logarithmic in all ranges for each of them, and linear in the marks
    /// where it is marked; no memory is taken.
    pub fn forget(&mut self, id: u32)
        requires { id < length self.old.held }
        ensures { self.new ≡ record { held = slice_set self.old.held id []; marked = without_mark id self.old.marked } }
    {
        self.registered.forget(id);
        self.marks.unmark(id);
    }

    /// The ids with a range that contains the key, ascending, each once.
    ///
    /// It takes a search for each length with which the bounds of some range, which may be gone, begin alike, one at each
    /// place where bounds part on the way of the key, and one more for each range that contains it. At the worst there are
    /// some 256 such places for each byte of the key, and no range that contains it.
    pub fn stab(&self, key: &Key) -> Result<Vec<u32>, OutOfMemory>
        ensures { IfOk result (λ ids. ids.items ≡ stabbed key.now self.now.held) }
    {
        self.registered.stab(key)
    }

    /// Marks the id; one that is marked keeps its place. It takes constant time, and where no id so high was marked yet, time
    /// linear in the ids up to it.
    ///
    /// On `OutOfMemory` nothing is changed.
    pub fn mark(&mut self, id: u32) -> Result<(), OutOfMemory>
        requires { id < length self.old.held }
        ensures ok { OnOk result (self.new ≡ record self.old { marked = with_mark self.old.marked id }) }
        ensures err { OnErr result (self.new ≡ self.old) }
    {
        self.marks.mark(id)
    }

    /// Marks every id with a range that contains the key, as `stab` lists them. It costs what `stab` does.
    ///
    /// On `OutOfMemory` some first ones of them may be marked.
    pub fn mark_stabbed(&mut self, key: &Key) -> Result<(), OutOfMemory>
        ensures ok { OnOk result (self.new ≡ record self.old { marked = with_marks self.old.marked (stabbed key.now self.old.held) }) }
        ensures err { OnErr result (IsMarkedInPart self.old key.now self.new) }
    {
        let ids = self.stab(key)?;
        for id in ids.as_slice() {
            self.mark(*id)?;
        }
        Ok(())
    }

    /// Takes out the id that was marked first; none exactly where none is marked. It takes constant time, and no memory.
    pub fn next_marked(&mut self) -> Option<u32>
        ensures { MatchOption result ((self.old.marked ≡ []) × (self.new ≡ self.old)) (λ id. self.old ≡ record self.new { marked = id ∷ self.new.marked }) }
    {
        self.marks.next()
    }
}
