// The ranges that a cell follows.
ghost use Rattle.std.specs.Prelude.{◌≡◌, ◌≤◌, [], length, true, OnOk, OnErr};
ghost use Rattle.std.specs.List.{AllByRecursion};
ghost use Rattle.layering.specs.Parts.{IsWithin};
ghost use Rattle.shared_reader.specs.Following.{HaveWhole, IsOneMore};

use key_space::Range;
use out_of_memory::OutOfMemory;
use std::alloc::Global;
use std::marker::Model;

/// The ranges of base pairs that a cell follows, so that none is followed twice, nor one that lies in another: an advance of
/// the cell asks for the same ranges again, and reads keys of them one by one. They stand in the order of their first
/// bounds. Their long texts are shared.
#[derive(Drop)]
pub struct Followed {
    ranges: Vec<Range>,
}

impl Model for Followed {
    ghost use Rattle.std.specs.Prelude.{List};
    ghost use Rattle.semantics.specs.Texts.{Range};

    ghost Value = { List Range };

    ghost view = { λ f. f.ranges.items };
}

/// Says whether the second range begins at or before the first, and ends at or after it. Linear in the bounds.
pub fn is_within(range: &Range, other: &Range) -> bool
    ensures yes { result ≡ true → IsWithin range.now other.now }
    ensures no { IsWithin range.now other.now → result ≡ true }
{
    other.lo() <= range.lo() && range.hi() <= other.hi()
}

impl Followed {
    /// No ranges. Nothing is allocated.
    pub fn new(alloc: Global) -> Followed
        ensures { result ≡ [] }
    {
        Followed {
            ranges: Vec::new(alloc),
        }
    }

    /// How many of the ranges begin before the range, or where it does.
    fn place(&self, range: &Range) -> usize
        ensures { result ≤ length self.now }
    {
        self.ranges
            .partition_point(|other| other.lo() <= range.lo())
    }

    /// Whether one of the ranges is known to have the whole of this one: the last that begins before it, or where it does.
    /// Logarithmic in them.
    pub fn has_whole(&self, range: &Range) -> bool
        ensures { result ≡ true → HaveWhole self.now range.now }
    {
        match self.place(range).checked_sub(1) {
            Some(last) => is_within(range, &self.ranges[last]),
            None => false,
        }
    }

    /// One range more. Logarithmic in them, and linear in those that begin behind it.
    pub fn add(&mut self, range: Range) -> Result<(), OutOfMemory>
        ensures ok { OnOk result (IsOneMore self.old range self.new) }
        ensures err { OnErr result (self.new ≡ self.old) }
    {
        let place = self.place(&range);
        self.ranges.insert(place, range)?;
        Ok(())
    }

    /// Adds those of the ranges that none of these is known to have the whole of, one after another, and gives them.
    ///
    /// On `OutOfMemory` some of them may be added.
    pub fn take_in(&mut self, alloc: Global, ranges: &[Range]) -> Result<Vec<Range>, OutOfMemory>
        ensures { OnOk result (AllByRecursion (HaveWhole self.new) ranges.now) }
    {
        let mut fresh = Vec::new(alloc);
        for range in ranges {
            if !self.has_whole(range) {
                self.add(range.copy()?)?;
                fresh.push(range.copy()?)?;
            }
        }
        Ok(fresh)
    }

    /// Takes away all of them.
    pub fn clear(&mut self)
        ensures { self.new ≡ [] }
    {
        self.ranges.clear();
    }
}
