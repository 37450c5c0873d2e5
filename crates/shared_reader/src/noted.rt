// The ranges that are read while cells are at work.
ghost use Rattle.std.specs.Prelude.{◌≡◌, ◌==◌, ◌⊎◌, ◌-◌, [], drop, length};
ghost use Rattle.shared_reader.specs.Noting.{MayBeNoted};

use key_space::Range;
use std::alloc::Global;
use std::marker::Model;

/// So many ranges are noted at most: ten times as many as a kept range may have needs with the default of `--rows`. A range that
/// comes from more is right, and is not marked for the others.
const MOST: usize = 1_048_576;

/// The ranges of base pairs that were read since a cell is at work, in order, and how many cells are: at most eight, one in
/// the work of another. While none is, none is noted. Their long texts are shared.
#[derive(Drop)]
pub struct Noted {
    cells: u32,
    ranges: Vec<Range>,
}

impl Model for Noted {
    ghost use Rattle.shared_reader.specs.Noting.{NotedView};

    ghost Value = { NotedView };

    ghost view = { λ n. record { cells = n.cells; ranges = n.ranges.items } };
}

impl Noted {
    /// No cell is at work. Nothing is allocated.
    pub fn new(alloc: Global) -> Noted
        ensures { result ≡ record { cells = 0; ranges = [] } }
    {
        Noted {
            cells: 0,
            ranges: Vec::new(alloc),
        }
    }

    /// One more cell is at work. Gives how many ranges are noted already.
    pub fn start(&mut self) -> usize
        ensures count { result ≡ length self.old.ranges }
        ensures ranges { self.new.ranges ≡ self.old.ranges }
    {
        self.cells = self.cells.saturating_add(1);
        self.ranges.len()
    }

    /// Whether one cell alone is at work.
    pub fn is_alone(&self) -> bool
        ensures { result ≡ (self.now.cells == 1) }
    {
        self.cells == 1
    }

    /// Notes the range as the last, where a cell is at work and there is room, and no more than 1,048,576. It takes constant time.
    pub fn note(&mut self, range: &Range)
        ensures { MayBeNoted self.old range.now self.new }
    {
        if self.cells == 0 {
            return;
        }
        if self.ranges.len() >= MOST {
            return;
        }
        if let Ok(copy) = range.copy() {
            let _pushed = self.ranges.push(copy);
        }
    }

    /// The ranges that were noted since so many were.
    pub fn since(&self, count: usize) -> &[Range]
        ensures { result.now ≡ drop count self.now.ranges }
    {
        let first = count.min(self.ranges.len());
        &self.ranges[first..]
    }

    /// One cell fewer is at work. Where none is any more, nothing is noted.
    pub fn end(&mut self)
        ensures cells { self.new.cells ≡ self.old.cells - 1 }
        ensures none { self.new.cells ≡ 0 → self.new.ranges ≡ [] }
        ensures some { (self.new.ranges ≡ self.old.ranges) ⊎ (self.new.ranges ≡ []) }
    {
        self.cells = self.cells.saturating_sub(1);
        if self.cells == 0 {
            self.ranges.clear();
        }
    }
}
