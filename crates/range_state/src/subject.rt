// What a kept range is of.
ghost use Rattle.std.specs.Prelude.{◌≡◌, true};
ghost use Rattle.semantics.specs.Texts.{is_range};

use join_types::Join;
use key_space::Range;
use std::alloc::Global;

/// What a kept range is of, whatever is kept: a join with its rank, and a range of its output.
#[derive(Debug, Drop)]
pub struct Subject {
    /// By which everything that is kept grows.
    pub alloc: Global,
    /// The join.
    pub join: Join,
    /// Its rank.
    pub rank: u8,
    /// The range of its output.
    pub range: Range,
}

impl Subject {
    /// Looks at the range, and so knows that its bounds are those of one.
    pub fn look(&self)
        ensures { is_range self.now.range.low self.now.range.high ≡ true }
    {
        let _low = self.range.lo();
    }
}
