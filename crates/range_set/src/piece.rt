// The pieces of a range.
use key_space::Range;

/// A part of a range that was asked for, which is not empty.
#[derive(Debug, Drop)]
pub enum Piece<T> {
    /// What the range has in common with a kept one, and the item of that one.
    Kept(Range, T),
    /// What lies between, before or behind the kept ranges: it meets none of them.
    Gap(Range),
}
