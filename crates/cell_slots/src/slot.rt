// The slots of cells.
use key_space::Range;
use range_state::RangeState;

/// What stands in a cell's slot.
#[derive(Drop)]
pub enum Slot {
    /// Nothing.
    Free,
    /// The place of a kept range that is lent to who works on it: the position of its join's declaration, and its range.
    Lent(u64, Range),
    /// A kept range, and the position of its join's declaration.
    Held(u64, RangeState),
}

/// A part of a range that was asked for, and the number of the cell that holds it, if one does.
#[derive(Drop)]
pub struct Part {
    /// The part.
    pub range: Range,
    /// The cell's number.
    pub cell: Option<u32>,
}
