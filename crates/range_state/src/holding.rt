// What is kept at a position.
use crate::Notes;
use agg_rows::AggRows;
use join_rows::Rows;
use lazy_log::LazyLog;

/// What is kept for a range at a position.
#[derive(Drop)]
pub struct Holding {
    /// The position.
    pub position: u64,
    /// The rows of the output, and the needs from which they come.
    pub rows: Rows,
    /// The slots of the output that are pending.
    pub pending: LazyLog,
    /// For an aggregate, the pairs that are listed at each output key.
    pub groups: Option<AggRows>,
    /// Which parts of the output were touched, and when.
    pub notes: Notes,
}
