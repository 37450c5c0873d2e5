// What a look finds that asks for joins.
use join_set::JoinSet;

/// What a look finds that asks for the joins which stand, by a position that is known.
#[derive(Debug, Drop)]
pub struct Looked {
    /// The number of entries.
    pub length: u64,
    /// The joins that stand after them. None where the last declaration or drop is at the position that is known.
    pub joins: Option<JoinSet>,
}
