// What is asked for of one join.

/// Names the join whose output is asked for, by the position of its declaration and with its rank, and the number of entries
/// after which it is read.
#[derive(Clone, Copy)]
pub struct Query {
    /// The position of the join's declaration.
    pub at: u64,
    /// The rank of the join.
    pub rank: u8,
    /// The number of entries.
    pub p: u64,
}
