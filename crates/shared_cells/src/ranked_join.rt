// A join with a rank.
ghost use Rattle.std.specs.Prelude.{◌≡◌};

use rank_layers::Query;

/// A join with a rank that it has after some number of entries. The join is named by the position of its declaration. What is
/// kept of its output while it has one rank is kept apart from what is kept while it has another.
#[derive(Clone, Copy, Debug, PartialEq, Eq, PartialOrd, Ord)]
pub struct RankedJoin {
    /// The position.
    pub at: u64,
    /// The rank.
    pub rank: u8,
}

impl RankedJoin {
    /// Gives the join that a query asks for, with its rank.
    pub fn of(query: Query) -> RankedJoin
        ensures at { result.at ≡ query.at }
        ensures rank { result.rank ≡ query.rank }
    {
        RankedJoin {
            at: query.at,
            rank: query.rank,
        }
    }
}
