// The joins that cells are given to.
ghost use Rattle.std.specs.Prelude.{◌≡◌};
ghost use Rattle.shared_cells.specs.Listings.{has_join};

use crate::ranked_join::RankedJoin;
use join_set::JoinSet;
use out_of_memory::OutOfMemory;
use std::alloc::Global;
use std::collections::BTreeSet;

/// The joins with their ranks, as they stood after the last declaration or drop that the cells have followed.
#[derive(Drop)]
pub struct Followed {
    changed: u64,
    joins: BTreeSet<RankedJoin>,
}

impl Followed {
    /// Makes it of no joins, as before any declaration.
    pub fn new(alloc: Global) -> Followed {
        Followed {
            changed: 0,
            joins: BTreeSet::new(alloc),
        }
    }

    /// Takes the joins of a set with their ranks, at a search for each.
    pub fn of(alloc: Global, joins: &JoinSet) -> Result<Followed, OutOfMemory> {
        let mut ranked = BTreeSet::new(alloc);
        for i in 0..joins.len() {
            ranked.insert(RankedJoin {
                at: joins.at(i),
                rank: joins.rank(i),
            })?;
        }
        Ok(Followed {
            changed: joins.changed_at(),
            joins: ranked,
        })
    }

    /// Tells the position of the last declaration or drop that was followed, 0 where there was none.
    pub fn changed_at(&self) -> u64 {
        self.changed
    }

    /// Says whether the join is one of these with its rank, or was declared after these stood. At most one search.
    pub fn has(&self, join: RankedJoin) -> bool
        ensures { result ≡ has_join self.now join }
    {
        if self.changed < join.at {
            return true;
        }
        self.joins.contains(&join)
    }
}
