// The ranks of a reading, or its cycle.
ghost use Rattle.std.specs.Prelude.{◌≡◌, ◌<◌, ◌↔◌, IfOk};
ghost use Rattle.semantics.specs.Graphs.{AreVertices, IsAcyclic, IsLeastCycle, ranks};
ghost use Rattle.rank_order.specs.Answers.{EachCycleMeets, IsRanks, IfRanks, IfCycle};

use crate::distances::distances_to;
use crate::levels::find_ranks;
use crate::walk::least_cycle;
use out_of_memory::OutOfMemory;
use std::alloc::Global;

/// What `ranks` finds.
#[derive(Debug, Drop)]
pub enum Ranked {
    /// There is no cycle: the rank of each vertex, in order.
    Ranks(Vec<u64>),
    /// There is one: the vertices of the shortest, each of which reads the next and the last the first.
    Cycle(Vec<usize>),
}

/// The ranks of the vertices below `n`, of which `a` reads `b` for each edge `(a, b)`, or the least cycle where
/// there is one: the shortest through `start`, beginning there, and among the shortest the least.
///
/// Every cycle must go through `start`, as it does where `start` was added to a reading without one. It may
/// report that it found no memory, which says nothing of the reading. It visits each edge at most `2 * n` times, and
/// makes a list of `n` numbers for each rank that there is and two besides.
pub fn ranks(
    alloc: Global,
    n: usize,
    edges: &[(usize, usize)],
    start: usize,
) -> Result<Ranked, OutOfMemory>
    requires ends { AreVertices n edges.now }
    requires start_in { start < n }
    requires cycles { EachCycleMeets edges.now start }

    // Ranks come exactly where there is no cycle, and a cycle exactly where there is one.
    ensures acyclic { IfOk result (λ r. IsRanks r ↔ IsAcyclic edges.now) }
    ensures ranks { IfOk result (λ r. IfRanks r (λ found. found ≡ ranks n edges.now)) }
    ensures cycle { IfOk result (λ r. IfCycle r (IsLeastCycle edges.now start)) }
{
    let distances = distances_to(alloc, n, edges, start)?;
    if distances[start] == 0 {
        return Ok(Ranked::Ranks(find_ranks(alloc, n, edges)?));
    }
    Ok(Ranked::Cycle(least_cycle(alloc, edges, &distances, start)?))
}
