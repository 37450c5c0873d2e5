// The walk along the shortest cycle, by the least vertex at each step.
ghost use Rattle.std.specs.Prelude.{◌≡◌, ◌<◌, length, min, slice_index, IfOk, MatchOption};
ghost use Rattle.semantics.specs.Graphs.{AreVertices, IsLeastCycle};
ghost use Rattle.rank_order.specs.Walks.{AreDistances, IsLeastNext, HasNoNext};

use crate::distances::is_at;
use out_of_memory::OutOfMemory;
use std::alloc::Global;

/// The lesser of a vertex and the least one so far, if there is one.
fn lesser(least: Option<usize>, vertex: usize) -> usize
    ensures { MatchOption least (result ≡ vertex) (λ other. result ≡ min other vertex) }
{
    match least {
        None => vertex,
        Some(other) => other.min(vertex),
    }
}

/// The least vertex that `vertex` reads and that is so many steps before the goal, if there is one. Each edge is
/// visited once.
fn next_towards(
    edges: &[(usize, usize)],
    distances: &[usize],
    goal: usize,
    steps: usize,
    vertex: usize,
) -> Option<usize>
    requires ends { AreVertices (length distances.now) edges.now }
    ensures { MatchOption result (HasNoNext edges.now distances.now goal steps vertex) (IsLeastNext edges.now distances.now goal steps vertex) }
{
    let mut least = None;
    for &(reader, read) in edges {
        if reader == vertex && is_at(distances, goal, steps, read) {
            least = Some(lesser(least, read));
        }
    }
    least
}

/// The shortest cycle through `start`, and among the shortest the least, by the distances from `start`. Each edge is
/// visited once for each vertex of the cycle.
pub fn least_cycle(
    alloc: Global,
    edges: &[(usize, usize)],
    distances: &[usize],
    start: usize,
) -> Result<Vec<usize>, OutOfMemory>
    requires ends { AreVertices (length distances.now) edges.now }
    requires start_in { start < length distances.now }
    requires distances { AreDistances edges.now start (length distances.now) distances.now }
    requires cycle { 0 < slice_index distances.now start }
    ensures { IfOk result (λ c. IsLeastCycle edges.now start c.items) }
{
    let mut cycle = Vec::new(alloc);
    let mut vertex = start;
    let mut steps = distances[start];
    while steps > 0 {
        steps -= 1;
        cycle.push(vertex)?;
        vertex = next_towards(edges, distances, start, steps, vertex).unwrap();
    }
    Ok(cycle)
}
