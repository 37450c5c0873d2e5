// The distances of vertices from a goal, found breadth first backwards.
ghost use Rattle.std.specs.Prelude.{◌≡◌, ◌+◌, ◌<◌, length, IfOk, vec_len};
ghost use Rattle.semantics.specs.Graphs.{AreVertices};
ghost use Rattle.rank_order.specs.Walks.{AreDistances, is_at_distance};

use out_of_memory::OutOfMemory;
use std::alloc::Global;

/// Whether a vertex is so many steps before the goal, by the distances that are known; the goal itself is at none.
pub fn is_at(distances: &[usize], goal: usize, steps: usize, vertex: usize) -> bool
    requires { vertex < length distances.now }
    ensures { result ≡ is_at_distance distances.now goal steps vertex }
{
    if steps == 0 {
        vertex == goal
    } else {
        distances[vertex] == steps
    }
}

/// Extends distances of at most `steps` to those of one step more. Each edge is visited once.
pub fn mark_round(distances: &mut [usize], edges: &[(usize, usize)], goal: usize, steps: usize)
    requires ends { AreVertices (length distances.old) edges.now }
    requires room { steps < length distances.old }
    requires before { AreDistances edges.now goal steps distances.old }
    ensures after { AreDistances edges.now goal (steps + 1) distances.new }
{
    for &(reader, read) in edges {
        if distances[reader] == 0 && is_at(distances, goal, steps, read) {
            distances[reader] = steps + 1;
        }
    }
}

/// The distance of each vertex below `n` from the goal, 0 where no walk leads there. Each edge is visited `n` times.
pub fn distances_to(
    alloc: Global,
    n: usize,
    edges: &[(usize, usize)],
    goal: usize,
) -> Result<Vec<usize>, OutOfMemory>
    requires ends { AreVertices n edges.now }
    ensures length { IfOk result (λ v. vec_len v ≡ n) }
    ensures distances { IfOk result (λ v. AreDistances edges.now goal n v.items) }
{
    let mut distances = vec![in alloc; 0; n]?;
    for steps in 0..n {
        mark_round(&mut distances, edges, goal, steps);
    }
    Ok(distances)
}
