// Ranks, found in rounds over all edges.
ghost use Rattle.std.specs.Prelude.{◌≡◌, ◌<◌, length, IfOk, All};
ghost use Rattle.semantics.specs.Graphs.{AreVertices, ranks};
ghost use Rattle.rank_order.specs.Raises.{raised};

use out_of_memory::OutOfMemory;
use std::alloc::Global;

/// At each vertex one more than the greatest of the numbers that stand at what it reads, 0 where it reads nothing.
/// Each edge is visited once.
pub fn raise(
    alloc: Global,
    edges: &[(usize, usize)],
    numbers: &[u64],
) -> Result<Vec<u64>, OutOfMemory>
    requires ends { AreVertices (length numbers.now) edges.now }
    requires room { All (λ r. r < length numbers.now) numbers.now }
    ensures { IfOk result (λ v. v.items ≡ raised (length numbers.now) edges.now numbers.now) }
{
    let mut found = vec![in alloc; 0; numbers.len()]?;
    for &(reader, read) in edges {
        found[reader] = found[reader].max(numbers[read] + 1);
    }
    Ok(found)
}

/// The rank of each vertex below `n`. Each edge is visited once for each rank that there is, and at most `n` times.
pub fn find_ranks(
    alloc: Global,
    n: usize,
    edges: &[(usize, usize)],
) -> Result<Vec<u64>, OutOfMemory>
    requires ends { AreVertices n edges.now }
    ensures { IfOk result (λ v. v.items ≡ ranks n edges.now) }
{
    let mut numbers = vec![in alloc; 0; n]?;
    for _round in 0..n {
        let deeper = raise(alloc, edges, &numbers)?;
        if deeper == numbers {
            break;
        }
        numbers = deeper;
    }
    Ok(numbers)
}
