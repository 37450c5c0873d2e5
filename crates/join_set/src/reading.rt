// The reading of a set of joins with one more.
ghost use Rattle.std.specs.Prelude.{◌≡◌, ℕ, IfOk, OnOk, ◌++◌};
ghost use Rattle.semantics.specs.States.{reading};
ghost use Rattle.semantics.specs.Verdicts.{joined};
ghost use Rattle.join_set.specs.Readings.{edges_from};

use crate::rules::reads_output;
use crate::stands::Stands;
use join_types::Join;
use out_of_memory::OutOfMemory;
use std::alloc::Global;

/// The edges from the reader with this number to those joins that it reads, the new one last, are added.
fn add_edges(
    edges: &mut Vec<(usize, usize)>,
    number: usize,
    reader: &Join,
    joins: &[Stands],
    join: &Join,
) -> Result<(), OutOfMemory>
    // The edges say nothing of the position of the new join.
    ensures { OnOk result ((at : ℕ) → edges.new.items ≡ edges.old.items ++ edges_from number reader.now (joined joins.now at join.now)) }
{
    for (other, stands) in joins.iter().enumerate() {
        if reads_output(reader, &stands.join) {
            edges.push((number, other))?;
        }
    }
    if reads_output(reader, join) {
        edges.push((number, joins.len()))?;
    }
    Ok(())
}

/// The reading of the set with the new join, which has the last number. Each join is compared with each.
pub fn edges(
    alloc: Global,
    joins: &[Stands],
    join: &Join,
) -> Result<Vec<(usize, usize)>, OutOfMemory>
    ensures { IfOk result (λ edges. (at : ℕ) → edges.items ≡ reading (joined joins.now at join.now)) }
{
    let mut edges = Vec::new(alloc);
    for (number, stands) in joins.iter().enumerate() {
        add_edges(&mut edges, number, &stands.join, joins, join)?;
    }
    add_edges(&mut edges, joins.len(), join, joins, join)?;
    Ok(edges)
}
