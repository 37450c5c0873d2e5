// Ranks of readings: each vertex ranks above those that it reads, or the least cycle is shown.
ghost use Rattle.std.specs.Prelude.{◌<◌, IsTrue};
ghost use Rattle.semantics.specs.Graphs.{AreVertices};
ghost use Rattle.rank_order.specs.Answers.{EachCycleMeets};

use rank_order::{Ranked, ranks};
use std::alloc::Global;
use test_rows::{Answer, Fields};

/// Whether `ranks` may be asked: the edges are between vertices below `n`, and each that does not touch `start` leads
/// down by the heights, so that every cycle goes through `start`.
fn is_fit(n: usize, edges: &[(usize, usize)], start: usize, heights: &[usize]) -> bool
    ensures ends { IsTrue result → AreVertices n edges.now }
    ensures start_in { IsTrue result → start < n }
    ensures cycles { IsTrue result → EachCycleMeets edges.now start }
{
    if start >= n || heights.len() != n {
        return false;
    }
    for &(reader, read) in edges {
        if reader >= n || read >= n {
            return false;
        }
        if reader != start && read != start && heights[read] >= heights[reader] {
            return false;
        }
    }
    true
}

/// Reads edges, as `READER>READ` with spaces between them.
fn read_edges(alloc: Global, field: &str) -> Option<Vec<(usize, usize)>> {
    let mut edges = Vec::new(alloc);
    for edge in field.split_whitespace() {
        let (reader, read) = edge.split_once('>')?;
        let reader = reader.parse::<usize>().ok()?;
        edges.push((reader, read.parse::<usize>().ok()?)).ok()?;
    }
    Some(edges)
}

/// Reads numbers with spaces between them.
fn read_heights(alloc: Global, field: &str) -> Option<Vec<usize>> {
    let mut heights = Vec::new(alloc);
    for height in field.split(' ') {
        heights.push(height.parse::<usize>().ok()?).ok()?;
    }
    Some(heights)
}

/// Answers `ranks;START;EDGES;HEIGHTS`, of as many vertices as there are heights: their ranks, or the least cycle.
pub fn answer(alloc: Global, mut fields: Fields<'_>, out: &mut Answer) -> Option<()> {
    let start = fields.number() as usize;
    let edges = read_edges(alloc, fields.next())?;
    let heights = read_heights(alloc, fields.next())?;
    let (n, edges) = (heights.len(), edges.as_slice());
    if !is_fit(n, edges, start, heights.as_slice()) {
        return None;
    }
    show_ranked(&ranks(alloc, n, edges, start).ok()?, out);
    Some(())
}

/// Adds the ranks or the cycle.
fn show_ranked(answer: &Ranked, out: &mut Answer) {
    match answer {
        Ranked::Ranks(ranks) => {
            out.word("ranks");
            for rank in ranks.iter() {
                out.number(*rank);
            }
        }
        Ranked::Cycle(cycle) => {
            out.word("cycle");
            for vertex in cycle.iter() {
                out.number(*vertex as u64);
            }
        }
    }
}
