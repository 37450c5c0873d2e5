// What all layers have in common.

use crate::SharedCells;
use base_shards::Naming;
use std::alloc::Global;

/// The cells that threads share, in which all layers of a reader keep ranges, and what they need for that.
#[derive(Drop)]
pub struct Room<'a, N: Naming, W, G> {
    /// By which kept ranges grow.
    pub alloc: Global,
    /// With what they wait.
    pub rt: &'a W,
    /// What is passed before a range is filled or mended.
    pub gate: &'a G,
    /// The cells.
    pub cells: &'a SharedCells<N>,
    /// How many needs a kept range may have at most.
    pub most: u64,
}
