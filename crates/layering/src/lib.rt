// What stands below a rank, in a range and between two positions, and ranges in parts that join to them: the laws that
// layers of ranks rest on.
//
// `specs/` has the definitions; the modules below have no code: each public function has an empty body, and its contract is a
// law on the definitions. The layers above may cite laws and lemmas.
#![tactic(auto)]

pub mod layer_laws;
pub mod merge_laws;
pub mod part_laws;
pub mod reach_laws;
pub mod same_laws;
pub mod standing_laws;
