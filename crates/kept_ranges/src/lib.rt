// What is kept for a range of a join's output, when it is right, and what filling, advancing and mending make of it.
//
// `specs/` has the definitions; the modules below have no code: each public function has an empty body, and its contract is a
// law on the definitions. The layers above may use the definitions, and cite laws and lemmas.
#![tactic(auto)]

pub mod advance_laws;
pub mod fill_laws;
pub mod listing_laws;
pub mod mend_laws;
pub mod read_laws;
pub mod sound_laws;
