// Laws on the definitions of what is stored, and on a history that grows, apart from any code: how its longer forms begin, that
// each entry entered, the rank of a join after some entries, and what changes in a range of the state between two positions, as
// a list of keys with their later values.
//
// `specs/` has the definitions of what changes; the modules below have no code: each public function has an empty body, and its
// contract is a law on the definitions. `proofs/` has the lemmas behind the laws, in the order of `proofs/Lib.antt`. The layers
// above may use the definitions, and cite laws and lemmas.
#![tactic(auto)]

pub mod admissible_laws;
pub mod change_laws;
pub mod fixed_point_laws;
pub mod integer_laws;
pub mod list_laws;
pub mod output_laws;
pub mod pattern_laws;
pub mod reading_laws;
pub mod state_laws;
