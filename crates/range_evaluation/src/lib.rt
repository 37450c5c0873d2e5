// How the output of a join over a range is found from ranges of its sources.
//
// `specs/` has the definitions; the modules below have no code: each public function has an empty body, and its contract is a
// law on the definitions, or a row that is computed with them. The layers above may use the definitions, and cite laws and
// lemmas.
#![tactic(auto)]

pub mod contribution_laws;
pub mod path_laws;
pub mod tree_laws;
pub mod worked;
