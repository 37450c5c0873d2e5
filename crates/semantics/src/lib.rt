// What Pequod stores and what it means: the definitions that every contract above cites, apart from any code.
//
// `specs/` has the definitions, to be read in the order of `specs/Lib.antt`: texts, patterns, joins, the history, what a join
// makes of a table, readings as graphs, the state, the verdict and the answers. The modules below have no code: each public
// function has an empty body, and its contract is a law on the definitions. `proofs/` has the lemmas behind the laws, which the
// proofs of the layers above may cite, in the order of `proofs/Lib.antt`.
#![tactic(auto)]

pub mod admissible_laws;
pub mod graph_laws;
pub mod output_laws;
pub mod pattern_laws;
pub mod state_laws;
