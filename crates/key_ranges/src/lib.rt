// Ranges: what two have in common, the ranges of one key and of one beginning, and the ranges of source keys that hold
// every key that can matter to a range of output keys. And what a read is answered: a key is found by the range of just it.
//
// `specs/` has the definitions; the modules below have no code: each public function has an empty body, and its contract is a
// law on the definitions, or a row worked by them. The layers above may use the definitions, and cite laws and lemmas.
#![tactic(auto)]

pub mod answer_laws;
pub mod containing_laws;
pub mod range_laws;
pub mod worked;
