// The ranks of joins by what each reads, or the cycle that stands in their way.
//
// The layer above calls `ranks`.
#![tactic(auto)]

mod answer;
mod distances;
mod levels;
mod walk;

pub use answer::{Ranked, ranks};
