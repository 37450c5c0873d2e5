// The commands of Pequod over what they are handed: a source, a sink, a shelf, doors and a gate.
//
// `top::pequod` is the top call: it does all that the program does and carries its contract. The program hands it the real
// source, sink, shelf and doors; trials hand it those in memory.
//
// Dangerous here: `serve` ends only once the doors are closed or fail, and does not count links itself. Whoever makes the doors has
// them close after as many as `links` says.
#![tactic(auto)]

mod check;
mod load;
mod replay;
mod run;
mod serve;
pub mod status;
pub mod top;
pub mod usage;

pub use status::Status;
pub use top::{links, pequod};
