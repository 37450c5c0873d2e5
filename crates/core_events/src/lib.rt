// The events of the core, what they are answered with nothing kept, the text that `replay` prints, and scripts of events.
//
// `specs/` has the definitions, by which the layers above state, as `plain`, what the core answers to every list of events.
// `event` and `bound` have the values that code passes on: contracts see an event and an answer as the data of the definitions,
// by `plain_event` and `plain_done`, and a bound of a scan as its text. The other modules have no code: each public function
// has an empty body, and its contract is a law on the definitions, or a script that is computed with them.
#![tactic(auto)]

pub mod bound;
pub mod event;
pub mod plain_laws;
pub mod printed_laws;
pub mod script_laws;
pub mod worked;

pub use bound::ScanBound;
pub use event::{Done, Event};
