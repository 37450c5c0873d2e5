// Scripts of events: reading one, and the text that is printed for its answers.
//
// The layers above read a script with `read_script`, note with `marks_of_cells` which of its events are done to cells before
// they hand them on, and print the answers with `answers_text`, or a refused line with `refused_text`.
#![tactic(auto)]

pub mod answers;
mod event;
mod items;
pub mod script;

pub use answers::{answers_text, marks_of_cells};
pub use script::{RefusedLine, Script, read_script, refused_text};
