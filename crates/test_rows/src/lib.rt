// Tables of tests as data. A program of trials reads one case a line, whose fields stand between `;`, and prints the line again
// with its answer. It serves trials alone, and no crate that is tried stands on it.
//
// Dangerous here: it is lenient, so that a program of trials has little that may fail. A field that is missing is the empty
// text, one that is no number is 0, and a word for which no memory is left is left out of the answer. A row that was mistyped
// shows by its answer, and by nothing else.
#![tactic(auto)]

mod answer;
mod escapes;
mod fields;

pub use answer::Answer;
pub use escapes::{escape, unescape};
pub use fields::Fields;
