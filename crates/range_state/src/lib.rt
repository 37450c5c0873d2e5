// A kept range of a join's output: filled, advanced to later positions, mended where something is pending, and read; and the
// last 256 notes of which keys of it may have changed, and when.
//
// The layers above may use `RangeState`, over any reader: contracts see it as the kept range of the definitions, and each call
// keeps `IsSound` over the reader's list. They see `Notes` as their list in the order in which they were made, and the position
// from which they are complete.
//
// An advance goes in parts, each a public call over any reader that keeps nothing itself: `ask_needs` hands out each changed
// key with what stands there, then `touches`, then, through the needs that are left, `applications`, which carry these values,
// and then `apply_values`, or `list_values` and `remake_rows` for an aggregate; `merged` puts keys in order. `laws` says that
// the needs of a right kept range can fill, and how many touches and applications there are.
//
// Dangerous here: a call that answers a fault, for want of memory or because there are more needs than may be kept, may leave
// nothing kept, so whoever goes on asks for the `position` again. What is pending stays until it is mended, and each advance
// walks it.
#![tactic(auto)]

mod advancing;
pub mod applying;
pub mod asking;
mod filling;
mod holding;
pub mod laws;
mod listing;
mod mending;
pub mod merging;
pub mod note;
pub mod notes;
pub mod setting;
mod since;
pub mod state;
mod subject;
pub mod touching;

pub use applying::{Application, applications};
pub use asking::ask_needs;
pub use merging::merged;
pub use note::{Marked, Note};
pub use notes::Notes;
pub use setting::{apply_values, list_values, remake_rows};
pub use state::RangeState;
pub use touching::{Touch, changes_in, touches};
