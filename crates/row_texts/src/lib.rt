// Texts of rows of tests over keys, pairs, joins and histories: how they are read, and how answers are shown. It serves
// programs of trials alone, and no crate that is tried stands on it.
//
// Dangerous here: `Unread` says of a mistyped row, and of a history whose entry is refused, no more than that there is no answer.
#![tactic(auto)]

pub mod reading;
pub mod showing;
pub mod telling;

pub use reading::Unread;
