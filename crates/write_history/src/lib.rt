// The write history that all threads share: one list of entries, to which each pass of it appends.
//
// The layers above may use `History`, `Pass`, `Looked` and `AppendFault`: contracts see a history as which one it is and how many
// passes it has of each kind, and a pass as its number, the number of passes that may write, the entries that it has seen, what its
// word says, and a number of first entries that it knows to be dropped. All views of one history are beginnings of one list.
//
// The history is a table of words and one slot. The words are the turn, the number of entries, the number of first entries that the
// log no longer stores, and for each pass that is pinned or notes positions one that says where; each lies on a cache line of its
// own. The slot holds the log, and whoever has the turn has the log too. For each of 16 parts of the tables the log keeps, beside
// the entries, the positions of those that put or remove a key of the part. What is true of the words, the slot and the passes at
// any moment is the rule of `specs/Rule.antt`, and what each step tells is in `specs/Steps.antt`.
#![tactic(auto)]

mod entry_list;
mod fault;
mod history;
mod known;
mod log;
mod looked;
mod part_numbers;
mod pass;
mod plays;
mod rule;
mod turn;

pub use fault::AppendFault;
pub use history::History;
pub use known::{Kinds, Mark};
pub use looked::Looked;
pub use pass::Pass;
