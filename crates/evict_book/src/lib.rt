// Which kept ranges go, by last use.
//
// The layers above may use `EvictBook`: contracts see it as the list of its ids with their weights, the least recently used
// first.
#![tactic(auto)]

pub mod book;
pub mod laws;

pub use book::EvictBook;
