// The cache that threads share, its clients, and the updater that brings forward what it keeps.
//
// The layers above may use `Seats`, `Cache::make`, `Cache::make_with_updater`, `Client`, `ClientService` and `Updater`:
// contracts see a client as its pass of the write history, that is, its number and what it has seen, and an updater as its pass
// too. Whatever the other clients do meanwhile, each reply is what evaluating the declared joins afresh gives after the entries
// that it names, or says that the position that was asked for lies ahead or too far back. From the clauses of two rounds of
// `meet_all` it follows that a history in between has all of each client (`HasAllOf`); the layers above say so in theirs.
// `LoneClient` is for a cache with one client: contracts see it as the history, and as an `OnlyWriter` it tells that it alone has
// written.
#![tactic(auto)]

pub mod alone;
pub mod cache;
pub mod client;
mod earlier;
mod feeding;
pub mod meeting;
mod scanning;
pub mod seats;
pub mod service;
pub mod updater;

pub use alone::{LoneClient, OnlyWriter};
pub use cache::Cache;
pub use client::{Client, Found};
pub use meeting::meet_all;
pub use range_cells::Turn;
pub use seats::Seats;
pub use service::ClientService;
pub use updater::Updater;
