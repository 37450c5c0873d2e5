// The base pairs of all tables, which threads share: 16 parts with a lock each, each with a pass of the write history.
//
// The layers above may use `BaseShards`, whose calls may wait for a lock, and `Naming`. What is done under a lock is stated at
// `Shard`, on the functions that are lent the locked value: no contract of a call that takes the lock can say it.
#![tactic(auto)]

pub mod base_shards;
mod key_set;
pub mod laws;
mod marking;
pub mod naming;
pub mod shard;

pub use base_shards::BaseShards;
pub use naming::Naming;
pub use shard::{SHARDS, Shard};
