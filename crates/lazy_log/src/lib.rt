// Which parts of a kept range's output are pending, as slots of the output that were noted.
//
// The layers above may use `LazyLog`: contracts see it as the record of the output and of the noted slots, in the order of
// noting. The range that holds every key of the output under the slots is found once, when they are noted, so that whether
// they meet a range is asked without memory. Whether a key is covered is looked up by its texts where many are noted; where no
// memory is found for these, all that are noted are looked at.
#![tactic(auto)]

mod index;
pub mod laws;
pub mod log;

pub use log::LazyLog;
