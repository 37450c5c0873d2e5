// A load: acts that are drawn, done by workers over one cache, and the line that tells what stands then.
//
// The layers above may use `load_text` and `Load`.
#![tactic(auto)]

mod acting;
mod declaring;
mod held;
mod jobs;
pub mod loading;
mod reading;
mod text;
mod working;

pub use loading::{Load, load_text};
