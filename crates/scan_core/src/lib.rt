// The core as one value: a history, the scans under way, and cells that keep ranges of joins' outputs.
//
// The layers above may use `World`, which answers one event after another, and `run_events`, which answers a list of them: each
// answer is what `core_events::plain` says, which knows no cells.
#![tactic(auto)]

pub mod cell_events;
pub mod contents;
pub mod reading;
pub mod run;
pub mod scan_table;
pub mod world;

pub use run::run_events;
pub use scan_table::{EndedScan, NextPart, ScanTable};
pub use world::World;
