// Patterns of keys: which keys fit, what slots they give, which key slots fill, what slots a range of keys shares, and
// which range holds the keys that fit under slots.
//
// The layers above may use all that is public here: contracts see a pattern as the list of its plain segments and slots as a
// list of 16 options of texts.
#![tactic(auto)]

mod matching;
mod narrowing;
pub mod pattern;
mod ranging;
pub mod segment;
mod slot_order;
mod slot_places;
pub mod slots;

pub use pattern::Pattern;
pub use segment::Segment;
pub use slots::{SlotTexts, Slots};
