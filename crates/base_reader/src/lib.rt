// The lowest reader: it reads the base pairs that no output hides.
//
// What it does is written once, in `lowest`, over `BaseSource`: a list of entries, its base pairs and the joins that stand. The
// layers above may use `BaseReader`, whose source is a list in memory, and which contracts see as the list of its entries; the
// functions of `lowest`, for a source of their own; and the joins of a set by their positions, in `reaching`.
#![tactic(auto)]

pub mod hiding;
pub mod lowest;
pub mod reaching;
pub mod reader;
pub mod source;

pub use reader::BaseReader;
pub use source::BaseSource;
