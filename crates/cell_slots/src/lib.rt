// What one kept range gives for a piece of a range at a position, over any reader; the slots of cells that keep ranges, and
// what a layer of a reader asks of them; and what has to be evaluated where nothing is kept, as in a gap between two ranges
// that are.
//
// The layers above may use all that is public here. Of a kept range: `serve` a piece, `serve_up_to` from one that keeps so many
// needs at most, `hand_kept` to a sink, or `serve_alone` with nothing kept; `reach` a position alone, or `catch_up` with it
// where nothing is to be filled, and whether a kept range `is_past` one, or `stands_from` one; `renew` a kept range with
// another rank; the `changes_since` a position of a kept range's output; and `merge` pairs. Of cells: `Slot` and `Part`, and
// the trait `Cells`, a reader over cells that lends what they hold. Of gaps: the `output_part` of a range, in which all is that
// a join gives in it, whether it `reads_all` of what the join reads first, and the limit of the parts of a range whose gaps are
// kept, `are_too_many`.
#![tactic(auto)]

pub mod cells;
pub mod fitting;
pub mod handing;
pub mod merging;
pub mod parts;
pub mod reading;
pub mod serving;
pub mod slot;
pub mod slots;
pub mod telling;

pub use cells::Cells;
pub use fitting::output_part;
pub use handing::hand_kept;
pub use merging::merge;
pub use parts::are_too_many;
pub use reading::reads_all;
pub use serving::{is_past, reach, renew, serve, serve_alone, serve_up_to, stands_from};
pub use slot::{Part, Slot};
pub use telling::{catch_up, changes_since};
