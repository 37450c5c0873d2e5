// The sets of joins that may stand, why a join may not be added to one, and the verdict of a write.
//
// The layers above may use the rules on joins, `JoinSet` and `Standing`: contracts see a set as its joins with their positions
// and what it remembers of dropped ones, and `Standing` as what it keeps of a history. `look_at_write` says what is so of a write
// by its type alone.
#![tactic(auto)]

mod drops;
pub mod fault;
pub mod looking;
mod places;
mod reading;
pub mod rules;
pub mod set;
pub mod standing;
mod stands;
mod stays;
mod weighing;
mod widths;

pub use fault::{AddFault, RemoveFault};
pub use looking::look_at_write;
pub use rules::{has_table, keeps_slot_rule, keeps_source_rule, reads_output};
pub use set::JoinSet;
pub use standing::Standing;
