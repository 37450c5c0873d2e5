// Worked runs, computed by the definitions alone, byte for byte.
//
// Each public function has an empty body, and its contract is a run: the transcript of some lines is these replies. One is a
// law over all lines that are too long, which are not computed. No layer stands on it.
#![tactic(auto)]

pub mod aggregate_rows;
pub mod copy_rows;
pub mod earlier_rows;
pub mod input_rows;
pub mod refusal_rows;
