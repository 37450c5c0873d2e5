// The one assertion that all rows of tables are held to.
use std::process::Abort;

/// Ends the test where this call of this row was not answered as it should be.
pub fn holds(rt: &impl Abort, row: usize, call: usize, is_right: bool) {
    assert!(rt; is_right, "row {row}, call {call}");
}
