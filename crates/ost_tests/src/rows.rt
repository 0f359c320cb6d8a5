//! Ending a test at a row of a table that is wrong.

use std::process::Abort;

/// Ends the test and prints the row, unless the row is right.
pub fn agree(rt: &impl Abort, row: &str, is_so: bool) {
    assert!(rt; is_so, "{row}");
}

/// Ends the test and prints the row's number, unless the row is right.
pub fn agree_at(rt: &impl Abort, row: usize, is_so: bool) {
    assert!(rt; is_so, "row {row}");
}
