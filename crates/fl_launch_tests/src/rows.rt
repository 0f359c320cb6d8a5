//! The end of a test at a wrong row of a table.

use std::process::Abort;

/// Fails the test and prints the row, unless `is_so` is true.
pub fn agree(rt: &impl Abort, row: &str, is_so: bool) {
    assert!(rt; is_so, "{row}");
}

/// Fails the test and prints the number of the row, unless `is_so` is true.
pub fn agree_at(rt: &impl Abort, row: usize, is_so: bool) {
    assert!(rt; is_so, "row {row}");
}
