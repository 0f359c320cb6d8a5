//! Ending a test at a wrong row of a table.

use std::process::Abort;

/// Fails the test and prints the row, unless `is_so` is true.
pub fn agree(rt: &impl Abort, row: &str, is_so: bool) {
    assert!(rt; is_so, "{row}");
}
