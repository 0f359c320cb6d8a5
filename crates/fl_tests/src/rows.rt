//! Failing a test at a row of a table.

use std::process::Abort;

/// Fails the test and prints the row, unless `is_so`.
pub fn agree(rt: &impl Abort, row: &str, is_so: bool) {
    assert!(rt; is_so, "{row}");
}
