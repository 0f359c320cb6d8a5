//! The end of a test at a wrong row of a table.

use std::process::Abort;

/// Ends the test if `is_so` is false, and prints the row.
pub fn agree(rt: &impl Abort, row: &str, is_so: bool) {
    assert!(rt; is_so, "{row}");
}
