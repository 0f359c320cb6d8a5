//! Tests of the record beside a commit's tree, for long bytes.

use dep_states::{DeployData, DeployError};
use std::alloc::Global;
use std::panic::Expect;

/// Returns whether the bytes are refused as a record.
fn is_no_record(alloc: Global, bytes: &[u8]) -> bool {
    match DeployData::read(alloc, bytes) {
        Ok(_data) => false,
        Err(error) => error == DeployError::Bad,
    }
}

/// 100 KiB of zero bytes are no record, since a record has a digest.
#[test]
fn a_long_record_is_refused(rt: HostRuntime) {
    let bytes = vec![in rt.alloc(); b'\0'; 100 << 10].expect(&rt, "memory");
    assert!(rt; is_no_record(rt.alloc(), &bytes));
}
