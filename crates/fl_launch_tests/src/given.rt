//! Refs, key files and rows for tests.

use fp_keyfile::KeyFile;
use fp_name::{Digest, RefName, RemoteName};
use fp_small::RefRow;
use std::alloc::Global;
use std::panic::Expect;
use std::process::Abort;

/// Parses a ref.
pub fn ref_name(rt: &impl Abort, alloc: Global, text: &str) -> RefName {
    RefName::parse(alloc, text.as_bytes()).expect(rt, "a ref")
}

/// Parses a key file.
pub fn key_file(rt: &impl Abort, alloc: Global, text: &str) -> KeyFile {
    KeyFile::parse(alloc, text.as_bytes()).expect(rt, "a key file")
}

/// Returns the row of a ref, deployed at the commit whose digest is this byte 32 times.
pub fn row_of(rt: &impl Abort, alloc: Global, name: &str, byte: u8) -> RefRow {
    RefRow {
        name: ref_name(rt, alloc, name),
        origin: RemoteName::parse(alloc, b"lab").expect(rt, "a remote"),
        commit: Digest::from_bytes([byte; 32]),
        timestamp: 1,
        previous: None,
    }
}
