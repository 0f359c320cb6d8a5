//! Parsing of paths and patterns in tests.

use fp_host::Path;
use fp_name::PinPattern;
use std::alloc::Global;
use std::panic::Expect;
use std::process::Abort;

/// Parses a path.
pub fn path(rt: &impl Abort, alloc: Global, text: &str) -> Path {
    Path::parse(alloc, text).expect(rt, "a path")
}

/// Parses a pattern of refs.
pub fn pattern_of(rt: &impl Abort, alloc: Global, text: &str) -> PinPattern {
    PinPattern::parse(alloc, text.as_bytes()).expect(rt, "a pattern")
}
