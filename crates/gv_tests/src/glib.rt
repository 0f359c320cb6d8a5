//! Bytes that GLib takes or refuses, and the sizes at which its offsets get wider.

use crate::encode::{texts, written};
use crate::examples::EXAMPLES;
use crate::rows::agree;
use crate::value::parsed;
use crate::vectors::VECTORS;
use gv_decode::{DecodeError, check_normal, decode};
use gv_encode::encode;
use gv_value::{GvType, GvValue};
use std::alloc::Global;
use std::panic::Expect;
use std::process::Abort;

/// Returns whether bytes decode exactly if they are in normal form, and are encoded again as they
/// were.
fn is_read(rt: &impl Abort, alloc: Global, normal: bool, of: &GvType, bytes: &[u8]) -> bool {
    match decode(alloc, of, bytes) {
        Ok(value) => {
            let written = encode(alloc, of, &value).expect(rt, "a value");
            drop(value);
            normal && written.as_slice() == bytes
        }
        Err(error) => !normal && error == DecodeError::NotNormal,
    }
}

/// Returns whether bytes pass the check for the normal form of a type exactly if they are in it,
/// decode exactly then, and are encoded again as they were.
pub fn agrees(rt: &impl Abort, alloc: Global, normal: bool, of: &str, bytes: &[u8]) -> bool {
    let of = parsed(rt, alloc, of);
    let checked = check_normal(alloc, &of, bytes);
    let is_passed = match checked {
        Ok(()) => normal,
        Err(error) => !normal && error == DecodeError::NotNormal,
    };
    let is_so = is_passed && is_read(rt, alloc, normal, &of, bytes);
    drop(of);
    is_so
}

/// Returns whether decoding agrees with GLib on a line of the vectors.
fn line_agrees(rt: &impl Abort, alloc: Global, line: &str) -> bool {
    let (word, rest) = line.split_once(' ').expect(rt, "a word");
    let (of, digits) = rest.split_once(' ').expect(rt, "a type");
    let bytes = hex::decode(alloc, digits).expect(rt, "digits");
    agrees(rt, alloc, word == "yes", of, &bytes)
}

#[test]
fn reads_and_writes_as_glib_does(rt: HostRuntime) {
    for lines in &[VECTORS, EXAMPLES] {
        for line in lines.lines() {
            agree(&rt, line, line_agrees(&rt, rt.alloc(), line));
        }
    }
}

/// Returns whether a value is encoded in this number of bytes, with this ending, and decodes again.
fn is_written(
    rt: &impl Abort,
    alloc: Global,
    of: &str,
    value: GvValue,
    size: usize,
    ending: &[u8],
) -> bool {
    let bytes = written(rt, alloc, of, value).expect(rt, "a value");
    bytes.len() == size
        && bytes.as_slice().ends_with(ending)
        && agrees(rt, alloc, true, of, bytes.as_slice())
}

/// The numbers of letters of two texts, the number of bytes of their tuple, and the ending of these
/// bytes.
const PAIRS: [(usize, usize, usize, &[u8]); 4] = [
    (200, 52, 255, b"a\0\xc9"),
    (200, 53, 257, b"a\0\xc9\0"),
    (65000, 531, 65535, b"a\0\xe9\xfd"),
    (65000, 532, 65538, b"a\0\xe9\xfd\0\0"),
];

/// The number of texts in an array, the number of bytes of the array, and the ending of these
/// bytes.
const ARRAYS: [(usize, usize, &[u8]); 4] = [
    (255, 1020, b"\xfc\x01\xfe\x01"),
    (256, 1024, b"\xfe\x01\0\x02"),
    (65535, 393210, b"\xfe\xff\x01\0"),
    (65536, 393216, b"\0\0\x02\0"),
];

#[test]
fn offsets_widen(rt: HostRuntime) {
    let alloc = rt.alloc();
    for (first, second, size, ending) in &PAIRS {
        let first = "a".repeat(alloc, *first).expect(&rt, "memory");
        let second = "a".repeat(alloc, *second).expect(&rt, "memory");
        let value = GvValue::Tuple(texts(&rt, alloc, &[&first, &second]));
        assert!(rt; is_written(&rt, alloc, "(ss)", value, *size, ending));
    }
    for (count, size, ending) in &ARRAYS {
        let words = vec![in alloc; "a"; *count].expect(&rt, "memory");
        let value = GvValue::Array(texts(&rt, alloc, &words));
        assert!(rt; is_written(&rt, alloc, "as", value, *size, ending));
    }
}
