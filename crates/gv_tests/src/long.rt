//! Splitting of long arrays, tuples and variants into their parts.

use crate::encode::{texts, written};
use crate::glib::agrees;
use crate::rows::agree;
use crate::value::{long_tuple, parsed};
use gv_decode::{children, variant_parts};
use gv_value::GvValue;
use std::alloc::Global;
use std::panic::Expect;
use std::process::Abort;

/// Returns whether bytes have this number of children, each of them these bytes.
fn has_children(
    rt: &impl Abort,
    alloc: Global,
    of: &str,
    bytes: &[u8],
    count: usize,
    each: &[u8],
) -> bool {
    let of = parsed(rt, alloc, of);
    let found = children(alloc, &of, bytes).expect(rt, "children");
    drop(of);
    for child in found.as_slice() {
        if *child != each {
            return false;
        }
    }
    found.len() == count
}

/// Returns whether this number of copies of a child's bytes have as many children, and are a value
/// in normal form.
fn is_long(rt: &impl Abort, alloc: Global, of: &str, each: &[u8], count: usize) -> bool {
    let bytes = each.repeat(alloc, count).expect(rt, "memory");
    has_children(rt, alloc, of, &bytes, count, each) && agrees(rt, alloc, true, of, &bytes)
}

/// The types of arrays, the bytes of one element, and the number of elements.
const ARRAYS: [(&str, &[u8], usize); 3] = [
    ("ay", b"\x07", 100 << 10),
    ("ai", b"\x01\0\0\0", 1_100),
    ("a()", b"\0", 1_100),
];

#[test]
fn many_children(rt: HostRuntime) {
    let alloc = rt.alloc();
    for (of, each, count) in &ARRAYS {
        agree(&rt, of, is_long(&rt, alloc, of, each, *count));
    }
    let of = long_tuple(&rt, alloc, 1_100);
    assert!(rt; is_long(&rt, alloc, &of, b"\x07", 1_100));
    let words = vec![in alloc; "a"; 1_100].expect(&rt, "memory");
    let value = GvValue::Array(texts(&rt, alloc, &words));
    let bytes = written(&rt, alloc, "as", value).expect(&rt, "a value");
    assert!(rt; has_children(&rt, alloc, "as", bytes.as_slice(), 1_100, b"a\0"));
}

/// Returns whether a variant has its value in the bytes `inside`, and its type string in the bytes
/// `text`.
fn has_parts(bytes: &[u8], inside: &[u8], text: &[u8]) -> bool {
    match variant_parts(bytes) {
        Ok((value, of)) => value == inside && of == text,
        Err(_) => false,
    }
}

/// The variant has 100 KiB before the zero byte, and 100 KiB after it.
#[test]
fn long_variant(rt: HostRuntime) {
    let part = vec![in rt.alloc(); b'a'; 100 << 10].expect(&rt, "memory");
    let bytes = [part.as_slice(), b"\0", part.as_slice()].concat(rt.alloc());
    assert!(rt; has_parts(&bytes.expect(&rt, "memory"), &part, &part));
}
