//! Encoding of values.

use crate::value::parsed;
use fp_base::{Blob, Text};
use gv_encode::{EncodeError, encode};
use gv_value::{GvType, GvValue};
use std::alloc::Global;
use std::panic::Expect;
use std::process::Abort;

/// Encodes a value of the type with this type string.
pub fn written(
    rt: &impl Abort,
    alloc: Global,
    of: &str,
    value: GvValue,
) -> Result<Blob, EncodeError> {
    let of = parsed(rt, alloc, of);
    let bytes = encode(alloc, &of, &value);
    drop(of);
    drop(value);
    bytes
}

/// Returns whether a value of the type with this type string is encoded as these bytes.
fn is_written(rt: &impl Abort, alloc: Global, of: &str, value: GvValue, want: &[u8]) -> bool {
    let bytes = written(rt, alloc, of, value).expect(rt, "a value of the type");
    bytes.as_slice() == want
}

/// Makes the value of a text.
fn string(rt: &impl Abort, alloc: Global, letters: &str) -> GvValue {
    GvValue::Str(Text::from_str(alloc, letters).expect(rt, "memory"))
}

/// Makes the values of texts.
pub fn texts(rt: &impl Abort, alloc: Global, words: &[&str]) -> Vec<GvValue> {
    let mut texts = Vec::new(alloc);
    for word in words {
        texts.push(string(rt, alloc, word)).expect(rt, "memory");
    }
    texts
}

/// Makes the tuple of `foo` and -1.
fn pair(rt: &impl Abort, alloc: Global) -> GvValue {
    let mut members = texts(rt, alloc, &["foo"]);
    members.push(GvValue::Int32(-1)).expect(rt, "memory");
    GvValue::Tuple(members)
}

/// Makes a variant with the number 1.
fn one(rt: &impl Abort, alloc: Global) -> GvValue {
    let of = Box::new(alloc, GvType::Uint32).expect(rt, "memory");
    let value = Box::new(alloc, GvValue::Uint32(1)).expect(rt, "memory");
    GvValue::Variant(of, value)
}

/// Makes a maybe with this text in it.
fn just(rt: &impl Abort, alloc: Global, letters: &str) -> GvValue {
    let value = Box::new(alloc, string(rt, alloc, letters)).expect(rt, "memory");
    GvValue::Maybe(Some(value))
}

/// Checks that tuples, maybes, variants and arrays of texts are encoded as GLib encodes them.
#[test]
fn writes(rt: HostRuntime) {
    let alloc = rt.alloc();
    let none = GvValue::Array(texts(&rt, alloc, &[]));
    let words = GvValue::Array(texts(&rt, alloc, &["i", "can", "has", "strings?"]));
    let bytes = b"i\0can\0has\0strings?\0\x02\x06\x0a\x13";
    assert!(rt;
        is_written(
            &rt,
            alloc,
            "(si)",
            pair(&rt, alloc),
            b"foo\0\xff\xff\xff\xff\x04"
        )
    );
    assert!(rt; is_written(&rt, alloc, "ms", GvValue::Maybe(None), b""));
    assert!(rt; is_written(&rt, alloc, "ms", just(&rt, alloc, "a"), b"a\0\0"));
    assert!(rt; is_written(&rt, alloc, "v", one(&rt, alloc), b"\x01\0\0\0\0u"));
    assert!(rt; is_written(&rt, alloc, "as", none, b""));
    assert!(rt; is_written(&rt, alloc, "as", words, bytes));
}

/// Makes the array of this number of zero bytes.
fn bytes(rt: &impl Abort, alloc: Global, count: usize) -> GvValue {
    GvValue::Bytes(Blob::from_vec(vec![in alloc; 0; count].expect(rt, "memory")))
}

/// Checks that 16 MiB are encoded, and not one byte more.
#[test]
fn refuses_other_types_and_long_values(rt: HostRuntime) {
    let alloc = rt.alloc();
    let other = written(&rt, alloc, "u", string(&rt, alloc, "a"));
    assert!(rt; other.err() == Some(EncodeError::NotOfType));
    let most = written(&rt, alloc, "ay", bytes(&rt, alloc, 0x100_0000));
    assert!(rt; most.expect(&rt, "a value of the type").len() == 0x100_0000);
    let more = written(&rt, alloc, "ay", bytes(&rt, alloc, 0x100_0001));
    assert!(rt; more.err() == Some(EncodeError::TooLong));
}
