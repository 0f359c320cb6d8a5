//! Decoding of bytes, which must be in normal form.

use crate::rows::agree;
use crate::value::parsed;
use gv_decode::{DecodeError, decode};
use gv_value::GvValue;
use std::alloc::Global;
use std::panic::Expect;
use std::process::Abort;

/// Decodes bytes as a value of the type with this type string.
fn value_of(
    rt: &impl Abort,
    alloc: Global,
    of: &str,
    bytes: &[u8],
) -> Result<GvValue, DecodeError> {
    let of = parsed(rt, alloc, of);
    let read = decode(alloc, &of, bytes);
    drop(of);
    read
}

/// Returns whether bytes decode as the array of themselves.
fn reads_bytes(rt: &impl Abort, alloc: Global, bytes: &[u8]) -> bool {
    match value_of(rt, alloc, "ay", bytes) {
        Ok(GvValue::Bytes(kept)) => kept.as_slice() == bytes,
        Ok(_) | Err(_) => false,
    }
}

/// Returns whether bytes decode as a tuple of this text and this number.
fn reads_pair(rt: &impl Abort, alloc: Global, bytes: &[u8], letters: &str, number: i32) -> bool {
    let value = value_of(rt, alloc, "(si)", bytes).expect(rt, "a value");
    let is_so = match &value {
        GvValue::Tuple(members) => match members.as_slice() {
            [GvValue::Str(text), GvValue::Int32(found)] => {
                text.as_str() == letters && *found == number
            }
            _ => false,
        },
        _ => false,
    };
    drop(value);
    is_so
}

#[test]
fn reads_values(rt: HostRuntime) {
    let pair = b"foo\0\xff\xff\xff\xff\x04";
    assert!(rt;
        reads_pair(&rt, rt.alloc(), pair, "foo", -1)
            && reads_bytes(&rt, rt.alloc(), b"\x04\x05\x06\x07")
    );
}

/// Type strings, and bytes that aren't a value of the type in normal form.
const REFUSED: [(&str, &[u8]); 7] = [
    // The text lacks its zero byte.
    ("(si)", b"foo\0\xff\xff\xff\xff\x03"),
    // A padding byte isn't zero.
    ("(yu)", b"\x01\0\0\x01\x02\0\0\0"),
    // The second offset is less than the first.
    ("as", b"a\0b\0\x03\x02\x04"),
    // There is one more offset than the tuple needs.
    ("(ys)", b"\x01a\0\x03"),
    ("()", b""),
    ("b", b"\x02"),
    ("mu", b"\x01\0\0\0\0"),
];

/// The letters of two texts.
const LETTERS: [u8; 252] = [b'a'; 252];

/// Returns the bytes of a tuple of two texts, of 200 and 52 letters, with these bytes as the
/// offset.
fn two_texts(rt: &impl Abort, alloc: Global, offset: &[u8]) -> Vec<u8> {
    let (first, second) = LETTERS.split_at(200);
    [first, b"\0", second, b"\0", offset]
        .concat(alloc)
        .expect(rt, "memory")
}

/// Also checks that an offset has one byte if that is enough.
#[test]
fn refuses_all_but_the_normal_form(rt: HostRuntime) {
    let alloc = rt.alloc();
    for (of, bytes) in &REFUSED {
        let fault = value_of(&rt, alloc, of, bytes).err();
        agree(&rt, of, fault == Some(DecodeError::NotNormal));
    }
    let narrow = two_texts(&rt, alloc, &[201]);
    assert!(rt; value_of(&rt, alloc, "(ss)", &narrow).is_ok());
    let wide = two_texts(&rt, alloc, &[201, 0]);
    assert!(rt; value_of(&rt, alloc, "(ss)", &wide).err() == Some(DecodeError::NotNormal));
}

/// Checks that 16 MiB are decoded, and not one byte more.
#[test]
fn refuses_more_than_16_mib(rt: HostRuntime) {
    let bytes = vec![in rt.alloc(); 0; 0x100_0000].expect(&rt, "memory");
    assert!(rt; reads_bytes(&rt, rt.alloc(), &bytes));
    let bytes = vec![in rt.alloc(); 0; 0x100_0001].expect(&rt, "memory");
    let fault = value_of(&rt, rt.alloc(), "ay", &bytes).err();
    assert!(rt; fault == Some(DecodeError::TooLong));
}
