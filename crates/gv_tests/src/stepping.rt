//! Splitting arrays into their elements, one after another.
ghost use Rattle.gv_decode.specs.Stepped.{IsOpen};

use crate::glib::agrees;
use crate::rows::agree;
use crate::value::parsed;
use gv_decode::{DecodeError, Elements, array_elements, next_element};
use std::alloc::Global;
use std::panic::Expect;
use std::process::Abort;

/// Returns whether exactly these elements are left.
fn are_left(elements: Elements<'_>, wanted: &[&[u8]]) -> bool
    requires { IsOpen elements }
{
    let mut left = elements;
    for each in wanted {
        match next_element(left) {
            Ok(Some((element, others))) if element == *each => left = others,
            _ => return false,
        }
    }
    matches!(next_element(left), Ok(None))
}

/// Returns whether an array of this type has exactly these elements.
fn has_elements(rt: &impl Abort, alloc: Global, of: &str, bytes: &[u8], wanted: &[&[u8]]) -> bool {
    let of = parsed(rt, alloc, of);
    let found = array_elements(alloc, &of, bytes);
    drop(of);
    match found {
        Ok(elements) => are_left(elements, wanted),
        Err(_) => false,
    }
}

/// The types of arrays, their bytes as GLib encodes them, and the bytes of each element as GLib
/// finds them.
const ARRAYS: [(&str, &[u8], &[&[u8]]); 4] = [
    (
        "a(say)",
        b"a\0\x01\x02\x02foo\0\x04\0\xff\x01\x05\n\r",
        &[b"a\0\x01\x02\x02", b"foo\0\x04", b"\0\xff\x01"],
    ),
    ("a(say)", b"", &[]),
    // Three bytes of padding are before the second element.
    (
        "a(su)",
        b"a\0\0\0\x07\0\0\0\x02\0\0\0longer\0\0\x08\0\0\0\x07\t\x19",
        &[b"a\0\0\0\x07\0\0\0\x02", b"longer\0\0\x08\0\0\0\x07"],
    ),
    (
        "a(yu)",
        b"\x01\0\0\0\x07\0\0\0\x02\0\0\0\x08\0\0\0",
        &[b"\x01\0\0\0\x07\0\0\0", b"\x02\0\0\0\x08\0\0\0"],
    ),
];

#[test]
fn elements_come_one_after_another(rt: HostRuntime) {
    for (of, bytes, wanted) in &ARRAYS {
        agree(&rt, of, has_elements(&rt, rt.alloc(), of, bytes, wanted));
    }
}

/// The bytes of an element with a text and two bytes.
const ROW: &[u8] = b"a\0\x07\x02";

/// The number of elements of a long array.
const COUNT: usize = 100_000;

/// Returns the bytes of an array of `COUNT` elements, as GLib encodes it: the elements, and then
/// the end of each as a number of four bytes.
fn long_array(rt: &impl Abort, alloc: Global) -> Vec<u8> {
    let mut bytes = ROW.repeat(alloc, COUNT).expect(rt, "memory");
    let mut end: u32 = 0;
    for _row in 0..COUNT {
        end = end.wrapping_add(4);
        bytes
            .extend_from_slice(&end.to_le_bytes())
            .expect(rt, "memory");
    }
    bytes
}

#[test]
fn many_elements_come_one_after_another(rt: HostRuntime) {
    let alloc = rt.alloc();
    let bytes = long_array(&rt, alloc);
    let wanted = vec![in alloc; ROW; COUNT].expect(&rt, "memory");
    assert!(rt; has_elements(&rt, alloc, "a(say)", &bytes, &wanted));
    assert!(rt; agrees(&rt, alloc, true, "a(say)", &bytes));
}

/// The bytes of an element of 10 bytes. In the test, the offset of the next element is 5, which is
/// before its start.
const FIRST: &[u8] = b"a\0\x01\x02\x02foo\0\x04";

#[test]
fn a_later_step_finds_what_is_amiss(rt: HostRuntime) {
    let bytes = [FIRST, b"\0\xff\x01", b"\n\x05\r"].concat(rt.alloc());
    let bytes = bytes.expect(&rt, "memory");
    let of = parsed(&rt, rt.alloc(), "a(say)");
    let found = array_elements(rt.alloc(), &of, &bytes).expect(&rt, "elements");
    drop(of);
    let first = next_element(found).expect(&rt, "an element");
    let (element, others) = first.expect(&rt, "an element");
    assert!(rt; element == FIRST);
    assert!(rt; matches!(next_element(others), Err(DecodeError::NotNormal)));
}

/// Checks that a tuple is refused, and more than 16 MiB as too long.
#[test]
fn refuses_what_is_no_array(rt: HostRuntime) {
    let of = parsed(&rt, rt.alloc(), "(ss)");
    let fault = array_elements(rt.alloc(), &of, b"a\0b\0\x02").err();
    assert!(rt; fault == Some(DecodeError::NotNormal));
    let bytes = vec![in rt.alloc(); 0; 0x100_0001].expect(&rt, "memory");
    let fault = array_elements(rt.alloc(), &of, &bytes).err();
    assert!(rt; fault == Some(DecodeError::TooLong));
    drop(of);
}
