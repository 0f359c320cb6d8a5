//! Type strings, the sizes and alignments of types, and the values that fit them.

use crate::rows::agree;
use fp_base::Text;
use gv_value::{GvType, GvValue, TypeError, align_of, fits, plan_of, push_type, size_of};
use std::alloc::Global;
use std::panic::Expect;
use std::process::Abort;

/// Parses a type string.
pub fn parsed(rt: &impl Abort, alloc: Global, text: &str) -> GvType {
    GvType::parse(alloc, text.as_bytes()).expect(rt, "a type string")
}

/// Type strings, the size of their values in bytes if it is fixed, and their alignment.
const SIZES: [(&str, Option<u64>, u64); 7] = [
    ("(yu)", Some(8), 4),
    ("(uy)", Some(8), 4),
    ("()", Some(1), 1),
    ("{yx}", Some(16), 8),
    ("av", None, 8),
    ("ms", None, 1),
    ("(ni(yd))", Some(24), 8),
];

/// Returns whether a type has this size and this alignment.
fn is_sized(rt: &impl Abort, alloc: Global, text: &str, size: Option<u64>, align: u64) -> bool {
    let of = parsed(rt, alloc, text);
    let is_so = size_of(&of) == size && align_of(&of) == align;
    drop(of);
    is_so
}

/// Texts, and whether each is a type string.
const TYPES: [(&str, bool); 12] = [
    ("(si)", true),
    ("a{sv}", true),
    ("mmay", true),
    ("((ys)as)", true),
    ("", false),
    ("a", false),
    ("(s", false),
    ("s)", false),
    ("{vs}", false),
    ("{s}", false),
    ("ss", false),
    ("z", false),
];

/// Returns whether parsing a text succeeds exactly if it is a type string, and the type has this
/// text again.
fn is_taken(rt: &impl Abort, alloc: Global, text: &str, good: bool) -> bool {
    match GvType::parse(alloc, text.as_bytes()) {
        Ok(of) => {
            let written = of.text(alloc).expect(rt, "memory");
            drop(of);
            good && written.as_slice() == text.as_bytes()
        }
        Err(error) => !good && error == TypeError::Bad,
    }
}

/// The number of arrays around a type, the type's letter, and whether the text is a type string.
const NESTED: [(usize, &str, bool); 4] = [
    (64, "s", true),
    (65, "s", false),
    (63, "v", true),
    (64, "v", false),
];

/// Returns a type string with this one inside this number of arrays.
fn nested(rt: &impl Abort, alloc: Global, count: usize, inside: &str) -> String {
    let mut text = "a".repeat(alloc, count).expect(rt, "memory");
    text.push_str(inside).expect(rt, "memory");
    text
}

#[test]
fn types(rt: HostRuntime) {
    let alloc = rt.alloc();
    for (text, size, align) in &SIZES {
        agree(&rt, text, is_sized(&rt, alloc, text, *size, *align));
    }
    for (text, good) in &TYPES {
        agree(&rt, text, is_taken(&rt, alloc, text, *good));
    }
    for (count, inside, good) in &NESTED {
        let text = nested(&rt, alloc, *count, inside);
        agree(&rt, &text, is_taken(&rt, alloc, &text, *good));
    }
}

/// Returns the type string of a tuple with this number of bytes.
pub fn long_tuple(rt: &impl Abort, alloc: Global, count: usize) -> String {
    let members = "y".repeat(alloc, count).expect(rt, "memory");
    ["(", &members, ")"].concat(alloc).expect(rt, "memory")
}

/// Returns whether the type of a tuple of 10,000 bytes has this text, has the right size, and can
/// be planned.
fn is_long(rt: &impl Abort, alloc: Global, text: &str) -> bool {
    let of = parsed(rt, alloc, text);
    let mut bytes = Vec::new(alloc);
    push_type(&mut bytes, &of).expect(rt, "memory");
    let is_so = bytes.as_slice() == text.as_bytes()
        && size_of(&of) == Some(10_000)
        && plan_of(alloc, &of).err() == None;
    drop(of);
    is_so
}

/// Checks that a type string of 10,002 letters is parsed, and has its text again.
#[test]
fn large_types(rt: HostRuntime) {
    let text = long_tuple(&rt, rt.alloc(), 10_000);
    assert!(rt; is_long(&rt, rt.alloc(), &text) && is_taken(&rt, rt.alloc(), &text, true));
}

/// Returns whether a value is one of the type with this type string.
fn is_one(rt: &impl Abort, alloc: Global, of: &str, value: GvValue) -> bool {
    let of = parsed(rt, alloc, of);
    let is_so = fits(&of, &value);
    drop(of);
    drop(value);
    is_so
}

#[test]
fn a_value_fits_its_type(rt: HostRuntime) {
    let path = Text::from_str(rt.alloc(), "/a//b").expect(&rt, "memory");
    assert!(rt;
        !is_one(&rt, rt.alloc(), "o", GvValue::ObjectPath(path))
            && is_one(&rt, rt.alloc(), "u", GvValue::Uint32(1))
            && !is_one(&rt, rt.alloc(), "h", GvValue::Int32(1))
    );
}
