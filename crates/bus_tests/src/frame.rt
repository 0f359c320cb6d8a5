//! Worked messages: the header that is read, the rule that is broken, and the bytes that are
//! written.

use crate::built::{spelled, with_byte};
use crate::captured::CAPTURED;
use crate::rows::agree;
use crate::told::{is_body, is_front};
use bus_frame::{
    error_frame, is_bus_name, is_interface_name, is_member_name, is_object_path, is_unique_name,
    is_well_known_name,
};
use std::alloc::Global;
use std::panic::Expect;
use std::process::Abort;

/// The call of the method `M` at the path `/a` of `org.bar`, with the serial 1.
const CALL: &[u8] = b"l\x01\0\x01\0\0\0\0\x01\0\0\0\x30\0\0\0\
\x01\x01o\0\x02\0\0\0/a\0\0\0\0\0\0\
\x03\x01s\0\x01\0\0\0M\0\0\0\0\0\0\0\
\x06\x01s\0\x07\0\0\0org.bar\0";

/// The error that answers `CALL` if its name is hidden, for a caller without a known name.
const ANSWER: &[u8] = b"l\x03\x01\x01\0\0\0\0\xff\xff\xff\xff\x5d\0\0\0\
\x04\x01s\0\x29\0\0\0org.freedesktop.DBus.Error.ServiceUnknown\0\0\0\0\0\0\0\
\x05\x01u\0\x01\0\0\0\
\x07\x01s\0\x14\0\0\0org.freedesktop.DBus\0\0\0\0";

/// Messages in hexadecimal, and what is read at their front. The first six are the worked call; the
/// call with a byte after it; with a missing body; with a body but without a signature; a signal
/// with a nonzero byte between the fields and the body; and a return with the reply serial 0. The
/// others are the beginnings of the worked call, which need more bytes.
const FRONTS: &str = "\
6c01000100000000010000003000000001016f00020000002f6100000000000003017300010000004d0000000000000006017300070000006f72672e62617200 1 0 1 /a - M - - org.bar - - 0
6c01000100000000010000003000000001016f00020000002f6100000000000003017300010000004d0000000000000006017300070000006f72672e62617200ff 1 0 1 /a - M - - org.bar - - 0 and 1 more
6c01000101000000010000003000000001016f00020000002f6100000000000003017300010000004d0000000000000006017300070000006f72672e62617200 lacks 1
6c01000101000000010000003000000001016f00020000002f6100000000000003017300010000004d0000000000000006017300070000006f72672e6261720000 breaks Body
6c04000119000000010000003900000001016f00010000002f000000000000000201730003000000612e62000000000003017300010000004d000000000000000801670003737373000000000000000101000000610000000000000000000000040000003a312e3100 breaks Padding
420200010000001900000002000000100501750000000000080167000261730000000015000000076f72672e62617200000000043a312e3100 breaks Value
 lacks 16
6c0100010000000001000000300000 lacks 1
6c010001000000000100000030000000 lacks 48
6c01000100000000010000003000000001 lacks 47
6c01000100000000010000003000000001016f00020000002f6100000000000003017300010000004d0000000000000006017300070000006f72672e626172 lacks 1";

/// Messages in hexadecimal, and their bodies: none; three strings; one string, since the length of
/// the second one is a byte too great; two names in big-endian; and no names.
const BODIES: &str = "\
6c01000100000000010000003000000001016f00020000002f6100000000000003017300010000004d0000000000000006017300070000006f72672e62617200 l 64 - - -
6c04000119000000010000003900000001016f00010000002f000000000000000201730003000000612e62000000000003017300010000004d000000000000000801670003737373000000000000000001000000610000000000000000000000040000003a312e3100 l 80 a a,,:1.1 -
6c04000119000000010000003900000001016f00010000002f000000000000000201730003000000612e62000000000003017300010000004d000000000000000801670003737373000000000000000001000000610000000100000000000000040000003a312e3100 l 80 a - -
420200010000001900000002000000100501750000000001080167000261730000000015000000076f72672e62617200000000043a312e3100 B 32 - - names:org.bar,:1.1,
420200010000000400000002000000100501750000000001080167000261730000000000 B 32 - - names:";

/// A call whose path has 100 KiB and whose string has a mebibyte: what is read at its front, and
/// its body.
const LONG: &str = "\
6c01000105001000010000007790010001016f00019001002f+70*102400+000000000000000201730003000000612e6\
2000000000003017300010000004d000000000000000401730009000000612e622e4572726f720000000000000006017\
300070000006f72672e6261720007017300040000003a312e31000000000501750009000000080167000173000000001\
000+74*1048576+00 1 0 1 #102401 a.b M a.b.Error 9 org.bar :1.1 s 1048581
6c01000105001000010000007790010001016f00019001002f+70*102400+000000000000000201730003000000612e6\
2000000000003017300010000004d000000000000000401730009000000612e622e4572726f720000000000000006017\
300070000006f72672e6261720007017300040000003a312e31000000000501750009000000080167000173000000001\
000+74*1048576+00 l 102536 #1048576 - -";

/// A return with 1,100 names, and its body.
const MANY: &str = "\
6c02000194330000010000007800000001016f00020000002f610000000000000201730003000000612e620000000000\
03017300010000004d000000000000000401730009000000612e622e4572726f72000000000000000601730007000000\
6f72672e6261720007017300040000003a312e31000000000501750009000000080167000261730090330000+0700000\
06f72672e62617200*1100 l 136 - - names:#1100";

/// Returns whether a row's message is read as the row describes it: its body, if the words begin
/// with the byte order, else what is at its front.
fn is_read(rt: &impl Abort, alloc: Global, row: &str) -> bool {
    let (words, want) = row.split_once(' ').unwrap_or((row, ""));
    let bytes = spelled(rt, alloc, words);
    if want.starts_with("l ") || want.starts_with("B ") {
        is_body(rt, alloc, &bytes, want)
    } else {
        is_front(rt, alloc, &bytes, want)
    }
}

/// Each message is read as its row describes it. The captured ones are read as GDBus and libdbus
/// read them.
#[test]
fn listed_messages(rt: HostRuntime) {
    for rows in &[FRONTS, BODIES, LONG, MANY, CAPTURED] {
        for row in rows.lines() {
            agree(&rt, row, is_read(&rt, rt.alloc(), row));
        }
    }
}

/// The offset of one byte of the worked call, its new value, and the rule that the call then
/// breaks.
const BROKEN: [(usize, u8, &str); 27] = [
    (0, b'x', "breaks Order"),
    (0, b'b', "breaks Order"),
    (1, 0, "breaks ZeroType"),
    (3, 2, "breaks Version"),
    (3, 0, "breaks Version"),
    (8, 0, "breaks Serial"),
    (7, 1, "breaks Length"),
    (15, 5, "breaks Length"),
    (15, 255, "breaks Length"),
    (16, 0, "breaks Code"),
    (32, 1, "breaks Double"),
    (18, b's', "breaks Kind"),
    (32, 8, "breaks Kind"),
    (32, 9, "breaks Kind"),
    // `M` is not a bus name
    (32, 6, "breaks Value"),
    (24, b'x', "breaks Value"),
    (40, b'0', "breaks Value"),
    (59, b'_', "breaks Value"),
    (30, 1, "breaks Fields"),
    (26, 1, "breaks Fields"),
    (34, b'z', "breaks Fields"),
    (40, 0, "breaks Fields"),
    (40, 0xff, "breaks Fields"),
    (12, 47, "breaks Fields"),
    // an unknown field in place of the member
    (32, 100, "breaks Required"),
    (1, 2, "breaks Required"),
    (1, 4, "breaks Required"),
];

#[test]
fn broken_messages(rt: HostRuntime) {
    for (at, byte, want) in &BROKEN {
        let changed = with_byte(&rt, rt.alloc(), CALL, *at, *byte);
        agree(&rt, want, is_front(&rt, rt.alloc(), &changed, want));
    }
}

/// Returns whether the error with this name, for a call with this serial and a caller with this
/// name, begins with `front` and is read back. The caller `-` has no known name.
fn is_answered(
    rt: &impl Abort,
    alloc: Global,
    front: &[u8],
    name: &str,
    serial: u32,
    to: &str,
) -> bool {
    if name.len() > 255 || to.len() > 255 {
        return false;
    }
    let is_little = front.starts_with(b"l");
    let caller = if to == "-" { None } else { Some(to) };
    let answer = error_frame(alloc, is_little, name, serial, caller).expect(rt, "memory");
    let bus = "org.freedesktop.DBus";
    let line = format!(in alloc; "3 1 4294967295 - - - {name} {serial} {to} {bus} - 0");
    answer.as_slice().starts_with(front)
        && is_front(rt, alloc, answer.as_slice(), &line.expect(rt, "memory"))
}

/// The worked error is written byte for byte. An error in big-endian is read back, and so is one
/// with names of 255 bytes.
#[test]
fn answers(rt: HostRuntime) {
    let alloc = rt.alloc();
    let part = "b".repeat(alloc, 253).expect(&rt, "memory");
    let longest = ["a.", &part].concat(alloc).expect(&rt, "memory");
    assert!(rt;
        is_answered(
            &rt,
            alloc,
            ANSWER,
            "org.freedesktop.DBus.Error.ServiceUnknown",
            1,
            "-"
        ) && is_answered(&rt, alloc, b"B", "a.b", 7, ":1.1")
            && is_answered(&rt, alloc, b"l", &longest, 1, &longest)
    );
}

/// Texts, and the kinds of names that each of them is: interface (`i`), member (`m`), unique name
/// (`u`), well-known name (`w`), bus name (`b`), path (`p`).
const KINDS: [(&str, &str); 14] = [
    ("", "......"),
    ("a", ".m...."),
    ("a.b", "i..wb."),
    ("a-b.c", "...wb."),
    ("a.0", "......"),
    ("a..b", "......"),
    ("a.b.", "......"),
    (":1.2", "..u.b."),
    (":1", "......"),
    (":a.-", "..u.b."),
    ("/", ".....p"),
    ("/a/0_B", ".....p"),
    ("/a/", "......"),
    ("/a-b", "......"),
];

/// Returns whether a text is exactly the kinds of names that these letters stand for.
fn is_of_kinds(name: &[u8], kinds: &str) -> bool {
    is_interface_name(name) == kinds.contains('i')
        && is_member_name(name) == kinds.contains('m')
        && is_unique_name(name) == kinds.contains('u')
        && is_well_known_name(name) == kinds.contains('w')
        && is_bus_name(name) == kinds.contains('b')
        && is_object_path(name) == kinds.contains('p')
}

#[test]
fn kinds_of_names(rt: HostRuntime) {
    for (name, kinds) in &KINDS {
        agree(&rt, name, is_of_kinds(name.as_bytes(), kinds));
    }
}

/// A call with each known header field except `UNIX_FDS`, whose body is the string `t`.
const WHOLE: &str = "\
6c01000106000000010000007700000001016f00020000002f610000000000000201730003000000612e620000000000\
03017300010000004d000000000000000401730009000000612e622e4572726f72000000000000000601730007000000\
6f72672e6261720007017300040000003a312e310000000005017500090000000801670001730000010000007400";

/// The words for `WHOLE` after its type.
const AFTER_TYPE: &str = " 0 1 /a a.b M a.b.Error 9 org.bar :1.1 s 6";

/// A message of each type from 1 to 255 is read whole, with all its fields.
#[test]
fn each_type(rt: HostRuntime) {
    let alloc = rt.alloc();
    let message = spelled(&rt, alloc, WHOLE);
    for kind in 1..=255u8 {
        let changed = with_byte(&rt, alloc, &message, 1, kind);
        let line = format!(in alloc; "{kind}{AFTER_TYPE}").expect(&rt, "memory");
        let is_so = is_front(&rt, alloc, &changed, &line)
            && is_body(&rt, alloc, &changed, "l 136 t - -");
        agree(&rt, &line, is_so);
    }
}
