//! Worked streams through the filter, cut into pieces in several ways. The messages are written by
//! hand according to the D-Bus specification.

use crate::built::{letter_of, numbered, owners_of, policy_of, side_of, spelled};
use crate::rows::agree;
use bus_proxy::{Filter, Next};
use std::alloc::Global;
use std::panic::Expect;
use std::process::Abort;

/// The level of `org.bar`, the messages that the sides send, and the messages that the filter
/// sends. Each message has the letter of its side before it: `c` for the client, `b` for the bus.
struct Case {
    policy: &'static str,
    sent: &'static str,
    wanted: &'static str,
}

/// A call of `M` at `/a` of `org.bar` with the serial 1 goes to the bus, and only one of two
/// returns from `:1.9` goes to the client.
const TALK: Case = Case {
    policy: "talk org.bar",
    sent: "\
c:6c01000100000000010000003000000001016f00020000002f6100000000000003017300010000004d000000000000\
0006017300070000006f72672e62617200 b:6c020001000000000900000025000000050175000100000006017300040\
000003a312e310000000007017300040000003a312e3900000000 b:6c02000100000000090000002500000005017500\
0100000006017300040000003a312e310000000007017300040000003a312e3900000000",
    wanted: "\
b:6c01000100000000010000003000000001016f00020000002f6100000000000003017300010000004d000000000000\
0006017300070000006f72672e62617200 c:6c020001000000000900000025000000050175000100000006017300040\
000003a312e310000000007017300040000003a312e3900000000",
};

/// A call to the hidden name `org.bar`, for which the client gets the error `ServiceUnknown`.
const HIDDEN: Case = Case {
    policy: "none org.bar",
    sent: "\
c:6c01000100000000010000003000000001016f00020000002f6100000000000003017300010000004d000000000000\
0006017300070000006f72672e62617200",
    wanted: "\
c:6c03010100000000ffffffff5d00000004017300290000006f72672e667265656465736b746f702e444275732e4572\
726f722e53657276696365556e6b6e6f776e00000000000000050175000100000007017300140000006f72672e667265\
656465736b746f702e4442757300000000",
};

/// No messages, after which nothing is sent.
const NOTHING: Case = Case {
    policy: "talk org.bar",
    sent: "",
    wanted: "",
};

/// A call of `ListNames`, and the return in big-endian: of the names `org.bar` and `:1.1`, the
/// client gets the one that it may see.
const NAMES: Case = Case {
    policy: "see org.bar",
    sent: "\
c:6c01000100000000010000007500000001016f00150000002f6f72672f667265656465736b746f702f444275730000\
0002017300140000006f72672e667265656465736b746f702e444275730000000003017300090000004c6973744e616d\
65730000000000000006017300140000006f72672e667265656465736b746f702e4442757300000000 b:42020001000\
0001900000002000000100501750000000001080167000261730000000015000000076f72672e62617200000000043a3\
12e3100",
    wanted: "\
b:6c01000100000000010000007500000001016f00150000002f6f72672f667265656465736b746f702f444275730000\
0002017300140000006f72672e667265656465736b746f702e444275730000000003017300090000004c6973744e616d\
65730000000000000006017300140000006f72672e667265656465736b746f702e4442757300000000 c:42020001000\
000100000000200000010050175000000000108016700026173000000000c000000076f72672e62617200",
};

/// A call of `ListNames`, and a return with only `org.bar`, which the client may not see.
const NO_NAMES: Case = Case {
    policy: "none org.bar",
    sent: "\
c:6c01000100000000010000007500000001016f00150000002f6f72672f667265656465736b746f702f444275730000\
0002017300140000006f72672e667265656465736b746f702e444275730000000003017300090000004c6973744e616d\
65730000000000000006017300140000006f72672e667265656465736b746f702e4442757300000000 b:42020001000\
000100000000200000010050175000000000108016700026173000000000c000000076f72672e62617200",
    wanted: "\
b:6c01000100000000010000007500000001016f00150000002f6f72672f667265656465736b746f702f444275730000\
0002017300140000006f72672e667265656465736b746f702e444275730000000003017300090000004c6973744e616d\
65730000000000000006017300140000006f72672e667265656465736b746f702e4442757300000000 c:42020001000\
0000400000002000000100501750000000001080167000261730000000000",
};

/// A call of `ListNames`, and a return with 1,100 names, of which the client may see only the last
/// one.
const MANY_NAMES: Case = Case {
    policy: "see org.bar",
    sent: "\
c:6c01000100000000010000007500000001016f00150000002f6f72672f667265656465736b746f702f444275730000\
0002017300140000006f72672e667265656465736b746f702e444275730000000003017300090000004c6973744e616d\
65730000000000000006017300140000006f72672e667265656465736b746f702e4442757300000000 b:6c020001943\
3000002000000100000000501750001000000080167000261730090330000+070000006f72672e62617a00*1099+0700\
00006f72672e62617200",
    wanted: "\
b:6c01000100000000010000007500000001016f00150000002f6f72672f667265656465736b746f702f444275730000\
0002017300140000006f72672e667265656465736b746f702e444275730000000003017300090000004c6973744e616d\
65730000000000000006017300140000006f72672e667265656465736b746f702e4442757300000000 c:6c020001100\
000000200000010000000050175000100000008016700026173000c000000070000006f72672e62617200",
};

/// A call of `ListNames`, and a return with 1,100 names, all of which the client may see.
const ALL_NAMES: Case = Case {
    policy: "see org.bar",
    sent: "\
c:6c01000100000000010000007500000001016f00150000002f6f72672f667265656465736b746f702f444275730000\
0002017300140000006f72672e667265656465736b746f702e444275730000000003017300090000004c6973744e616d\
65730000000000000006017300140000006f72672e667265656465736b746f702e4442757300000000 b:6c020001943\
3000002000000100000000501750001000000080167000261730090330000+070000006f72672e62617200*1100",
    wanted: "\
b:6c01000100000000010000007500000001016f00150000002f6f72672f667265656465736b746f702f444275730000\
0002017300140000006f72672e667265656465736b746f702e444275730000000003017300090000004c6973744e616d\
65730000000000000006017300140000006f72672e667265656465736b746f702e4442757300000000 c:6c020001943\
3000002000000100000000501750001000000080167000261730090330000+070000006f72672e62617200*1100",
};

/// A broadcast of `:1.7`, which passes if `:1.7` owns `org.bar`.
const BROADCAST: Case = Case {
    policy: "talk org.bar",
    sent: "\
b:6c04000100000000050000003d00000001016f00020000002f6100000000000002017300070000006f72672e782e49\
000301730001000000530000000000000007017300040000003a312e3700000000",
    wanted: "\
c:6c04000100000000050000003d00000001016f00020000002f6100000000000002017300070000006f72672e782e49\
000301730001000000530000000000000007017300040000003a312e3700000000",
};

/// Appends what a filter sends after it was fed a piece: for each message the letter of the side to
/// which it goes, and its bytes. At most one message is taken for each byte of the piece.
fn push_given(rt: &impl Abort, filter: &mut Filter, out: &mut Vec<u8>, piece: &[u8]) {
    for _ in 0..piece.len() {
        match filter.next().expect(rt, "no bad message") {
            Next::Out(message) => {
                let letter = letter_of(message.to).as_bytes();
                out.extend_from_slice(letter).expect(rt, "memory");
                out.extend_from_slice(message.bytes.as_slice())
                    .expect(rt, "memory");
            }
            Next::Quiet => {}
            Next::NotYet => return,
        }
    }
}

/// Returns what a filter sends for messages, each fed in pieces of at most `most` bytes.
fn given(rt: &impl Abort, alloc: Global, filter: &mut Filter, sent: &str, most: usize) -> Vec<u8> {
    let mut out = Vec::new(alloc);
    for message in sent.split_terminator(' ') {
        let (letter, words) = message.split_once(':').unwrap_or((message, ""));
        let bytes = spelled(rt, alloc, words);
        for piece in bytes.chunks(most.max(1)) {
            filter.feed(side_of(letter), piece).expect(rt, "memory");
            push_given(rt, filter, &mut out, piece);
        }
    }
    out
}

/// Returns the messages of words, each with the letter of its side before it.
fn wanted(rt: &impl Abort, alloc: Global, words: &str) -> Vec<u8> {
    let mut out = Vec::new(alloc);
    for message in words.split_terminator(' ') {
        let (letter, words) = message.split_once(':').unwrap_or((message, ""));
        out.extend_from_slice(letter.as_bytes())
            .expect(rt, "memory");
        out.extend_from_slice(&spelled(rt, alloc, words))
            .expect(rt, "memory");
    }
    out
}

/// Returns whether a filter with these owners of names sends what the case contains, if the
/// messages are fed in pieces of at most `most` bytes.
fn is_filtered(rt: &impl Abort, alloc: Global, case: &Case, owners: &str, most: usize) -> bool {
    let policy = policy_of(rt, alloc, case.policy);
    let owners = owners_of(rt, alloc, owners);
    let mut filter = Filter::new(alloc, policy, None, &owners).expect(rt, "memory");
    let out = given(rt, alloc, &mut filter, case.sent, most);
    filter.end().expect(rt, "a whole message");
    drop(filter);
    out.as_slice() == wanted(rt, alloc, case.wanted).as_slice()
}

#[test]
fn worked_streams(rt: HostRuntime) {
    for case in &[
        TALK, HIDDEN, NOTHING, NAMES, NO_NAMES, MANY_NAMES, ALL_NAMES,
    ] {
        for most in [1usize, 7, 100_000] {
            agree(&rt, case.sent, is_filtered(&rt, rt.alloc(), case, "", most));
        }
    }
}

/// A broadcast passes if its sender owns `org.bar`, among the owners of 1,101 names, and is dropped
/// without owners.
#[test]
fn many_owners(rt: HostRuntime) {
    let alloc = rt.alloc();
    let mut owners = numbered(&rt, alloc, "org.n# :1.6\n", 1_100);
    owners.push_str("org.bar :1.7").expect(&rt, "memory");
    assert!(rt;
        !is_filtered(&rt, alloc, &BROADCAST, "", 1000)
            && is_filtered(&rt, alloc, &BROADCAST, &owners, 1000)
    );
}
