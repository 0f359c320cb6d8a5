//! Many calls that wait for their returns at once, and many events for which a filter stores
//! nothing.

use crate::built::{owners_of, policy_of, spelled};
use bus_proxy::{Filter, Next};
use fp_base::Side;
use std::alloc::Global;
use std::panic::Expect;
use std::process::Abort;

/// The number of calls that the client sends before the first return.
const CALLS: u32 = 100_000;

/// The number of peers, each with a number of its own.
const PEERS: u32 = 1_000_000;

/// A kind of message: the side that sends it, its bytes in hexadecimal, the number of letters that
/// encode its number, the offsets of these letters, and the number of bytes that are fed at a time.
struct Kind {
    side: Side,
    digits: &'static str,
    letters: usize,
    places: &'static [usize],
    piece: usize,
}

/// A call of `M` at `/a` of `org.bar`, whose serial encodes the number.
const CALL: Kind = Kind {
    side: Side::Client,
    digits: "\
6c01000100000000010000003000000001016f00020000002f6100000000000003017300010000004d000000000000000601730007000000\
6f72672e62617200",
    letters: 4,
    places: &[8],
    piece: 7,
};

/// A return from `:1.9` to the call `CALL`, whose reply serial encodes the number.
const RETURN: Kind = Kind {
    side: Side::Bus,
    digits: "\
6c020001000000000900000025000000050175000100000006017300040000003a312e310000000007017300040000003a312e3900000000",
    letters: 4,
    places: &[20],
    piece: 7,
};

/// A broadcast of the peer `:9.N`.
const BROADCAST: Kind = Kind {
    side: Side::Bus,
    digits: "\
6c04000100000000050000004300000001016f00020000002f610000000000000201730003000000782e4900000000000301730001000000\
5300000000000000070173000a0000003a392e30303030303030000000000000",
    letters: 7,
    places: &[75],
    piece: 1000,
};

/// The bus's signal that the peer `:9.N` has connected.
const COMES: Kind = Kind {
    side: Side::Bus,
    digits: "\
6c04000127000000060000008900000001016f00150000002f6f72672f667265656465736b746f702f444275730000000201730014000000\
6f72672e667265656465736b746f702e444275730000000003017300100000004e616d654f776e65724368616e6765640000000000000000\
07017300140000006f72672e667265656465736b746f702e4442757300000000080167000373737300000000000000000a0000003a392e30\
303030303030000000000000000000000a0000003a392e3030303030303000",
    letters: 7,
    places: &[167, 191],
    piece: 1000,
};

/// The bus's signal that `:9.N` owns `org.hid.nN`.
const OWNS: Kind = Kind {
    side: Side::Bus,
    digits: "\
6c0400012f000000060000008900000001016f00150000002f6f72672f667265656465736b746f702f444275730000000201730014000000\
6f72672e667265656465736b746f702e444275730000000003017300100000004e616d654f776e65724368616e6765640000000000000000\
07017300140000006f72672e667265656465736b746f702e444275730000000008016700037373730000000000000000100000006f72672e\
6869642e6e303030303030300000000000000000000000000a0000003a392e3030303030303000",
    letters: 7,
    places: &[173, 199],
    piece: 1000,
};

/// The bus's signal that the peer `:9.N` has disconnected.
const GOES: Kind = Kind {
    side: Side::Bus,
    digits: "\
6c04000125000000060000008900000001016f00150000002f6f72672f667265656465736b746f702f444275730000000201730014000000\
6f72672e667265656465736b746f702e444275730000000003017300100000004e616d654f776e65724368616e6765640000000000000000\
07017300140000006f72672e667265656465736b746f702e4442757300000000080167000373737300000000000000000a0000003a392e30\
30303030303000000a0000003a392e3030303030303000000000000000",
    letters: 7,
    places: &[167, 183],
    piece: 1000,
};

/// Writes a number into a message at each of its offsets, in base 26 as letters from `a` to `z`,
/// the lowest digit first.
fn put_number(message: &mut [u8], kind: &Kind, number: u32) {
    for first in kind.places {
        let mut rest = number;
        for at in *first..first.saturating_add(kind.letters) {
            if let Some(place) = message.get_mut(at) {
                *place = b'a' + (rest % 26) as u8;
            }
            rest /= 26;
        }
    }
}

/// Feeds a message and returns whether it is forwarded unchanged to the other side, or nothing is
/// sent if `goes` is false.
fn is_taken(rt: &impl Abort, filter: &mut Filter, kind: &Kind, message: &[u8], goes: bool) -> bool {
    for piece in message.chunks(kind.piece.max(1)) {
        filter.feed(kind.side, piece).expect(rt, "memory");
    }
    let is_so = match filter.next().expect(rt, "no bad message") {
        Next::Out(out) => goes && out.to != kind.side && out.bytes.as_slice() == message,
        Next::Quiet => !goes,
        Next::NotYet => false,
    };
    is_so && matches!(filter.next().expect(rt, "no bad message"), Next::NotYet)
}

/// Feeds `count` messages of a kind and returns whether each is forwarded, or none if `goes` is
/// false, and whether the filter then stores `kept` peers and serials of waiting calls.
fn are_taken(
    rt: &impl Abort,
    alloc: Global,
    filter: &mut Filter,
    kind: &Kind,
    count: u32,
    goes: bool,
    kept: usize,
) -> bool {
    let mut message = spelled(rt, alloc, kind.digits);
    for number in 0..count {
        put_number(&mut message, kind, number);
        if !is_taken(rt, filter, kind, &message, goes) {
            return false;
        }
    }
    filter.count_kept() == kept
}

/// Returns a filter that lets messages to `org.bar` pass, with these owners of names.
fn opened(rt: &impl Abort, alloc: Global, owners: &str) -> Filter {
    let policy = policy_of(rt, alloc, "talk org.bar");
    let owners = owners_of(rt, alloc, owners);
    Filter::new(alloc, policy, None, &owners).expect(rt, "memory")
}

/// The time grows with the number of messages, and not also with the number of waiting calls. All
/// calls are forwarded before the first return, then all returns, and then only the peer is stored.
#[test]
fn many_calls_wait(rt: HostRuntime) {
    let mut filter = opened(&rt, rt.alloc(), "org.bar :1.9");
    let kept = CALLS as usize + 1;
    assert!(rt;
        are_taken(&rt, rt.alloc(), &mut filter, &CALL, CALLS, true, kept)
            && are_taken(&rt, rt.alloc(), &mut filter, &RETURN, CALLS, true, 1)
            && filter.end().is_ok()
    );
    drop(filter);
}

/// A filter stores nothing for peers that the application may not see.
#[test]
fn hidden_peers_leave_nothing(rt: HostRuntime) {
    let mut filter = opened(&rt, rt.alloc(), "");
    for kind in &[COMES, OWNS, BROADCAST, GOES] {
        assert!(rt; are_taken(&rt, rt.alloc(), &mut filter, kind, PEERS, false, 0));
    }
    drop(filter);
}
