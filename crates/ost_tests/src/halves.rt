//! Tests of what no contract says: the digests that `sha256sum` prints, and that both halves work
//! at the same time.

use crate::holding::HoldingGate;
use crate::parsed::digest_of;
use crate::rows::agree_at;
use crate::steps::{Content, blob_of};
use fp_base::Blob;
use fp_name::Digest;
use par_digest::{Item, digests, digests_gated};
use sha2::{Digest as Hash, Sha256};
use std::alloc::Global;
use std::panic::Expect;
use std::process::Abort;
use std::thread::Threads;

/// Makes the item with the text `item` and this number.
fn numbered_item(rt: &impl Abort, alloc: Global, number: usize) -> Item {
    let digits = format!(in alloc; "{number}").expect(rt, "memory");
    Item {
        head: Blob::from_slice(alloc, b"item ").expect(rt, "memory"),
        body: Blob::from_slice(alloc, digits.as_bytes()).expect(rt, "memory"),
    }
}

/// Makes this many items, from `item 0` on.
fn many_items(rt: &impl Abort, alloc: Global, count: usize) -> Vec<Item> {
    let mut items = Vec::new(alloc);
    for number in 0..count {
        items
            .push(numbered_item(rt, alloc, number))
            .expect(rt, "memory");
    }
    items
}

/// Returns the digest of all digests, one after another.
fn digest_of_all(all: &[Digest]) -> Digest {
    let mut hasher = Sha256::new();
    for digest in all {
        hasher.update(*digest.as_bytes());
    }
    Digest::from_bytes(hasher.finalize())
}

/// Numbers of items, and the digest of their digests, one after another, as another program
/// computes it with one thread.
const COUNTS: &[(usize, &str)] = &[
    (
        0,
        "e3b0c44298fc1c149afbf4c8996fb92427ae41e4649b934ca495991b7852b855",
    ),
    (
        1,
        "f6647845c4451c3037baa32f4269c531dfbc4e166b885e1f6e0995057be7e870",
    ),
    (
        16,
        "28827e322b3bb64d366a244653cad5a8705d6a0e39dd8fbd84dd6887f1488e8b",
    ),
    (
        17,
        "95e71db033d441dbf3fc7315444c3370041dd42edf1e0242a1ce3a93accb7763",
    ),
    (
        33,
        "1cd65550de16239d0726f736a9bef72fd8e58ba5bd48052303ed4b3c82123772",
    ),
    (
        40,
        "d9390b256f1c61e7f553753c6d2a2e57851c5114d39a65e4f4742500989dc13f",
    ),
    (
        1000,
        "e1956b5cab3152a6a1349d30b01e747a052eacbdc7d0fc493e5b5d105055b925",
    ),
    (
        5000,
        "6dbaaba3c9b919dac5c466080d4fd883876291c05b08be7d8e6f34768b3d9d5a",
    ),
];

/// Returns whether there are this many digests, and this is the digest of them, one after another.
fn are_counted(rt: &impl Abort, all: &[Digest], count: usize, name: &str) -> bool {
    all.len() == count && digest_of_all(all) == digest_of(rt, name)
}

/// The head and the body of items, and their digests as `sha256sum` prints them.
const ITEMS: &[(Content, Content, &str)] = &[
    (
        Content::Bytes(b""),
        Content::Bytes(b""),
        "e3b0c44298fc1c149afbf4c8996fb92427ae41e4649b934ca495991b7852b855",
    ),
    (
        Content::Bytes(b"a"),
        Content::Bytes(b"bc"),
        "ba7816bf8f01cfea414140de5dae2223b00361a396177a9cb410ff61f20015ad",
    ),
    (
        Content::Bytes(b"abc"),
        Content::Bytes(b""),
        "ba7816bf8f01cfea414140de5dae2223b00361a396177a9cb410ff61f20015ad",
    ),
    (
        Content::Bytes(b""),
        Content::Bytes(b"abc"),
        "ba7816bf8f01cfea414140de5dae2223b00361a396177a9cb410ff61f20015ad",
    ),
    (
        Content::Bytes(b"item "),
        Content::Bytes(b"4999"),
        "68f78d70037a272d4bb86ca8b4a16fba2e6dde8773334adbfdf46aedfc40afe0",
    ),
    (
        Content::Times(b'x', 1 << 20),
        Content::Bytes(b""),
        "8f990ba0b577b51cf009ea049368c16bbda1b21e1b93be07a824758bb253c39b",
    ),
    (
        Content::Bytes(b""),
        Content::Times(b'x', 1 << 20),
        "8f990ba0b577b51cf009ea049368c16bbda1b21e1b93be07a824758bb253c39b",
    ),
];

/// Returns whether an item alone has this digest.
fn is_digest_of(
    rt: &(impl Abort + Threads + Sync),
    alloc: Global,
    head: &Content,
    body: &Content,
    name: &str,
) -> bool {
    let (head, body) = (blob_of(rt, alloc, head), blob_of(rt, alloc, body));
    let items = vec![in alloc; Item { head, body }].expect(rt, "memory");
    let all = digests(rt, alloc, &items).expect(rt, "memory");
    all.as_slice() == [digest_of(rt, name)].as_slice()
}

#[test]
fn digests_of_items(rt: HostRuntime) {
    for (row, (head, body, name)) in ITEMS.iter().enumerate() {
        agree_at(&rt, row, is_digest_of(&rt, rt.alloc(), head, body, name));
    }
}

/// Returns whether the digests of this many items are right, both without a gate and with one half
/// stopped until the other is done, and both halves were at work.
fn are_at_work(
    rt: &(impl Abort + Threads + Sync),
    alloc: Global,
    held: u32,
    count: usize,
    name: &str,
) -> bool {
    let items = many_items(rt, alloc, count);
    let alone = digests(rt, alloc, &items).expect(rt, "memory");
    let is_wanted = are_counted(rt, alone.as_slice(), count, name);
    let gate = HoldingGate::new(held, alone);
    let all = digests_gated(rt, alloc, &items, &gate).expect(rt, "memory");
    is_wanted && are_counted(rt, all.as_slice(), count, name) && gate.is_as_due(count)
}

/// Stops the second half until the first one is done, and then the other way round, so neither half
/// is done by the other's thread. Only the first split calls the gate.
#[test]
fn both_halves_are_at_work(rt: HostRuntime) {
    let alloc = rt.alloc();
    for (count, name) in COUNTS {
        let is_so = are_at_work(&rt, alloc, 1, *count, name)
            && are_at_work(&rt, alloc, 0, *count, name);
        agree_at(&rt, *count, is_so);
    }
}
