//! Tests of what no contract says: the digests that OSTree itself gives to objects, and the bytes
//! of headers.

ghost use Rattle.std.specs.Prelude.{◌≡◌, ◌<◌, true};
ghost use Rattle.ost_model.specs.Contents.{file_digest as digest_of_file, is_permission as may_be_mode};

use crate::made_contents::{NAMES, Named};
use crate::parsed::{bytes_of_digits, digest_of};
use crate::rows::{agree, agree_at};
use fp_host::is_link_text;
use fp_name::Digest;
use ost_content::{
    ContentHasher, file_digest, header, is_permission, link_digest, link_header, meta_digest,
};
use std::alloc::Global;
use std::panic::Expect;
use std::process::Abort;

/// Returns whether the header of a symlink with this text is these bytes.
fn is_link_header(rt: &impl Abort, alloc: Global, text: &str, want: &[u8]) -> bool {
    if !is_link_text(text) {
        return false;
    }
    link_header(alloc, text).expect(rt, "memory").as_slice() == want
}

#[test]
fn headers(rt: HostRuntime) {
    let file = header(0o644);
    assert!(rt; file == *b"\0\0\0\x12\0\0\0\0\0\0\0\0\0\0\0\0\0\0\x81\xa4\0\0\0\0\0\x11");
    let link = b"\0\0\0\x14\0\0\0\0\0\0\0\0\0\0\0\0\0\0\xa1\xff\0\0\0\0f0\0\x13";
    assert!(rt; is_link_header(&rt, rt.alloc(), "f0", link));
}

/// Returns the digest of a file whose content comes in pieces of `size` bytes. The contracts of the
/// hasher prove that it is the file's.
fn digest_in_pieces(mode: u32, bytes: &[u8], size: usize) -> Digest
    requires permission { may_be_mode mode ≡ true }
    requires size { 0 < size }
    ensures { result ≡ digest_of_file mode bytes.now }
{
    let mut hasher = ContentHasher::new(mode);
    let mut rest = bytes;
    'pieces: while rest.len() > 0 {
        let (piece, remainder) = rest.split_at(size.min(rest.len()));
        hasher.update(piece);
        rest = remainder;
    }
    hasher.finish()
}

/// The sizes of pieces, in bytes.
const SIZES: &[usize] = &[1, 7, 32, 38, 64, 255];

/// Returns whether a file has this digest, also if its content comes in pieces of these sizes.
fn has_digest(mode: u32, bytes: &[u8], want: &Digest) -> bool {
    if !is_permission(mode) || file_digest(mode, bytes) != *want {
        return false;
    }
    for size in SIZES {
        if *size == 0 || digest_in_pieces(mode, bytes, *size) != *want {
            return false;
        }
    }
    true
}

/// Returns whether a symlink has this digest.
fn is_link_named(rt: &impl Abort, alloc: Global, text: &str, want: &Digest) -> bool {
    if !is_link_text(text) {
        return false;
    }
    link_digest(alloc, text).expect(rt, "memory") == *want
}

/// Returns whether a symlink with a text of this many letters `n` has this digest.
fn is_long_link_named(rt: &impl Abort, alloc: Global, count: usize, want: &Digest) -> bool {
    let text = "n".repeat(alloc, count).expect(rt, "memory");
    is_link_named(rt, alloc, &text, want)
}

/// Returns whether an object has this digest.
fn is_named(rt: &impl Abort, alloc: Global, named: &Named, name: &str) -> bool {
    let want = digest_of(rt, name);
    match named {
        Named::File(mode, digits) => has_digest(*mode, &bytes_of_digits(rt, alloc, digits), &want),
        Named::Link(text) => is_link_named(rt, alloc, text, &want),
        Named::LongLink(count) => is_long_link_named(rt, alloc, *count, &want),
        Named::Meta(digits) => meta_digest(&bytes_of_digits(rt, alloc, digits)) == want,
    }
}

/// Ends the test at the first object that doesn't have its digest.
fn agree_all(rt: &impl Abort, alloc: Global, names: &[(Named, &str)]) {
    for (named, name) in names {
        agree(rt, name, is_named(rt, alloc, named, name));
    }
}

/// The bytes of the dirtree of an empty directory, which are one zero byte, and no bytes, with the
/// digests that `sha256sum` prints.
const EMPTY: &[(Named, &str)] = &[
    (
        Named::Meta("00"),
        "6e340b9cffb37a989ca544e6bb780a2c78901d3fb33738768511a30617afa01d",
    ),
    (
        Named::Meta(""),
        "e3b0c44298fc1c149afbf4c8996fb92427ae41e4649b934ca495991b7852b855",
    ),
];

#[test]
fn objects_of_a_repository(rt: HostRuntime) {
    agree_all(&rt, rt.alloc(), NAMES);
    agree_all(&rt, rt.alloc(), EMPTY);
}

/// Permission bits, and whether a file of a store may have them.
const MODES: &[(u32, bool)] = &[
    (0, true),
    (0o644, true),
    (0o755, true),
    (0o664, true),
    (0o775, true),
    (0o444, true),
    (0o400, true),
    (0o1, true),
    (0o4, true),
    (0o111, true),
    (0o311, true),
    (0o375, true),
    (0o2, false),
    (0o777, false),
    (0o646, false),
    (0o1755, false),
    (0o2755, false),
    (0o4755, false),
    (0o100644, false),
];

#[test]
fn modes(rt: HostRuntime) {
    for (row, (mode, good)) in MODES.iter().enumerate() {
        agree_at(&rt, row, is_permission(*mode) == *good);
    }
}
