//! Long metadata objects, byte for byte as GLib encodes them.

use std::alloc::Global;
use std::panic::Expect;
use std::process::Abort;

/// A piece of an object.
pub enum Piece {
    /// These bytes.
    Bytes(&'static [u8]),
    /// A byte, and the number of its copies.
    Times(u8, usize),
    /// `ROWS` rows: each is the letter, the row's number in four digits, and these bytes.
    Rows(&'static str, &'static [u8]),
    /// These bytes, and the number of their copies.
    Alike(&'static [u8], usize),
    /// The framing offsets of rows: the number of rows, the number of bytes of each row, and the
    /// number of bytes of each offset, which is little endian.
    Ends(u32, u32, usize),
}

/// The number of rows.
pub const ROWS: u32 = 1_100;

/// The digest and the kind of a commit with long metadata, texts and related objects: 100 KiB of
/// the byte 7 and a binding to the rows' refs, the rows' objects, and twice 100 KiB of the letter
/// `t`.
pub const COMMIT: &str = "3eaabaf16a1bab4a65de8ab73503cdb23689fdcde8e33bd7fdd9291e9e51d15e.commit";

/// The pieces of the commit.
pub const COMMIT_PIECES: &[Piece] = &[
    Piece::Bytes(b"a\0\0\0\0\0\0\0"),
    Piece::Times(7, 100 << 10),
    Piece::Bytes(b"\0ay\x02\0\0\0\0ostree.ref-binding\0\0\0\0\0\0"),
    Piece::Rows("r", b"\0"),
    Piece::Ends(ROWS, 6, 2),
    // The lengths of both keys, and the ends of both entries.
    Piece::Bytes(b"\0as\x13\0\x0f\x90\x01\0\x8d\xb2\x01\0"),
    Piece::Times(2, 32),
    Piece::Rows("o", ONE_DIGEST),
    Piece::Ends(ROWS, 39, 2),
    Piece::Times(b't', 100 << 10),
    Piece::Bytes(b"\0"),
    Piece::Times(b't', 100 << 10),
    Piece::Bytes(b"\0\0\0\0\0\0\x01\0\0\0\0\0\0\0"),
    Piece::Times(3, 32),
    Piece::Times(4, 32),
    // The ends of the other parts, the last one first.
    Piece::Bytes(
        b"\x10\x83\x05\0\xe3\x82\x05\0\xe2\xf2\x03\0\xe1\x62\x02\0\xb5\xb2\x01\0\x95\xb2\x01\0",
    ),
];

/// The rest of a row with one digest, after a name of five letters: a zero byte, 32 bytes 1, and
/// the offset.
const ONE_DIGEST: &[u8] =
    b"\0\x01\x01\x01\x01\x01\x01\x01\x01\x01\x01\x01\x01\x01\x01\x01\x01\x01\x01\x01\x01\x01\x01\x01\x01\x01\x01\x01\x01\x01\x01\x01\x01\x06";

/// The rest of a row with two digests, after a name of five letters.
const TWO_DIGESTS: &[u8] =
    b"\0\x01\x01\x01\x01\x01\x01\x01\x01\x01\x01\x01\x01\x01\x01\x01\x01\x01\x01\x01\x01\x01\x01\x01\x01\x01\x01\x01\x01\x01\x01\x01\x01\x01\x01\x01\x01\x01\x01\x01\x01\x01\x01\x01\x01\x01\x01\x01\x01\x01\x01\x01\x01\x01\x01\x01\x01\x01\x01\x01\x01\x01\x01\x01\x01\x26\x06";

/// The digest and the kind of a dirtree with the rows' files and the rows' directories.
pub const TREE: &str = "e7e48ebee378fd66087e8333d4611cdcd3cd4307c180900e28f10878182f41a7.dirtree";

/// The pieces of the dirtree.
pub const TREE_PIECES: &[Piece] = &[
    Piece::Rows("f", ONE_DIGEST),
    Piece::Ends(ROWS, 39, 2),
    Piece::Rows("d", TWO_DIGESTS),
    Piece::Ends(ROWS, 72, 4),
    Piece::Bytes(b"\x2c\xb0\0\0"),
];

/// The pieces of a dirtree of 100,000 files that have neither names nor digests.
pub const EMPTY_FILES: &[Piece] = &[
    Piece::Alike(b"\0\x01", 100_000),
    Piece::Ends(100_000, 2, 4),
    Piece::Bytes(b"\xc0\x27\x09\0"),
];

/// The pieces of a dirmeta of user and group 0, with 100,000 extended attributes that have neither
/// names nor values.
pub const EMPTY_ATTRIBUTES: &[Piece] = &[
    Piece::Times(0, 12),
    Piece::Alike(b"\0", 100_000),
    Piece::Ends(100_000, 1, 4),
];

fn push(rt: &impl Abort, bytes: &mut Vec<u8>, piece: &[u8]) {
    bytes.extend_from_slice(piece).expect(rt, "memory");
}

fn push_times(rt: &impl Abort, alloc: Global, bytes: &mut Vec<u8>, byte: u8, count: usize) {
    let piece = vec![in alloc; byte; count].expect(rt, "memory");
    push(rt, bytes, &piece);
}

fn push_rows(rt: &impl Abort, alloc: Global, bytes: &mut Vec<u8>, letter: &str, end: &[u8]) {
    for number in 0..ROWS {
        let row = format!(in alloc; "{letter}{number:04}").expect(rt, "memory");
        push(rt, bytes, row.as_bytes());
        push(rt, bytes, end);
    }
}

fn push_alike(rt: &impl Abort, alloc: Global, bytes: &mut Vec<u8>, row: &[u8], count: usize) {
    let rows = row.repeat(alloc, count).expect(rt, "memory");
    push(rt, bytes, &rows);
}

fn push_ends(rt: &impl Abort, bytes: &mut Vec<u8>, count: u32, size: u32, width: usize) {
    let mut at: u32 = 0;
    for _row in 0..count {
        at = at.wrapping_add(size);
        let end = at.to_le_bytes();
        let (low, _) = end.split_at(width.min(4));
        push(rt, bytes, low);
    }
}

fn push_piece(rt: &impl Abort, alloc: Global, bytes: &mut Vec<u8>, piece: &Piece) {
    match piece {
        Piece::Bytes(piece) => push(rt, bytes, piece),
        Piece::Times(byte, count) => push_times(rt, alloc, bytes, *byte, *count),
        Piece::Rows(letter, end) => push_rows(rt, alloc, bytes, letter, end),
        Piece::Alike(row, count) => push_alike(rt, alloc, bytes, row, *count),
        Piece::Ends(count, size, width) => push_ends(rt, bytes, *count, *size, *width),
    }
}

/// Returns the bytes of the pieces.
pub fn bytes_of_pieces(rt: &impl Abort, alloc: Global, pieces: &[Piece]) -> Vec<u8> {
    let mut bytes = Vec::new(alloc);
    for piece in pieces {
        push_piece(rt, alloc, &mut bytes, piece);
    }
    bytes
}
