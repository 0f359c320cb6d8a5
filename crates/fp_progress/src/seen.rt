//! The content of files in an OSTree repository, as their paths show it.
use fp_name::Digest;

/// The number of hexadecimal digits of a mark.
const DIGITS: usize = 16;

/// The content of a file, as its path shows it. An object is identified by its mark, eight bytes of
/// its digest.
#[derive(Clone, Copy)]
pub(crate) enum Seen<'a> {
    /// The file of a ref, with the ref's name below `refs/heads`.
    Ref(&'a str),
    /// A commit, by its mark.
    Commit(u64),
    /// A dirtree, by its mark.
    Tree(u64),
    /// Another object, by its mark.
    Object(u64),
    /// Any other file.
    Other,
}

/// Returns the content that the path shows.
pub(crate) fn seen_at(path: &str) -> Seen<'_> {
    if let Some((_, name)) = path.rsplit_once("/refs/heads/") {
        return Seen::Ref(name);
    }
    match path.rsplit_once("/objects/") {
        Some((_, name)) => object(name),
        None => Seen::Other,
    }
}

/// Returns the object of a name such as `ab/cd..ef.file`, which is two digits of the digest, a
/// slash, the others and the object's type.
fn object(name: &str) -> Seen<'_> {
    let Some((digits, kind)) = name.rsplit_once('.') else {
        return Seen::Other;
    };
    let Some((_, rest)) = digits.split_once('/') else {
        return Seen::Other;
    };
    match (mark_in(rest), kind) {
        (Some(mark), "commit") => Seen::Commit(mark),
        (Some(mark), "dirtree") => Seen::Tree(mark),
        (Some(mark), _) => Seen::Object(mark),
        (None, _) => Seen::Other,
    }
}

/// Returns the mark that the first 16 digits spell.
fn mark_in(digits: &str) -> Option<u64> {
    match digits.get(..DIGITS) {
        Some(digits) => u64::from_str_radix(digits, 16).ok(),
        None => None,
    }
}

/// Returns the mark of the commit in a ref's file.
pub(crate) fn mark_of_ref(bytes: &[u8]) -> Option<u64> {
    match bytes.get(2..2 + DIGITS) {
        Some(digits) => match str::from_utf8(digits) {
            Ok(digits) => u64::from_str_radix(digits, 16).ok(),
            Err(_) => None,
        },
        None => None,
    }
}

/// Returns the mark of an object: the second to the ninth byte of its digest, as a big-endian
/// number.
pub(crate) fn mark_of(digest: &Digest) -> u64 {
    match digest.as_bytes() {
        [_, a, b, c, d, e, f, g, h, ..] => u64::from_be_bytes([*a, *b, *c, *d, *e, *f, *g, *h]),
    }
}

/// Returns the ID in a ref's name, as in `app/ID/ARCH/BRANCH`.
pub(crate) fn id_in(name: &str) -> &str {
    match name.split('/').nth(1) {
        Some(id) => id,
        None => name,
    }
}
