//! Parsing the texts in tables.

use fp_base::ObjKind;
use fp_host::Path;
use fp_name::Digest;
use std::alloc::Global;
use std::panic::Expect;
use std::process::Abort;

/// Returns the bytes of hexadecimal digits.
pub fn bytes_of_digits(rt: &impl Abort, alloc: Global, digits: &str) -> Vec<u8> {
    hex::decode(alloc, digits).expect(rt, "digits")
}

/// Returns the path of a text.
pub fn path_of(rt: &impl Abort, alloc: Global, text: &str) -> Path {
    Path::parse(alloc, text).expect(rt, "a path")
}

/// Returns the digest of hexadecimal digits.
pub fn digest_of(rt: &impl Abort, digits: &str) -> Digest {
    Digest::parse(digits.as_bytes()).expect(rt, "a digest")
}

/// Returns the kind of a metadata object by the suffix of its name: a commit if it is no other.
pub fn kind_of(name: &str) -> ObjKind {
    if name.ends_with(".dirtree") {
        return ObjKind::DirTree;
    }
    if name.ends_with(".dirmeta") {
        return ObjKind::DirMeta;
    }
    ObjKind::Commit
}
