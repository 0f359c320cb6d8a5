//! The report of checking a store.

use fp_base::{Items, ObjKind};
use fp_host::Path;
use fp_name::Digest;

/// A fault of a file or symlink below `objects`.
#[derive(Drop)]
pub enum Finding {
    /// A file or symlink at the path of this object that isn't the object.
    Bad { digest: Digest, kind: ObjKind },
    /// The path of a file or symlink, which is that of no object.
    Stray(Path),
}

/// The report of checking a store.
#[derive(Drop)]
pub struct Report {
    /// The faults, ascending by the bytes of their paths.
    pub findings: Items<Finding>,
    /// The number of files and symlinks at the path of an object, good or bad.
    pub objects: u64,
}
