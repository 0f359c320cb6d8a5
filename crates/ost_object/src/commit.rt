//! Commit objects.
use fp_base::{Blob, Text};
use fp_name::Digest;

/// A commit object, of the GVariant type `(a{sv}aya(say)sstayay)`. The metadata and the related
/// objects are kept as bytes that the reader has checked to be in normal form, so that a commit
/// takes little more memory than its bytes, whatever they are.
#[derive(Drop)]
pub struct Commit {
    /// The metadata: the bytes of a value of type `a{sv}`.
    pub metadata: Blob,
    /// The parent commit, if there is one.
    pub parent: Option<Digest>,
    /// The related objects: the bytes of a value of type `a(say)`.
    pub related: Blob,
    /// The subject: the commit's title.
    pub subject: Text,
    /// The body: the longer description of the commit.
    pub body: Text,
    /// The time in seconds since 1970-01-01 00:00 UTC.
    pub timestamp: u64,
    /// The digest of the root's dirtree.
    pub tree: Digest,
    /// The digest of the root's dirmeta.
    pub meta: Digest,
}

/// The root directory of a commit: all that is needed to walk its tree.
#[derive(Clone, Copy, Debug, PartialEq, Eq)]
pub struct CommitRoot {
    /// The digest of the root's dirtree.
    pub tree: Digest,
    /// The digest of the root's dirmeta.
    pub meta: Digest,
}
