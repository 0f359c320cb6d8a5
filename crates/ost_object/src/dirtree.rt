//! Dirtree objects.
use fp_base::{Items, Text};
use fp_name::Digest;

/// A file or a symlink in a directory.
#[derive(Drop)]
pub struct FileEntry {
    /// The name in the directory.
    pub name: Text,
    /// The digest of the `file` object.
    pub digest: Digest,
}

/// A directory in a directory.
#[derive(Drop)]
pub struct DirEntry {
    /// The name in the directory.
    pub name: Text,
    /// The digest of the directory's dirtree.
    pub tree: Digest,
    /// The digest of the directory's dirmeta.
    pub meta: Digest,
}

/// A dirtree object, of the GVariant type `(a(say)a(sayay))`: the list of a directory's entries.
#[derive(Drop)]
pub struct DirTree {
    /// The files and symlinks. A valid dirtree has them in strictly ascending order of their names'
    /// bytes.
    pub files: Items<FileEntry>,
    /// The directories. A valid dirtree has them in strictly ascending order of their names' bytes.
    pub dirs: Items<DirEntry>,
}
