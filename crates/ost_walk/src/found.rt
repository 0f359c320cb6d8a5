//! The results of looking up a path of a commit.

use fp_name::Digest;
use ost_object::DirTree;

/// The result of looking up a path of a commit.
#[derive(Clone, Copy, Debug, PartialEq, Eq)]
pub enum Found {
    /// A directory.
    Dir,
    /// A file or a symlink, by the digest of its object.
    File(Digest),
    /// The path doesn't exist.
    Nothing,
}

/// The result of following the first elements of a path.
#[derive(Drop)]
pub(crate) enum Here {
    /// A directory, by its dirtree and its depth below the root.
    Dir(DirTree, u32),
    /// A file or a symlink, by the digest of its object.
    File(Digest),
    /// The path doesn't exist.
    Nothing,
}
