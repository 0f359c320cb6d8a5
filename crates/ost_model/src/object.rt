//! The objects of a repository.

use fp_base::{Blob, Text};

/// An object of a repository.
#[derive(Debug, Drop)]
pub enum Object {
    /// A commit, a dirtree or a dirmeta, by its bytes.
    Meta(Blob),
    /// A regular file, by its permission bits and its bytes.
    File { mode: u32, bytes: Blob },
    /// A symlink, by its text.
    Link(Text),
}
