//! The kinds of objects in an OSTree repository.
ghost use Rattle.std.specs.Prelude.{◌≡◌};
ghost use Rattle.fp_base.specs.Objects.{kind_text};

/// The kind of an object (OSTree, "Anatomy of an OSTree repository").
#[derive(Clone, Copy, Debug, PartialEq, Eq, PartialOrd, Ord)]
pub enum ObjKind {
    /// A commit: the digests of its root directory and its parent, its subject, its time.
    Commit,
    /// A directory's entries: their names and digests.
    DirTree,
    /// A directory's owner, mode and extended attributes.
    DirMeta,
    /// A regular file or a symbolic link.
    File,
}

impl ObjKind {
    /// Returns the file extension of the kind's objects in a repository: `commit`, `dirtree`,
    /// `dirmeta` or `file`. Allocates nothing.
    pub fn word(self) -> &'static str
        ensures { result.now ≡ kind_text self }
    {
        match self {
            ObjKind::Commit => "commit",
            ObjKind::DirTree => "dirtree",
            ObjKind::DirMeta => "dirmeta",
            ObjKind::File => "file",
        }
    }
}
