//! The rules of OSTree's metadata objects: commits, dirtrees and dirmetas.

use std::fmt;

/// The rule that a metadata object (a commit, dirtree or dirmeta) breaks.
#[derive(Clone, Copy, Debug, PartialEq, Eq)]
pub enum Rule {
    /// The bytes aren't a value of the object's GVariant type in normal form.
    Value,
    /// A commit's parent is neither absent nor a digest of 32 bytes.
    Parent,
    /// The digest of a commit's root dirtree isn't 32 bytes long.
    Tree,
    /// The digest of a commit's root dirmeta isn't 32 bytes long.
    Meta,
    /// A digest in a dirtree isn't 32 bytes long.
    Digest,
    /// A name in a dirtree can't be a file name.
    Name,
    /// The names of a dirtree's files, or those of its directories, aren't strictly ascending.
    Order,
    /// A name in a dirtree is that of a file and of a directory.
    Both,
    /// A dirmeta has another owner or group than 0.
    Owner,
    /// A dirmeta has extended attributes.
    Xattrs,
    /// A dirmeta's mode is not that of a directory.
    Kind,
}

impl Rule {
    fn words(self) -> &'static str {
        match self {
            Rule::Value => "the bytes are not a value of the object's type in normal form",
            Rule::Parent => "a commit's parent is neither absent nor a digest of 32 bytes",
            Rule::Tree => "the digest of a commit's root dirtree hasn't 32 bytes",
            Rule::Meta => "the digest of a commit's root dirmeta hasn't 32 bytes",
            Rule::Digest => "a digest in a dirtree hasn't 32 bytes",
            Rule::Name => "a name in a dirtree can't be the name of a file",
            Rule::Order => "the names of the files or those of the directories don't ascend",
            Rule::Both => "a name is that of a file and that of a directory",
            Rule::Owner => "a dirmeta has an owner other than 0",
            Rule::Xattrs => "a dirmeta has extended attributes",
            Rule::Kind => "a dirmeta's mode is not that of a directory",
        }
    }
}

impl fmt::Display for Rule {
    fn fmt<W: fmt::Write>(&self, f: &mut fmt::Formatter<W>) -> fmt::Result {
        f.write_str(self.words())
    }
}
