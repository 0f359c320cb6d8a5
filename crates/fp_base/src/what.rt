//! The things that have a limit.

/// The thing whose limit was exceeded.
#[derive(Clone, Copy, Debug, PartialEq, Eq)]
pub enum What {
    /// The number of an installation's pins.
    Pins,
    /// The number of an installation's remotes.
    Remotes,
    /// The number of deployed refs.
    Refs,
    /// The bytes of the standard input.
    Input,
    /// The bytes of a file in a repository.
    Object,
    /// The bytes of a commit, dirtree or dirmeta object.
    MetadataObject,
    /// The number of a commit's objects; an object that occurs several times counts each time.
    Objects,
    /// The number of directories between a commit's root and an object.
    Depth,
    /// The bytes of a commit's file `metadata`.
    MetadataFile,
    /// The bytes of an override's file.
    Override,
}
