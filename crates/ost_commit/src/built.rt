//! A commit that was built, and its objects.

ghost use Rattle.std.specs.Prelude.{◌≡◌};
ghost use Rattle.ost_commit.specs.declared.built.BuildError.TheVariants.{NoMemory};

use fp_base::{Items, ObjKind};
use fp_name::Digest;
use ost_model::Object;
use std::alloc::{AllocError, AllocFailed};
use std::error::Error;
use std::fmt;

/// An object with its digest.
#[derive(Drop)]
pub struct BuiltObject {
    /// The digest of the object.
    pub digest: Digest,
    /// The kind of the object.
    pub kind: ObjKind,
    /// The object itself.
    pub object: Object,
}

/// A commit and all its objects.
#[derive(Drop)]
pub struct Built {
    /// The digest of the commit.
    pub commit: Digest,
    /// All objects of the commit, each once.
    pub objects: Items<BuiltObject>,
}

/// The reason why rows make no commit.
#[derive(Clone, Copy, Debug, PartialEq, Eq)]
pub enum BuildError {
    /// The number of the first row that is refused, counted from 1.
    Row(u64),
    /// Two different objects have one digest.
    Collision,
    /// The dirtree of a directory or the commit has no serialised form of at most 16 MiB. A subject
    /// with a zero byte is such a case too.
    TooLarge,
    /// Memory ran out.
    NoMemory,
}

impl fmt::Display for BuildError {
    fn fmt<W: fmt::Write>(&self, f: &mut fmt::Formatter<W>) -> fmt::Result {
        match self {
            BuildError::Row(number) => write!(f, "row {number} is refused"),
            BuildError::Collision => write!(f, "two objects have one digest"),
            BuildError::TooLarge => write!(f, "a commit that is too large"),
            BuildError::NoMemory => write!(f, "out of memory"),
        }
    }
}

impl Error for BuildError {}

impl From<AllocError> for BuildError {
    ghost from_gives = { λ _ e. e ≡ NoMemory };

    fn from(_e: AllocError) -> BuildError {
        BuildError::NoMemory
    }
}

impl<T: Drop> From<AllocFailed<T>> for BuildError {
    ghost from_gives = { λ _ e. e ≡ NoMemory };

    fn from(_e: AllocFailed<T>) -> BuildError {
        BuildError::NoMemory
    }
}
