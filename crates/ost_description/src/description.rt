//! Descriptions and their errors.

ghost use Rattle.std.specs.Prelude.{◌≡◌};
ghost use Rattle.ost_description.specs.declared.description.DescriptionError.TheVariants.{NoMemory};

use fp_base::{Items, Text};
use ost_commit::TreeRow;
use std::alloc::{AllocError, AllocFailed};
use std::error::Error;
use std::fmt;

/// The contents of a description.
#[derive(Drop)]
pub struct Description {
    /// The time of the commit in seconds since 1970.
    pub timestamp: u64,
    /// The subject of the commit: one line.
    pub subject: Text,
    /// The directories, files and symlinks of the tree.
    pub rows: Items<TreeRow>,
}

/// The reason why bytes make no commit.
#[derive(Clone, Copy, Debug, PartialEq, Eq)]
pub enum DescriptionError {
    /// The number of the first bad line, counted from 1.
    Record(u64),
    /// Two different objects have one digest.
    Collision,
    /// The dirtree of a directory or the commit has no serialised form of at most 16 MiB.
    TooLarge,
    /// Memory ran out.
    NoMemory,
}

impl fmt::Display for DescriptionError {
    fn fmt<W: fmt::Write>(&self, f: &mut fmt::Formatter<W>) -> fmt::Result {
        match self {
            DescriptionError::Record(number) => write!(f, "line {number} is bad"),
            DescriptionError::Collision => write!(f, "two objects have one digest"),
            DescriptionError::TooLarge => write!(f, "a commit that is too large"),
            DescriptionError::NoMemory => write!(f, "out of memory"),
        }
    }
}

impl Error for DescriptionError {}

impl From<AllocError> for DescriptionError {
    ghost from_gives = { λ _ e. e ≡ NoMemory };

    fn from(_e: AllocError) -> DescriptionError {
        DescriptionError::NoMemory
    }
}

impl<T: Drop> From<AllocFailed<T>> for DescriptionError {
    ghost from_gives = { λ _ e. e ≡ NoMemory };

    fn from(_e: AllocFailed<T>) -> DescriptionError {
        DescriptionError::NoMemory
    }
}
