//! The error of reading bytes.
ghost use Rattle.std.specs.Prelude.{◌≡◌};
ghost use Rattle.gv_decode.specs.declared.error.DecodeError.TheVariants.{NoMemory};

use std::alloc::{AllocError, AllocFailed};
use std::error::Error;
use std::fmt;

/// The reason why bytes could not be read.
#[derive(Clone, Copy, Debug, PartialEq, Eq)]
pub enum DecodeError {
    /// There are more than 16 MiB.
    TooLong,
    /// The bytes are not a value of the type in normal form.
    NotNormal,
    /// Memory ran out.
    NoMemory,
}

impl fmt::Display for DecodeError {
    fn fmt<W: fmt::Write>(&self, f: &mut fmt::Formatter<W>) -> fmt::Result {
        match self {
            DecodeError::TooLong => write!(f, "more than 16 MiB"),
            DecodeError::NotNormal => write!(f, "not a value in normal form"),
            DecodeError::NoMemory => write!(f, "out of memory"),
        }
    }
}

impl Error for DecodeError {}

impl From<AllocError> for DecodeError {
    ghost from_gives = { λ _ e. e ≡ NoMemory };

    fn from(_e: AllocError) -> DecodeError {
        DecodeError::NoMemory
    }
}

impl<T: Drop> From<AllocFailed<T>> for DecodeError {
    ghost from_gives = { λ _ e. e ≡ NoMemory };

    fn from(_e: AllocFailed<T>) -> DecodeError {
        DecodeError::NoMemory
    }
}
