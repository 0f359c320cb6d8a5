//! The error of serialising a value.
ghost use Rattle.std.specs.Prelude.{◌≡◌};
ghost use Rattle.gv_encode.specs.declared.error.EncodeError.TheVariants.{NoMemory};

use std::alloc::{AllocError, AllocFailed};
use std::error::Error;
use std::fmt;

/// The reason why a value could not be serialised.
#[derive(Clone, Copy, Debug, PartialEq, Eq)]
pub enum EncodeError {
    /// The value is not of the type.
    NotOfType,
    /// The bytes of the value are more than 16 MiB.
    TooLong,
    /// Memory ran out.
    NoMemory,
}

impl fmt::Display for EncodeError {
    fn fmt<W: fmt::Write>(&self, f: &mut fmt::Formatter<W>) -> fmt::Result {
        match self {
            EncodeError::NotOfType => write!(f, "not a value of the type"),
            EncodeError::TooLong => write!(f, "more than 16 MiB"),
            EncodeError::NoMemory => write!(f, "out of memory"),
        }
    }
}

impl Error for EncodeError {}

impl From<AllocError> for EncodeError {
    ghost from_gives = { λ _ e. e ≡ NoMemory };

    fn from(_e: AllocError) -> EncodeError {
        EncodeError::NoMemory
    }
}

impl<T: Drop> From<AllocFailed<T>> for EncodeError {
    ghost from_gives = { λ _ e. e ≡ NoMemory };

    fn from(_e: AllocFailed<T>) -> EncodeError {
        EncodeError::NoMemory
    }
}
