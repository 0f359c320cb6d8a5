//! The error of reading or writing a metadata object.
ghost use Rattle.std.specs.Prelude.{◌≡◌};
ghost use Rattle.ost_object.specs.declared.error.ObjectError.TheVariants.{NoMemory};

use fp_base::Rule;
use std::alloc::{AllocError, AllocFailed};
use std::error::Error;
use std::fmt;

/// The reason why a metadata object can't be read or written.
#[derive(Clone, Copy, Debug, PartialEq, Eq)]
pub enum ObjectError {
    /// The object breaks this rule.
    Malformed(Rule),
    /// Memory ran out.
    NoMemory,
}

impl fmt::Display for ObjectError {
    fn fmt<W: fmt::Write>(&self, f: &mut fmt::Formatter<W>) -> fmt::Result {
        match self {
            ObjectError::Malformed(rule) => write!(f, "a malformed object: {rule}"),
            ObjectError::NoMemory => write!(f, "out of memory"),
        }
    }
}

impl Error for ObjectError {}

impl From<AllocError> for ObjectError {
    ghost from_gives = { λ _ e. e ≡ NoMemory };

    fn from(_e: AllocError) -> ObjectError {
        ObjectError::NoMemory
    }
}

impl<T: Drop> From<AllocFailed<T>> for ObjectError {
    ghost from_gives = { λ _ e. e ≡ NoMemory };

    fn from(_e: AllocFailed<T>) -> ObjectError {
        ObjectError::NoMemory
    }
}
