//! The error of reading a type string.
ghost use Rattle.std.specs.Prelude.{◌≡◌};
ghost use Rattle.gv_value.specs.declared.error.TypeError.TheVariants.{NoMemory};

use std::alloc::{AllocError, AllocFailed};
use std::error::Error;
use std::fmt;

/// The reason why a type string could not be read.
#[derive(Clone, Copy, Debug, PartialEq, Eq)]
pub enum TypeError {
    /// The text is not one type that nests at most 64 deep.
    Bad,
    /// Memory ran out.
    NoMemory,
}

impl fmt::Display for TypeError {
    fn fmt<W: fmt::Write>(&self, f: &mut fmt::Formatter<W>) -> fmt::Result {
        match self {
            TypeError::Bad => write!(f, "not a type"),
            TypeError::NoMemory => write!(f, "out of memory"),
        }
    }
}

impl Error for TypeError {}

impl From<AllocError> for TypeError {
    ghost from_gives = { λ _ e. e ≡ NoMemory };

    fn from(_e: AllocError) -> TypeError {
        TypeError::NoMemory
    }
}

impl<T: Drop> From<AllocFailed<T>> for TypeError {
    ghost from_gives = { λ _ e. e ≡ NoMemory };

    fn from(_e: AllocFailed<T>) -> TypeError {
        TypeError::NoMemory
    }
}
