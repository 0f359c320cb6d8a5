//! The error of parsing a name.

ghost use Rattle.std.specs.Prelude.{◌≡◌};
ghost use Rattle.fp_name.specs.declared.fault.NameError.TheVariants.{NoMemory};

use std::alloc::AllocError;
use std::error::Error;
use std::fmt;

/// The reason why a text was not parsed as a name.
#[derive(Clone, Copy, Debug, PartialEq, Eq)]
pub enum NameError {
    /// The text isn't in the name's grammar.
    Bad,
    /// Memory ran out.
    NoMemory,
}

impl fmt::Display for NameError {
    fn fmt<W: fmt::Write>(&self, f: &mut fmt::Formatter<W>) -> fmt::Result {
        match self {
            NameError::Bad => write!(f, "bad name"),
            NameError::NoMemory => write!(f, "out of memory"),
        }
    }
}

impl Error for NameError {}

impl From<AllocError> for NameError {
    ghost from_gives = { λ _ e. e ≡ NoMemory };

    fn from(_e: AllocError) -> NameError {
        NameError::NoMemory
    }
}
