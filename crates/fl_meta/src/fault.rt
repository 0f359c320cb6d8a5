//! The error of reading a key file as metadata.

ghost use Rattle.std.specs.Prelude.{◌≡◌};
ghost use Rattle.fl_meta.specs.declared.fault.MetaError.TheVariants.{NoMemory};

use fp_base::MetaRule;
use std::alloc::{AllocError, AllocFailed};
use std::error::Error;
use std::fmt;

/// The reason why a key file wasn't read as metadata.
#[derive(Clone, Copy, Debug, PartialEq, Eq)]
pub enum MetaError {
    /// The file breaks this rule, and no rule that is checked before it.
    Rule(MetaRule),
    /// Memory ran out.
    NoMemory,
}

impl fmt::Display for MetaError {
    fn fmt<W: fmt::Write>(&self, f: &mut fmt::Formatter<W>) -> fmt::Result {
        match self {
            MetaError::Rule(rule) => write!(f, "metadata that breaks a rule: {rule}"),
            MetaError::NoMemory => write!(f, "out of memory"),
        }
    }
}

impl Error for MetaError {}

impl From<AllocError> for MetaError {
    ghost from_gives = { λ _ e. e ≡ NoMemory };

    fn from(_e: AllocError) -> MetaError {
        MetaError::NoMemory
    }
}

impl<T: Drop> From<AllocFailed<T>> for MetaError {
    ghost from_gives = { λ _ e. e ≡ NoMemory };

    fn from(_e: AllocFailed<T>) -> MetaError {
        MetaError::NoMemory
    }
}
