//! The fault of a key file, and the error of parsing one.
ghost use Rattle.std.specs.Prelude.{◌≡◌};
ghost use Rattle.fp_keyfile.specs.declared.fault.KeyError.TheVariants.{NoMemory};

use fp_base::KeyRule;
use std::alloc::{AllocError, AllocFailed};
use std::error::Error;
use std::fmt;

/// The fault of a key file: its first bad line, and the rule that this line breaks.
#[derive(Clone, Copy, Debug, PartialEq, Eq)]
pub struct KeyFault {
    /// The number of the line, counted from 1.
    pub line: u64,
    /// The first rule that the line breaks.
    pub rule: KeyRule,
}

/// The reason why bytes were not parsed as a key file.
#[derive(Clone, Copy, Debug, PartialEq, Eq)]
pub enum KeyError {
    /// The bytes aren't a key file: a line breaks a rule.
    Fault(KeyFault),
    /// Memory ran out.
    NoMemory,
}

impl fmt::Display for KeyError {
    fn fmt<W: fmt::Write>(&self, f: &mut fmt::Formatter<W>) -> fmt::Result {
        match self {
            KeyError::Fault(KeyFault { line, rule }) => {
                write!(f, "line {line} breaks a rule: {rule}")
            }
            KeyError::NoMemory => write!(f, "out of memory"),
        }
    }
}

impl Error for KeyError {}

impl From<AllocError> for KeyError {
    ghost from_gives = { λ _ e. e ≡ NoMemory };

    fn from(_e: AllocError) -> KeyError {
        KeyError::NoMemory
    }
}

impl<T: Drop> From<AllocFailed<T>> for KeyError {
    ghost from_gives = { λ _ e. e ≡ NoMemory };

    fn from(_e: AllocFailed<T>) -> KeyError {
        KeyError::NoMemory
    }
}
