//! The error of reading a message.

ghost use Rattle.std.specs.Prelude.{◌≡◌};
ghost use Rattle.bus_frame.specs.declared.error.FrameError.TheVariants.{Bad, NoMemory};

use fp_base::FrameRule;
use std::alloc::AllocError;
use std::error::Error;
use std::fmt;

/// The error of reading a message.
#[derive(Debug, Drop)]
pub enum FrameError {
    /// The first rule that the bytes break.
    Bad(FrameRule),
    /// Memory ran out.
    NoMemory,
}

impl fmt::Display for FrameError {
    fn fmt<W: fmt::Write>(&self, f: &mut fmt::Formatter<W>) -> fmt::Result {
        match self {
            FrameError::Bad(rule) => write!(f, "a message that breaks a rule: {rule}"),
            FrameError::NoMemory => write!(f, "out of memory"),
        }
    }
}

impl Error for FrameError {}

impl From<AllocError> for FrameError {
    ghost from_gives = { λ _ e. e ≡ NoMemory };

    fn from(_error: AllocError) -> FrameError {
        FrameError::NoMemory
    }
}

impl From<FrameRule> for FrameError {
    ghost from_gives = { λ rule e. e ≡ Bad rule };

    fn from(rule: FrameRule) -> FrameError {
        FrameError::Bad(rule)
    }
}
