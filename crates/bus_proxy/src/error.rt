//! The error that ends a filter.

use fp_base::{FrameRule, Side};
use std::alloc::AllocError;
use std::error::Error;
use std::fmt;

/// The error that ends a filter.
#[derive(Debug, Drop)]
pub enum FilterError {
    /// A side's message breaks a rule, or its stream ends within a message (`FrameRule::Cut`): the
    /// side, the number of its whole messages before that, and the rule.
    Bad(Side, u64, FrameRule),
    /// Memory ran out.
    NoMemory,
}

impl fmt::Display for FilterError {
    fn fmt<W: fmt::Write>(&self, f: &mut fmt::Formatter<W>) -> fmt::Result {
        match self {
            FilterError::Bad(side, index, rule) => {
                write!(f, "message {index} of {side} breaks a rule: {rule}")
            }
            FilterError::NoMemory => write!(f, "out of memory"),
        }
    }
}

impl Error for FilterError {}

impl From<AllocError> for FilterError {
    ghost use Rattle.std.specs.Prelude.{◌≡◌};
    ghost use Rattle.bus_proxy.specs.declared.error.FilterError.TheVariants.{NoMemory};

    ghost from_gives = { λ _ e. e ≡ NoMemory };

    fn from(_error: AllocError) -> FilterError {
        FilterError::NoMemory
    }
}
