//! The ends of making a remote that isn't made.
ghost use Rattle.std.specs.Prelude.{◌≡◌};

use fp_host::HostEnd;
use ost_description::DescriptionError;
use std::alloc::AllocError;
use std::error::Error;
use std::fmt;

/// The reason why a remote wasn't made.
#[derive(Clone, Copy, Debug, PartialEq, Eq)]
pub enum MakeEnd {
    /// The line with this number, counted from 1, is the first bad one of the description.
    BadRecord { line: u64 },
    /// A call of the host failed.
    Fault,
    /// Memory ran out. This is also the end if the commit would be too large, if two of its objects
    /// have the same digest, or if a store may not have one of its objects.
    NoMemory,
}

impl fmt::Display for MakeEnd {
    fn fmt<W: fmt::Write>(&self, f: &mut fmt::Formatter<W>) -> fmt::Result {
        match self {
            MakeEnd::BadRecord { line } => write!(f, "line {line} is bad"),
            MakeEnd::Fault => write!(f, "the host failed"),
            MakeEnd::NoMemory => write!(f, "out of memory"),
        }
    }
}

impl Error for MakeEnd {}

impl From<AllocError> for MakeEnd {
    ghost use Rattle.std.specs.Prelude.{◌≡◌};
    ghost use Rattle.fl_make.specs.declared.end.MakeEnd.TheVariants.{NoMemory};

    ghost from_gives = { λ _ end. end ≡ NoMemory };

    fn from(_: AllocError) -> MakeEnd {
        MakeEnd::NoMemory
    }
}

impl From<HostEnd> for MakeEnd {
    ghost use Rattle.std.specs.Prelude.{◌≡◌};
    ghost use Rattle.fl_make.specs.Ends.{end_of_host};

    ghost from_gives = { λ host end. end ≡ end_of_host host };

    fn from(end: HostEnd) -> MakeEnd {
        match end {
            HostEnd::Fault => MakeEnd::Fault,
            HostEnd::NoMemory => MakeEnd::NoMemory,
        }
    }
}

impl From<DescriptionError> for MakeEnd {
    ghost use Rattle.std.specs.Prelude.{◌≡◌};
    ghost use Rattle.fl_make.specs.Ends.{end_of_description};

    ghost from_gives = { λ error end. end ≡ end_of_description error };

    fn from(error: DescriptionError) -> MakeEnd {
        match error {
            DescriptionError::Record(line) => MakeEnd::BadRecord { line },
            DescriptionError::Collision | DescriptionError::TooLarge | DescriptionError::NoMemory =>
                MakeEnd::NoMemory,
        }
    }
}
