//! The ends of opening an installation that isn't opened.
ghost use Rattle.std.specs.Prelude.{◌≡◌};

use fp_host::{HostEnd, HostError, Path};
use std::alloc::AllocError;

/// The reason why an installation isn't opened.
#[derive(Drop)]
pub enum OpenEnd {
    /// The node at this path can't be read as a part of the state: the first such path by its
    /// bytes.
    Damaged(Path),
    /// A call of the host failed.
    Fault,
    /// Memory ran out.
    NoMemory,
}

impl From<HostEnd> for OpenEnd {
    ghost use Rattle.std.specs.Prelude.{◌≡◌};
    ghost use Rattle.dep_open.specs.Ends.{open_end};

    ghost from_gives = { λ e end. end ≡ open_end e };

    fn from(end: HostEnd) -> OpenEnd {
        match end {
            HostEnd::Fault => OpenEnd::Fault,
            HostEnd::NoMemory => OpenEnd::NoMemory,
        }
    }
}

impl From<HostError> for OpenEnd {
    ghost use Rattle.std.specs.Prelude.{◌≡◌};
    ghost use Rattle.fp_host.specs.Causes.{end_of};
    ghost use Rattle.dep_open.specs.Ends.{open_end};

    ghost from_gives = { λ e end. end ≡ open_end (end_of e) };

    fn from(error: HostError) -> OpenEnd {
        OpenEnd::from(HostEnd::from(error))
    }
}

impl From<AllocError> for OpenEnd {
    ghost use Rattle.std.specs.Prelude.{◌≡◌};
    ghost use Rattle.dep_open.specs.declared.open_end.OpenEnd.TheVariants.{NoMemory};

    ghost from_gives = { λ _ end. end ≡ NoMemory };

    fn from(_: AllocError) -> OpenEnd {
        OpenEnd::NoMemory
    }
}
