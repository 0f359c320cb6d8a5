//! The errors of a pull.
ghost use Rattle.std.specs.Prelude.{◌≡◌};

use crate::ends::WalkEnd;
use crate::refusing::refuse_object;
use fp_host::{HostEnd, RemoteError};
use fp_small::Refusal;
use std::alloc::{AllocError, AllocFailed};

/// The error of a pull.
#[derive(Drop)]
pub enum PullEnd {
    /// An object or a file of the remote or of the store is refused.
    Refused(Refusal),
    /// A call of the host failed.
    HostFault,
    /// A call of the remotes failed.
    RemoteFault,
    /// Memory ran out.
    NoMemory,
}

impl From<AllocError> for PullEnd {
    ghost use Rattle.std.specs.Prelude.{◌≡◌};
    ghost use Rattle.ost_walk.specs.declared.pull_end.PullEnd.TheVariants.{NoMemory};

    ghost from_gives = { λ _ end. end ≡ NoMemory };

    fn from(_: AllocError) -> PullEnd {
        PullEnd::NoMemory
    }
}

impl<T: Drop> From<AllocFailed<T>> for PullEnd {
    ghost use Rattle.std.specs.Prelude.{◌≡◌};
    ghost use Rattle.ost_walk.specs.declared.pull_end.PullEnd.TheVariants.{NoMemory};

    ghost from_gives = { λ _ end. end ≡ NoMemory };

    fn from(_: AllocFailed<T>) -> PullEnd {
        PullEnd::NoMemory
    }
}

impl From<HostEnd> for PullEnd {
    ghost use Rattle.std.specs.Prelude.{◌≡◌};
    ghost use Rattle.ost_walk.specs.PullEnds.{of_host};

    ghost from_gives = { λ e end. end ≡ of_host e };

    fn from(end: HostEnd) -> PullEnd {
        match end {
            HostEnd::Fault => PullEnd::HostFault,
            HostEnd::NoMemory => PullEnd::NoMemory,
        }
    }
}

impl From<RemoteError> for PullEnd {
    ghost use Rattle.std.specs.Prelude.{◌≡◌};
    ghost use Rattle.ost_walk.specs.PullEnds.{of_remote};

    ghost from_gives = { λ e end. end ≡ of_remote e };

    fn from(error: RemoteError) -> PullEnd {
        match error {
            RemoteError::Failed => PullEnd::RemoteFault,
            RemoteError::NoMemory => PullEnd::NoMemory,
        }
    }
}

impl From<WalkEnd> for PullEnd {
    ghost use Rattle.std.specs.Prelude.{◌≡◌};
    ghost use Rattle.ost_walk.specs.PullEnds.{of_walk};

    ghost from_gives = { λ e end. end ≡ of_walk e };

    fn from(end: WalkEnd) -> PullEnd {
        match end {
            WalkEnd::Refused(refused) => PullEnd::Refused(refuse_object(&refused)),
            WalkEnd::HostFault => PullEnd::HostFault,
            WalkEnd::RemoteFault => PullEnd::RemoteFault,
            WalkEnd::NoMemory => PullEnd::NoMemory,
        }
    }
}
