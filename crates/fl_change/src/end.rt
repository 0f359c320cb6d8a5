//! The errors of work on an installation.
ghost use Rattle.std.specs.Prelude.{◌≡◌};

use dep_open::OpenEnd;
use fp_host::{HostEnd, HostError, RemoteError};
use fp_small::Refusal;
use op_change::ApplyEnd;
use ost_walk::PullEnd;
use std::alloc::AllocError;

/// The reason why work on an installation wasn't completed.
#[derive(Drop)]
pub enum RunEnd {
    /// The work is refused.
    Refused(Refusal),
    /// A call of the host failed.
    Fault,
    /// A call of the remotes failed.
    RemoteFault,
    /// Memory ran out.
    NoMemory,
}

impl From<OpenEnd> for RunEnd {
    ghost use Rattle.std.specs.Prelude.{◌≡◌};
    ghost use Rattle.fl_change.specs.Ends.{end_of_open};

    ghost from_gives = { λ opening end. end ≡ end_of_open opening };

    fn from(end: OpenEnd) -> RunEnd {
        match end {
            OpenEnd::Damaged(path) => RunEnd::Refused(Refusal::Damaged { path }),
            OpenEnd::Fault => RunEnd::Fault,
            OpenEnd::NoMemory => RunEnd::NoMemory,
        }
    }
}

impl From<HostEnd> for RunEnd {
    ghost use Rattle.std.specs.Prelude.{◌≡◌};
    ghost use Rattle.fl_change.specs.Ends.{end_of_host};

    ghost from_gives = { λ host end. end ≡ end_of_host host };

    fn from(end: HostEnd) -> RunEnd {
        match end {
            HostEnd::Fault => RunEnd::Fault,
            HostEnd::NoMemory => RunEnd::NoMemory,
        }
    }
}

impl From<HostError> for RunEnd {
    ghost use Rattle.std.specs.Prelude.{◌≡◌};
    ghost use Rattle.fp_host.specs.Causes.{end_of};
    ghost use Rattle.fl_change.specs.Ends.{end_of_host};

    ghost from_gives = { λ error end. end ≡ end_of_host (end_of error) };

    fn from(error: HostError) -> RunEnd {
        RunEnd::from(HostEnd::from(error))
    }
}

impl From<RemoteError> for RunEnd {
    ghost use Rattle.std.specs.Prelude.{◌≡◌};
    ghost use Rattle.fl_change.specs.Ends.{end_of_remote};

    ghost from_gives = { λ error end. end ≡ end_of_remote error };

    fn from(error: RemoteError) -> RunEnd {
        match error {
            RemoteError::Failed => RunEnd::RemoteFault,
            RemoteError::NoMemory => RunEnd::NoMemory,
        }
    }
}

impl From<AllocError> for RunEnd {
    ghost use Rattle.std.specs.Prelude.{◌≡◌};
    ghost use Rattle.fl_change.specs.declared.end.RunEnd.TheVariants.{NoMemory};

    ghost from_gives = { λ _ end. end ≡ NoMemory };

    fn from(_: AllocError) -> RunEnd {
        RunEnd::NoMemory
    }
}

impl From<ApplyEnd> for RunEnd {
    ghost use Rattle.std.specs.Prelude.{◌≡◌};
    ghost use Rattle.fl_change.specs.Ends.{end_of_apply};

    ghost from_gives = { λ apply end. end ≡ end_of_apply apply };

    fn from(end: ApplyEnd) -> RunEnd {
        match end {
            ApplyEnd::Refused(refusal) => RunEnd::Refused(refusal),
            ApplyEnd::Fault => RunEnd::Fault,
            ApplyEnd::RemoteFault => RunEnd::RemoteFault,
            ApplyEnd::NoMemory => RunEnd::NoMemory,
        }
    }
}

impl From<PullEnd> for RunEnd {
    ghost use Rattle.std.specs.Prelude.{◌≡◌};
    ghost use Rattle.fl_change.specs.Ends.{end_of_pull};

    ghost from_gives = { λ pull end. end ≡ end_of_pull pull };

    fn from(end: PullEnd) -> RunEnd {
        match end {
            PullEnd::Refused(refusal) => RunEnd::Refused(refusal),
            PullEnd::HostFault => RunEnd::Fault,
            PullEnd::RemoteFault => RunEnd::RemoteFault,
            PullEnd::NoMemory => RunEnd::NoMemory,
        }
    }
}
