//! The errors of an operation.
use fp_host::HostEnd;
use fp_small::Refusal;
use ost_walk::PullEnd;
use std::alloc::AllocError;

/// The reason why an operation didn't succeed.
#[derive(Drop)]
pub enum ApplyEnd {
    /// The commit is refused, for its head or for one of its objects. The state is unchanged.
    Refused(Refusal),
    /// A call of the host failed. A crash may leave the previous state or the new one.
    Fault,
    /// A call of the remotes failed. The state is unchanged.
    RemoteFault,
    /// Memory ran out. The state is unchanged.
    NoMemory,
}

impl From<HostEnd> for ApplyEnd {
    ghost use Rattle.std.specs.Prelude.{◌≡◌};
    ghost use Rattle.op_change.specs.Ends.{of_host};

    ghost from_gives = { λ e end. end ≡ of_host e };

    fn from(end: HostEnd) -> ApplyEnd {
        match end {
            HostEnd::Fault => ApplyEnd::Fault,
            HostEnd::NoMemory => ApplyEnd::NoMemory,
        }
    }
}

impl From<PullEnd> for ApplyEnd {
    ghost use Rattle.std.specs.Prelude.{◌≡◌};
    ghost use Rattle.op_change.specs.Ends.{of_pull};

    ghost from_gives = { λ e end. end ≡ of_pull e };

    fn from(end: PullEnd) -> ApplyEnd {
        match end {
            PullEnd::Refused(refusal) => ApplyEnd::Refused(refusal),
            PullEnd::HostFault => ApplyEnd::Fault,
            PullEnd::RemoteFault => ApplyEnd::RemoteFault,
            PullEnd::NoMemory => ApplyEnd::NoMemory,
        }
    }
}

impl From<AllocError> for ApplyEnd {
    ghost use Rattle.std.specs.Prelude.{◌≡◌};
    ghost use Rattle.op_change.specs.declared.ending.ApplyEnd.TheVariants.{NoMemory};

    ghost from_gives = { λ _ end. end ≡ NoMemory };

    fn from(_: AllocError) -> ApplyEnd {
        ApplyEnd::NoMemory
    }
}
