//! The errors of a walk.
ghost use Rattle.std.specs.Prelude.{◌≡◌};
ghost use Rattle.ost_walk.specs.Ends.{refusal};

use fp_base::{ObjKind, Rule};
use fp_host::{HostEnd, RemoteError};
use fp_name::Digest;
use std::alloc::{AllocError, AllocFailed};

/// The fault of an object.
#[derive(Clone, Copy)]
pub enum ObjectFault {
    /// More than 200,000 objects: the object is preceded by that many in the order.
    TooMany,
    /// The object belongs to a directory more than 64 levels below the root.
    TooDeep,
    /// There is no such object.
    Missing,
    /// The object has this number of bytes, which is more than the limit.
    TooLong(u64),
    /// The object has this mode, whose permission bits aren't within 0775.
    RefusedMode(u32),
    /// The object has this digest, which is not the one in its name.
    Corrupt(Digest),
    /// The object breaks this rule.
    Malformed(Rule),
}

/// The first object of an order that has a fault.
#[derive(Clone, Copy)]
pub struct WalkFault {
    /// The digest of the object.
    pub digest: Digest,
    /// The kind of the object.
    pub kind: ObjKind,
    /// The fault of the object.
    pub fault: ObjectFault,
}

/// The error of a walk.
#[derive(Clone, Copy)]
pub enum WalkEnd {
    /// An object has this fault.
    Refused(WalkFault),
    /// A call of the host failed.
    HostFault,
    /// A call of the remotes failed.
    RemoteFault,
    /// Memory ran out.
    NoMemory,
}

impl From<AllocError> for WalkEnd {
    ghost use Rattle.std.specs.Prelude.{◌≡◌};
    ghost use Rattle.ost_walk.specs.declared.ends.WalkEnd.TheVariants.{NoMemory};

    ghost from_gives = { λ _ end. end ≡ NoMemory };

    fn from(_: AllocError) -> WalkEnd {
        WalkEnd::NoMemory
    }
}

impl<T: Drop> From<AllocFailed<T>> for WalkEnd {
    ghost use Rattle.std.specs.Prelude.{◌≡◌};
    ghost use Rattle.ost_walk.specs.declared.ends.WalkEnd.TheVariants.{NoMemory};

    ghost from_gives = { λ _ end. end ≡ NoMemory };

    fn from(_: AllocFailed<T>) -> WalkEnd {
        WalkEnd::NoMemory
    }
}

impl From<HostEnd> for WalkEnd {
    ghost use Rattle.std.specs.Prelude.{◌≡◌};
    ghost use Rattle.ost_walk.specs.Ends.{of_host};

    ghost from_gives = { λ e end. end ≡ of_host e };

    fn from(end: HostEnd) -> WalkEnd {
        match end {
            HostEnd::Fault => WalkEnd::HostFault,
            HostEnd::NoMemory => WalkEnd::NoMemory,
        }
    }
}

impl From<RemoteError> for WalkEnd {
    ghost use Rattle.std.specs.Prelude.{◌≡◌};
    ghost use Rattle.ost_walk.specs.Ends.{of_remote};

    ghost from_gives = { λ e end. end ≡ of_remote e };

    fn from(error: RemoteError) -> WalkEnd {
        match error {
            RemoteError::Failed => WalkEnd::RemoteFault,
            RemoteError::NoMemory => WalkEnd::NoMemory,
        }
    }
}

/// Returns the error that refuses an object with a fault.
pub fn refused(digest: &Digest, kind: ObjKind, fault: ObjectFault) -> WalkEnd
    ensures { result ≡ refusal digest.now kind fault }
{
    WalkEnd::Refused(WalkFault {
        digest: *digest,
        kind,
        fault,
    })
}
