//! Fetching a metadata object from the store or from the remote.
ghost use Rattle.std.specs.Prelude.{◌≡◌, false, Some, IsErrOf};
ghost use Rattle.fp_host.specs.Remote.{Holdings};
ghost use Rattle.ost_model.specs.Objects.{Have};
ghost use Rattle.ost_model.specs.Objects.{may_be_link};
ghost use Rattle.ost_model.specs.Remotes.{remote};
ghost use Rattle.ost_walk.specs.Ends.{Observes, IsRemotes, around};
ghost use Rattle.ost_walk.specs.Sources.{SuppliesAt};
ghost use Rattle.ost_walk.specs.Steps.{Fetches};

use crate::ends::{ObjectFault, WalkEnd, refused};
use crate::places::Places;
use crate::remote::{fetch_remote, named};
use fp_base::{Blob, ObjKind};
use fp_host::{Host, Remotes};
use fp_name::Digest;
use ost_model::MOST_METADATA_OBJECT_BYTES;
use ost_store::{Got, get};
use std::alloc::Global;

/// Returns the bytes of a metadata object: the store's if the store has it, and otherwise the
/// remote's. `Refused` with `Missing` if neither has it, with `TooLong` if it has more than 16 MiB,
/// and with `Corrupt` if its digest isn't `digest`. The kind must not be `File`.
pub fn fetch<H: Host, R: Remotes>(
    alloc: Global,
    host: &mut H,
    remotes: &mut R,
    places: &Places,
    digest: &Digest,
    kind: ObjKind,
) -> Result<Blob, WalkEnd>
    requires { may_be_link kind ≡ false }
    ensures looks { Observes result (around H.Host R.Remotes host.old remotes.old)
        (around H.Host R.Remotes host.new remotes.new) }
    ensures tells { (have : Have) → SuppliesAt places.now (H.moments host.old)
        (R.holds remotes.old) have
        → Fetches digest.now kind (have digest.now kind) result }
{
    match get(
        alloc,
        host,
        &places.root,
        digest,
        kind,
        MOST_METADATA_OBJECT_BYTES,
    )? {
        Got::Meta(bytes) => named(bytes, digest, kind),
        Got::TooLong(size) => Err(refused(digest, kind, ObjectFault::TooLong(size))),
        _ => fetch_from(alloc, remotes, places, digest, kind),
    }
}

/// Returns the bytes of a metadata object of the remote. `Refused` with `Missing` if there is no
/// remote or it doesn't have the object, with `TooLong` or with `Corrupt`.
fn fetch_from<R: Remotes>(
    alloc: Global,
    remotes: &mut R,
    places: &Places,
    digest: &Digest,
    kind: ObjKind,
) -> Result<Blob, WalkEnd>
    requires { may_be_link kind ≡ false }
    ensures same { R.holds remotes.new ≡ R.holds remotes.old }
    ensures tells { (held : Holdings) → R.holds remotes.old ≡ Some held → Fetches digest.now kind
        (remote held places.now.url digest.now kind) result }
    ensures host { IsErrOf result WalkEnd.HostFault → ⊥ }
    ensures remote { IsRemotes (IsErrOf result WalkEnd.RemoteFault)
        (R.faults remotes.old) (R.faults remotes.new) }
{
    match &places.url {
        Some(url) => fetch_remote(alloc, remotes, url.as_str(), digest, kind),
        None => Err(refused(digest, kind, ObjectFault::Missing)),
    }
}
