//! Finding an object in the store or else at the remote.
ghost use Rattle.std.specs.Prelude.{◌≡◌, None, Some, IfOk};
ghost use Rattle.ost_model.specs.Objects.{Have, object_fault};
ghost use Rattle.ost_model.specs.Remotes.{Supplies};
ghost use Rattle.ost_walk.specs.Ends.{Observes, around};
ghost use Rattle.ost_head.specs.Objects.{IsFit, Judges};
ghost use Rattle.ost_head.specs.Found.{found_object, IsFound, IsKeepableIfNew};

use crate::fetching::fetch;
use crate::storing::stored;
use fp_base::ObjKind;
use fp_host::{Host, Path, Remotes};
use fp_name::Digest;
use ost_model::Object;
use ost_walk::WalkEnd;
use std::alloc::Global;

/// An object that was checked, and its source.
#[derive(Drop)]
pub enum Found {
    /// The store has the object.
    Stored(Object),
    /// The remote has the object, and the store doesn't.
    New(Object),
}

/// Finds an object in the store at `root`, or else at the remote at `url`, and checks it. `Refused`
/// with its fault: if the store's object has one, the remote isn't asked. Changes nothing.
pub fn find<H: Host, R: Remotes>(
    alloc: Global,
    host: &mut H,
    remotes: &mut R,
    root: &Path,
    url: &str,
    digest: &Digest,
    kind: ObjKind,
) -> Result<Found, WalkEnd>
    ensures looks { Observes result
        (around H.Host R.Remotes host.old remotes.old)
        (around H.Host R.Remotes host.new remotes.new) }
    ensures good { IfOk result (λ found. object_fault digest.now kind (Some (found_object found))
        ≡ None) }
    ensures keepable { IfOk result IsKeepableIfNew }
    ensures from { IfOk result (IsFound root.now url.now (H.moments host.old) (R.holds remotes.old)
        digest.now kind) }
    ensures tells { (have : Have) → Supplies root.now (Some url.now) (H.moments host.old)
        (R.holds remotes.old) have
        → Judges found_object digest.now kind (have digest.now kind) result }
{
    match stored(alloc, host, root, digest, kind) {
        Ok(Some(object)) => Ok(Found::Stored(object)),
        Ok(None) => match fetch(alloc, remotes, url, digest, kind) {
            Ok(object) => Ok(Found::New(object)),
            Err(end) => Err(end),
        },
        Err(end) => Err(end),
    }
}
