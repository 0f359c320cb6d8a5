//! Files and symlinks of the store that are checked, or trusted to match their digests.
ghost use Rattle.std.specs.Prelude.{◌≡◌, List, ℕ, Option, Some, IfOk, IsErrOf, IsTrue, is_some};
ghost use Rattle.fp_base.specs.declared.object.ObjKind.TheVariants as kinds;
ghost use Rattle.fp_host.specs.Moments.{Moments};
ghost use Rattle.fp_host.specs.Outcome.{shows};
ghost use Rattle.fp_host.specs.OverHost.{ChangesNothing, FailsAlone};
ghost use Rattle.ost_model.specs.declared.limits.TheConstants.{MOST_FILE_BYTES};
ghost use Rattle.ost_model.specs.declared.object.Object.{Object};
ghost use Rattle.ost_model.specs.Objects.{store};
ghost use Rattle.ost_store.specs.Reads.{got_of};
ghost use Rattle.ost_head.specs.Contents.{ChecksIfThere};
ghost use Rattle.ost_pull.specs.Pulls.{HasTrueFiles};
ghost use Rattle.ost_pull.specs.Trusts.{IsGoodIfTrue, MayTrust};

use fp_base::ObjKind;
use fp_host::{Host, Path};
use fp_name::Digest;
use ost_content::is_permission;
use ost_head::check_stored;
use ost_model::MOST_FILE_BYTES;
use ost_store::{Got, get};
use ost_walk::WalkEnd;
use std::alloc::Global;

/// The trust in the store's files and symlinks.
#[derive(Clone, Copy)]
pub(crate) enum Trust {
    /// No trust: each file and symlink is read, and its digest is checked.
    Nothing,
    /// Trust that files and symlinks match their digests, so no bytes of a good file are read.
    Names,
}

/// Returns whether the store's file or symlink has no fault if it matches its digest.
fn is_good_if_true(got: &Got) -> bool
    ensures { IsTrue result → (d : List ℕ) (there : Option Object)
        → got.now ≡ got_of MOST_FILE_BYTES there → IsGoodIfTrue d there }
{
    match got {
        Got::File { mode, .. } => is_permission(*mode),
        Got::Link(_) => true,
        _ => false,
    }
}

/// Returns whether the store at `root` has the file or symlink, which is trusted to match its
/// digest. If its permission bits and its size are good, no bytes of a file are read; else it is
/// checked as one that isn't trusted.
fn check_named<H: Host>(
    alloc: Global,
    host: &mut H,
    root: &Path,
    digest: &Digest,
) -> Result<bool, WalkEnd>
    ensures unchanged { ChangesNothing H.Host host.old host.new }
    ensures there { (m : Moments) → H.moments host.old ≡ Some m → IfOk result (λ there.
        there ≡ is_some (store root.now (shows m.now) digest.now kinds.File)) }
    ensures tells { (m : Moments) → H.moments host.old ≡ Some m → HasTrueFiles root.now m.now
        → ChecksIfThere digest.now (store root.now (shows m.now) digest.now kinds.File) result }
    ensures fault_has_cause { FailsAlone H.Host host.old host.new
        (IsErrOf result WalkEnd.HostFault) }
    ensures remote { IsErrOf result WalkEnd.RemoteFault → ⊥ }
{
    let _bytes = digest.as_bytes();
    let got = get(alloc, host, root, digest, ObjKind::File, MOST_FILE_BYTES)?;
    if is_good_if_true(&got) {
        return Ok(true);
    }
    check_stored(alloc, host, root, digest)
}

/// Returns whether the store at `root` has the file or symlink, after checking it as far as it
/// isn't trusted.
pub(crate) fn check_content<H: Host>(
    alloc: Global,
    host: &mut H,
    root: &Path,
    digest: &Digest,
    trust: Trust,
) -> Result<bool, WalkEnd>
    ensures unchanged { ChangesNothing H.Host host.old host.new }
    ensures there { (m : Moments) → H.moments host.old ≡ Some m → IfOk result (λ there.
        there ≡ is_some (store root.now (shows m.now) digest.now kinds.File)) }
    ensures tells { (m : Moments) → H.moments host.old ≡ Some m
        → MayTrust trust root.now (H.moments host.old)
        → ChecksIfThere digest.now (store root.now (shows m.now) digest.now kinds.File) result }
    ensures fault_has_cause { FailsAlone H.Host host.old host.new
        (IsErrOf result WalkEnd.HostFault) }
    ensures remote { IsErrOf result WalkEnd.RemoteFault → ⊥ }
{
    match trust {
        Trust::Nothing => check_stored(alloc, host, root, digest),
        Trust::Names => check_named(alloc, host, root, digest),
    }
}
