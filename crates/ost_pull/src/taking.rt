//! Taking objects of an order: finding them, checking them, and keeping those that are new.
ghost use Rattle.std.specs.Prelude.{◌≡◌, Some, OnOk, IsErrOf};
ghost use Rattle.fp_base.specs.declared.object.ObjKind.TheVariants as kinds;
ghost use Rattle.fp_host.specs.OverHost.{AtEachMoment, AtReturn, FailsOnly};
ghost use Rattle.ost_model.specs.Objects.{Have};
ghost use Rattle.ost_model.specs.Remotes.{Supplies};
ghost use Rattle.ost_walk.specs.Ends.{EndsBy, IsRemotes, of_host, around};
ghost use Rattle.ost_walk.specs.Steps.{IsGood, IsOwnFault};
ghost use Rattle.ost_pull.specs.Pulls.{IsApart};
ghost use Rattle.ost_pull.specs.Takes.{TakesOne};
ghost use Rattle.ost_store.specs.ObjectNames.{AreOpen};
ghost use Rattle.ost_pull.specs.Work.{Works, Adds};
ghost use Rattle.ost_pull.specs.Turns.{EndsTold};

use crate::keeping::{keep, keep_content};
use crate::trusting::{Trust, check_content};
use fp_base::ObjKind;
use fp_host::{Host, HostEnd, Path, Remotes};
use fp_name::Digest;
use ost_head::{Found, find};
use ost_model::Object;
use ost_walk::{ObjectFault, WalkEnd, WalkFault};
use std::alloc::Global;

/// Returns the `WalkEnd` that a `HostEnd` is converted to.
pub(crate) fn walk_end(end: HostEnd) -> WalkEnd
    ensures { result ≡ of_host end }
{
    match end {
        HostEnd::Fault => WalkEnd::HostFault,
        HostEnd::NoMemory => WalkEnd::NoMemory,
    }
}

/// Takes one object that is read whole into memory: the store's if it has one, else the remote's,
/// which is kept in the work directory and appended to the list. Refuses it for its fault.
fn take_whole<H: Host, R: Remotes>(
    alloc: Global,
    host: &mut H,
    remotes: &mut R,
    root: &Path,
    url: &str,
    work: &Path,
    digest: &Digest,
    kind: ObjKind,
    kept: &mut Vec<(Digest, ObjKind)>,
) -> Result<(), WalkEnd>
    requires { IsApart root.now work.now }
    ensures any_moment { AtEachMoment H.Host host.old host.new (Works work.now) }
    ensures same { R.holds remotes.new ≡ R.holds remotes.old }
    ensures adds { OnOk result (Adds (digest.now, kind) kept.old.items kept.new.items) }
    ensures on_success { OnOk result (AtReturn H.Host host.old host.new
        (TakesOne root.now work.now url.now (R.holds remotes.old)
        (digest.now, kind) kept.old.items kept.new.items)) }
    ensures tells { (have : Have) → Supplies root.now (Some url.now) (H.moments host.old)
        (R.holds remotes.old) have
        → EndsBy (λ _. IsGood have digest.now kind)
        (IsOwnFault have digest.now kind) result }
    ensures fault_has_cause { FailsOnly H.Host host.old host.new
        (AreOpen work.now) (IsErrOf result WalkEnd.HostFault) }
    ensures remote_fault_has_cause { IsRemotes (IsErrOf result WalkEnd.RemoteFault)
        (R.faults remotes.old) (R.faults remotes.new) }
{
    let _bytes = digest.as_bytes();
    match find(alloc, host, remotes, root, url, digest, kind) {
        Ok(Found::Stored(_)) => Ok(()),
        Ok(Found::New(object)) => match keep(alloc, host, work, digest, kind, &object, kept) {
            Ok(()) => Ok(()),
            Err(end) => Err(walk_end(end)),
        },
        Err(end) => Err(end),
    }
}

/// Takes a file or symlink: the store's if it has one, which is checked as far as it isn't trusted,
/// else the remote's, which is kept in the work directory and appended to the list. Reads a file
/// piece by piece. Refuses it for its fault. The objects on the list must be kept in the work
/// directory.
fn take_content<H: Host, R: Remotes>(
    alloc: Global,
    host: &mut H,
    remotes: &mut R,
    root: &Path,
    url: &str,
    work: &Path,
    trust: Trust,
    digest: &Digest,
    kept: &mut Vec<(Digest, ObjKind)>,
) -> Result<(), WalkEnd>
    requires { IsApart root.now work.now }
    ensures any_moment { AtEachMoment H.Host host.old host.new (Works work.now) }
    ensures same { R.holds remotes.new ≡ R.holds remotes.old }
    ensures adds { OnOk result (Adds (digest.now, kinds.File) kept.old.items kept.new.items) }
    ensures on_success { OnOk result (AtReturn H.Host host.old host.new
        (TakesOne root.now work.now url.now (R.holds remotes.old)
        (digest.now, kinds.File) kept.old.items kept.new.items)) }
    ensures tells { EndsTold root.now work.now url.now trust kept.old.items
        (around H.Host R.Remotes host.old remotes.old) (λ have. IsGood have digest.now kinds.File)
        (λ have. IsOwnFault have digest.now kinds.File) result }
    ensures fault_has_cause { FailsOnly H.Host host.old host.new
        (AreOpen work.now) (IsErrOf result WalkEnd.HostFault) }
    ensures remote_fault_has_cause { IsRemotes (IsErrOf result WalkEnd.RemoteFault)
        (R.faults remotes.old) (R.faults remotes.new) }
{
    let _bytes = digest.as_bytes();
    match check_content(alloc, host, root, digest, trust) {
        Ok(true) => Ok(()),
        Ok(false) => keep_content(alloc, host, remotes, url, work, digest, kept),
        Err(end) => Err(end),
    }
}

/// Takes one object: the store's if it has one, else the remote's, which is kept in the work
/// directory and appended to the list. Refuses it for its fault. The objects on the list must be
/// kept in the work directory.
pub(crate) fn take<H: Host, R: Remotes>(
    alloc: Global,
    host: &mut H,
    remotes: &mut R,
    root: &Path,
    url: &str,
    work: &Path,
    trust: Trust,
    digest: &Digest,
    kind: ObjKind,
    kept: &mut Vec<(Digest, ObjKind)>,
) -> Result<(), WalkEnd>
    requires { IsApart root.now work.now }
    ensures any_moment { AtEachMoment H.Host host.old host.new (Works work.now) }
    ensures same { R.holds remotes.new ≡ R.holds remotes.old }
    ensures adds { OnOk result (Adds (digest.now, kind) kept.old.items kept.new.items) }
    ensures on_success { OnOk result (AtReturn H.Host host.old host.new
        (TakesOne root.now work.now url.now (R.holds remotes.old)
        (digest.now, kind) kept.old.items kept.new.items)) }
    ensures tells { EndsTold root.now work.now url.now trust kept.old.items
        (around H.Host R.Remotes host.old remotes.old) (λ have. IsGood have digest.now kind)
        (λ have. IsOwnFault have digest.now kind) result }
    ensures fault_has_cause { FailsOnly H.Host host.old host.new
        (AreOpen work.now) (IsErrOf result WalkEnd.HostFault) }
    ensures remote_fault_has_cause { IsRemotes (IsErrOf result WalkEnd.RemoteFault)
        (R.faults remotes.old) (R.faults remotes.new) }
{
    match kind {
        ObjKind::File => take_content(alloc, host, remotes, root, url, work, trust, digest, kept),
        ObjKind::Commit | ObjKind::DirTree | ObjKind::DirMeta => take_whole(
            alloc, host, remotes, root, url, work, digest, kind, kept,
        ),
    }
}
