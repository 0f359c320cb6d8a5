//! Keeping objects in the work directory until all objects of a pull are checked.
ghost use Rattle.std.specs.Prelude.{◌≡◌, None, Some, Option, ℕ, List, [], ◌∷◌, ◌++◌, Ok, IfOk, OnOk, IsErrOf};
ghost use Rattle.fp_base.specs.declared.object.ObjKind.TheVariants as kinds;
ghost use Rattle.fp_host.specs.OverHost.{AtEachMoment, AtReturn, ChangesNothing, FailsAlone, FailsOnly};
ghost use Rattle.fp_host.specs.Moments.{Makes, Moments};
ghost use Rattle.fp_host.specs.Reads.{StatOf};
ghost use Rattle.fp_host.specs.Remote.{Holdings};
ghost use Rattle.ost_model.specs.Objects.{name_fault, object_path};
ghost use Rattle.ost_walk.specs.Ends.{IsRemotes};
ghost use Rattle.ost_head.specs.Found.{RemoteHas};
ghost use Rattle.ost_head.specs.Brings.{CanBring, Comes, IsBrought, JudgesRemote};
ghost use Rattle.ost_store.specs.ObjectNames.{AreOpen};
ghost use Rattle.ost_pull.specs.Work.{Works, KeepsOne, Adds, AreKept, CanKeep};

use fp_base::ObjKind;
use fp_host::{Host, HostEnd, Path, Remotes, Stat};
use fp_name::Digest;
use ost_head::bring;
use ost_model::Object;
use ost_store::{path_of, stage};
use ost_walk::WalkEnd;
use std::alloc::Global;

/// Stages an object, which was checked, at its path in the work directory, and appends it to the
/// list. Does nothing if it is there already. Syncs nothing.
pub(crate) fn keep<H: Host>(
    alloc: Global,
    host: &mut H,
    work: &Path,
    digest: &Digest,
    kind: ObjKind,
    object: &Object,
    kept: &mut Vec<(Digest, ObjKind)>,
) -> Result<(), HostEnd>
    requires { name_fault digest.now kind (Some object.now) ≡ None }
    ensures any_moment { AtEachMoment H.Host host.old host.new (Works work.now) }
    ensures on_success { OnOk result ((url : List ℕ) (holds : Option Holdings)
        → RemoteHas url holds digest.now kind object.now
        → AtReturn H.Host host.old host.new
        (KeepsOne work.now url holds (digest.now, kind) kept.old.items kept.new.items)) }
    ensures adds { OnOk result (Adds (digest.now, kind) kept.old.items kept.new.items) }
    ensures fault_has_cause { FailsOnly H.Host host.old host.new
        (CanKeep work.now digest.now kind object.now) (IsErrOf result HostEnd.Fault) }
{
    let _bytes = digest.as_bytes();
    let path = path_of(alloc, work, digest, kind)?;
    match host.stat(&path)? {
        Stat::Absent => {
            stage(alloc, host, &path, object)?;
            match kept.push((*digest, kind)) {
                Ok(()) => Ok(()),
                Err(_) => Err(HostEnd::NoMemory),
            }
        }
        _ => Ok(()),
    }
}

/// Returns the status of the path.
fn stat_of<H: Host>(host: &mut H, path: &Path) -> Result<Stat, HostEnd>
    ensures unchanged { ChangesNothing H.Host host.old host.new }
    ensures tells { IfOk result (λ s. Makes (StatOf path.now (Ok s)) (H.moments host.old)
        (H.moments host.new)) }
    ensures fault_has_cause { FailsAlone H.Host host.old host.new (IsErrOf result HostEnd.Fault) }
{
    Ok(host.stat(path)?)
}

/// Fetches the remote's file or symlink to the path, which is absent, checks it, and appends it to
/// the list.
fn keep_new<H: Host, R: Remotes>(
    alloc: Global,
    host: &mut H,
    remotes: &mut R,
    url: &str,
    digest: &Digest,
    to: &Path,
    kept: &mut Vec<(Digest, ObjKind)>,
) -> Result<(), WalkEnd>
    ensures any_moment { AtEachMoment H.Host host.old host.new (Comes to.now) }
    ensures same { R.holds remotes.new ≡ R.holds remotes.old }
    ensures on_success { OnOk result (IsBrought to.now url.now (R.holds remotes.old) digest.now
        (H.moments host.old) (H.moments host.new)) }
    ensures adds { OnOk result (kept.new.items ≡ kept.old.items ++ (digest.now, kinds.File) ∷ []) }
    ensures tells { (held : Holdings) → R.holds remotes.old ≡ Some held
        → JudgesRemote held url.now digest.now result }
    ensures fault_has_cause { FailsOnly H.Host host.old host.new
        (CanBring to.now) (IsErrOf result WalkEnd.HostFault) }
    ensures remote_fault_has_cause { IsRemotes (IsErrOf result WalkEnd.RemoteFault)
        (R.faults remotes.old) (R.faults remotes.new) }
{
    bring(alloc, host, remotes, url, digest, to)?;
    kept.push((*digest, ObjKind::File))?;
    Ok(())
}

/// Fetches the remote's file or symlink to its path in the work directory, checks it, and appends
/// it to the list. Does nothing if it is there already. Refuses it for its fault. Syncs nothing.
pub(crate) fn keep_content<H: Host, R: Remotes>(
    alloc: Global,
    host: &mut H,
    remotes: &mut R,
    url: &str,
    work: &Path,
    digest: &Digest,
    kept: &mut Vec<(Digest, ObjKind)>,
) -> Result<(), WalkEnd>
    ensures any_moment { AtEachMoment H.Host host.old host.new (Works work.now) }
    ensures same { R.holds remotes.new ≡ R.holds remotes.old }
    ensures on_success { OnOk result (AtReturn H.Host host.old host.new
        (KeepsOne work.now url.now (R.holds remotes.old)
        (digest.now, kinds.File) kept.old.items kept.new.items)) }
    ensures adds { OnOk result (Adds (digest.now, kinds.File) kept.old.items kept.new.items) }
    // What is kept already was checked, so it isn't read again.
    ensures tells { (m : Moments) (held : Holdings) → H.moments host.old ≡ Some m
        → R.holds remotes.old ≡ Some held
        → AreKept work.now url.now (R.holds remotes.old) kept.old.items m.now
        → JudgesRemote held url.now digest.now result }
    ensures fault_has_cause { FailsOnly H.Host host.old host.new
        (AreOpen work.now) (IsErrOf result WalkEnd.HostFault) }
    ensures remote_fault_has_cause { IsRemotes (IsErrOf result WalkEnd.RemoteFault)
        (R.faults remotes.old) (R.faults remotes.new) }
{
    let _bytes = digest.as_bytes();
    let path = path_of(alloc, work, digest, ObjKind::File)?;
    match stat_of(host, &path)? {
        Stat::Absent => keep_new(alloc, host, remotes, url, digest, &path, kept),
        _ => Ok(()),
    }
}
