//! Removing objects, commits before the others.
ghost use Rattle.std.specs.Prelude.{OnOk, IsErrOf};
ghost use Rattle.fp_host.specs.OverHost.{AtEachMoment, AtReturn, FailsOnly};
ghost use Rattle.fp_host.specs.Frame.{Frame, NoPath};
ghost use Rattle.fp_small.specs.Unsynced.{MakesNoFile};
ghost use Rattle.ost_prune.specs.Removing.{GoneAmong, AbsentAmong, AreGone, GoInOrder, CanRemoveAll};

use crate::parting::part;
use fp_base::ObjKind;
use fp_host::{Host, HostEnd, Path};
use fp_name::Digest;
use ost_store::remove;
use std::alloc::Global;

/// Removes these objects one after another. Syncs nothing. Condition: the store has each of the
/// objects, and they are in ascending order of the texts of their paths.
fn remove_each<H: Host>(
    alloc: Global,
    host: &mut H,
    root: &Path,
    objects: &[(Digest, ObjKind)],
) -> Result<(), HostEnd>
    ensures frame { Frame (GoneAmong root.now objects.now) (AbsentAmong root.now objects.now) NoPath
        (H.moments host.old) (H.moments host.new) }
    ensures on_success { OnOk result (AtReturn H.Host host.old host.new
        (λ u w. AreGone root.now objects.now w)) }
    ensures unsynced { AtReturn H.Host host.old host.new MakesNoFile }
    ensures fault_has_cause { FailsOnly H.Host host.old host.new
        (CanRemoveAll root.now objects.now) (IsErrOf result HostEnd.Fault) }
{
    for object in objects {
        remove(alloc, host, root, &object.0, object.1)?;
    }
    Ok(())
}

/// Removes these objects, the commits first, so that a process that is killed meanwhile leaves no
/// commit that lacks an object. Syncs nothing. Condition: the store has each of the objects, and
/// they are in ascending order of the texts of their paths.
pub(crate) fn remove_all<H: Host>(
    alloc: Global,
    host: &mut H,
    root: &Path,
    objects: &[(Digest, ObjKind)],
) -> Result<(), HostEnd>
    ensures frame { Frame (GoneAmong root.now objects.now) (AbsentAmong root.now objects.now) NoPath
        (H.moments host.old) (H.moments host.new) }
    ensures order { AtEachMoment H.Host host.old host.new (GoInOrder root.now objects.now) }
    ensures on_success { OnOk result (AtReturn H.Host host.old host.new
        (λ u w. AreGone root.now objects.now w)) }
    ensures unsynced { AtReturn H.Host host.old host.new MakesNoFile }
    ensures fault_has_cause { FailsOnly H.Host host.old host.new
        (CanRemoveAll root.now objects.now) (IsErrOf result HostEnd.Fault) }
{
    let (commits, others) = part(alloc, objects)?;
    remove_each(alloc, host, root, commits.as_slice())?;
    remove_each(alloc, host, root, others.as_slice())
}
