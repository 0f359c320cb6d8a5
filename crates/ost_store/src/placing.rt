//! Moving objects to their paths, and removing them.
ghost use Rattle.std.specs.Prelude.{◌≡◌, OnOk, IsErrOf};
ghost use Rattle.fp_host.specs.OverHost.{AtEachMoment, AtReturn, FailsOnly};
ghost use Rattle.fp_host.specs.Frame.{Frame, NoPath};
ghost use Rattle.ost_model.specs.Objects.{object_path};
ghost use Rattle.fp_small.specs.Clear.{GoneAt, AbsentAt};
ghost use Rattle.fp_small.specs.Unsynced.{MakesNoFile};
ghost use Rattle.ost_store.specs.Place.{Places, WasPlaced, WasRemoved, CanPlace, HasObject};

use crate::naming::path_of;
use fp_base::ObjKind;
use fp_host::{Host, HostEnd, Path};
use fp_name::Digest;
use fp_small::make_above;
use std::alloc::Global;

/// Moves the file or symlink at `tmp` to the object's path in the store at `root`, and makes the
/// missing directories above that path. Syncs nothing. All memory is allocated before the first
/// change. Condition: the object that the digest and the kind name is at `tmp`, synced if it is a
/// file; its path in the store is absent, and each path above that is absent or a directory.
pub fn place<H: Host>(
    alloc: Global,
    host: &mut H,
    root: &Path,
    tmp: &Path,
    digest: &Digest,
    kind: ObjKind,
) -> Result<(), HostEnd>
    // A crash at any moment leaves at the object's path what some crash before would have left, or
    // what was at `tmp`. Nothing else changes, except that `tmp` may be absent and directories
    // above the object's path may be made.
    ensures any_moment { AtEachMoment H.Host host.old host.new
        (Places tmp.now (object_path root.now digest.now kind)) }
    ensures on_success { OnOk result (AtReturn H.Host host.old host.new (WasPlaced tmp.now
        (object_path root.now digest.now kind))) }
    // Nothing is synced, and no file is created.
    ensures unsynced { AtReturn H.Host host.old host.new MakesNoFile }
    ensures fault_has_cause { FailsOnly H.Host host.old host.new
        (CanPlace root.now tmp.now digest.now kind) (IsErrOf result HostEnd.Fault) }
    ensures starved_unchanged { IsErrOf result HostEnd.NoMemory → AtReturn H.Host host.old host.new
        (λ u w. w ≡ u) }
{
    let path = path_of(alloc, root, digest, kind)?;
    make_above(alloc, host, &path)?;
    Ok(host.rename(tmp, &path)?)
}

/// Moves an object from a work directory with the paths of a store to its path in the store at
/// `root`. Syncs nothing. Condition: that of `place`, with the object's path in `work` as `tmp`.
pub fn place_from<H: Host>(
    alloc: Global,
    host: &mut H,
    root: &Path,
    work: &Path,
    digest: &Digest,
    kind: ObjKind,
) -> Result<(), HostEnd>
    ensures any_moment { AtEachMoment H.Host host.old host.new
        (Places (object_path work.now digest.now kind) (object_path root.now digest.now kind)) }
    ensures on_success { OnOk result (AtReturn H.Host host.old host.new
        (WasPlaced (object_path work.now digest.now kind)
        (object_path root.now digest.now kind))) }
    ensures unsynced { AtReturn H.Host host.old host.new MakesNoFile }
    ensures fault_has_cause { FailsOnly H.Host host.old host.new
        (CanPlace root.now (object_path work.now digest.now kind) digest.now kind) (IsErrOf result HostEnd.Fault) }
{
    let path = path_of(alloc, work, digest, kind)?;
    place(alloc, host, root, &path, digest, kind)
}

/// Removes the object's name from the store at `root`. Syncs nothing. All memory is allocated
/// before the first change. Condition: the store has the object.
pub fn remove<H: Host>(
    alloc: Global,
    host: &mut H,
    root: &Path,
    digest: &Digest,
    kind: ObjKind,
) -> Result<(), HostEnd>
    // A crash at any moment leaves at the object's path what some crash before would have left, or
    // nothing. Nothing else changes.
    ensures frame { Frame (GoneAt (object_path root.now digest.now kind))
        (AbsentAt (object_path root.now digest.now kind)) NoPath
        (H.moments host.old) (H.moments host.new) }
    ensures on_success { OnOk result (AtReturn H.Host host.old host.new
        (WasRemoved (object_path root.now digest.now kind))) }
    // Nothing is synced, and no file is created.
    ensures unsynced { AtReturn H.Host host.old host.new MakesNoFile }
    ensures fault_has_cause { FailsOnly H.Host host.old host.new
        (HasObject root.now digest.now kind) (IsErrOf result HostEnd.Fault) }
    ensures starved_unchanged { IsErrOf result HostEnd.NoMemory → AtReturn H.Host host.old host.new
        (λ u w. w ≡ u) }
{
    let name = path_of(alloc, root, digest, kind)?;
    Ok(host.unlink(&name)?)
}
