//! Reading and checking objects of the store.
ghost use Rattle.std.specs.Prelude.{◌≡◌, true, false, IfOk, IsErrOf, Some};
ghost use Rattle.fp_base.specs.declared.object.ObjKind.TheVariants as kinds;
ghost use Rattle.fp_host.specs.OverHost.{ChangesNothing, FailsAlone, FailsOnly};
ghost use Rattle.fp_host.specs.Paths.{is_link_text};
ghost use Rattle.fp_host.specs.Moments.{Moments};
ghost use Rattle.fp_host.specs.Outcome.{shows};
ghost use Rattle.ost_model.specs.declared.object.Object.TheVariants as objects;
ghost use Rattle.ost_model.specs.Objects.{may_be_link, store};
ghost use Rattle.ost_store.specs.Reads.{HasFile};
ghost use Rattle.ost_walk.specs.Ends.{NoFault};
ghost use Rattle.ost_head.specs.Objects.{IsFitIfThere, IsGoodIfThere, JudgesIfThere, ReadsIfThere};
ghost use Rattle.ost_head.specs.Stored.{IsFileOf};

use crate::judging::check;
use fp_base::{Blob, ObjKind, Text};
use fp_host::{Host, Path, is_link_text};
use fp_name::Digest;
use ost_content::is_permission;
use ost_model::{MOST_FILE_BYTES, MOST_METADATA_OBJECT_BYTES, Object};
use ost_store::{Got, get, read_sized};
use ost_walk::{ObjectFault, WalkEnd, refused};
use std::alloc::Global;

/// Reads a file of the store with these permission bits and of `size` bytes. `Refused` with
/// `TooLong` or `RefusedMode` if it exceeds a limit. Condition: the store has the object as a
/// regular file.
fn read_file<H: Host>(
    alloc: Global,
    host: &mut H,
    root: &Path,
    digest: &Digest,
    mode: u32,
    size: u64,
) -> Result<Option<Object>, WalkEnd>
    ensures unchanged { ChangesNothing H.Host host.old host.new }
    ensures fit { IfOk result (IsFitIfThere kinds.File) }
    ensures tells { (m : Moments) → H.moments host.old ≡ Some m
        → IsFileOf mode size (store root.now (shows m.now) digest.now kinds.File)
        → ReadsIfThere digest.now kinds.File (store root.now (shows m.now) digest.now kinds.File)
        result }
    ensures fault_has_cause { FailsOnly H.Host host.old host.new
        (HasFile root.now digest.now) (IsErrOf result WalkEnd.HostFault) }
    ensures remote { IsErrOf result WalkEnd.RemoteFault → ⊥ }
{
    if size > MOST_FILE_BYTES {
        return Err(refused(digest, ObjKind::File, ObjectFault::TooLong(size)));
    }
    if !is_permission(mode) {
        return Err(refused(digest, ObjKind::File, ObjectFault::RefusedMode(mode)));
    }
    match read_sized(alloc, host, root, digest, size) {
        Ok(bytes) => Ok(Some(Object::File { mode, bytes })),
        Err(end) => Err(WalkEnd::from(end)),
    }
}

/// Returns a symlink of the store with this text. `Refused` with `Missing` if the text isn't valid.
fn read_link(digest: &Digest, text: Text) -> Result<Option<Object>, WalkEnd>
    ensures fit { IfOk result (IsFitIfThere kinds.File) }
    ensures tells { is_link_text text ≡ true
        → ReadsIfThere digest.now kinds.File (Some (objects.Link text)) result }
    ensures faults { NoFault result }
{
    if is_link_text(text.as_str()) {
        Ok(Some(Object::Link(text)))
    } else {
        Err(refused(digest, ObjKind::File, ObjectFault::Missing))
    }
}

/// Returns a metadata object of the store with these bytes. `Refused` with `TooLong` if they are
/// more than 16 MiB.
fn read_whole(digest: &Digest, kind: ObjKind, bytes: Blob) -> Result<Option<Object>, WalkEnd>
    requires { may_be_link kind ≡ false }
    ensures fit { IfOk result (IsFitIfThere kind) }
    ensures tells { ReadsIfThere digest.now kind (Some (objects.Meta bytes)) result }
    ensures faults { NoFault result }
{
    let size = bytes.len() as u64;
    if size > MOST_METADATA_OBJECT_BYTES {
        return Err(refused(digest, kind, ObjectFault::TooLong(size)));
    }
    Ok(Some(Object::Meta(bytes)))
}

/// Reads a file or a symlink of the store, or returns `None` if there is none. `Refused` if it
/// exceeds a limit.
fn read_content<H: Host>(
    alloc: Global,
    host: &mut H,
    root: &Path,
    digest: &Digest,
) -> Result<Option<Object>, WalkEnd>
    ensures unchanged { ChangesNothing H.Host host.old host.new }
    ensures fit { IfOk result (IsFitIfThere kinds.File) }
    ensures tells { (m : Moments) → H.moments host.old ≡ Some m
        → ReadsIfThere digest.now kinds.File (store root.now (shows m.now) digest.now kinds.File)
        result }
    ensures fault_has_cause { FailsAlone H.Host host.old host.new
        (IsErrOf result WalkEnd.HostFault) }
    ensures remote { IsErrOf result WalkEnd.RemoteFault → ⊥ }
{
    match get(alloc, host, root, digest, ObjKind::File, MOST_FILE_BYTES)? {
        Got::File { mode, size } => read_file(alloc, host, root, digest, mode, size),
        Got::Link(text) => read_link(digest, text),
        Got::TooLong(size) => Err(refused(digest, ObjKind::File, ObjectFault::TooLong(size))),
        _ => Ok(None),
    }
}

/// Reads a metadata object of the store, or returns `None` if there is none. `Refused` with
/// `TooLong` if it has more than 16 MiB.
fn read_meta<H: Host>(
    alloc: Global,
    host: &mut H,
    root: &Path,
    digest: &Digest,
    kind: ObjKind,
) -> Result<Option<Object>, WalkEnd>
    requires { may_be_link kind ≡ false }
    ensures unchanged { ChangesNothing H.Host host.old host.new }
    ensures fit { IfOk result (IsFitIfThere kind) }
    ensures tells { (m : Moments) → H.moments host.old ≡ Some m
        → ReadsIfThere digest.now kind (store root.now (shows m.now) digest.now kind) result }
    ensures fault_has_cause { FailsAlone H.Host host.old host.new
        (IsErrOf result WalkEnd.HostFault) }
    ensures remote { IsErrOf result WalkEnd.RemoteFault → ⊥ }
{
    match get(alloc, host, root, digest, kind, MOST_METADATA_OBJECT_BYTES)? {
        Got::Meta(bytes) => read_whole(digest, kind, bytes),
        Got::TooLong(size) => Err(refused(digest, kind, ObjectFault::TooLong(size))),
        _ => Ok(None),
    }
}

/// Reads an object of the store, or returns `None` if there is none. `Refused` if it exceeds a
/// limit. Doesn't check whether the object matches its digest.
fn read_object<H: Host>(
    alloc: Global,
    host: &mut H,
    root: &Path,
    digest: &Digest,
    kind: ObjKind,
) -> Result<Option<Object>, WalkEnd>
    ensures unchanged { ChangesNothing H.Host host.old host.new }
    ensures fit { IfOk result (IsFitIfThere kind) }
    ensures tells { (m : Moments) → H.moments host.old ≡ Some m
        → ReadsIfThere digest.now kind (store root.now (shows m.now) digest.now kind) result }
    ensures fault_has_cause { FailsAlone H.Host host.old host.new
        (IsErrOf result WalkEnd.HostFault) }
    ensures remote { IsErrOf result WalkEnd.RemoteFault → ⊥ }
{
    match kind {
        ObjKind::File => read_content(alloc, host, root, digest),
        ObjKind::Commit | ObjKind::DirTree | ObjKind::DirMeta => {
            read_meta(alloc, host, root, digest, kind)
        }
    }
}

/// Reads an object of the store at `root`, and checks it as one of a remote is checked. Returns
/// `None` if the store doesn't have it. `Refused` with its fault. Changes nothing.
pub(crate) fn stored<H: Host>(
    alloc: Global,
    host: &mut H,
    root: &Path,
    digest: &Digest,
    kind: ObjKind,
) -> Result<Option<Object>, WalkEnd>
    ensures unchanged { ChangesNothing H.Host host.old host.new }
    ensures good { IfOk result (IsGoodIfThere digest.now kind) }
    ensures tells { (m : Moments) → H.moments host.old ≡ Some m
        → JudgesIfThere digest.now kind (store root.now (shows m.now) digest.now kind) result }
    ensures fault_has_cause { FailsAlone H.Host host.old host.new
        (IsErrOf result WalkEnd.HostFault) }
    ensures remote { IsErrOf result WalkEnd.RemoteFault → ⊥ }
{
    match read_object(alloc, host, root, digest, kind) {
        Ok(Some(object)) => match check(alloc, digest, kind, &object) {
            Ok(()) => Ok(Some(object)),
            Err(end) => Err(end),
        },
        Ok(None) => Ok(None),
        Err(end) => Err(end),
    }
}
