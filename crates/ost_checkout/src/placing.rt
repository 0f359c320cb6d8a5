//! Making the paths of a commit in the checkout's directory.
ghost use Rattle.std.specs.Prelude.{◌≡◌, OnOk, IsErrOf};
ghost use Rattle.fp_host.specs.OverHost.{AtEachMoment, AtReturn, FailsOnly};
ghost use Rattle.fp_small.specs.Unsynced.{MakesNoFile};
ghost use Rattle.fp_base.specs.declared.object.ObjKind.TheVariants as kinds;
ghost use Rattle.ost_model.specs.Objects.{object_path};
ghost use Rattle.ost_checkout.specs.Placing.{Copies, WasCopied, CanCopyLink, CanCopyObject, PutsRow, WasPut, CanPut, PutsRows, Fits, WerePut, CanPutRows};

use crate::rows::{Entry, Row};
use fp_base::ObjKind;
use fp_host::{Host, HostEnd, Path, Stat};
use fp_name::Digest;
use ost_store::path_of;
use std::alloc::Global;

/// Makes a symlink with the text of another.
fn copy_link<H: Host>(alloc: Global, host: &mut H, from: &Path, to: &Path) -> Result<(), HostEnd>
    ensures any_moment { AtEachMoment H.Host host.old host.new (Copies from.now to.now) }
    ensures on_success { OnOk result (AtReturn H.Host host.old host.new
        (WasCopied from.now to.now)) }
    ensures unsynced { AtReturn H.Host host.old host.new MakesNoFile }
    ensures fault_has_cause { FailsOnly H.Host host.old host.new
        (CanCopyLink from.now to.now) (IsErrOf result HostEnd.Fault) }
{
    let text = host.read_link(alloc, from)?;
    Ok(host.symlink(text.as_str(), to)?)
}

/// Makes a hard link of a file, or a symlink with the text of another.
fn copy_object<H: Host>(alloc: Global, host: &mut H, from: &Path, to: &Path) -> Result<(), HostEnd>
    ensures any_moment { AtEachMoment H.Host host.old host.new (Copies from.now to.now) }
    ensures on_success { OnOk result (AtReturn H.Host host.old host.new
        (WasCopied from.now to.now)) }
    ensures unsynced { AtReturn H.Host host.old host.new MakesNoFile }
    ensures fault_has_cause { FailsOnly H.Host host.old host.new
        (CanCopyObject from.now to.now) (IsErrOf result HostEnd.Fault) }
{
    match host.stat(from)? {
        Stat::File { .. } => Ok(host.link(from, to)?),
        Stat::Link => copy_link(alloc, host, from, to),
        Stat::Absent | Stat::Dir => Err(HostEnd::Fault),
    }
}

/// Makes the path a hard link of the object's file, or a symlink with its text.
fn put_object<H: Host>(
    alloc: Global,
    host: &mut H,
    root: &Path,
    digest: &Digest,
    path: &Path,
) -> Result<(), HostEnd>
    ensures any_moment { AtEachMoment H.Host host.old host.new
        (Copies (object_path root.now digest.now kinds.File) path.now) }
    ensures on_success { OnOk result (AtReturn H.Host host.old host.new
        (WasCopied (object_path root.now digest.now kinds.File)
        path.now)) }
    ensures unsynced { AtReturn H.Host host.old host.new MakesNoFile }
    ensures fault_has_cause { FailsOnly H.Host host.old host.new
        (CanCopyObject (object_path root.now digest.now kinds.File) path.now) (IsErrOf result HostEnd.Fault) }
{
    let object = path_of(alloc, root, digest, ObjKind::File)?;
    copy_object(alloc, host, &object, path)
}

/// Makes the row's directory, file or symlink at its path.
fn put_row<H: Host>(alloc: Global, host: &mut H, root: &Path, row: &Row) -> Result<(), HostEnd>
    ensures any_moment { AtEachMoment H.Host host.old host.new (PutsRow root.now row.now) }
    ensures on_success { OnOk result (AtReturn H.Host host.old host.new (WasPut root.now row.now)) }
    ensures unsynced { AtReturn H.Host host.old host.new MakesNoFile }
    ensures fault_has_cause { FailsOnly H.Host host.old host.new
        (CanPut root.now row.now) (IsErrOf result HostEnd.Fault) }
{
    match &row.entry {
        Entry::Dir { .. } => Ok(host.make_dir(&row.path)?),
        Entry::File(digest) => put_object(alloc, host, root, digest, &row.path),
    }
}

/// Makes the directories, files and symlinks of the rows, in this order.
pub(crate) fn put_rows<H: Host>(
    alloc: Global,
    host: &mut H,
    root: &Path,
    rows: &[Row],
) -> Result<(), HostEnd>
    ensures any_moment { AtEachMoment H.Host host.old host.new (PutsRows root.now rows.now) }
    ensures on_success { OnOk result (AtReturn H.Host host.old host.new
        (λ u w. Fits root.now rows.now → WerePut root.now rows.now u w)) }
    ensures unsynced { AtReturn H.Host host.old host.new MakesNoFile }
    ensures fault_has_cause { FailsOnly H.Host host.old host.new
        (CanPutRows root.now rows.now) (IsErrOf result HostEnd.Fault) }
{
    for row in rows {
        put_row(alloc, host, root, row)?;
    }
    Ok(())
}
