//! Exporting a built commit.
ghost use Rattle.std.specs.Prelude.{◌≡◌, None, IfOk, OnOk, IsErrOf};
ghost use Rattle.fp_host.specs.OverHost.{AtEachMoment, AtReturn, FailsOnly};
ghost use Rattle.ost_model.specs.Order.{first_fault};
ghost use Rattle.ost_commit.specs.Objects.{have_of};
ghost use Rattle.ost_refs.specs.declared.place.RefPlace.TheVariants.{Head};
ghost use Rattle.ost_export.specs.Staging.{AreWhole};
ghost use Rattle.ost_export.specs.Storing.{IsNoWork};
ghost use Rattle.ost_export.specs.Exports.{CanExportAll, Exports, ExportsSynced, Furnishes, FurnishesSynced, WasExported};

use crate::furnishing::{make_remotes, write_config};
use crate::storing::store_objects;
use fp_host::{Host, HostEnd, Path};
use fp_name::RefName;
use ost_commit::Built;
use ost_refs::{RefPlace, write_ref};
use std::alloc::{AllocError, Global};

/// Returns the place of the store's own ref with this name (in `refs/heads`).
fn head_of(name: &RefName) -> Result<RefPlace, AllocError>
    ensures { IfOk result (λ place. place ≡ Head name.now) }
{
    Ok(RefPlace::Head(name.copy()?))
}

/// Writes the commit into the store and offers it under the ref, without a sync before the first
/// change.
fn write_offer<H: Host>(
    alloc: Global,
    host: &mut H,
    root: &Path,
    built: &Built,
    name: &RefName,
) -> Result<(), HostEnd>
    requires no_work { IsNoWork root.now }
    requires whole { AreWhole built.now.objects }
    requires clean { first_fault (have_of built.now.objects) built.now.commit ≡ None }
    ensures any_moment { AtEachMoment H.Host host.old host.new
        (Exports (have_of built.now.objects) root.now name.now built.now.commit) }
    ensures on_success { OnOk result
        (AtReturn H.Host host.old host.new
        (WasExported (have_of built.now.objects) root.now name.now built.now.commit)) }
    ensures starved { IsErrOf result HostEnd.NoMemory
        → AtReturn H.Host host.old host.new
        (Furnishes (have_of built.now.objects) root.now name.now) }
    ensures fault_has_cause { FailsOnly H.Host host.old host.new
        (CanExportAll root.now name.now built.now.objects) (IsErrOf result HostEnd.Fault) }
{
    let place = head_of(name)?;
    store_objects(alloc, host, root, built.objects.as_slice())?;
    write_config(alloc, host, root)?;
    make_remotes(alloc, host, root)?;
    write_ref(alloc, host, root, &place, &built.commit)
}

/// Writes a built commit into the store at `root`, and offers it there under the ref. Objects whose
/// paths exist are left alone, and so are other refs; `config` and the ref's file are replaced.
/// Makes the directory `refs/remotes` if nothing is at that path. Syncs before the first change;
/// then objects come first, and the ref's file last. The store must be neither `repo/tmp` nor below
/// it. The commit must have no fault, and its objects must match their digests and occur once each.
/// Condition: `config` and the ref's file are absent or files, the paths above them and above
/// objects are absent or directories, the permission bits of files are within 0775, and the texts
/// of symlinks are valid.
pub fn export<H: Host>(
    alloc: Global,
    host: &mut H,
    root: &Path,
    built: &Built,
    name: &RefName,
) -> Result<(), HostEnd>
    requires no_work { IsNoWork root.now }
    requires whole { AreWhole built.now.objects }
    requires clean { first_fault (have_of built.now.objects) built.now.commit ≡ None }
    // Nothing changed yet; or a crash leaves what was there at the start, except for what an export
    // writes. At the ref's path it leaves what was there or the whole new file. Other refs, objects
    // that were there, and everything outside the store and `repo/tmp` stay as they were, except
    // that directories above these may be made.
    ensures any_moment { AtEachMoment H.Host host.old host.new
        (ExportsSynced (have_of built.now.objects) root.now name.now built.now.commit) }
    // Every crash leaves the store in which the ref is offered, if no other object was at the paths
    // of the commit's objects.
    ensures on_success { OnOk result
        (AtReturn H.Host host.old host.new
        (WasExported (have_of built.now.objects) root.now name.now built.now.commit)) }
    // If memory runs out, the ref's path is as it was.
    ensures starved { IsErrOf result HostEnd.NoMemory
        → AtReturn H.Host host.old host.new
        (FurnishesSynced (have_of built.now.objects) root.now name.now) }
    ensures fault_has_cause { FailsOnly H.Host host.old host.new
        (CanExportAll root.now name.now built.now.objects) (IsErrOf result HostEnd.Fault) }
{
    host.sync()?;
    write_offer(alloc, host, root, built, name)
}
