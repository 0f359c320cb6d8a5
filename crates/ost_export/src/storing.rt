//! Writing the objects of a built commit into a store.
ghost use Rattle.std.specs.Prelude.{OnOk, IfOk, IsErrOf};
ghost use Rattle.fp_host.specs.OverHost.{AtEachMoment, AtReturn, FailsOnly};
ghost use Rattle.ost_model.specs.Objects.{Have};
ghost use Rattle.ost_commit.specs.Objects.{have_of};
ghost use Rattle.ost_export.specs.Staging.{AreStaged, AreWhole, IsApart};
ghost use Rattle.ost_export.specs.Placing.{CanStore, PutsStaged, WasStored};
ghost use Rattle.ost_export.specs.Storing.{CanStoreAll, HasStored, IsNoWork, StoresObjects};

use crate::placing::place_all;
use crate::staging::stage_all;
use fp_base::ObjKind;
use fp_host::{Host, HostEnd, Path};
use fp_name::Digest;
use fp_small::{clear, staging_place};
use ost_commit::BuiltObject;
use std::alloc::Global;

/// Moves the staged objects to their paths in the store, and clears the work directory. Syncs
/// before the first object is moved, and after all are.
fn store_staged<H: Host>(
    alloc: Global,
    host: &mut H,
    root: &Path,
    work: &Path,
    staged: &mut Vec<(Digest, ObjKind)>,
) -> Result<(), HostEnd>
    requires { IsApart root.now work.now }
    ensures any_moment { (have : Have) → AtEachMoment H.Host host.old host.new
        (PutsStaged have root.now work.now staged.old.items) }
    ensures on_success { (have : Have) → OnOk result (AtReturn H.Host host.old host.new
        (λ u w. AreStaged have work.now staged.old.items u
        → WasStored root.now work.now staged.old.items u w)) }
    ensures fault_has_cause { (have : Have)
        → FailsOnly H.Host host.old host.new
        (CanStore have root.now work.now staged.old.items) (IsErrOf result HostEnd.Fault) }
{
    host.sync()?;
    place_all(alloc, host, root, work, staged)?;
    clear(alloc, host, work)?;
    Ok(host.sync()?)
}

/// Writes the objects into the store at `root`, except those at whose path something is. They are
/// staged below the first free name of `repo/tmp`, which is cleared afterwards.
pub(crate) fn store_objects<H: Host>(
    alloc: Global,
    host: &mut H,
    root: &Path,
    objects: &[BuiltObject],
) -> Result<(), HostEnd>
    requires no_work { IsNoWork root.now }
    requires whole { AreWhole objects.now }
    ensures any_moment { AtEachMoment H.Host host.old host.new
        (StoresObjects (have_of objects.now) root.now) }
    ensures on_success { OnOk result (AtReturn H.Host host.old host.new
        (HasStored (have_of objects.now) root.now)) }
    ensures fault_has_cause { FailsOnly H.Host host.old host.new
        (CanStoreAll root.now objects.now) (IsErrOf result HostEnd.Fault) }
{
    let work = staging_place(alloc, host)?;
    let mut staged = stage_all(alloc, host, root, &work, objects)?;
    store_staged(alloc, host, root, &work, &mut staged)
}
