//! Moving staged objects to their paths in the store.
ghost use Rattle.std.specs.Prelude.{OnOk, IsErrOf};
ghost use Rattle.fp_host.specs.OverHost.{AtEachMoment, AtReturn, FailsOnly};
ghost use Rattle.ost_model.specs.Objects.{Have};
ghost use Rattle.ost_export.specs.Staging.{IsApart};
ghost use Rattle.ost_export.specs.Placing.{AreReady, CanPlaceAll, PlacesAll, PutsReady};

use fp_base::ObjKind;
use fp_host::{Host, HostEnd, Path};
use fp_name::Digest;
use ost_store::place_from;
use std::alloc::Global;

/// Moves these objects from the work directory to their paths in the store, and empties the list.
/// Syncs nothing. Condition: the objects are different and synced, and nothing is at their paths in
/// the store.
pub(crate) fn place_all<H: Host>(
    alloc: Global,
    host: &mut H,
    root: &Path,
    work: &Path,
    objects: &mut Vec<(Digest, ObjKind)>,
) -> Result<(), HostEnd>
    requires { IsApart root.now work.now }
    ensures any_moment { (have : Have) → AtEachMoment H.Host host.old host.new
        (PutsReady have root.now work.now objects.old.items) }
    ensures on_success { (have : Have) → OnOk result (AtReturn H.Host host.old host.new
        (λ u w. AreReady have work.now objects.old.items u
        → PlacesAll root.now work.now objects.old.items u w)) }
    ensures fault_has_cause { (have : Have)
        → FailsOnly H.Host host.old host.new
        (CanPlaceAll have root.now work.now objects.old.items) (IsErrOf result HostEnd.Fault) }
{
    while let Some(object) = objects.pop() {
        place_from(alloc, host, root, work, &object.0, object.1)?;
    }
    Ok(())
}
