//! Moving objects from the work directory to their paths in the store.
ghost use Rattle.std.specs.Prelude.{OnOk, IsErrOf, ℕ, List, Option};
ghost use Rattle.fp_host.specs.OverHost.{AtEachMoment, AtReturn, FailsOnly};
ghost use Rattle.fp_host.specs.Remote.{Holdings};
ghost use Rattle.ost_pull.specs.Placing.{AreReady, CanPlaceAll, CanStore, FirstComesLast, PlacesAll, PullsKept, PullsReady, WasStored};
ghost use Rattle.ost_pull.specs.Pulls.{IsApart};
ghost use Rattle.ost_pull.specs.Takes.{AreTaken};

use fp_base::ObjKind;
use fp_host::{Host, HostEnd, Path};
use fp_name::Digest;
use fp_small::clear;
use ost_store::place_from;
use std::alloc::Global;

/// Moves these objects from the work directory to their paths in the store, the last one first, and
/// empties the list. Syncs nothing. Condition: the objects are different and synced, and nothing is
/// at their paths in the store.
fn place_all<H: Host>(
    alloc: Global,
    host: &mut H,
    root: &Path,
    work: &Path,
    objects: &mut Vec<(Digest, ObjKind)>,
) -> Result<(), HostEnd>
    requires { IsApart root.now work.now }
    ensures any_moment { AtEachMoment H.Host host.old host.new
        (PullsReady root.now work.now objects.old.items) }
    // A commit is the first of its order, so it is placed only after everything that it needs.
    ensures order { AtEachMoment H.Host host.old host.new
        (FirstComesLast root.now work.now objects.old.items) }
    ensures on_success { OnOk result (AtReturn H.Host host.old host.new
        (λ u w. AreReady work.now objects.old.items u
        → PlacesAll root.now work.now objects.old.items u w)) }
    ensures fault_has_cause { FailsOnly H.Host host.old host.new
        (CanPlaceAll root.now work.now objects.old.items) (IsErrOf result HostEnd.Fault) }
{
    while let Some(object) = objects.pop() {
        place_from(alloc, host, root, work, &object.0, object.1)?;
    }
    Ok(())
}

/// Moves the objects that are kept in the work directory to their paths in the store, and clears
/// the work directory. Syncs before the first object is moved, and after all are.
pub(crate) fn store_kept<H: Host>(
    alloc: Global,
    host: &mut H,
    root: &Path,
    work: &Path,
    kept: &mut Vec<(Digest, ObjKind)>,
) -> Result<(), HostEnd>
    requires { IsApart root.now work.now }
    ensures any_moment { (url : List ℕ) (holds : Option Holdings)
        → AtEachMoment H.Host host.old host.new
        (PullsKept root.now work.now url holds kept.old.items) }
    ensures on_success { (url : List ℕ) (holds : Option Holdings)
        → OnOk result (AtReturn H.Host host.old host.new
        (λ u w. AreTaken root.now work.now url holds kept.old.items u
        → WasStored root.now work.now kept.old.items u w)) }
    ensures fault_has_cause { (url : List ℕ) (holds : Option Holdings)
        → FailsOnly H.Host host.old host.new
        (CanStore root.now work.now url holds kept.old.items) (IsErrOf result HostEnd.Fault) }
{
    host.sync()?;
    place_all(alloc, host, root, work, kept)?;
    clear(alloc, host, work)?;
    Ok(host.sync()?)
}
