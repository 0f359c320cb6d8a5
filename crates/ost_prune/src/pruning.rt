//! Pruning a store.
ghost use Rattle.std.specs.Prelude.{◌≡◌, IfOk, IsErrOf, None, Ok};
ghost use Rattle.fp_host.specs.OverHost.{AtEachMoment, AtReturn, ChangesNothing, FailsOnly};
ghost use Rattle.fp_small.specs.Unsynced.{MakesNoFile};
ghost use Rattle.ost_prune.specs.Prune.{Prunes, CommitsFirst, WasPruned};
ghost use Rattle.ost_prune.specs.Texts.{UnlessFaulty};
ghost use Rattle.ost_store.specs.Names.{CanList};

use crate::finding::find_unused;
use crate::removing::remove_all;
use fp_host::{Host, HostEnd, Path};
use fp_name::Digest;
use std::alloc::Global;

/// Removes each object of the store at `root` that no commit of `keep` uses, and returns the number
/// of removed objects. Other names stay, also names below `objects` that aren't those of objects.
/// Finds all objects before it removes the first. Removes commits first, so that a process that is
/// killed meanwhile leaves no commit that lacks an object. If the order of a commit of `keep` has a
/// fault in this store, removes nothing and returns `None`: the objects that a damaged object names
/// can't be relied on. Syncs nothing. Condition: no path below `objects` has more than 128
/// elements.
pub fn prune<H: Host>(
    alloc: Global,
    host: &mut H,
    root: &Path,
    keep: &[Digest],
) -> Result<Option<u64>, HostEnd>
    // A crash at any moment may leave nothing at the name of an unused object. Elsewhere, it leaves
    // only what a crash before could have left.
    ensures any_moment { AtEachMoment H.Host host.old host.new (Prunes root.now keep.now) }
    // No other unused object is removed before all unused commits are.
    ensures order { AtEachMoment H.Host host.old host.new (CommitsFirst root.now keep.now) }
    ensures on_success { IfOk result (λ pruned. AtReturn H.Host host.old host.new
        (λ u w. UnlessFaulty root.now keep.now u
        (λ number. WasPruned root.now keep.now number u w) pruned)) }
    ensures left { result ≡ Ok None → ChangesNothing H.Host host.old host.new }
    // Nothing is synced, and no file is created.
    ensures unsynced { AtReturn H.Host host.old host.new MakesNoFile }
    ensures fault_has_cause { FailsOnly H.Host host.old host.new
        (CanList root.now) (IsErrOf result HostEnd.Fault) }
{
    let Some(unused) = find_unused(alloc, host, root, keep)? else {
        return Ok(None);
    };
    remove_all(alloc, host, root, &unused)?;
    Ok(Some(unused.len() as u64))
}
