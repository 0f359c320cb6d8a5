//! Pruning objects that no kept commit uses.
ghost use Rattle.std.specs.Prelude.{◌≡◌, OnOk, IsErrOf};
ghost use Rattle.fp_host.specs.OverHost.{AtEachMoment, AtReturn, FailsOnly};
ghost use Rattle.fp_small.specs.Places.{repo};
ghost use Rattle.ost_prune.specs.Prune.{Prunes};
ghost use Rattle.ost_store.specs.Names.{CanList};
ghost use Rattle.dep_tidy.specs.Kept.{kept_of};
ghost use Rattle.dep_tidy.specs.Pruned.{IsPruned};

use crate::rows::kept_of;
use fp_host::{Host, HostEnd, Path};
use fp_small::State;
use ost_prune::prune;
use std::alloc::Global;

/// Prunes the objects of the store that aren't used by any commit that the state keeps. If an
/// object of such a commit is missing or damaged, prunes nothing and succeeds.
pub(crate) fn prune_unused<H: Host>(
    alloc: Global,
    host: &mut H,
    root: &Path,
    state: &State,
) -> Result<(), HostEnd>
    requires root { root.now ≡ repo }
    ensures any_moment { AtEachMoment H.Host host.old host.new
        (Prunes repo (kept_of state.now.refs)) }
    ensures on_success { OnOk result (AtReturn H.Host host.old host.new
        (IsPruned (kept_of state.now.refs))) }
    ensures fault_has_cause { FailsOnly H.Host host.old host.new
        (CanList repo) (IsErrOf result HostEnd.Fault) }
{
    let kept = kept_of(alloc, state.refs.as_slice())?;
    prune(alloc, host, root, &kept)?;
    Ok(())
}
