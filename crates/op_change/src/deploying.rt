//! Deploying the row of a ref.
ghost use Rattle.std.specs.Prelude.{◌≡◌, false, IfOk, OnOk, IsErrOf};
ghost use Rattle.fp_host.specs.OverHost.{AtEachMoment, AtReturn, FailsOnly};
ghost use Rattle.dep_states.specs.Deploy.{goes_back_to};
ghost use Rattle.dep_switch.specs.Rows.{with_row};
ghost use Rattle.dep_switch.specs.Staging.{CanStage};
ghost use Rattle.op_change.specs.Deploys.{Deploys, WasDeployed};

use dep_states::Opened;
use dep_switch::{Faulted, Staged};
use fp_host::{Host, HostEnd};
use fp_small::RefRow;
use std::alloc::Global;

/// Deploys the row in place of its ref's row: writes the commit's record `deploy`, makes the link
/// `repo/tmp/active`, syncs, renames the link onto the ref's `active`, and syncs again. A crash at
/// any moment leaves the previous state or the one with the row. After `NoMemory`, nothing has
/// changed. Condition: the commit is checked out in its directory and isn't deployed, the row's
/// previous commit, if any, is the one that the ref is at, `repo/tmp/active` is absent, and the
/// commit's `deploy` is absent or a file.
pub fn deploy_row<H: Host>(
    alloc: Global,
    host: &mut H,
    opened: Opened,
    row: RefRow,
) -> Result<Opened, HostEnd>
    requires moves { goes_back_to row.commit row.previous ≡ false }
    ensures state { IfOk result (λ o. o ≡ with_row opened row) }
    ensures any_moment { AtEachMoment H.Host host.old host.new (Deploys opened row) }
    ensures on_success { OnOk result (AtReturn H.Host host.old host.new (WasDeployed opened row)) }
    ensures fault_has_cause { FailsOnly H.Host host.old host.new
        (CanStage opened row) (IsErrOf result HostEnd.Fault) }
    ensures starved_unchanged { IsErrOf result HostEnd.NoMemory → AtReturn H.Host host.old host.new
        (λ u w. w ≡ u) }
{
    let staged = Staged::of(alloc, host, opened, row)?;
    match staged.switch(host) {
        Ok(switched) => Ok(switched.settled()),
        Err(Faulted) => Err(HostEnd::Fault),
    }
}
