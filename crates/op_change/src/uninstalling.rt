//! Uninstalling a ref.
ghost use Rattle.std.specs.Prelude.{◌≡◌, ◌≢◌, None, IfOk, OnOk, IsErrOf};
ghost use Rattle.fp_host.specs.OverHost.{AtEachMoment, AtReturn, FailsOnly};
ghost use Rattle.fp_small.specs.Clear.{AbsentAt};
ghost use Rattle.fp_small.specs.declared.op.Op.TheVariants.{Uninstall};
ghost use Rattle.dep_states.specs.After.{state_after, plain, row_at};
ghost use Rattle.dep_states.specs.Names.{active};
ghost use Rattle.dep_states.specs.Sound.{Opens};
ghost use Rattle.dep_switch.specs.Retiring.{IsPlanOf};
ghost use Rattle.op_change.specs.Deploys.{Does, WasDone};

use dep_states::Opened;
use dep_switch::{Faulted, RetireError, RetirePlan};
use fp_host::{Host, HostEnd};
use fp_name::RefName;
use fp_small::State;
use std::alloc::{AllocError, Global};

/// Returns the plan for uninstalling a deployed ref.
fn plan_for(alloc: Global, state: &State, name: &RefName) -> Result<RetirePlan, AllocError>
    requires { row_at state.now name.now ≢ None }
    ensures { IfOk result (IsPlanOf name.now) }
{
    match RetirePlan::new(alloc, state, name) {
        Ok(plan) => Ok(plan),
        Err(RetireError::NoMemory) => Err(AllocError),
        Err(RetireError::NotThere) => unreachable!(),
    }
}

/// Uninstalls a deployed ref: removes its `active`, and syncs. Its directories and objects are left
/// for tidying. A crash at any moment leaves the state with the ref or the one without it. After
/// `NoMemory`, nothing has changed.
pub fn uninstall<H: Host>(
    alloc: Global,
    host: &mut H,
    opened: Opened,
    name: &RefName,
) -> Result<Opened, HostEnd>
    requires there { row_at opened name.now ≢ None }
    ensures state { IfOk result (λ o. o ≡ state_after opened (plain (Uninstall name.now))) }
    ensures any_moment { AtEachMoment H.Host host.old host.new
        (Does opened (state_after opened (plain (Uninstall name.now)))
        (λ u. AbsentAt (active name.now))) }
    ensures on_success { OnOk result (AtReturn H.Host host.old host.new (WasDone opened
        (state_after opened (plain (Uninstall name.now))))) }
    ensures fault_has_cause { FailsOnly H.Host host.old host.new
        (Opens opened) (IsErrOf result HostEnd.Fault) }
    ensures starved_unchanged { IsErrOf result HostEnd.NoMemory → AtReturn H.Host host.old host.new
        (λ u w. w ≡ u) }
{
    let plan = plan_for(alloc, opened.state(), name)?;
    match plan.retire(host, opened) {
        Ok(switched) => Ok(switched.settled()),
        Err(Faulted) => Err(HostEnd::Fault),
    }
}
