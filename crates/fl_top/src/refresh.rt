//! Refreshing the exports after changes.
ghost use Rattle.std.specs.Prelude.{◌≡◌, ◌≢◌, Err, OnOk, IsErrOf};
ghost use Rattle.fp_host.specs.OverHost.{AtEachMoment, AtReturn, FailsOnly};
ghost use Rattle.dep_states.specs.Sound.{IsSound};
ghost use Rattle.fl_top.specs.Exports.{RefreshesShown, RefreshedShown, RefreshesWhere, RefreshedWhere, StepsAfter, InStepAfter, StandsAfter, PassesOn};
ghost use Rattle.fl_top.specs.Return.{IsGivenBy};

use dep_open::{OpenEnd, open};
use dep_states::Opened;
use fl_change::RunEnd;
use fl_export::refresh;
use fp_host::{Host, HostEnd};
use std::alloc::Global;

/// Refreshes `exports` after changes, and returns how the changes ended. If they were done, the
/// exports are those of the state that they left; if one was refused after an operation, those of
/// the state that the installation shows. Does nothing if a change was refused before any
/// operation, or if the changes failed.
pub(crate) fn bring_in_step<H: Host>(
    alloc: Global,
    host: &mut H,
    changed: Result<Opened, RunEnd>,
    acted: bool,
) -> Result<(), RunEnd>
    ensures passes { PassesOn changed result }
    ensures any_moment { AtEachMoment H.Host host.old host.new (StepsAfter changed acted) }
    ensures in_step { IsGivenBy result
        → AtReturn H.Host host.old host.new (InStepAfter changed acted) }
    ensures fault_has_cause { FailsOnly H.Host host.old host.new (StandsAfter changed)
        ((changed ≢ Err RunEnd.Fault) × IsErrOf result RunEnd.Fault) }
{
    match changed {
        Ok(opened) => Ok(refresh(alloc, host, opened.state())?),
        Err(RunEnd::Refused(refusal)) => {
            refresh_where(alloc, host, acted)?;
            Err(RunEnd::Refused(refusal))
        }
        Err(RunEnd::Fault) => Err(RunEnd::Fault),
        Err(RunEnd::RemoteFault) => Err(RunEnd::RemoteFault),
        Err(RunEnd::NoMemory) => Err(RunEnd::NoMemory),
    }
}

/// Refreshes `exports` for the state that the installation shows, if an operation was done.
fn refresh_where<H: Host>(alloc: Global, host: &mut H, acted: bool) -> Result<(), HostEnd>
    ensures any_moment { AtEachMoment H.Host host.old host.new (RefreshesWhere acted) }
    ensures on_success { OnOk result (AtReturn H.Host host.old host.new (RefreshedWhere acted)) }
    ensures fault_has_cause { FailsOnly H.Host host.old host.new
        IsSound (IsErrOf result HostEnd.Fault) }
{
    if acted {
        refresh_shown(alloc, host)
    } else {
        Ok(())
    }
}

/// Opens the installation and refreshes `exports` for the state that it shows. Changes nothing if
/// it is damaged.
fn refresh_shown<H: Host>(alloc: Global, host: &mut H) -> Result<(), HostEnd>
    ensures any_moment { AtEachMoment H.Host host.old host.new RefreshesShown }
    ensures on_success { OnOk result (AtReturn H.Host host.old host.new RefreshedShown) }
    ensures fault_has_cause { FailsOnly H.Host host.old host.new
        IsSound (IsErrOf result HostEnd.Fault) }
{
    match open(alloc, host) {
        Ok(opened) => refresh(alloc, host, opened.state()),
        Err(OpenEnd::Damaged(_)) => Ok(()),
        Err(OpenEnd::Fault) => Err(HostEnd::Fault),
        Err(OpenEnd::NoMemory) => Err(HostEnd::NoMemory),
    }
}
