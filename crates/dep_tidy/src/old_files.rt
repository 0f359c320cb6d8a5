//! Removing the files of layout 1.
ghost use Rattle.std.specs.Prelude.{OnOk, IsErrOf};
ghost use Rattle.fp_host.specs.OverHost.{AtEachMoment, AtReturn, FailsOnly};
ghost use Rattle.dep_tidy.specs.Steps.{TakesOld, HasNoOld, CanTakeOld};

use dep_states::{config_path, pins_path, remotes_path};
use fp_host::{Host, HostEnd, Stat};
use fp_small::take_away;
use std::alloc::Global;

/// Removes the files of layout 1, `remotes.conf` and `pins`, if `config` exists. Otherwise they
/// stay, since they are the settings then.
pub(crate) fn take_old_files<H: Host>(alloc: Global, host: &mut H) -> Result<(), HostEnd>
    ensures any_moment { AtEachMoment H.Host host.old host.new TakesOld }
    ensures on_success { OnOk result (AtReturn H.Host host.old host.new (λ u w. HasNoOld w)) }
    ensures fault_has_cause { FailsOnly H.Host host.old host.new
        CanTakeOld (IsErrOf result HostEnd.Fault) }
{
    let config = config_path(alloc)?;
    let remotes = remotes_path(alloc)?;
    let pins = pins_path(alloc)?;
    match host.stat(&config)? {
        Stat::Absent => Ok(()),
        _ => {
            take_away(host, &remotes)?;
            take_away(host, &pins)
        }
    }
}
