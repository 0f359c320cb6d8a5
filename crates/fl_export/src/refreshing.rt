//! Refreshing of the directory `exports` from the state.
ghost use Rattle.std.specs.Prelude.{OnOk, IsErrOf};
ghost use Rattle.fp_host.specs.OverHost.{AtEachMoment, AtReturn, FailsOnly};
ghost use Rattle.dep_states.specs.Sound.{Opens};
ghost use Rattle.fl_export.specs.Steps.{Refreshes, WasRefreshed};

use crate::listing::wanted;
use crate::places::places_of;
use crate::placing::put_rows;
use crate::sweeping::sweep;
use fp_host::{Host, HostEnd};
use fp_small::State;
use std::alloc::Global;

/// Makes the files and symlinks at or below `exports` exactly the installation's exports, and
/// syncs.
///
/// Removes files and symlinks that aren't exported any more, and puts those that are missing or
/// differ. Clears what is in the way of an export, with everything below it; empty directories
/// stay. Files are replaced atomically, symlinks aren't. If everything is in place already, no name
/// and no file changes. The installation must be sound and in this state after every crash.
pub fn refresh<H: Host>(alloc: Global, host: &mut H, state: &State) -> Result<(), HostEnd>
    ensures any_moment { AtEachMoment H.Host host.old host.new (Refreshes state.now) }
    ensures on_success { OnOk result (AtReturn H.Host host.old host.new (WasRefreshed state.now)) }
    ensures fault_has_cause { FailsOnly H.Host host.old host.new
        (Opens state.now) (IsErrOf result HostEnd.Fault) }
{
    let rows = wanted(alloc, host, state)?;
    let places = places_of(alloc, rows.as_slice())?;
    sweep(alloc, host, &places)?;
    put_rows(alloc, host, rows.as_slice())?;
    Ok(host.sync()?)
}
