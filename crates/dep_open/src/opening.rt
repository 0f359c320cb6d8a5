//! Opening an installation.
ghost use Rattle.std.specs.Prelude.{◌≡◌, IfOk, IsErrOf};
ghost use Rattle.fp_host.specs.OverHost.{AtEachMoment, AtReturn, FailsAlone};
ghost use Rattle.fp_host.specs.Frame.{Frame, NoPath, NoName};
ghost use Rattle.fp_host.specs.Outcome.{Nothing};
ghost use Rattle.dep_states.specs.After.{IsGood};
ghost use Rattle.dep_open.specs.Open.{Opened as HasOpened, StaysUnread};

use crate::open_end::OpenEnd;
use crate::reading::read_state;
use dep_states::Opened;
use fp_host::Host;
use std::alloc::Global;

/// Reads the state and syncs, so that each crash from then on leaves this state. Changes no name,
/// no file and no printed byte. Errs with `Damaged` only if the installation shows no state, and
/// doesn't sync then.
pub fn open<H: Host>(alloc: Global, host: &mut H) -> Result<Opened, OpenEnd>
    ensures frame { Frame Nothing NoName NoPath (H.moments host.old) (H.moments host.new) }
    ensures good { IfOk result IsGood }
    ensures tells { AtReturn H.Host host.old host.new (HasOpened result) }
    ensures unread { AtEachMoment H.Host host.old host.new StaysUnread }
    ensures fault_has_cause { FailsAlone H.Host host.old host.new (IsErrOf result OpenEnd.Fault) }
{
    let state = read_state(alloc, host)?;
    host.sync()?;
    Ok(Opened::of(state))
}
