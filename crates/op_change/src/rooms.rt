//! Making room for a commit.
ghost use Rattle.std.specs.Prelude.{OnOk, IsErrOf};
ghost use Rattle.fp_host.specs.OverHost.{AtReturn, FailsOnly};
ghost use Rattle.fp_host.specs.Frame.{Frame, NoPath};
ghost use Rattle.op_change.specs.Rooms.{RoomAt, RoomName, HasRoom, CanMakeRoom};

use fp_host::{Host, HostEnd, Path};
use fp_small::{clear, clear_below};
use std::alloc::Global;

/// Clears everything below `tmp`, and unless `kept` also `folder` and everything below it.
pub(crate) fn make_room<H: Host>(
    alloc: Global,
    host: &mut H,
    tmp: &Path,
    folder: &Path,
    kept: bool,
) -> Result<(), HostEnd>
    ensures frame { Frame (RoomAt tmp.now folder.now kept) (RoomName tmp.now folder.now kept) NoPath
        (H.moments host.old) (H.moments host.new) }
    ensures on_success { OnOk result (AtReturn H.Host host.old host.new
        (λ u w. HasRoom tmp.now folder.now kept w)) }
    ensures fault_has_cause { FailsOnly H.Host host.old host.new
        (CanMakeRoom tmp.now folder.now kept) (IsErrOf result HostEnd.Fault) }
{
    clear_below(alloc, host, tmp)?;
    if kept {
        return Ok(());
    }
    clear(alloc, host, folder)
}
