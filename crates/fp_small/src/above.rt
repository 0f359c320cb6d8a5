//! Making of a path's missing ancestors.
ghost use Rattle.std.specs.Prelude.{◌≡◌, OnOk, IsErrOf};
ghost use Rattle.fp_host.specs.OverHost.{AtReturn, FailsOnly};
ghost use Rattle.fp_host.specs.Frame.{Frame, NoPath};
ghost use Rattle.fp_small.specs.Unsynced.{MakesNoFile};
ghost use Rattle.fp_small.specs.Folders.{ancestors, FoldersAt, DirsAt, AreFree, AreDirs};

use crate::replacing::{ancestors, make_folders};
use fp_host::{Host, HostEnd, Path};
use std::alloc::Global;

/// Makes the missing directories above the path, the outermost first. Allocates only before the
/// first change. Each ancestor should be absent or a directory: one that is a file or symlink is
/// left alone, and the call may succeed nevertheless.
pub fn make_above<H: Host>(alloc: Global, host: &mut H, path: &Path) -> Result<(), HostEnd>
    ensures frame { Frame (FoldersAt (ancestors path.now)) (DirsAt (ancestors path.now)) NoPath
        (H.moments host.old) (H.moments host.new) }
    ensures on_success { OnOk result (AtReturn H.Host host.old host.new
        (λ u w. AreFree (ancestors path.now) u → AreDirs
        (ancestors path.now) w)) }
    // Nothing is synced, and no file is created.
    ensures unsynced { AtReturn H.Host host.old host.new MakesNoFile }
    ensures fault_has_cause { FailsOnly H.Host host.old host.new
        (AreFree (ancestors path.now)) (IsErrOf result HostEnd.Fault) }
    ensures starved_unchanged { IsErrOf result HostEnd.NoMemory → AtReturn H.Host host.old host.new
        (λ u w. w ≡ u) }
{
    let folders = ancestors(alloc, path)?;
    make_folders(host, &folders)
}
