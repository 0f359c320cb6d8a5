//! Removal of a file or symlink.
ghost use Rattle.std.specs.Prelude.{◌≡◌, OnOk, IsErrOf};
ghost use Rattle.fp_host.specs.OverHost.{AtReturn, FailsOnly};
ghost use Rattle.fp_host.specs.Paths.{absent};
ghost use Rattle.fp_host.specs.Calls.{IsNoDir};
ghost use Rattle.fp_host.specs.Frame.{Frame, NoPath};
ghost use Rattle.fp_small.specs.Clear.{GoneAt, AbsentAt};

use fp_host::{Host, HostEnd, Path, Stat};

/// Removes the file or symlink at the path. Does nothing if the path is absent. Errs if it is a
/// directory.
pub fn take_away<H: Host>(host: &mut H, path: &Path) -> Result<(), HostEnd>
    ensures frame { Frame (GoneAt path.now) (AbsentAt path.now) NoPath
        (H.moments host.old) (H.moments host.new) }
    ensures on_success { OnOk result (AtReturn H.Host host.old host.new
        (λ u w. w.names path.now ≡ absent)) }
    ensures fault_has_cause { FailsOnly H.Host host.old host.new
        (λ v. IsNoDir (v.names path.now)) (IsErrOf result HostEnd.Fault) }
    ensures needs_no_memory { IsErrOf result HostEnd.NoMemory → ⊥ }
{
    match host.stat(path)? {
        Stat::Absent => Ok(()),
        _ => Ok(host.unlink(path)?),
    }
}
