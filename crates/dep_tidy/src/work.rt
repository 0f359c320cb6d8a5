//! Clearing temporary files.
ghost use Rattle.std.specs.Prelude.{OnOk, IsErrOf};
ghost use Rattle.fp_host.specs.OverHost.{AtReturn, FailsOnly};
ghost use Rattle.fp_host.specs.Frame.{Frame, NoPath};
ghost use Rattle.fp_small.specs.Places.{tmp};
ghost use Rattle.fp_small.specs.Clear.{GoneBelow, AbsentBelow, IsEmptied, CanEmpty};

use fp_host::{Host, HostEnd};
use fp_small::{clear_below, tmp_path};
use std::alloc::Global;

/// Clears everything below `repo/tmp`.
pub(crate) fn empty_work<H: Host>(alloc: Global, host: &mut H) -> Result<(), HostEnd>
    ensures frame { Frame (GoneBelow tmp) (AbsentBelow tmp) NoPath
        (H.moments host.old) (H.moments host.new) }
    ensures on_success { OnOk result (AtReturn H.Host host.old host.new (λ u w. IsEmptied tmp w)) }
    ensures fault_has_cause { FailsOnly H.Host host.old host.new
        (CanEmpty tmp) (IsErrOf result HostEnd.Fault) }
{
    let work = tmp_path(alloc)?;
    clear_below(alloc, host, &work)
}
