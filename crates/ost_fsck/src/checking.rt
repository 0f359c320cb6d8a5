//! Checking everything below `objects`.
ghost use Rattle.std.specs.Prelude.{IfOk, IsErrOf};
ghost use Rattle.fp_host.specs.OverHost.{AtReturn, ChangesNothing, FailsAlone, FailsOnly};
ghost use Rattle.fp_host.specs.Outcome.{shows};
ghost use Rattle.ost_store.specs.Names.{CanList};
ghost use Rattle.ost_fsck.specs.Report.{Reports};
ghost use Rattle.ost_fsck.specs.Picking.{Checks};

use crate::batch::check_batch;
use crate::report::Report;
use fp_base::Items;
use fp_host::{Host, HostEnd, Path};
use ost_store::names;
use par_digest::{Gate, MOST_IN_BATCH};
use std::alloc::Global;
use std::thread::Threads;

/// Checks each of these paths in the store at `root`, one batch after another.
fn check_all<T: Threads + Sync, H: Host, G: Gate + Sync>(
    rt: &T,
    alloc: Global,
    host: &mut H,
    root: &Path,
    paths: &[Path],
    gate: &G,
) -> Result<Report, HostEnd>
    ensures unchanged { ChangesNothing H.Host host.old host.new }
    ensures tells { IfOk result (λ report. AtReturn H.Host host.old host.new
        (λ u w. Checks root.now paths.now u report)) }
    ensures fault_has_cause { FailsAlone H.Host host.old host.new (IsErrOf result HostEnd.Fault) }
{
    let mut findings = Vec::new(alloc);
    let mut objects = 0u64;
    let mut at = 0;
    while at < paths.len() {
        let end = at + (paths.len() - at).min(MOST_IN_BATCH);
        let batch = &paths[at..end];
        objects += check_batch(rt, alloc, host, root, batch, gate, &mut findings)?;
        at = end;
    }
    Ok(Report {
        findings: Items::from_vec(findings),
        objects,
    })
}

/// Checks each file and symlink below `objects` in the store at `root`, and the content of each
/// object, whether or not a commit uses it. Paths are checked in batches of at most 64. In each
/// batch, several threads compute the digests of the objects of up to 256 KiB, and the gate is
/// called as by `digests_gated`. A larger file is read piece by piece. Changes nothing. Condition:
/// no path below `objects` has more than 128 elements.
pub fn check_store<T: Threads + Sync, H: Host, G: Gate + Sync>(
    rt: &T,
    alloc: Global,
    host: &mut H,
    root: &Path,
    gate: &G,
) -> Result<Report, HostEnd>
    ensures unchanged { ChangesNothing H.Host host.old host.new }
    ensures tells { IfOk result (λ report. AtReturn H.Host host.old host.new
        (λ u w. Reports root.now (shows u) report)) }
    ensures fault_has_cause { FailsOnly H.Host host.old host.new
        (CanList root.now) (IsErrOf result HostEnd.Fault) }
{
    let paths = names(alloc, host, root)?;
    check_all(rt, alloc, host, root, paths.as_slice(), gate)
}
