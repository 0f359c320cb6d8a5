//! Clearing of whole trees.
ghost use Rattle.std.specs.Prelude.{◌≡◌, ◌-◌, length, OnOk, IsErrOf};
ghost use Rattle.fp_host.specs.OverHost.{AtReturn, FailsOnly};
ghost use Rattle.fp_host.specs.Paths.{dir};
ghost use Rattle.fp_host.specs.Frame.{Frame, NoPath};
ghost use Rattle.fp_small.specs.Clear.{GoneWithin, AbsentWithin, GoneBelow, AbsentBelow, IsCleared, IsEmptied, CanClear, CanEmpty, Reaches, ReachesDown};

use crate::limits::MOST_ELEMENTS;
use fp_host::{Host, HostEnd, Path, Stat};
use std::alloc::Global;

/// Returns how many more elements a path below this one may have.
fn levels_below(path: &Path) -> usize
    ensures { result ≡ MOST_ELEMENTS - length path.now }
{
    MOST_ELEMENTS.saturating_sub(path.len())
}

/// Clears the path and everything below it. Does nothing if it is absent. Errs if the path is the
/// root, or if a path below it has more than 128 elements; what was removed until then stays
/// removed.
pub fn clear<H: Host>(alloc: Global, host: &mut H, path: &Path) -> Result<(), HostEnd>
    ensures frame { Frame (GoneWithin path.now) (AbsentWithin path.now) NoPath
        (H.moments host.old) (H.moments host.new) }
    ensures on_success { OnOk result (AtReturn H.Host host.old host.new
        (λ u w. IsCleared path.now w)) }
    // No path below had more than 128 elements.
    ensures reach { OnOk result (AtReturn H.Host host.old host.new (λ u w. CanEmpty path.now u)) }
    ensures fault_has_cause { FailsOnly H.Host host.old host.new
        (CanClear path.now) (IsErrOf result HostEnd.Fault) }
{
    clear_within(alloc, host, path, levels_below(path))
}

/// Clears everything below the path, and leaves the path itself. Does nothing if it is no
/// directory. Errs if a path below it has more than 128 elements; what was removed until then stays
/// removed.
pub fn clear_below<H: Host>(alloc: Global, host: &mut H, path: &Path) -> Result<(), HostEnd>
    ensures frame { Frame (GoneBelow path.now) (AbsentBelow path.now) NoPath
        (H.moments host.old) (H.moments host.new) }
    ensures on_success { OnOk result (AtReturn H.Host host.old host.new
        (λ u w. IsEmptied path.now w)) }
    // No path below had more than 128 elements.
    ensures reach { OnOk result (AtReturn H.Host host.old host.new (λ u w. CanEmpty path.now u)) }
    ensures fault_has_cause { FailsOnly H.Host host.old host.new
        (CanEmpty path.now) (IsErrOf result HostEnd.Fault) }
{
    match host.stat(path)? {
        Stat::Dir => clear_names(alloc, host, path, levels_below(path)),
        _ => Ok(()),
    }
}

/// Clears the path and everything below it. Errs if anything is more than `depth` levels below it.
#[cycle(clear)]
fn clear_within<H: Host>(
    alloc: Global,
    host: &mut H,
    path: &Path,
    depth: usize,
) -> Result<(), HostEnd>
    ensures frame { Frame (GoneWithin path.now) (AbsentWithin path.now) NoPath
        (H.moments host.old) (H.moments host.new) }
    ensures on_success { OnOk result (AtReturn H.Host host.old host.new
        (λ u w. IsCleared path.now w)) }
    ensures reach { OnOk result (AtReturn H.Host host.old host.new
        (λ u w. Reaches path.now depth u)) }
    ensures fault_has_cause { FailsOnly H.Host host.old host.new
        (ReachesDown path.now depth) (IsErrOf result HostEnd.Fault) }
{
    match host.stat(path)? {
        Stat::Absent => Ok(()),
        Stat::Dir => {
            clear_names(alloc, host, path, depth)?;
            Ok(host.remove_dir(path)?)
        }
        Stat::File { .. } | Stat::Link => Ok(host.unlink(path)?),
    }
}

/// Clears everything in the directory. Errs if anything is more than `depth` levels below it.
#[cycle(clear)]
fn clear_names<H: Host>(
    alloc: Global,
    host: &mut H,
    path: &Path,
    depth: usize,
) -> Result<(), HostEnd>
    ensures frame { Frame (GoneBelow path.now) (AbsentBelow path.now) NoPath
        (H.moments host.old) (H.moments host.new) }
    ensures on_success { OnOk result (AtReturn H.Host host.old host.new
        (λ u w. IsEmptied path.now w)) }
    ensures reach { OnOk result (AtReturn H.Host host.old host.new
        (λ u w. Reaches path.now depth u)) }
    ensures fault_has_cause { FailsOnly H.Host host.old host.new
        (λ v. (v.names path.now ≡ dir) × Reaches path.now depth v) (IsErrOf result HostEnd.Fault) }
{
    let names = host.list(alloc, path)?;
    for name in names.as_slice() {
        if depth == 0 {
            return Err(HostEnd::Fault);
        }
        let child = path.child(name.as_str())?;
        clear_within(alloc, host, &child, depth - 1)?;
    }
    Ok(())
}
