//! Removal of files and symlinks that aren't exported any more.
ghost use Rattle.std.specs.Prelude.{◌≡◌, ◌↔◌, IsTrue, OnOk, IsErrOf, Contains};
ghost use Rattle.fp_host.specs.OverHost.{AtEachMoment, AtReturn, FailsOnly};
ghost use Rattle.fp_host.specs.Paths.{dir, IsAbove};
ghost use Rattle.fp_host.specs.Calls.{IsNoDir};
ghost use Rattle.fp_host.specs.Frame.{Only};
ghost use Rattle.fp_small.specs.Clear.{IsWithin, Reaches};
ghost use Rattle.fl_export.specs.Placed.{exports};
ghost use Rattle.fl_export.specs.Steps.{Sweeps, SweepsAt, HasNoStaleIn, Cleans, HasNoStale};

use crate::places::exports_path;
use fp_host::{Host, HostEnd, Path, Stat};
use fp_small::{MOST_ELEMENTS, take_away};
use std::alloc::Global;

/// The maximum depth of a path below `exports`: one less than the maximum number of elements of a
/// path, since `exports` is one.
const MOST_LEVELS: usize = MOST_ELEMENTS - 1;

/// Returns whether the path is in the list.
fn has_path(paths: &[Path], path: &Path) -> bool
    ensures { IsTrue result ↔ Contains paths.now path.now }
{
    for other in paths {
        if is_same(other, path) {
            return true;
        }
    }
    false
}

/// Returns whether the two paths are equal.
fn is_same(path: &Path, other: &Path) -> bool
    ensures { IsTrue result ↔ (path.now ≡ other.now) }
{
    path.is(other)
}

/// Removes the file or symlink at the path, unless it is in `places`.
fn sweep_path<H: Host>(host: &mut H, places: &[Path], path: &Path) -> Result<(), HostEnd>
    ensures any_moment { AtEachMoment H.Host host.old host.new (SweepsAt path.now places.now) }
    ensures on_success { OnOk result (AtReturn H.Host host.old host.new
        (λ u w. HasNoStaleIn (Only path.now) places.now w)) }
    ensures fault_has_cause { FailsOnly H.Host host.old host.new
        (λ v. IsNoDir (v.names path.now)) (IsErrOf result HostEnd.Fault) }
{
    if has_path(places, path) {
        return Ok(());
    }
    take_away(host, path)
}

/// Removes the files and symlinks at or below the path, except those in `places`. Errs if anything
/// is more than `depth` levels below the path.
#[cycle(sweep)]
fn sweep_within<H: Host>(
    alloc: Global,
    host: &mut H,
    places: &[Path],
    path: &Path,
    depth: usize,
) -> Result<(), HostEnd>
    ensures any_moment { AtEachMoment H.Host host.old host.new
        (Sweeps (IsWithin path.now) places.now) }
    ensures on_success { OnOk result (AtReturn H.Host host.old host.new
        (λ u w. HasNoStaleIn (IsWithin path.now) places.now w)) }
    ensures reach { OnOk result (AtReturn H.Host host.old host.new
        (λ u w. Reaches path.now depth u)) }
    ensures fault_has_cause { FailsOnly H.Host host.old host.new
        (Reaches path.now depth) (IsErrOf result HostEnd.Fault) }
{
    match host.stat(path)? {
        Stat::Absent => Ok(()),
        Stat::Dir => sweep_names(alloc, host, places, path, depth),
        _ => sweep_path(host, places, path),
    }
}

/// Removes the files and symlinks below the directory, except those in `places`. Errs if anything
/// is more than `depth` levels below it.
#[cycle(sweep)]
fn sweep_names<H: Host>(
    alloc: Global,
    host: &mut H,
    places: &[Path],
    path: &Path,
    depth: usize,
) -> Result<(), HostEnd>
    ensures any_moment { AtEachMoment H.Host host.old host.new
        (Sweeps (IsAbove path.now) places.now) }
    ensures on_success { OnOk result (AtReturn H.Host host.old host.new
        (λ u w. HasNoStaleIn (IsAbove path.now) places.now w)) }
    ensures reach { OnOk result (AtReturn H.Host host.old host.new
        (λ u w. Reaches path.now depth u)) }
    ensures fault_has_cause { FailsOnly H.Host host.old host.new
        (λ v. (v.names path.now ≡ dir) × Reaches path.now depth v) (IsErrOf result HostEnd.Fault) }
{
    let names = host.list(alloc, path)?;
    for name in names.as_slice() {
        if depth == 0 {
            return Err(HostEnd::Fault);
        }
        let child = path.child(name.as_str())?;
        sweep_within(alloc, host, places, &child, depth - 1)?;
    }
    Ok(())
}

/// Removes the files and symlinks at or below `exports`, except those in `places`. Errs if a path
/// below `exports` has more than 128 elements. Leaves directories, also empty ones.
pub(crate) fn sweep<H: Host>(alloc: Global, host: &mut H, places: &[Path]) -> Result<(), HostEnd>
    ensures any_moment { AtEachMoment H.Host host.old host.new (Cleans places.now) }
    ensures on_success { OnOk result (AtReturn H.Host host.old host.new
        (λ u w. HasNoStale places.now w)) }
    // No path below `exports` had more than 128 elements at the entry.
    ensures reach { OnOk result (AtReturn H.Host host.old host.new
        (λ u w. Reaches exports MOST_LEVELS u)) }
    ensures fault_has_cause { FailsOnly H.Host host.old host.new
        (Reaches exports MOST_LEVELS) (IsErrOf result HostEnd.Fault) }
{
    let exports = exports_path(alloc)?;
    sweep_within(alloc, host, places, &exports, MOST_LEVELS)
}
