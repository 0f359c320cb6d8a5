//! The files and symlinks below a directory.
ghost use Rattle.std.specs.Prelude.{◌≡◌, ◌++◌, ◌-◌, ◌∷◌, [], IfOk, OnOk, IsErrOf};
ghost use Rattle.fp_host.specs.OverHost.{AtReturn, ChangesNothing, FailsAlone, FailsOnly};
ghost use Rattle.fp_small.specs.Clear.{Reaches};
ghost use Rattle.ost_store.specs.Walks.{Visits, VisitsAll, AreLeavesWithin, AreLeavesBelow};

use fp_host::{Host, HostEnd, Path, Stat};
use fp_small::{MOST_ELEMENTS, add_names, list_of_one};
use std::alloc::{AllocError, Global};

/// Appends a copy of the path to a list.
fn add_path(path: &Path, paths: &mut Vec<Path>) -> Result<(), AllocError>
    ensures { OnOk result (paths.new.items ≡ paths.old.items ++ path.now ∷ []) }
{
    paths.push(path.copy()?)?;
    Ok(())
}

/// Appends the path to `found` if it is a file or symlink, or the paths directly in it to `next` if
/// it is a directory.
fn visit<H: Host>(
    alloc: Global,
    host: &mut H,
    path: &Path,
    found: &mut Vec<Path>,
    next: &mut Vec<Path>,
) -> Result<(), HostEnd>
    ensures unchanged { ChangesNothing H.Host host.old host.new }
    ensures tells { OnOk result (AtReturn H.Host host.old host.new
        (λ u w. Visits path.now u found.old.items next.old.items
        found.new.items next.new.items)) }
    ensures fault_has_cause { FailsAlone H.Host host.old host.new (IsErrOf result HostEnd.Fault) }
{
    match host.stat(path)? {
        Stat::Absent => Ok(()),
        Stat::Dir => {
            let names = host.list(alloc, path)?;
            Ok(add_names(path, names.as_slice(), next)?)
        }
        _ => Ok(add_path(path, found)?),
    }
}

/// Visits each of the paths: appends the files and symlinks to `found`, and returns the paths
/// directly in the directories.
fn visit_all<H: Host>(
    alloc: Global,
    host: &mut H,
    paths: &[Path],
    found: &mut Vec<Path>,
) -> Result<Vec<Path>, HostEnd>
    ensures unchanged { ChangesNothing H.Host host.old host.new }
    ensures tells { IfOk result (λ next. AtReturn H.Host host.old host.new
        (λ u w. VisitsAll paths.now u found.old.items
        found.new.items next.items)) }
    ensures fault_has_cause { FailsAlone H.Host host.old host.new (IsErrOf result HostEnd.Fault) }
{
    let mut next = Vec::new(alloc);
    for path in paths {
        visit(alloc, host, path, found, &mut next)?;
    }
    Ok(next)
}

/// Lists the files and symlinks at the path and below it. Errs with `Fault` if anything is 128 or
/// more levels below it.
fn leaves_within<H: Host>(alloc: Global, host: &mut H, folder: Path) -> Result<Vec<Path>, HostEnd>
    ensures unchanged { ChangesNothing H.Host host.old host.new }
    ensures tells { IfOk result (λ found. AtReturn H.Host host.old host.new
        (λ u w. AreLeavesWithin folder u found.items)) }
    ensures reach { IfOk result (λ _. AtReturn H.Host host.old host.new
        (λ u w. Reaches folder (MOST_ELEMENTS - 1) u)) }
    ensures fault_has_cause { FailsOnly H.Host host.old host.new
        (Reaches folder (MOST_ELEMENTS - 1)) (IsErrOf result HostEnd.Fault) }
{
    let mut found = Vec::new(alloc);
    let mut level = list_of_one(alloc, folder)?;
    for _depth in 0..MOST_ELEMENTS {
        level = visit_all(alloc, host, &level, &mut found)?;
    }
    if level.is_empty() {
        Ok(found)
    } else {
        Err(HostEnd::Fault)
    }
}

/// Lists the files and symlinks below the path; none if it is no directory. Errs with `Fault` if
/// anything is 128 or more levels below it.
pub(crate) fn leaves_below<H: Host>(
    alloc: Global,
    host: &mut H,
    folder: Path,
) -> Result<Vec<Path>, HostEnd>
    ensures unchanged { ChangesNothing H.Host host.old host.new }
    ensures tells { IfOk result (λ found. AtReturn H.Host host.old host.new
        (λ u w. AreLeavesBelow folder u found.items)) }
    ensures reach { IfOk result (λ _. AtReturn H.Host host.old host.new
        (λ u w. Reaches folder (MOST_ELEMENTS - 1) u)) }
    ensures fault_has_cause { FailsOnly H.Host host.old host.new
        (Reaches folder (MOST_ELEMENTS - 1)) (IsErrOf result HostEnd.Fault) }
{
    match host.stat(&folder)? {
        Stat::Dir => leaves_within(alloc, host, folder),
        _ => Ok(Vec::new(alloc)),
    }
}
