//! Listing the refs of a store.
ghost use Rattle.std.specs.Prelude.{IfOk, OnOk, IsErrOf};
ghost use Rattle.fp_host.specs.OverHost.{AtReturn, ChangesNothing, FailsAlone};
ghost use Rattle.ost_refs.specs.Lists.{ListsRefs, ListsReached};
ghost use Rattle.ost_refs.specs.Found.{place_named, ArePaths, Puts, Adds, Finds};

use crate::naming::place_named;
use crate::place::RefPlace;
use crate::walking::paths_below;
use fp_base::Items;
use fp_host::{Host, HostEnd, Path, Stat};
use fp_small::values_in_order;
use std::alloc::{AllocError, Global};
use std::collections::BTreeMap;

/// The number of elements of a ref's path below `refs/heads`.
const HEAD_DEPTH: usize = 4;

/// The number of elements of a ref's path below `refs/remotes`.
const REMOTE_DEPTH: usize = 5;

/// Returns the places of the store at `root` at which there is a file, in ascending order of the
/// bytes of their paths. Doesn't read the files, and ignores everything else below `refs`. Changes
/// nothing.
pub fn list_refs<H: Host>(
    alloc: Global,
    host: &mut H,
    root: &Path,
) -> Result<Items<RefPlace>, HostEnd>
    ensures unchanged { ChangesNothing H.Host host.old host.new }
    ensures tells { IfOk result (λ places. AtReturn H.Host host.old host.new
        (λ u w. ListsRefs root.now u places)) }
    // The result depends only on the paths with four elements below `refs/heads` or five below
    // `refs/remotes`.
    ensures reach { IfOk result (λ places. AtReturn H.Host host.old host.new
        (λ u w. ListsReached root.now u places)) }
    ensures fault_has_cause { FailsAlone H.Host host.old host.new (IsErrOf result HostEnd.Fault) }
{
    let paths = paths_of(alloc, host, root)?;
    let found = places_among(alloc, host, &paths)?;
    Ok(Items::from_vec(values_in_order(alloc, found)?))
}

/// Returns the paths at which refs can be.
fn paths_of<H: Host>(alloc: Global, host: &mut H, root: &Path) -> Result<Vec<Path>, HostEnd>
    ensures unchanged { ChangesNothing H.Host host.old host.new }
    ensures tells { IfOk result (λ paths. AtReturn H.Host host.old host.new
        (λ u w. ArePaths root.now u paths.items)) }
    ensures fault_has_cause { FailsAlone H.Host host.old host.new (IsErrOf result HostEnd.Fault) }
{
    let refs = root.child("refs")?;
    let heads = refs.child("heads")?;
    let remotes = refs.child("remotes")?;
    let mut paths = paths_below(alloc, host, heads, HEAD_DEPTH)?;
    let mut more = paths_below(alloc, host, remotes, REMOTE_DEPTH)?;
    paths.append(&mut more)?;
    Ok(paths)
}

/// Returns the places among these paths at which there is a file, by the texts of their paths.
fn places_among<H: Host>(
    alloc: Global,
    host: &mut H,
    paths: &[Path],
) -> Result<BTreeMap<String, RefPlace>, HostEnd>
    ensures unchanged { ChangesNothing H.Host host.old host.new }
    ensures tells { IfOk result (λ found. AtReturn H.Host host.old host.new
        (λ u w. Finds paths.now u found.entries)) }
    ensures fault_has_cause { FailsAlone H.Host host.old host.new (IsErrOf result HostEnd.Fault) }
{
    let mut found = BTreeMap::new(alloc);
    for path in paths {
        add_place(alloc, host, path, &mut found)?;
    }
    Ok(found)
}

/// Adds the place with this path, if there is a file.
fn add_place<H: Host>(
    alloc: Global,
    host: &mut H,
    path: &Path,
    found: &mut BTreeMap<String, RefPlace>,
) -> Result<(), HostEnd>
    ensures unchanged { ChangesNothing H.Host host.old host.new }
    ensures tells { OnOk result (AtReturn H.Host host.old host.new
        (λ u w. Adds path.now u found.old.entries found.new.entries)) }
    ensures fault_has_cause { FailsAlone H.Host host.old host.new (IsErrOf result HostEnd.Fault) }
{
    match host.stat(path)? {
        Stat::File { .. } => Ok(put_place(alloc, path, found)?),
        _ => Ok(()),
    }
}

/// Adds the place with this path, if the path is that of a place.
fn put_place(
    alloc: Global,
    path: &Path,
    found: &mut BTreeMap<String, RefPlace>,
) -> Result<(), AllocError>
    ensures { OnOk result (Puts path.now (place_named path.now) found.old.entries
        found.new.entries) }
{
    let Some(place) = place_named(alloc, path)? else {
        return Ok(());
    };
    let text = String::from_str(alloc, path.text())?;
    found.insert(text, place)?;
    Ok(())
}
