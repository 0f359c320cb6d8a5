//! The listing of a store's files.
ghost use Rattle.std.specs.Prelude.{◌≡◌, ◌-◌, map, IfOk, IsErrOf};
ghost use Rattle.std.specs.Ordering.{is_lt, nat_cmp};
ghost use Rattle.std.specs.Cmp.Lexicographic.{slice_cmp};
ghost use Rattle.fp_host.specs.Paths.{path_text};
ghost use Rattle.fp_host.specs.Reads.{is_ascending};
ghost use Rattle.fp_host.specs.OverHost.{AtReturn, ChangesNothing, FailsOnly};
ghost use Rattle.fp_small.specs.Clear.{Reaches};
ghost use Rattle.fp_small.specs.declared.limits.TheConstants.{MOST_ELEMENTS};
ghost use Rattle.ost_model.specs.Stores.{objects_folder};
ghost use Rattle.ost_store.specs.Names.{ListsNames, CanList};
ghost use Rattle.ost_store.specs.Walks.{AreKeyed, IsInOrder};

use crate::walking::leaves_below;
use fp_base::Items;
use fp_host::{Host, HostEnd, Path};
use fp_small::values_in_order;
use std::alloc::{AllocError, Global};
use std::collections::BTreeMap;

/// Lists the files and symlinks below `objects` in the store at `root`, at any depth, ascending by
/// the bytes of their paths, whether or not they are objects. Changes nothing. Condition: no path
/// below `objects` has more than 128 elements.
pub fn names<H: Host>(alloc: Global, host: &mut H, root: &Path) -> Result<Items<Path>, HostEnd>
    ensures unchanged { ChangesNothing H.Host host.old host.new }
    ensures tells { IfOk result (λ paths. AtReturn H.Host host.old host.new
        (λ u w. ListsNames root.now u paths)) }
    // Everything below `objects` is at most 127 levels below it.
    ensures reach { IfOk result (λ _. AtReturn H.Host host.old host.new
        (λ u w. Reaches (objects_folder root.now)
        (MOST_ELEMENTS - 1) u)) }
    ensures fault_has_cause { FailsOnly H.Host host.old host.new
        (CanList root.now) (IsErrOf result HostEnd.Fault) }
{
    let objects = root.child("objects")?;
    let found = leaves_below(alloc, host, objects)?;
    Ok(in_order(alloc, found)?)
}

/// Returns whether the text of the first path is less than that of the second, by its bytes.
fn is_before(a: &Path, b: &Path) -> bool
    ensures { result ≡ is_lt (slice_cmp nat_cmp (path_text a.now) (path_text b.now)) }
{
    a.text() < b.text()
}

/// Returns whether the texts of the paths ascend strictly.
fn are_ascending(paths: &[Path]) -> bool
    ensures { result ≡ is_ascending (map path_text paths.now) }
{
    for i in 1..paths.len() {
        if !is_before(&paths[i - 1], &paths[i]) {
            return false;
        }
    }
    true
}

/// Returns the paths in ascending order of their texts. Sorts them only if needed: a host lists
/// names in order, so they mostly ascend already.
fn in_order(alloc: Global, paths: Vec<Path>) -> Result<Items<Path>, AllocError>
    ensures { IfOk result (IsInOrder paths.items) }
{
    if are_ascending(&paths) {
        return Ok(Items::from_vec(paths));
    }
    let keyed = by_text(alloc, paths)?;
    Ok(Items::from_vec(values_in_order(alloc, keyed)?))
}

/// Returns a map from the texts of the paths to the paths.
fn by_text(alloc: Global, paths: Vec<Path>) -> Result<BTreeMap<String, Path>, AllocError>
    ensures { IfOk result (λ keyed. AreKeyed paths.items keyed.entries) }
{
    let mut keyed = BTreeMap::new(alloc);
    for path in paths {
        let text = String::from_str(alloc, path.text())?;
        keyed.insert(text, path)?;
    }
    Ok(keyed)
}
