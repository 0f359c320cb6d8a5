//! Gathering the objects that commits use.
ghost use Rattle.std.specs.Prelude.{◌≡◌, List, ℕ, None, IfOk, OnOk, IsErrOf};
ghost use Rattle.std.specs.String.{string_cmp};
ghost use Rattle.std.specs.BTreeMap.{IsOrdered, values};
ghost use Rattle.fp_host.specs.OverHost.{ChangesNothing, FailsAlone};
ghost use Rattle.ost_model.specs.Objects.{Have};
ghost use Rattle.ost_model.specs.Order.{first_walk_fault};
ghost use Rattle.ost_model.specs.Remotes.{Stores};
ghost use Rattle.ost_model.specs.Used.{used_fault};
ghost use Rattle.ost_walk.specs.Ends.{EndsBy, IsFirst};
ghost use Rattle.ost_walk.specs.UsedList.{Puts, PutsAll, PutsOrder, AreUsed, IsUsedList};

use crate::ends::{ObjectFault, WalkEnd, WalkFault};
use crate::places::Places;
use crate::surveying::order;
use fp_base::{Items, ObjKind};
use fp_host::{Host, NoRemotes, Path};
use fp_name::Digest;
use ost_store::path_of;
use std::alloc::{AllocError, Global};
use std::collections::BTreeMap;

/// Adds an object to the map, under the text of its path.
fn put_object(
    alloc: Global,
    digest: &Digest,
    kind: ObjKind,
    found: &mut BTreeMap<String, (Digest, ObjKind)>,
) -> Result<(), AllocError>
    ensures { OnOk result (Puts (digest.now, kind) found.old.entries found.new.entries) }
{
    let _bytes = digest.as_bytes();
    let path = path_of(alloc, &Path::root(alloc), digest, kind)?;
    let text = String::from_str(alloc, path.text())?;
    found.insert(text, (*digest, kind))?;
    Ok(())
}

/// Adds objects to the map, each under the text of its path.
fn put_objects(
    alloc: Global,
    objects: &[(Digest, ObjKind)],
    found: &mut BTreeMap<String, (Digest, ObjKind)>,
) -> Result<(), AllocError>
    ensures { OnOk result (PutsAll objects.now found.old.entries found.new.entries) }
{
    for object in objects {
        put_object(alloc, &object.0, object.1, found)?;
    }
    Ok(())
}

/// Adds all objects that a commit uses to the map. Reads only the store. `Refused` with the first
/// fault of the commit.
fn put_order<H: Host>(
    alloc: Global,
    host: &mut H,
    places: &Places,
    commit: &Digest,
    found: &mut BTreeMap<String, (Digest, ObjKind)>,
) -> Result<(), WalkEnd>
    requires { places.now.url ≡ None }
    ensures unchanged { ChangesNothing H.Host host.old host.new }
    ensures tells { (have : Have) → Stores places.now.root (H.moments host.old) have
        → EndsBy (λ _. PutsOrder have commit.now found.old.entries found.new.entries)
        (IsFirst (first_walk_fault have commit.now)) result }
    ensures fault_has_cause { FailsAlone H.Host host.old host.new
        (IsErrOf result WalkEnd.HostFault) }
    ensures remote { IsErrOf result WalkEnd.RemoteFault → ⊥ }
{
    let mut remotes = NoRemotes;
    match order(alloc, host, &mut remotes, places, commit) {
        Ok(objects) => match put_objects(alloc, objects.as_slice(), found) {
            Ok(()) => Ok(()),
            Err(AllocError) => Err(WalkEnd::NoMemory),
        },
        Err(end) => Err(end),
    }
}

/// Returns the objects of the map, in ascending order of the texts of their paths.
fn in_order(
    alloc: Global,
    mut found: BTreeMap<String, (Digest, ObjKind)>,
) -> Result<Vec<(Digest, ObjKind)>, AllocError>
    ensures objects { IfOk result (λ objects. objects.items ≡ values found) }
    ensures ordered { IsOrdered string_cmp found }
{
    let mut objects = Vec::with_capacity(alloc, found.len())?;
    while let Some(entry) = found.pop_first() {
        objects.push(entry.1)?;
    }
    Ok(objects)
}

/// Returns all objects that the commits use, under the texts of their paths. Reads only the store.
/// `Refused` with the first fault of the first commit that has one.
fn gather<H: Host>(
    alloc: Global,
    host: &mut H,
    places: &Places,
    commits: &[Digest],
) -> Result<BTreeMap<String, (Digest, ObjKind)>, WalkEnd>
    requires { places.now.url ≡ None }
    ensures unchanged { ChangesNothing H.Host host.old host.new }
    ensures tells { (have : Have) → Stores places.now.root (H.moments host.old) have
        → EndsBy (λ found. AreUsed have commits.now found.entries)
        (IsFirst (used_fault have commits.now)) result }
    ensures fault_has_cause { FailsAlone H.Host host.old host.new
        (IsErrOf result WalkEnd.HostFault) }
    ensures remote { IsErrOf result WalkEnd.RemoteFault → ⊥ }
{
    let mut found = BTreeMap::new(alloc);
    for commit in commits {
        match put_order(alloc, host, places, commit, &mut found) {
            Ok(()) => {}
            Err(end) => return Err(end),
        }
    }
    Ok(found)
}

/// Returns the places of objects that are only in the store at `root`, without a remote.
fn store_alone(root: &Path) -> Result<Places, AllocError>
    ensures { IfOk result (λ places. (places.root ≡ root.now) × (places.url ≡ None)) }
{
    Ok(Places {
        root: root.copy()?,
        url: None,
    })
}

/// Returns the objects that the commits use in the store at `root`: each once, in ascending order
/// of the texts of their paths, as a store lists its objects. Checks each metadata object, and
/// reads no content objects. `Refused` with the first fault of the first commit that has one.
/// Changes nothing.
pub fn used<H: Host>(
    alloc: Global,
    host: &mut H,
    root: &Path,
    commits: &[Digest],
) -> Result<Items<(Digest, ObjKind)>, WalkEnd>
    ensures unchanged { ChangesNothing H.Host host.old host.new }
    ensures tells { (have : Have) → Stores root.now (H.moments host.old) have
        → EndsBy (IsUsedList have commits.now) (IsFirst (used_fault have commits.now)) result }
    ensures fault_has_cause { FailsAlone H.Host host.old host.new
        (IsErrOf result WalkEnd.HostFault) }
    ensures remote { IsErrOf result WalkEnd.RemoteFault → ⊥ }
{
    let places = store_alone(root)?;
    match gather(alloc, host, &places, commits) {
        Ok(found) => match in_order(alloc, found) {
            Ok(objects) => Ok(Items::from_vec(objects)),
            Err(AllocError) => Err(WalkEnd::NoMemory),
        },
        Err(end) => Err(end),
    }
}
