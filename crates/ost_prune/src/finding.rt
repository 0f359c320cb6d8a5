//! Finding the objects of a store that no commit uses.
ghost use Rattle.std.specs.Prelude.{◌≡◌, ◌≢◌, ◌∷◌, ◌++◌, [], List, ℕ, map, true, IfOk, OnOk, IsErrOf};
ghost use Rattle.std.specs.HashSet.{contains_text};
ghost use Rattle.std.specs.List.{list_all};
ghost use Rattle.fp_host.specs.OverHost.{AtReturn, ChangesNothing, FailsAlone};
ghost use Rattle.fp_host.specs.Paths.{elements_of, is_element, path_text};
ghost use Rattle.ost_model.specs.Stores.{objects_folder};
ghost use Rattle.ost_prune.specs.Prune.{ListsUnused};
ghost use Rattle.ost_prune.specs.Texts.{AreUsedTexts, UnlessFaulty};
ghost use Rattle.ost_prune.specs.Finding.{IsUnusedAt, PicksNames, PicksFolder, PicksUnused};
ghost use Rattle.ost_store.specs.Names.{with_found};

use crate::folders::{is_prefix, names_within};
use crate::texts::used_texts;
use fp_base::{ObjKind, Text};
use fp_host::{Host, HostEnd, Path};
use fp_name::Digest;
use ost_store::{has, object_named};
use std::alloc::{AllocError, Global};
use std::collections::HashSet;

/// Returns whether the set has the text of the path of `name` in the directory. Writes the text
/// into `buffer`, so that no name needs memory of its own.
fn is_used(
    used: &HashSet<String>,
    folder: &Path,
    name: &str,
    buffer: &mut String,
) -> Result<bool, AllocError>
    ensures is { IfOk result (λ is. is ≡ contains_text used.now
        (path_text folder.now ++ 47 ∷ name.now)) }
    ensures back { elements_of (path_text folder.now) ≡ folder.now }
{
    buffer.clear();
    buffer.push_str(folder.text())?;
    buffer.push_str("/")?;
    buffer.push_str(name)?;
    Ok(used.contains(buffer.as_str()))
}

/// Returns the object with this name in the directory, if the store has it and no commit uses it.
/// Makes no call to the host for a used one.
fn unused_at<H: Host>(
    alloc: Global,
    host: &mut H,
    root: &Path,
    used: &HashSet<String>,
    folder: &Path,
    name: &str,
    buffer: &mut String,
) -> Result<Option<(Digest, ObjKind)>, HostEnd>
    requires element { is_element name.now ≡ true }
    requires below { folder.now ≢ [] }
    ensures unchanged { ChangesNothing H.Host host.old host.new }
    ensures tells { (keep : List (List ℕ)) → IfOk result (λ found. AtReturn H.Host host.old host.new
        (λ u w. AreUsedTexts root.now keep u (contains_text used.now)
        → IsUnusedAt root.now keep (name.now ∷ folder.now) u found)) }
    ensures fault_has_cause { FailsAlone H.Host host.old host.new (IsErrOf result HostEnd.Fault) }
{
    if is_used(used, folder, name, buffer)? {
        return Ok(None);
    }
    let path = folder.child(name)?;
    let Some(object) = object_named(alloc, root, &path)? else {
        return Ok(None);
    };
    if has(alloc, host, root, &object.0, object.1)? {
        Ok(Some(object))
    } else {
        Ok(None)
    }
}

/// Adds the object, if there is one.
fn add_found(
    object: Option<(Digest, ObjKind)>,
    found: &mut Vec<(Digest, ObjKind)>,
) -> Result<(), AllocError>
    ensures { OnOk result (found.new.items ≡ with_found found.old.items object) }
{
    if let Some(object) = object {
        found.push(object)?;
    }
    Ok(())
}

/// Adds the unused objects among these names in the directory.
fn pick_names<H: Host>(
    alloc: Global,
    host: &mut H,
    root: &Path,
    used: &HashSet<String>,
    folder: &Path,
    names: &[Text],
    found: &mut Vec<(Digest, ObjKind)>,
) -> Result<(), HostEnd>
    requires elements { list_all is_element names.now ≡ true }
    requires below { folder.now ≢ [] }
    ensures unchanged { ChangesNothing H.Host host.old host.new }
    ensures tells { (keep : List (List ℕ)) → OnOk result (AtReturn H.Host host.old host.new
        (λ u w. AreUsedTexts root.now keep u (contains_text used.now)
        → PicksNames root.now keep (map (λ x. x ∷ folder.now) names.now) u found.old.items
        found.new.items)) }
    ensures fault_has_cause { FailsAlone H.Host host.old host.new (IsErrOf result HostEnd.Fault) }
{
    let mut buffer = String::new(alloc);
    for name in names {
        let object = unused_at(alloc, host, root, used, folder, name.as_str(), &mut buffer)?;
        add_found(object, found)?;
    }
    Ok(())
}

/// Adds the unused objects of the directory with this name in `objects`.
fn pick_folder<H: Host>(
    alloc: Global,
    host: &mut H,
    root: &Path,
    used: &HashSet<String>,
    objects: &Path,
    name: &str,
    found: &mut Vec<(Digest, ObjKind)>,
) -> Result<(), HostEnd>
    requires element { is_element name.now ≡ true }
    requires folder { objects.now ≡ objects_folder root.now }
    ensures unchanged { ChangesNothing H.Host host.old host.new }
    ensures tells { (keep : List (List ℕ)) → OnOk result (AtReturn H.Host host.old host.new
        (λ u w. AreUsedTexts root.now keep u (contains_text used.now)
        → PicksFolder root.now keep name.now u found.old.items found.new.items)) }
    ensures fault_has_cause { FailsAlone H.Host host.old host.new (IsErrOf result HostEnd.Fault) }
{
    if !is_prefix(name) {
        return Ok(());
    }
    let folder = objects.child(name)?;
    let names = names_within(alloc, host, &folder)?;
    pick_names(alloc, host, root, used, &folder, names.as_slice(), found)
}

/// Returns the unused objects of the directories with these names in `objects`.
fn pick_folders<H: Host>(
    alloc: Global,
    host: &mut H,
    root: &Path,
    used: &HashSet<String>,
    objects: &Path,
    names: &[Text],
) -> Result<Vec<(Digest, ObjKind)>, HostEnd>
    requires elements { list_all is_element names.now ≡ true }
    requires folder { objects.now ≡ objects_folder root.now }
    ensures unchanged { ChangesNothing H.Host host.old host.new }
    ensures tells { (keep : List (List ℕ)) → IfOk result (λ found. AtReturn H.Host host.old host.new
        (λ u w. AreUsedTexts root.now keep u (contains_text used.now)
        → PicksUnused root.now keep names.now u found.items)) }
    ensures fault_has_cause { FailsAlone H.Host host.old host.new (IsErrOf result HostEnd.Fault) }
{
    let mut found = Vec::new(alloc);
    for name in names {
        pick_folder(alloc, host, root, used, objects, name.as_str(), &mut found)?;
    }
    Ok(found)
}

/// Returns the objects of the store at `root` whose texts are not in the set, in ascending order of
/// the texts of their paths. Looks up only the directories in `objects` and the names that are not
/// in the set.
fn pick_all<H: Host>(
    alloc: Global,
    host: &mut H,
    root: &Path,
    used: &HashSet<String>,
) -> Result<Vec<(Digest, ObjKind)>, HostEnd>
    ensures unchanged { ChangesNothing H.Host host.old host.new }
    ensures tells { (keep : List (List ℕ)) → IfOk result (λ found. AtReturn H.Host host.old host.new
        (λ u w. AreUsedTexts root.now keep u (contains_text used.now)
        → ListsUnused root.now keep u found.items)) }
    ensures fault_has_cause { FailsAlone H.Host host.old host.new (IsErrOf result HostEnd.Fault) }
{
    let objects = root.child("objects")?;
    let names = names_within(alloc, host, &objects)?;
    pick_folders(alloc, host, root, used, &objects, names.as_slice())
}

/// Returns the objects of the store at `root` that no commit of `keep` uses, in ascending order of
/// the texts of their paths. Returns `None` if the order of one of these commits has a fault in
/// this store. Changes nothing.
pub(crate) fn find_unused<H: Host>(
    alloc: Global,
    host: &mut H,
    root: &Path,
    keep: &[Digest],
) -> Result<Option<Vec<(Digest, ObjKind)>>, HostEnd>
    ensures unchanged { ChangesNothing H.Host host.old host.new }
    ensures tells { IfOk result (λ found. AtReturn H.Host host.old host.new
        (λ u w. UnlessFaulty root.now keep.now u
        (λ objects. ListsUnused root.now keep.now u objects.items) found)) }
    ensures fault_has_cause { FailsAlone H.Host host.old host.new (IsErrOf result HostEnd.Fault) }
{
    let Some(used) = used_texts(alloc, host, root, keep)? else {
        return Ok(None);
    };
    let unused = pick_all(alloc, host, root, &used)?;
    Ok(Some(unused))
}
