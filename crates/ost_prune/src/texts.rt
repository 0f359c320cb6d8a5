//! Gathering the texts of the paths of the objects that commits use.
ghost use Rattle.std.specs.Prelude.{◌≡◌, None, IfOk, OnOk, IsErrOf, string_bytes};
ghost use Rattle.std.specs.HashSet.{contains_text};
ghost use Rattle.fp_host.specs.OverHost.{AtReturn, ChangesNothing, FailsAlone};
ghost use Rattle.ost_model.specs.Objects.{Have};
ghost use Rattle.ost_model.specs.Order.{first_walk_fault};
ghost use Rattle.ost_model.specs.Remotes.{Stores};
ghost use Rattle.ost_model.specs.Used.{used_fault};
ghost use Rattle.ost_walk.specs.Ends.{EndsBy, IsFirst};
ghost use Rattle.ost_prune.specs.Texts.{IsTextOf, AddsTexts, AddsOrder, AreGathered, AreUsedTexts, UnlessFaulty};

use fp_base::ObjKind;
use fp_host::{Host, HostEnd, NoRemotes, Path};
use fp_name::Digest;
use ost_store::path_of;
use ost_walk::{Places, WalkEnd, order};
use std::alloc::{AllocError, Global};
use std::collections::HashSet;

/// Returns the text of the object's path in the store at `root`.
fn text_of(alloc: Global, root: &Path, digest: &Digest, kind: ObjKind) -> Result<String, AllocError>
    ensures { IfOk result (λ text. IsTextOf root.now (digest.now, kind) (string_bytes text)) }
{
    let _bytes = digest.as_bytes();
    let path = path_of(alloc, root, digest, kind)?;
    String::from_str(alloc, path.text())
}

/// Adds the texts of the paths of these objects in the store at `root`.
fn add_texts(
    alloc: Global,
    root: &Path,
    objects: &[(Digest, ObjKind)],
    texts: &mut HashSet<String>,
) -> Result<(), AllocError>
    ensures { OnOk result (AddsTexts root.now objects.now (contains_text texts.old)
        (contains_text texts.new)) }
{
    for object in objects {
        let text = text_of(alloc, root, &object.0, object.1)?;
        texts.insert(text)?;
    }
    Ok(())
}

/// Adds the texts of the paths of all objects that a commit uses. `Refused` with the first fault of
/// the commit.
fn add_order<H: Host>(
    alloc: Global,
    host: &mut H,
    places: &Places,
    commit: &Digest,
    texts: &mut HashSet<String>,
) -> Result<(), WalkEnd>
    requires { places.now.url ≡ None }
    ensures unchanged { ChangesNothing H.Host host.old host.new }
    ensures tells { (have : Have) → Stores places.now.root (H.moments host.old) have
        → EndsBy (λ _. AddsOrder places.now.root have commit.now (contains_text texts.old)
        (contains_text texts.new)) (IsFirst (first_walk_fault have commit.now)) result }
    ensures fault_has_cause { FailsAlone H.Host host.old host.new
        (IsErrOf result WalkEnd.HostFault) }
    ensures remote { IsErrOf result WalkEnd.RemoteFault → ⊥ }
{
    let mut remotes = NoRemotes;
    match order(alloc, host, &mut remotes, places, commit) {
        Ok(objects) => match add_texts(alloc, &places.root, objects.as_slice(), texts) {
            Ok(()) => Ok(()),
            Err(AllocError) => Err(WalkEnd::NoMemory),
        },
        Err(end) => Err(end),
    }
}

/// Returns the texts of the paths of all objects that the commits use. `Refused` with the first
/// fault of the first commit that has one.
fn gather<H: Host>(
    alloc: Global,
    host: &mut H,
    places: &Places,
    keep: &[Digest],
) -> Result<HashSet<String>, WalkEnd>
    requires { places.now.url ≡ None }
    ensures unchanged { ChangesNothing H.Host host.old host.new }
    ensures tells { (have : Have) → Stores places.now.root (H.moments host.old) have
        → EndsBy (λ texts. AreGathered places.now.root have keep.now (contains_text texts))
        (IsFirst (used_fault have keep.now)) result }
    ensures fault_has_cause { FailsAlone H.Host host.old host.new
        (IsErrOf result WalkEnd.HostFault) }
    ensures remote { IsErrOf result WalkEnd.RemoteFault → ⊥ }
{
    let mut texts = HashSet::new(alloc);
    for commit in keep {
        match add_order(alloc, host, places, commit, &mut texts) {
            Ok(()) => {}
            Err(end) => return Err(end),
        }
    }
    Ok(texts)
}

/// Returns the places of objects that are only in the store at `root`, without a remote.
fn store_alone(root: &Path) -> Result<Places, AllocError>
    ensures { IfOk result (λ places. (places.root ≡ root.now) × (places.url ≡ None)) }
{
    Ok(Places {
        root: root.copy()?,
        url: None,
    })
}

/// Returns the texts of the paths of all objects that the commits use in the store at `root`, or
/// `None` if the order of one of them has a fault there. Changes nothing.
pub(crate) fn used_texts<H: Host>(
    alloc: Global,
    host: &mut H,
    root: &Path,
    keep: &[Digest],
) -> Result<Option<HashSet<String>>, HostEnd>
    ensures unchanged { ChangesNothing H.Host host.old host.new }
    ensures tells { IfOk result (λ texts. AtReturn H.Host host.old host.new
        (λ u w. UnlessFaulty root.now keep.now u
        (λ t. AreUsedTexts root.now keep.now u (contains_text t)) texts)) }
    ensures fault_has_cause { FailsAlone H.Host host.old host.new (IsErrOf result HostEnd.Fault) }
{
    let places = store_alone(root)?;
    match gather(alloc, host, &places, keep) {
        Ok(texts) => Ok(Some(texts)),
        Err(WalkEnd::Refused(_)) => Ok(None),
        Err(WalkEnd::HostFault | WalkEnd::RemoteFault) => Err(HostEnd::Fault),
        Err(WalkEnd::NoMemory) => Err(HostEnd::NoMemory),
    }
}
