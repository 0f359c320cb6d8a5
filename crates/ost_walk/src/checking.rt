//! Fetching and checking the metadata objects of directories.
ghost use Rattle.std.specs.Prelude.{◌≡◌, ◌+◌, None, OnOk};
ghost use Rattle.fp_base.specs.declared.object.ObjKind.TheVariants as kinds;
ghost use Rattle.ost_model.specs.Objects.{Have};
ghost use Rattle.ost_model.specs.Order.{walk_fault};
ghost use Rattle.ost_object.specs.Views.{tree_view};
ghost use Rattle.ost_walk.specs.Ends.{EndsBy, IsFaultOf, IsFirst, Observes, around};
ghost use Rattle.ost_walk.specs.Sources.{SuppliesAt};
ghost use Rattle.ost_walk.specs.Steps.{IsTreeOf, IsGood, IsRoot, IsTree, IsChecked, IsOpened, tree_of, meta_of, IsOwnFault, heads_fault, limit_of};

use crate::dirs::Dir;
use crate::ends::{ObjectFault, WalkEnd, WalkFault, refused};
use crate::fetching::fetch;
use crate::limits::limit_of;
use crate::places::Places;
use crate::reading::{check_meta, root_in, tree_in};
use fp_base::ObjKind;
use fp_host::{Host, Remotes};
use fp_name::Digest;
use ost_object::DirTree;
use std::alloc::Global;

/// Fetches and reads a dirtree. `Refused` with the object's fault.
fn fetch_tree<H: Host, R: Remotes>(
    alloc: Global,
    host: &mut H,
    remotes: &mut R,
    places: &Places,
    digest: &Digest,
) -> Result<DirTree, WalkEnd>
    ensures looks { Observes result (around H.Host R.Remotes host.old remotes.old)
        (around H.Host R.Remotes host.new remotes.new) }
    ensures tells { (have : Have) → SuppliesAt places.now (H.moments host.old)
        (R.holds remotes.old) have
        → EndsBy (λ t. IsTreeOf have digest.now (tree_view t))
        (IsOwnFault have digest.now kinds.DirTree) result }
{
    match fetch(alloc, host, remotes, places, digest, ObjKind::DirTree) {
        Ok(bytes) => tree_in(alloc, &bytes, digest),
        Err(end) => Err(end),
    }
}

/// Fetches and reads a commit, and returns its root directory. `Refused` with the commit's fault.
pub(crate) fn fetch_root<H: Host, R: Remotes>(
    alloc: Global,
    host: &mut H,
    remotes: &mut R,
    places: &Places,
    commit: &Digest,
) -> Result<Dir, WalkEnd>
    ensures looks { Observes result (around H.Host R.Remotes host.old remotes.old)
        (around H.Host R.Remotes host.new remotes.new) }
    ensures tells { (have : Have) → SuppliesAt places.now (H.moments host.old)
        (R.holds remotes.old) have
        → EndsBy (IsRoot have commit.now)
        (IsOwnFault have commit.now kinds.Commit) result }
{
    match fetch(alloc, host, remotes, places, commit, ObjKind::Commit) {
        Ok(bytes) => root_in(alloc, &bytes, commit),
        Err(end) => Err(end),
    }
}

/// Fetches and checks a dirmeta. `Refused` with the object's fault.
fn fetch_meta<H: Host, R: Remotes>(
    alloc: Global,
    host: &mut H,
    remotes: &mut R,
    places: &Places,
    digest: &Digest,
) -> Result<(), WalkEnd>
    ensures looks { Observes result (around H.Host R.Remotes host.old remotes.old)
        (around H.Host R.Remotes host.new remotes.new) }
    ensures tells { (have : Have) → SuppliesAt places.now (H.moments host.old)
        (R.holds remotes.old) have
        → EndsBy (λ _. IsGood have digest.now kinds.DirMeta)
        (IsOwnFault have digest.now kinds.DirMeta) result }
{
    match fetch(alloc, host, remotes, places, digest, ObjKind::DirMeta) {
        Ok(bytes) => check_meta(alloc, &bytes, digest),
        Err(end) => Err(end),
    }
}

/// Fetches and reads the dirtree of a directory. `count` is the number of objects that precede it
/// in the order. `Refused` if it exceeds a limit, or with its own fault.
pub(crate) fn open_tree<H: Host, R: Remotes>(
    alloc: Global,
    host: &mut H,
    remotes: &mut R,
    places: &Places,
    dir: &Dir,
    count: usize,
) -> Result<DirTree, WalkEnd>
    ensures looks { Observes result (around H.Host R.Remotes host.old remotes.old)
        (around H.Host R.Remotes host.new remotes.new) }
    ensures limits { OnOk result (limit_of count dir.now.depth ≡ None) }
    ensures tells { (have : Have) → SuppliesAt places.now (H.moments host.old)
        (R.holds remotes.old) have
        → EndsBy (λ t. IsTree have count dir.now (tree_view t))
        (IsFaultOf dir.now.tree kinds.DirTree (walk_fault have count (tree_of dir.now))) result }
{
    match limit_of(count, dir.depth) {
        Some(fault) => Err(refused(&dir.tree, ObjKind::DirTree, fault)),
        None => fetch_tree(alloc, host, remotes, places, &dir.tree),
    }
}

/// Fetches and checks the dirmeta of a directory. `count` is the number of objects that precede it
/// in the order. `Refused` if it exceeds a limit, or with its own fault.
fn open_meta<H: Host, R: Remotes>(
    alloc: Global,
    host: &mut H,
    remotes: &mut R,
    places: &Places,
    dir: &Dir,
    count: usize,
) -> Result<(), WalkEnd>
    ensures looks { Observes result (around H.Host R.Remotes host.old remotes.old)
        (around H.Host R.Remotes host.new remotes.new) }
    ensures limits { OnOk result (limit_of count dir.now.depth ≡ None) }
    ensures tells { (have : Have) → SuppliesAt places.now (H.moments host.old)
        (R.holds remotes.old) have
        → EndsBy (λ _. IsChecked have count (meta_of dir.now))
        (IsFaultOf dir.now.meta kinds.DirMeta (walk_fault have count (meta_of dir.now))) result }
{
    match limit_of(count, dir.depth) {
        Some(fault) => Err(refused(&dir.meta, ObjKind::DirMeta, fault)),
        None => fetch_meta(alloc, host, remotes, places, &dir.meta),
    }
}

/// Fetches and checks the dirtree and the dirmeta of a directory, and returns the dirtree. `count`
/// is the number of objects that precede the dirtree in the order. `Refused` with the first of the
/// two that exceeds a limit or has a fault.
pub(crate) fn open_dir<H: Host, R: Remotes>(
    alloc: Global,
    host: &mut H,
    remotes: &mut R,
    places: &Places,
    dir: &Dir,
    count: usize,
) -> Result<DirTree, WalkEnd>
    ensures looks { Observes result (around H.Host R.Remotes host.old remotes.old)
        (around H.Host R.Remotes host.new remotes.new) }
    ensures limits { OnOk result (limit_of (count + 1) dir.now.depth ≡ None) }
    ensures tells { (have : Have) → SuppliesAt places.now (H.moments host.old)
        (R.holds remotes.old) have
        → EndsBy (λ t. IsOpened have count dir.now (tree_view t))
        (IsFirst (heads_fault have count dir.now)) result }
{
    match open_tree(alloc, host, remotes, places, dir, count) {
        Ok(tree) => match open_meta(alloc, host, remotes, places, dir, count + 1) {
            Ok(()) => Ok(tree),
            Err(end) => Err(end),
        },
        Err(end) => Err(end),
    }
}
