//! Reading the metadata objects of a commit's root.
ghost use Rattle.std.specs.Prelude.{◌≡◌, None, Some};
ghost use Rattle.fp_base.specs.declared.object.ObjKind.TheVariants as kinds;
ghost use Rattle.ost_model.specs.Objects.{Have, object_fault};
ghost use Rattle.ost_model.specs.Order.{commit_at, tree_at, read_as};
ghost use Rattle.ost_model.specs.Readers.{commit_of, tree_of};
ghost use Rattle.ost_model.specs.Remotes.{Supplies};
ghost use Rattle.ost_object.specs.Views.{commit_view, tree_view};
ghost use Rattle.ost_walk.specs.Ends.{EndsBy, NoFault, Observes, around};
ghost use Rattle.ost_walk.specs.Steps.{IsOwnFault, own_fault};
ghost use Rattle.ost_head.specs.Found.{found_object};
ghost use Rattle.ost_head.specs.Parts.{ReadsAs, IsReadAs};

use crate::found::{Found, find};
use fp_base::ObjKind;
use fp_host::{Host, Path, Remotes};
use fp_name::Digest;
use ost_model::Object;
use ost_object::{Commit, DirTree, read_commit, read_dirtree};
use ost_walk::{ObjectFault, WalkEnd, refused, unread};
use std::alloc::Global;

/// Returns the object that was found.
pub(crate) fn object_in(found: &Found) -> &Object
    ensures { result.now ≡ found_object found.now }
{
    match found {
        Found::Stored(object) | Found::New(object) => object,
    }
}

/// Reads the commit of an object.
#[tactic(auto, using(crate::proofs::Parted::commit_is, crate::proofs::Parted::commit_unread, crate::proofs::Parted::commit_no_other))]
fn commit_in(alloc: Global, digest: &Digest, object: &Object) -> Result<Commit, WalkEnd>
    ensures tells { object_fault digest.now kinds.Commit (Some object.now) ≡ None
        → ReadsAs commit_view (read_as commit_of (Some object.now)) result }
    ensures faults { NoFault result }
{
    match object {
        Object::Meta(bytes) => match read_commit(alloc, bytes.as_slice()) {
            Ok(commit) => Ok(commit),
            Err(error) => Err(unread(digest, ObjKind::Commit, error)),
        },
        _ => Err(refused(digest, ObjKind::Commit, ObjectFault::Missing)),
    }
}

/// Reads the dirtree of an object.
#[tactic(auto, using(crate::proofs::Parted::tree_is, crate::proofs::Parted::tree_unread, crate::proofs::Parted::tree_no_other))]
fn tree_in(alloc: Global, digest: &Digest, object: &Object) -> Result<DirTree, WalkEnd>
    ensures tells { object_fault digest.now kinds.DirTree (Some object.now) ≡ None
        → ReadsAs tree_view (read_as tree_of (Some object.now)) result }
    ensures faults { NoFault result }
{
    match object {
        Object::Meta(bytes) => match read_dirtree(alloc, bytes.as_slice()) {
            Ok(tree) => Ok(tree),
            Err(error) => Err(unread(digest, ObjKind::DirTree, error)),
        },
        _ => Err(refused(digest, ObjKind::DirTree, ObjectFault::Missing)),
    }
}

/// Finds, checks and reads a commit, of the store or else of the remote. `Refused` with its fault.
pub(crate) fn find_commit<H: Host, R: Remotes>(
    alloc: Global,
    host: &mut H,
    remotes: &mut R,
    root: &Path,
    url: &str,
    digest: &Digest,
) -> Result<Commit, WalkEnd>
    ensures looks { Observes result
        (around H.Host R.Remotes host.old remotes.old)
        (around H.Host R.Remotes host.new remotes.new) }
    ensures tells { (have : Have) → Supplies root.now (Some url.now) (H.moments host.old)
        (R.holds remotes.old) have
        → EndsBy (λ c. IsReadAs (own_fault have digest.now kinds.Commit)
        (commit_at have digest.now) (commit_view c))
        (IsOwnFault have digest.now kinds.Commit) result }
{
    match find(alloc, host, remotes, root, url, digest, ObjKind::Commit) {
        Ok(found) => commit_in(alloc, digest, object_in(&found)),
        Err(end) => Err(end),
    }
}

/// Finds, checks and reads a dirtree, of the store or else of the remote. `Refused` with its fault.
pub(crate) fn find_tree<H: Host, R: Remotes>(
    alloc: Global,
    host: &mut H,
    remotes: &mut R,
    root: &Path,
    url: &str,
    digest: &Digest,
) -> Result<DirTree, WalkEnd>
    ensures looks { Observes result
        (around H.Host R.Remotes host.old remotes.old)
        (around H.Host R.Remotes host.new remotes.new) }
    ensures tells { (have : Have) → Supplies root.now (Some url.now) (H.moments host.old)
        (R.holds remotes.old) have
        → EndsBy (λ t. IsReadAs (own_fault have digest.now kinds.DirTree) (tree_at have digest.now)
        (tree_view t))
        (IsOwnFault have digest.now kinds.DirTree) result }
{
    match find(alloc, host, remotes, root, url, digest, ObjKind::DirTree) {
        Ok(found) => tree_in(alloc, digest, object_in(&found)),
        Err(end) => Err(end),
    }
}

/// Finds and checks a dirmeta, of the store or else of the remote. `Refused` with its fault.
#[tactic(auto, using(crate::proofs::Parted::found_good))]
pub(crate) fn find_meta<H: Host, R: Remotes>(
    alloc: Global,
    host: &mut H,
    remotes: &mut R,
    root: &Path,
    url: &str,
    digest: &Digest,
) -> Result<(), WalkEnd>
    ensures looks { Observes result
        (around H.Host R.Remotes host.old remotes.old)
        (around H.Host R.Remotes host.new remotes.new) }
    ensures tells { (have : Have) → Supplies root.now (Some url.now) (H.moments host.old)
        (R.holds remotes.old) have
        → EndsBy (λ _. own_fault have digest.now kinds.DirMeta ≡ None)
        (IsOwnFault have digest.now kinds.DirMeta) result }
{
    match find(alloc, host, remotes, root, url, digest, ObjKind::DirMeta) {
        Ok(_found) => Ok(()),
        Err(end) => Err(end),
    }
}
