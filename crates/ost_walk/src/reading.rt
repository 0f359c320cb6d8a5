//! Reading metadata objects from their bytes.
ghost use Rattle.std.specs.Prelude.{◌≡◌, Some, None, IsErrOf};
ghost use Rattle.fp_base.specs.declared.object.ObjKind.TheVariants as kinds;
ghost use Rattle.ost_model.specs.Objects.{Have, object_fault, dir_bits};
ghost use Rattle.ost_object.specs.Views.{root_view, tree_view, meta_view};
ghost use Rattle.ost_walk.specs.Ends.{EndsBy, IsFaultOf, NoFault, unread_end};
ghost use Rattle.ost_walk.specs.Steps.{IsNamed, IsTreeOf, IsGood, IsRoot, dir_of};

use crate::dirs::Dir;
use crate::ends::{ObjectFault, WalkEnd, refused};
use fp_base::{Blob, ObjKind};
use fp_name::Digest;
use ost_content::is_permission;
use ost_model::LOWEST_TYPE_BIT;
use ost_object::{
    CommitRoot, DirMeta, DirTree, ObjectError, commit_root, read_dirmeta, read_dirtree,
};
use std::alloc::Global;

/// Returns the error of a walk for an object that can't be read.
pub fn unread(digest: &Digest, kind: ObjKind, error: ObjectError) -> WalkEnd
    ensures { result ≡ unread_end digest.now kind error }
{
    match error {
        ObjectError::Malformed(rule) => refused(digest, kind, ObjectFault::Malformed(rule)),
        ObjectError::NoMemory => WalkEnd::NoMemory,
    }
}

/// Reads a dirtree from its bytes. `Refused` with `Malformed` if it breaks a rule.
pub(crate) fn tree_in(alloc: Global, bytes: &Blob, digest: &Digest) -> Result<DirTree, WalkEnd>
    ensures tells { (have : Have) → IsNamed digest.now (have digest.now kinds.DirTree) bytes.now
        → EndsBy (λ t. IsTreeOf have digest.now (tree_view t))
        (IsFaultOf digest.now kinds.DirTree
        (object_fault digest.now kinds.DirTree (have digest.now kinds.DirTree))) result }
    ensures faults { NoFault result }
{
    match read_dirtree(alloc, bytes.as_slice()) {
        Ok(tree) => Ok(tree),
        Err(error) => Err(unread(digest, ObjKind::DirTree, error)),
    }
}

/// Returns the root directory of a commit.
fn root_of(root: CommitRoot) -> Dir
    ensures { result ≡ dir_of (root_view root) }
{
    Dir {
        tree: root.tree,
        meta: root.meta,
        depth: 0,
    }
}

/// Reads a commit from its bytes, and returns its root directory. `Refused` with `Malformed` if it
/// breaks a rule.
#[tactic(auto, using(crate::proofs::Read::root_unread))]
pub(crate) fn root_in(alloc: Global, bytes: &Blob, digest: &Digest) -> Result<Dir, WalkEnd>
    ensures tells { (have : Have) → IsNamed digest.now (have digest.now kinds.Commit) bytes.now
        → EndsBy (IsRoot have digest.now)
        (IsFaultOf digest.now kinds.Commit
        (object_fault digest.now kinds.Commit (have digest.now kinds.Commit))) result }
    ensures faults { NoFault result }
{
    match commit_root(alloc, bytes.as_slice()) {
        Ok(root) => Ok(root_of(root)),
        Err(error) => Err(unread(digest, ObjKind::Commit, error)),
    }
}

/// Checks a dirmeta by its bytes. `Refused` with `Malformed` if it breaks a rule, and with
/// `RefusedMode` if its permission bits aren't within 0775.
pub(crate) fn check_meta(alloc: Global, bytes: &Blob, digest: &Digest) -> Result<(), WalkEnd>
    ensures tells { (have : Have) → IsNamed digest.now (have digest.now kinds.DirMeta) bytes.now
        → EndsBy (λ _. IsGood have digest.now kinds.DirMeta)
        (IsFaultOf digest.now kinds.DirMeta
        (object_fault digest.now kinds.DirMeta (have digest.now kinds.DirMeta))) result }
    ensures faults { NoFault result }
{
    match read_dirmeta(alloc, bytes.as_slice()) {
        Ok(meta) => check_mode(meta, digest),
        Err(error) => Err(unread(digest, ObjKind::DirMeta, error)),
    }
}

/// Checks that the permission bits of a dirmeta are within 0775. `Refused` with `RefusedMode` if
/// they aren't.
pub fn check_mode(meta: DirMeta, digest: &Digest) -> Result<(), WalkEnd>
    ensures tells { EndsBy (λ _. dir_bits (Some (meta_view meta)) ≡ None)
        (IsFaultOf digest.now kinds.DirMeta (dir_bits (Some (meta_view meta)))) result }
    ensures faults { NoFault result }
    ensures needs_no_memory { IsErrOf result WalkEnd.NoMemory → ⊥ }
{
    if is_permission(meta.mode % LOWEST_TYPE_BIT) {
        Ok(())
    } else {
        Err(refused(
            digest,
            ObjKind::DirMeta,
            ObjectFault::RefusedMode(meta.mode),
        ))
    }
}
