//! Checking objects that were read.
ghost use Rattle.std.specs.Prelude.{◌≡◌, None, IfOk};
ghost use Rattle.fp_base.specs.declared.object.ObjKind.TheVariants as kinds;
ghost use Rattle.ost_model.specs.Objects.{digest_of};
ghost use Rattle.ost_store.specs.Stage.{IsKeepable};
ghost use Rattle.ost_walk.specs.Ends.{EndsBy, IsFaultOf, NoFault};
ghost use Rattle.ost_head.specs.Objects.{IsFit, Checks, ChecksRules, rules_fault};

use fp_base::{Blob, ObjKind};
use fp_name::Digest;
use ost_content::{file_digest, link_digest, meta_digest};
use ost_model::Object;
use ost_object::{commit_root, read_dirmeta, read_dirtree};
use ost_walk::{ObjectFault, WalkEnd, check_mode, refused, unread};
use std::alloc::{AllocError, Global};

/// Computes the digest of an object.
fn digest_of(alloc: Global, object: &Object) -> Result<Digest, AllocError>
    requires { IsKeepable object.now }
    ensures { IfOk result (λ digest. digest ≡ digest_of object.now) }
{
    match object {
        Object::Meta(bytes) => Ok(meta_digest(bytes.as_slice())),
        Object::File { mode, bytes } => Ok(file_digest(*mode, bytes.as_slice())),
        Object::Link(text) => link_digest(alloc, text.as_str()),
    }
}

/// Checks the bytes by the rules for commits. `Refused` with `Malformed` if they break one.
fn check_commit(alloc: Global, digest: &Digest, bytes: &Blob) -> Result<(), WalkEnd>
    ensures tells { ChecksRules digest.now kinds.Commit bytes.now result }
    ensures faults { NoFault result }
{
    match commit_root(alloc, bytes.as_slice()) {
        Ok(_) => Ok(()),
        Err(error) => Err(unread(digest, ObjKind::Commit, error)),
    }
}

/// Checks the bytes by the rules for dirtrees. `Refused` with `Malformed` if they break one.
fn check_tree(alloc: Global, digest: &Digest, bytes: &Blob) -> Result<(), WalkEnd>
    ensures tells { ChecksRules digest.now kinds.DirTree bytes.now result }
    ensures faults { NoFault result }
{
    match read_dirtree(alloc, bytes.as_slice()) {
        Ok(_) => Ok(()),
        Err(error) => Err(unread(digest, ObjKind::DirTree, error)),
    }
}

/// Checks the bytes by the rules for dirmetas, and that the permission bits are within 0775.
/// `Refused` with `Malformed` or `RefusedMode`.
fn check_meta(alloc: Global, digest: &Digest, bytes: &Blob) -> Result<(), WalkEnd>
    ensures tells { ChecksRules digest.now kinds.DirMeta bytes.now result }
    ensures faults { NoFault result }
{
    match read_dirmeta(alloc, bytes.as_slice()) {
        Ok(meta) => check_mode(meta, digest),
        Err(error) => Err(unread(digest, ObjKind::DirMeta, error)),
    }
}

/// Checks the bytes of a metadata object by the rules of its kind. Any bytes pass as a `file`
/// object.
fn check_bytes(alloc: Global, digest: &Digest, kind: ObjKind, bytes: &Blob) -> Result<(), WalkEnd>
    ensures tells { ChecksRules digest.now kind bytes.now result }
    ensures faults { NoFault result }
{
    match kind {
        ObjKind::Commit => check_commit(alloc, digest, bytes),
        ObjKind::DirTree => check_tree(alloc, digest, bytes),
        ObjKind::DirMeta => check_meta(alloc, digest, bytes),
        ObjKind::File => Ok(()),
    }
}

/// Checks an object by the rules of its kind. A file and a symlink follow them in any case.
fn check_rules(
    alloc: Global,
    digest: &Digest,
    kind: ObjKind,
    object: &Object,
) -> Result<(), WalkEnd>
    ensures tells { EndsBy (λ _. rules_fault kind object.now ≡ None)
        (IsFaultOf digest.now kind (rules_fault kind object.now)) result }
    ensures faults { NoFault result }
{
    match object {
        Object::Meta(bytes) => check_bytes(alloc, digest, kind, bytes),
        Object::File { .. } | Object::Link(_) => Ok(()),
    }
}

/// Checks an object of this kind that is within its limits. `Refused` with `Corrupt` if it doesn't
/// match its digest, and otherwise with `Malformed` or `RefusedMode` if it breaks a rule of its
/// kind.
pub(crate) fn check(
    alloc: Global,
    digest: &Digest,
    kind: ObjKind,
    object: &Object,
) -> Result<(), WalkEnd>
    requires { IsFit kind object.now }
    ensures tells { Checks digest.now kind object.now result }
    ensures faults { NoFault result }
{
    let got = digest_of(alloc, object)?;
    if got != *digest {
        return Err(refused(digest, kind, ObjectFault::Corrupt(got)));
    }
    check_rules(alloc, digest, kind, object)
}
