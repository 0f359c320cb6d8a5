//! Checking metadata objects.
ghost use Rattle.std.specs.Prelude.{◌≡◌, ◌≤◌, false, Option, Some, length, IfOk, IsErrOf};
ghost use Rattle.fp_host.specs.OverHost.{AtReturn, ChangesNothing, FailsAlone};
ghost use Rattle.fp_base.specs.declared.object.ObjKind.TheVariants as kinds;
ghost use Rattle.ost_model.specs.declared.object.Object.{Object};
ghost use Rattle.ost_model.specs.declared.object.Object.TheVariants as objects;
ghost use Rattle.ost_model.specs.Objects.{may_be_link};
ghost use Rattle.ost_store.specs.Reads.{got_of};
ghost use Rattle.ost_fsck.specs.Judging.{keeps_rules, is_true, IsTrueAt, meta_most};

use fp_base::{Blob, ObjKind};
use fp_host::{Host, HostEnd, Path};
use fp_name::Digest;
use ost_content::meta_digest;
use ost_model::MOST_METADATA_OBJECT_BYTES;
use ost_object::{ObjectError, commit_root, read_dirmeta, read_dirtree};
use ost_store::{Got, get};
use std::alloc::Global;

/// Returns whether the bytes are a commit that breaks no rule.
fn is_commit(alloc: Global, bytes: &[u8]) -> Result<bool, HostEnd>
    ensures tells { IfOk result (λ is. is ≡ keeps_rules kinds.Commit bytes.now) }
    ensures no_fault { IsErrOf result HostEnd.Fault → ⊥ }
{
    match commit_root(alloc, bytes) {
        Ok(_) => Ok(true),
        Err(ObjectError::Malformed(_)) => Ok(false),
        Err(ObjectError::NoMemory) => Err(HostEnd::NoMemory),
    }
}

/// Returns whether the bytes are a dirtree that breaks no rule.
fn is_dirtree(alloc: Global, bytes: &[u8]) -> Result<bool, HostEnd>
    ensures tells { IfOk result (λ is. is ≡ keeps_rules kinds.DirTree bytes.now) }
    ensures no_fault { IsErrOf result HostEnd.Fault → ⊥ }
{
    match read_dirtree(alloc, bytes) {
        Ok(_) => Ok(true),
        Err(ObjectError::Malformed(_)) => Ok(false),
        Err(ObjectError::NoMemory) => Err(HostEnd::NoMemory),
    }
}

/// Returns whether the bytes are a dirmeta that breaks no rule.
fn is_dirmeta(alloc: Global, bytes: &[u8]) -> Result<bool, HostEnd>
    ensures tells { IfOk result (λ is. is ≡ keeps_rules kinds.DirMeta bytes.now) }
    ensures no_fault { IsErrOf result HostEnd.Fault → ⊥ }
{
    match read_dirmeta(alloc, bytes) {
        Ok(_) => Ok(true),
        Err(ObjectError::Malformed(_)) => Ok(false),
        Err(ObjectError::NoMemory) => Err(HostEnd::NoMemory),
    }
}

/// Returns whether the bytes break no rule of their kind.
pub(crate) fn keeps_rules(alloc: Global, kind: ObjKind, bytes: &[u8]) -> Result<bool, HostEnd>
    ensures tells { IfOk result (λ keeps. keeps ≡ keeps_rules kind bytes.now) }
    ensures no_fault { IsErrOf result HostEnd.Fault → ⊥ }
{
    match kind {
        ObjKind::Commit => is_commit(alloc, bytes),
        ObjKind::DirTree => is_dirtree(alloc, bytes),
        ObjKind::DirMeta => is_dirmeta(alloc, bytes),
        ObjKind::File => Ok(true),
    }
}

/// Returns whether the bytes, which are within the limit, are the metadata object of this digest
/// and kind.
fn is_named(alloc: Global, digest: &Digest, kind: ObjKind, bytes: &Blob) -> Result<bool, HostEnd>
    requires { may_be_link kind ≡ false }
    ensures tells { length bytes.now ≤ meta_most
        → IfOk result (λ is. is ≡ is_true digest.now kind (Some (objects.Meta bytes.now))) }
    ensures no_fault { IsErrOf result HostEnd.Fault → ⊥ }
{
    if meta_digest(bytes.as_slice()) != *digest {
        return Ok(false);
    }
    keeps_rules(alloc, kind, bytes.as_slice())
}

/// Returns whether the result of a lookup is the metadata object of this digest and kind.
fn is_true(alloc: Global, digest: &Digest, kind: ObjKind, got: &Got) -> Result<bool, HostEnd>
    requires { may_be_link kind ≡ false }
    ensures tells { (there : Option Object) → got.now ≡ got_of meta_most there
        → IfOk result (λ is. is ≡ is_true digest.now kind there) }
    ensures no_fault { IsErrOf result HostEnd.Fault → ⊥ }
{
    match got {
        Got::Meta(bytes) => is_named(alloc, digest, kind, bytes),
        Got::File { .. } | Got::Link(_) | Got::Absent | Got::TooLong(_) => Ok(false),
    }
}

/// Returns whether the store at `root` has the metadata object of this digest and kind.
pub(crate) fn has_metadata<H: Host>(
    alloc: Global,
    host: &mut H,
    root: &Path,
    digest: &Digest,
    kind: ObjKind,
) -> Result<bool, HostEnd>
    requires { may_be_link kind ≡ false }
    ensures unchanged { ChangesNothing H.Host host.old host.new }
    ensures tells { IfOk result (λ is. AtReturn H.Host host.old host.new
        (λ u w. IsTrueAt root.now digest.now kind u is)) }
    ensures fault_has_cause { FailsAlone H.Host host.old host.new (IsErrOf result HostEnd.Fault) }
{
    let got = get(alloc, host, root, digest, kind, MOST_METADATA_OBJECT_BYTES)?;
    is_true(alloc, digest, kind, &got)
}
