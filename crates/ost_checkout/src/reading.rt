//! Reading of commits and dirtrees in a store.
ghost use Rattle.std.specs.Prelude.{◌≡◌, Ok, IfOk, IsErrOf};
ghost use Rattle.fp_host.specs.OverHost.{AtReturn, ChangesNothing, FailsOnly};
ghost use Rattle.ost_model.specs.Readers.{tree_read, commit_read};
ghost use Rattle.ost_object.specs.Answers.{mapped};
ghost use Rattle.ost_object.specs.Views.{tree_view, root_in, root_view};
ghost use Rattle.ost_checkout.specs.Reading.{IsTree, IsRoot, HasGoodNames, HasTree, HasCommit, IsUnread, unread_end};

use fp_base::{Blob, ObjKind};
use fp_host::{Host, HostEnd, Path};
use fp_name::Digest;
use ost_model::MOST_METADATA_OBJECT_BYTES;
use ost_object::{CommitRoot, DirTree, ObjectError, commit_root, read_dirtree};
use ost_store::{Got, get};
use std::alloc::Global;

/// Returns the error of a function over a host for an object that can't be read.
fn unread(error: ObjectError) -> HostEnd
    ensures { result ≡ unread_end error }
{
    match error {
        ObjectError::Malformed(_) => HostEnd::Fault,
        ObjectError::NoMemory => HostEnd::NoMemory,
    }
}

/// Reads the dirtree that bytes represent.
fn tree_in(alloc: Global, bytes: &Blob) -> Result<DirTree, HostEnd>
    ensures read { IfOk result (λ tree. tree_read bytes.now ≡ Ok (tree_view tree)) }
    ensures names { IfOk result (λ tree. HasGoodNames (tree_view tree)) }
    ensures unread { IsErrOf result HostEnd.Fault → IsUnread (tree_read bytes.now) }
{
    match read_dirtree(alloc, bytes.as_slice()) {
        Ok(tree) => Ok(tree),
        Err(error) => Err(unread(error)),
    }
}

/// Reads a dirtree of the store at `root`. Condition: it has no fault there.
pub(crate) fn read_tree<H: Host>(
    alloc: Global,
    host: &mut H,
    root: &Path,
    digest: &Digest,
) -> Result<DirTree, HostEnd>
    ensures unchanged { ChangesNothing H.Host host.old host.new }
    ensures tells { IfOk result (λ tree. AtReturn H.Host host.old host.new
        (λ u w. IsTree root.now digest.now u (tree_view tree))) }
    // Holds also on a host that doesn't report its content.
    ensures names { IfOk result (λ tree. HasGoodNames (tree_view tree)) }
    ensures fault_has_cause { FailsOnly H.Host host.old host.new
        (HasTree root.now digest.now) (IsErrOf result HostEnd.Fault) }
{
    match get(
        alloc,
        host,
        root,
        digest,
        ObjKind::DirTree,
        MOST_METADATA_OBJECT_BYTES,
    )? {
        Got::Meta(bytes) => tree_in(alloc, &bytes),
        _ => Err(HostEnd::Fault),
    }
}

/// Reads the digests of a commit's root directory from the commit's bytes.
fn root_in(alloc: Global, bytes: &Blob) -> Result<CommitRoot, HostEnd>
    ensures read { IfOk result (λ root. mapped root_in (commit_read bytes.now)
        ≡ Ok (root_view root)) }
    ensures unread { IsErrOf result HostEnd.Fault
        → IsUnread (mapped root_in (commit_read bytes.now)) }
{
    match commit_root(alloc, bytes.as_slice()) {
        Ok(root) => Ok(root),
        Err(error) => Err(unread(error)),
    }
}

/// Reads the digests of a commit's root directory from the store at `root`. Condition: the commit
/// has no fault there.
pub(crate) fn read_root<H: Host>(
    alloc: Global,
    host: &mut H,
    root: &Path,
    commit: &Digest,
) -> Result<CommitRoot, HostEnd>
    ensures unchanged { ChangesNothing H.Host host.old host.new }
    ensures tells { IfOk result (λ found. AtReturn H.Host host.old host.new
        (λ u w. IsRoot root.now commit.now u (root_view found))) }
    ensures fault_has_cause { FailsOnly H.Host host.old host.new
        (HasCommit root.now commit.now) (IsErrOf result HostEnd.Fault) }
{
    match get(
        alloc,
        host,
        root,
        commit,
        ObjKind::Commit,
        MOST_METADATA_OBJECT_BYTES,
    )? {
        Got::Meta(bytes) => root_in(alloc, &bytes),
        _ => Err(HostEnd::Fault),
    }
}
