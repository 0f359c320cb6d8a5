//! Looking up files and symlinks of the remote without reading their content.
ghost use Rattle.std.specs.Prelude.{◌≡◌, IfOk, IsErrOf, Some};
ghost use Rattle.fp_host.specs.Remote.{Held, Holdings, IsNode};
ghost use Rattle.fp_host.specs.declared.remotes.Node.TheVariants as nodes;
ghost use Rattle.fp_base.specs.declared.object.ObjKind.TheVariants as kinds;
ghost use Rattle.ost_model.specs.Objects.{object_at};
ghost use Rattle.ost_model.specs.Remotes.{as_spot, remote_at};
ghost use Rattle.ost_walk.specs.Ends.{IsRemotes, NoFault};
ghost use Rattle.ost_head.specs.Contents.{IsFitContent, LooksAt};

use crate::limits::{check_limits, check_link, refused};
use fp_base::{ObjKind, Text};
use fp_host::{Node, Path, Remotes};
use fp_name::Digest;
use ost_store::path_of;
use ost_walk::{ObjectFault, WalkEnd};
use std::alloc::Global;

/// A file or a symlink of the remote.
#[derive(Drop)]
pub enum Content {
    /// A symlink with this text. It matches its digest.
    Link(Text),
    /// A file with these permission bits and of `size` bytes, both within the limits. Its digest
    /// isn't checked yet.
    File { mode: u32, size: u64 },
}

/// Returns a file of the remote with these permission bits and of `size` bytes. `Refused` if it
/// exceeds a limit.
#[tactic(auto, using(crate::proofs::Checked::node_sized, crate::proofs::Checked::node_refused))]
fn sized(digest: &Digest, mode: u32, size: u64) -> Result<Content, WalkEnd>
    ensures fit { IfOk result (IsFitContent digest.now) }
    ensures tells { (held : Held) → IsNode held (nodes.File mode size)
        → LooksAt digest.now (object_at kinds.File (as_spot held)) result }
    ensures faults { NoFault result }
{
    match check_limits(digest, mode, size) {
        Ok(()) => Ok(Content::File { mode, size }),
        Err(end) => Err(end),
    }
}

/// Returns a symlink of the remote with this text. `Refused` if the text isn't valid or the link
/// doesn't match its digest.
#[tactic(auto, using(crate::proofs::Checked::node_linked, crate::proofs::Checked::node_unlinked))]
fn linked(alloc: Global, digest: &Digest, text: Text) -> Result<Content, WalkEnd>
    ensures fit { IfOk result (IsFitContent digest.now) }
    ensures tells { (held : Held) → IsNode held (nodes.Link text)
        → LooksAt digest.now (object_at kinds.File (as_spot held)) result }
    ensures faults { NoFault result }
{
    match check_link(alloc, digest, text.as_str()) {
        Ok(()) => Ok(Content::Link(text)),
        Err(end) => Err(end),
    }
}

/// Returns the file or the symlink that the node of a remote is. `Refused` with its fault.
#[tactic(auto, using(crate::proofs::Checked::node_missing))]
fn content_in(alloc: Global, digest: &Digest, node: Node) -> Result<Content, WalkEnd>
    ensures fit { IfOk result (IsFitContent digest.now) }
    ensures tells { (held : Held) → IsNode held node
        → LooksAt digest.now (object_at kinds.File (as_spot held)) result }
    ensures faults { NoFault result }
{
    match node {
        Node::File { mode, size } => sized(digest, mode, size),
        Node::Link(text) => linked(alloc, digest, text),
        Node::Absent => Err(refused(digest, ObjectFault::Missing)),
        Node::Dir => Err(refused(digest, ObjectFault::Missing)),
    }
}

/// Looks up a file or a symlink of the remote at `url`, without reading a file's content. `Refused`
/// with `Missing` if there is none, with `TooLong` if a file has more than 1 GiB, with
/// `RefusedMode` if its permission bits aren't within 0775, and with `Corrupt` if a symlink doesn't
/// match its digest.
pub(crate) fn remote_content<R: Remotes>(
    alloc: Global,
    remotes: &mut R,
    url: &str,
    digest: &Digest,
) -> Result<Content, WalkEnd>
    ensures same { R.holds remotes.new ≡ R.holds remotes.old }
    ensures fit { IfOk result (IsFitContent digest.now) }
    ensures tells { (held : Holdings) → R.holds remotes.old ≡ Some held
        → LooksAt digest.now (remote_at held url.now digest.now kinds.File) result }
    ensures host { IsErrOf result WalkEnd.HostFault → ⊥ }
    ensures fault_has_cause { IsRemotes (IsErrOf result WalkEnd.RemoteFault)
        (R.faults remotes.old) (R.faults remotes.new) }
{
    let path = path_of(alloc, &Path::root(alloc), digest, ObjKind::File)?;
    let node = remotes.node(alloc, url, &path)?;
    content_in(alloc, digest, node)
}
