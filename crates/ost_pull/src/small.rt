//! Small objects of a remote, which are read whole. Their digests aren't checked here.
ghost use Rattle.std.specs.Prelude.{◌≡◌, ℕ, false, IfOk, IfSome, IsErrOf, Some};
ghost use Rattle.fp_base.specs.declared.object.ObjKind.TheVariants as kinds;
ghost use Rattle.fp_host.specs.Outcome.{points};
ghost use Rattle.fp_host.specs.Remote.{Holdings, IsNode};
ghost use Rattle.fp_host.specs.declared.remotes.Node.TheVariants as nodes;
ghost use Rattle.ost_model.specs.Objects.{may_be_link, object_at};
ghost use Rattle.ost_model.specs.Remotes.{as_spot, remote_at};
ghost use Rattle.ost_walk.specs.Ends.{IsRemotes};
ghost use Rattle.ost_walk.specs.declared.ends.WalkFault.{WalkFault};
ghost use Rattle.ost_head.specs.Objects.{IsFit};
ghost use Rattle.ost_pull.specs.Batches.{IsSmall};

use fp_base::{Blob, ObjKind, Text};
use fp_host::{Node, Path, Remotes, is_link_text};
use fp_name::Digest;
use ost_content::is_permission;
use ost_model::Object;
use ost_store::path_of;
use ost_walk::{WalkEnd, read_remote};
use par_digest::MOST_SMALL_BYTES;
use std::alloc::Global;

/// Reads the file with these permission bits and this size in bytes. Returns `None` if it has more
/// than 256 KiB or its permission bits aren't within 0775.
#[tactic(auto, using(crate::proofs::Read::fit_file, crate::proofs::Read::file_there))]
fn small_file<R: Remotes>(
    alloc: Global,
    remotes: &mut R,
    url: &str,
    path: &Path,
    mode: u32,
    size: u64,
) -> Result<Option<Object>, WalkEnd>
    ensures same { R.holds remotes.new ≡ R.holds remotes.old }
    ensures fit { IfOk result (λ found. IfSome found (IsFit kinds.File)) }
    ensures small { IfOk result (λ found. IfSome found IsSmall) }
    ensures there { (held : Holdings) → R.holds remotes.old ≡ Some held
        → IsNode (held url.now path.now) (nodes.File mode size)
        → IfOk result (λ found. IfSome found
        (λ object. object_at kinds.File (as_spot (held url.now path.now)) ≡ Some object)) }
    ensures refuses { (w : WalkFault) → IsErrOf result (WalkEnd.Refused w) → ⊥ }
    ensures host { IsErrOf result WalkEnd.HostFault → ⊥ }
    ensures fault_has_cause { IsRemotes (IsErrOf result WalkEnd.RemoteFault)
        (R.faults remotes.old) (R.faults remotes.new) }
{
    if size > MOST_SMALL_BYTES || !is_permission(mode) {
        return Ok(None);
    }
    let bytes = read_remote(alloc, remotes, url, path, size)?;
    Ok(Some(Object::File { mode, bytes }))
}

/// Returns the symlink with this text, or `None` if the text isn't valid for a symlink.
#[tactic(auto, using(ost_head::proofs::Fetched::fit_link, crate::proofs::Read::short_link, ost_model::proofs::Spots::link_there))]
fn small_link(text: Text) -> Option<Object>
    ensures fit { IfSome result (IsFit kinds.File) }
    ensures small { IfSome result IsSmall }
    ensures there { IfSome result (λ object. object_at kinds.File (points text) ≡ Some object) }
{
    if is_link_text(text.as_str()) {
        Some(Object::Link(text))
    } else {
        None
    }
}

/// Reads the remote's file or symlink at the path. Returns `None` if it is large or a store can't
/// have it.
#[tactic(auto, using(crate::proofs::Read::link_there))]
fn small_content<R: Remotes>(
    alloc: Global,
    remotes: &mut R,
    url: &str,
    path: &Path,
) -> Result<Option<Object>, WalkEnd>
    ensures same { R.holds remotes.new ≡ R.holds remotes.old }
    ensures fit { IfOk result (λ found. IfSome found (IsFit kinds.File)) }
    ensures small { IfOk result (λ found. IfSome found IsSmall) }
    ensures there { (held : Holdings) → R.holds remotes.old ≡ Some held
        → IfOk result (λ found. IfSome found
        (λ object. object_at kinds.File (as_spot (held url.now path.now)) ≡ Some object)) }
    ensures refuses { (w : WalkFault) → IsErrOf result (WalkEnd.Refused w) → ⊥ }
    ensures host { IsErrOf result WalkEnd.HostFault → ⊥ }
    ensures fault_has_cause { IsRemotes (IsErrOf result WalkEnd.RemoteFault)
        (R.faults remotes.old) (R.faults remotes.new) }
{
    match remotes.node(alloc, url, path)? {
        Node::File { mode, size } => small_file(alloc, remotes, url, path, mode, size),
        Node::Link(text) => Ok(small_link(text)),
        Node::Absent => Ok(None),
        Node::Dir => Ok(None),
    }
}

/// Reads the metadata object that is a file of this size in bytes. Returns `None` if it has more
/// than 256 KiB.
#[tactic(auto, using(crate::proofs::Read::fit_meta, crate::proofs::Read::meta_there))]
fn small_bytes<R: Remotes>(
    alloc: Global,
    remotes: &mut R,
    url: &str,
    path: &Path,
    kind: ObjKind,
    size: u64,
) -> Result<Option<Object>, WalkEnd>
    requires { may_be_link kind ≡ false }
    ensures same { R.holds remotes.new ≡ R.holds remotes.old }
    ensures fit { IfOk result (λ found. IfSome found (IsFit kind)) }
    ensures small { IfOk result (λ found. IfSome found IsSmall) }
    ensures there { (held : Holdings) → R.holds remotes.old ≡ Some held → (mode : ℕ)
        → IsNode (held url.now path.now) (nodes.File mode size)
        → IfOk result (λ found. IfSome found
        (λ object. object_at kind (as_spot (held url.now path.now)) ≡ Some object)) }
    ensures refuses { (w : WalkFault) → IsErrOf result (WalkEnd.Refused w) → ⊥ }
    ensures host { IsErrOf result WalkEnd.HostFault → ⊥ }
    ensures fault_has_cause { IsRemotes (IsErrOf result WalkEnd.RemoteFault)
        (R.faults remotes.old) (R.faults remotes.new) }
{
    if size > MOST_SMALL_BYTES {
        return Ok(None);
    }
    let bytes = read_remote(alloc, remotes, url, path, size)?;
    Ok(Some(Object::Meta(bytes)))
}

/// Reads the remote's metadata object at the path. Returns `None` if it is large or isn't a file.
fn small_meta<R: Remotes>(
    alloc: Global,
    remotes: &mut R,
    url: &str,
    path: &Path,
    kind: ObjKind,
) -> Result<Option<Object>, WalkEnd>
    requires { may_be_link kind ≡ false }
    ensures same { R.holds remotes.new ≡ R.holds remotes.old }
    ensures fit { IfOk result (λ found. IfSome found (IsFit kind)) }
    ensures small { IfOk result (λ found. IfSome found IsSmall) }
    ensures there { (held : Holdings) → R.holds remotes.old ≡ Some held
        → IfOk result (λ found. IfSome found
        (λ object. object_at kind (as_spot (held url.now path.now)) ≡ Some object)) }
    ensures refuses { (w : WalkFault) → IsErrOf result (WalkEnd.Refused w) → ⊥ }
    ensures host { IsErrOf result WalkEnd.HostFault → ⊥ }
    ensures fault_has_cause { IsRemotes (IsErrOf result WalkEnd.RemoteFault)
        (R.faults remotes.old) (R.faults remotes.new) }
{
    match remotes.node(alloc, url, path)? {
        Node::File { size, .. } => small_bytes(alloc, remotes, url, path, kind, size),
        Node::Absent | Node::Dir | Node::Link(_) => Ok(None),
    }
}

/// Reads the object of the remote at the URL. Returns `None` if it has more than 256 KiB or a store
/// can't have it; nothing is refused here.
pub(crate) fn small_object<R: Remotes>(
    alloc: Global,
    remotes: &mut R,
    url: &str,
    digest: &Digest,
    kind: ObjKind,
) -> Result<Option<Object>, WalkEnd>
    ensures same { R.holds remotes.new ≡ R.holds remotes.old }
    ensures fit { IfOk result (λ found. IfSome found (IsFit kind)) }
    ensures small { IfOk result (λ found. IfSome found IsSmall) }
    ensures there { (held : Holdings) → R.holds remotes.old ≡ Some held
        → IfOk result (λ found. IfSome found
        (λ object. remote_at held url.now digest.now kind ≡ Some object)) }
    ensures refuses { (w : WalkFault) → IsErrOf result (WalkEnd.Refused w) → ⊥ }
    ensures host { IsErrOf result WalkEnd.HostFault → ⊥ }
    ensures fault_has_cause { IsRemotes (IsErrOf result WalkEnd.RemoteFault)
        (R.faults remotes.old) (R.faults remotes.new) }
{
    let path = path_of(alloc, &Path::root(alloc), digest, kind)?;
    match kind {
        ObjKind::File => small_content(alloc, remotes, url, &path),
        ObjKind::Commit | ObjKind::DirTree | ObjKind::DirMeta => {
            small_meta(alloc, remotes, url, &path, kind)
        }
    }
}
