//! Reading and checking objects of the remote.
ghost use Rattle.std.specs.Prelude.{◌≡◌, ℕ, true, false, IfOk, IsErrOf, Some, None};
ghost use Rattle.fp_base.specs.declared.object.ObjKind.TheVariants as kinds;
ghost use Rattle.fp_host.specs.Remote.{Holdings, IsNode, target};
ghost use Rattle.fp_host.specs.declared.remotes.Node.TheVariants as nodes;
ghost use Rattle.ost_model.specs.Objects.{may_be_link, object_fault};
ghost use Rattle.ost_model.specs.Remotes.{remote_at};
ghost use Rattle.ost_walk.specs.Ends.{IsRemotes, NoFault};
ghost use Rattle.ost_head.specs.Objects.{IsFit, Reads, Judges, as_is};
ghost use Rattle.ost_head.specs.Fetches.{ReadsAt};

use crate::judging::check;
use crate::small::file_size;
use fp_base::{Blob, ObjKind, Text};
use fp_host::{Node, Path, Remotes, is_link_text};
use fp_name::Digest;
use ost_content::is_permission;
use ost_model::{MOST_FILE_BYTES, MOST_METADATA_OBJECT_BYTES, Object};
use ost_store::path_of;
use ost_walk::{ObjectFault, WalkEnd, read_remote, refused};
use std::alloc::Global;

/// Reads a file of the remote with these permission bits and of `size` bytes. `Refused` with
/// `TooLong` or `RefusedMode` if it exceeds a limit.
fn read_file<R: Remotes>(
    alloc: Global,
    remotes: &mut R,
    url: &str,
    path: &Path,
    digest: &Digest,
    mode: u32,
    size: u64,
) -> Result<Object, WalkEnd>
    ensures same { R.holds remotes.new ≡ R.holds remotes.old }
    ensures fit { IfOk result (IsFit kinds.File) }
    ensures tells { (held : Holdings) → R.holds remotes.old ≡ Some held
        → IsNode (held url.now path.now) (nodes.File mode size)
        → ReadsAt digest.now kinds.File (held url.now path.now) result }
    ensures host { IsErrOf result WalkEnd.HostFault → ⊥ }
    ensures fault_has_cause { IsRemotes (IsErrOf result WalkEnd.RemoteFault)
        (R.faults remotes.old) (R.faults remotes.new) }
{
    if size > MOST_FILE_BYTES {
        return Err(refused(digest, ObjKind::File, ObjectFault::TooLong(size)));
    }
    if !is_permission(mode) {
        return Err(refused(digest, ObjKind::File, ObjectFault::RefusedMode(mode)));
    }
    let bytes = read_remote(alloc, remotes, url, path, size)?;
    Ok(Object::File { mode, bytes })
}

/// Returns a symlink of the remote with this text. `Refused` with `Missing` if the text isn't
/// valid.
fn read_link(digest: &Digest, text: Text) -> Result<Object, WalkEnd>
    ensures fit { IfOk result (IsFit kinds.File) }
    ensures tells { ReadsAt digest.now kinds.File (target text) result }
    ensures faults { NoFault result }
{
    if is_link_text(text.as_str()) {
        Ok(Object::Link(text))
    } else {
        Err(refused(digest, ObjKind::File, ObjectFault::Missing))
    }
}

/// Reads the file or the symlink at a path of the remote. `Refused` if there is none, or if it
/// exceeds a limit.
fn read_content<R: Remotes>(
    alloc: Global,
    remotes: &mut R,
    url: &str,
    path: &Path,
    digest: &Digest,
) -> Result<Object, WalkEnd>
    ensures same { R.holds remotes.new ≡ R.holds remotes.old }
    ensures fit { IfOk result (IsFit kinds.File) }
    ensures tells { (held : Holdings) → R.holds remotes.old ≡ Some held
        → ReadsAt digest.now kinds.File (held url.now path.now) result }
    ensures host { IsErrOf result WalkEnd.HostFault → ⊥ }
    ensures fault_has_cause { IsRemotes (IsErrOf result WalkEnd.RemoteFault)
        (R.faults remotes.old) (R.faults remotes.new) }
{
    match remotes.node(alloc, url, path)? {
        Node::File { mode, size } => read_file(alloc, remotes, url, path, digest, mode, size),
        Node::Link(text) => read_link(digest, text),
        Node::Absent => Err(refused(digest, ObjKind::File, ObjectFault::Missing)),
        Node::Dir => Err(refused(digest, ObjKind::File, ObjectFault::Missing)),
    }
}

/// Reads a metadata object of the remote, a file of `size` bytes. `Refused` with `TooLong` if it
/// has more than 16 MiB.
fn read_sized<R: Remotes>(
    alloc: Global,
    remotes: &mut R,
    url: &str,
    path: &Path,
    digest: &Digest,
    kind: ObjKind,
    size: u64,
) -> Result<Object, WalkEnd>
    requires { may_be_link kind ≡ false }
    ensures same { R.holds remotes.new ≡ R.holds remotes.old }
    ensures fit { IfOk result (IsFit kind) }
    ensures tells { (held : Holdings) → R.holds remotes.old ≡ Some held → (mode : ℕ)
        → IsNode (held url.now path.now) (nodes.File mode size)
        → ReadsAt digest.now kind (held url.now path.now) result }
    ensures host { IsErrOf result WalkEnd.HostFault → ⊥ }
    ensures fault_has_cause { IsRemotes (IsErrOf result WalkEnd.RemoteFault)
        (R.faults remotes.old) (R.faults remotes.new) }
{
    if size > MOST_METADATA_OBJECT_BYTES {
        return Err(refused(digest, kind, ObjectFault::TooLong(size)));
    }
    Ok(Object::Meta(read_remote(alloc, remotes, url, path, size)?))
}

/// Reads the metadata object at a path of the remote. `Refused` with `Missing` if there is no file,
/// or with `TooLong`.
fn read_meta<R: Remotes>(
    alloc: Global,
    remotes: &mut R,
    url: &str,
    path: &Path,
    digest: &Digest,
    kind: ObjKind,
) -> Result<Object, WalkEnd>
    requires { may_be_link kind ≡ false }
    ensures same { R.holds remotes.new ≡ R.holds remotes.old }
    ensures fit { IfOk result (IsFit kind) }
    ensures tells { (held : Holdings) → R.holds remotes.old ≡ Some held
        → ReadsAt digest.now kind (held url.now path.now) result }
    ensures host { IsErrOf result WalkEnd.HostFault → ⊥ }
    ensures fault_has_cause { IsRemotes (IsErrOf result WalkEnd.RemoteFault)
        (R.faults remotes.old) (R.faults remotes.new) }
{
    let node = remotes.node(alloc, url, path)?;
    match file_size(&node) {
        Some(size) => read_sized(alloc, remotes, url, path, digest, kind, size),
        None => Err(refused(digest, kind, ObjectFault::Missing)),
    }
}

/// Reads an object of the remote. `Refused` if there is none of this kind, or if it exceeds a
/// limit. Doesn't check whether the object matches its digest.
fn read_object<R: Remotes>(
    alloc: Global,
    remotes: &mut R,
    url: &str,
    digest: &Digest,
    kind: ObjKind,
) -> Result<Object, WalkEnd>
    ensures same { R.holds remotes.new ≡ R.holds remotes.old }
    ensures fit { IfOk result (IsFit kind) }
    ensures tells { (held : Holdings) → R.holds remotes.old ≡ Some held
        → Reads digest.now kind (remote_at held url.now digest.now kind) result }
    ensures host { IsErrOf result WalkEnd.HostFault → ⊥ }
    ensures fault_has_cause { IsRemotes (IsErrOf result WalkEnd.RemoteFault)
        (R.faults remotes.old) (R.faults remotes.new) }
{
    let path = path_of(alloc, &Path::root(alloc), digest, kind)?;
    match kind {
        ObjKind::File => read_content(alloc, remotes, url, &path, digest),
        ObjKind::Commit | ObjKind::DirTree | ObjKind::DirMeta => {
            read_meta(alloc, remotes, url, &path, digest, kind)
        }
    }
}

/// Reads an object of the remote at `url`, and checks it. `Refused` with `Missing` if there is none
/// of this kind, with `TooLong` or `RefusedMode` if it exceeds a limit, with `Corrupt` if it
/// doesn't match its digest, and with `Malformed` if it breaks a rule of its kind.
pub(crate) fn fetch<R: Remotes>(
    alloc: Global,
    remotes: &mut R,
    url: &str,
    digest: &Digest,
    kind: ObjKind,
) -> Result<Object, WalkEnd>
    ensures same { R.holds remotes.new ≡ R.holds remotes.old }
    ensures fit { IfOk result (IsFit kind) }
    ensures good { IfOk result (λ object. object_fault digest.now kind (Some object) ≡ None) }
    ensures tells { (held : Holdings) → R.holds remotes.old ≡ Some held
        → Judges as_is digest.now kind (remote_at held url.now digest.now kind) result }
    ensures host { IsErrOf result WalkEnd.HostFault → ⊥ }
    ensures fault_has_cause { IsRemotes (IsErrOf result WalkEnd.RemoteFault)
        (R.faults remotes.old) (R.faults remotes.new) }
{
    let object = read_object(alloc, remotes, url, digest, kind)?;
    match check(alloc, digest, kind, &object) {
        Ok(()) => Ok(object),
        Err(end) => Err(end),
    }
}
