//! Reading metadata objects of a remote.
ghost use Rattle.std.specs.Prelude.{◌≡◌, ◌≤◌, length, leb, true, false, IfOk, IsErrOf, Some, Ok};
ghost use Rattle.fp_host.specs.Remote.{Holdings, bytes_of};
ghost use Rattle.ost_model.specs.declared.object.Object.TheVariants as objects;
ghost use Rattle.ost_model.specs.Objects.{may_be_link};
ghost use Rattle.ost_walk.specs.declared.ends.WalkFault.{WalkFault};
ghost use Rattle.ost_walk.specs.Ends.{IsRemotes};
ghost use Rattle.ost_model.specs.Remotes.{remote_at};
ghost use Rattle.ost_walk.specs.Steps.{Fetches};

use crate::ends::{ObjectFault, WalkEnd, refused};
use fp_base::{Blob, ObjKind};
use fp_host::{Node, Path, Remotes};
use fp_name::Digest;
use ost_content::meta_digest;
use ost_model::MOST_METADATA_OBJECT_BYTES;
use ost_store::path_of;
use std::alloc::Global;

/// Returns the bytes, which must be at most 16 MiB, if they match the digest. `Refused` with
/// `Corrupt` if they don't.
pub(crate) fn named(bytes: Blob, digest: &Digest, kind: ObjKind) -> Result<Blob, WalkEnd>
    requires { may_be_link kind ≡ false }
    ensures tells { leb (length bytes) MOST_METADATA_OBJECT_BYTES ≡ true → Fetches digest.now kind
        (Some (objects.Meta bytes)) result }
    ensures host { IsErrOf result WalkEnd.HostFault → ⊥ }
    ensures remote { IsErrOf result WalkEnd.RemoteFault → ⊥ }
{
    let got = meta_digest(bytes.as_slice());
    if got == *digest {
        Ok(bytes)
    } else {
        Err(refused(digest, kind, ObjectFault::Corrupt(got)))
    }
}

/// Returns the content of a file of the remote at `url`, which has `size` bytes. Allocates that
/// many bytes, so the size should have been checked against a limit.
pub fn read_remote<R: Remotes>(
    alloc: Global,
    remotes: &mut R,
    url: &str,
    path: &Path,
    size: u64,
) -> Result<Blob, WalkEnd>
    ensures same { R.holds remotes.new ≡ R.holds remotes.old }
    ensures short { IfOk result (λ bytes. length bytes ≤ size) }
    ensures tells { (held : Holdings) → R.holds remotes.old ≡ Some held
        → length (bytes_of (held url.now path.now)) ≡ size
        → IfOk result (λ bytes. bytes ≡ bytes_of (held url.now path.now)) }
    ensures refuses { (w : WalkFault) → IsErrOf result (WalkEnd.Refused w) → ⊥ }
    ensures host { IsErrOf result WalkEnd.HostFault → ⊥ }
    ensures fault_has_cause { IsRemotes (IsErrOf result WalkEnd.RemoteFault)
        (R.faults remotes.old) (R.faults remotes.new) }
{
    let mut bytes = vec![in alloc; 0u8; size as usize]?;
    let count = remotes.read_at(url, path, 0, &mut bytes)?;
    bytes.truncate(count);
    Ok(Blob::from_vec(bytes))
}

/// Returns the bytes of a metadata object of the remote at `url`. `Refused` with `Missing`,
/// `TooLong` or `Corrupt`.
pub(crate) fn fetch_remote<R: Remotes>(
    alloc: Global,
    remotes: &mut R,
    url: &str,
    digest: &Digest,
    kind: ObjKind,
) -> Result<Blob, WalkEnd>
    requires { may_be_link kind ≡ false }
    ensures same { R.holds remotes.new ≡ R.holds remotes.old }
    ensures tells { (held : Holdings) → R.holds remotes.old ≡ Some held → Fetches digest.now kind
        (remote_at held url.now digest.now kind) result }
    ensures host { IsErrOf result WalkEnd.HostFault → ⊥ }
    ensures remote { IsRemotes (IsErrOf result WalkEnd.RemoteFault)
        (R.faults remotes.old) (R.faults remotes.new) }
{
    let path = path_of(alloc, &Path::root(alloc), digest, kind)?;
    match remotes.node(alloc, url, &path)? {
        Node::File { size, .. } if size > MOST_METADATA_OBJECT_BYTES => {
            Err(refused(digest, kind, ObjectFault::TooLong(size)))
        }
        Node::File { size, .. } => {
            named(read_remote(alloc, remotes, url, &path, size)?, digest, kind)
        }
        _ => Err(refused(digest, kind, ObjectFault::Missing)),
    }
}
