//! Reading small files of a remote.
ghost use Rattle.std.specs.Prelude.{◌≡◌, length, ℕ, IfOk, IsErrOf, Some};
ghost use Rattle.fp_host.specs.Remote.{Holdings, IsNode, bytes_of};
ghost use Rattle.fp_host.specs.declared.remotes.Node.TheVariants as nodes;
ghost use Rattle.ost_walk.specs.Ends.{IsRemotes};
ghost use Rattle.ost_refs.specs.Offers.{size_in, small_file};

use fp_base::Blob;
use fp_host::{Node, Path, RemoteError, Remotes};
use std::alloc::{AllocError, Global};

/// Returns the size in bytes of a regular file, or `None` for any other node.
pub(crate) fn file_size(node: &Node) -> Option<u64>
    ensures { result ≡ size_in node.now }
{
    match node {
        Node::File { size, .. } => Some(*size),
        Node::Absent | Node::Dir | Node::Link(_) => None,
    }
}

/// Returns a buffer of `size` zero bytes. Fails only with `NoMemory`.
pub(crate) fn buffer(alloc: Global, size: u64) -> Result<Vec<u8>, RemoteError>
    ensures size { IfOk result (λ bytes. length bytes.items ≡ size) }
    ensures remote { IsErrOf result RemoteError.Failed → ⊥ }
{
    match vec![in alloc; 0u8; size as usize] {
        Ok(bytes) => Ok(bytes),
        Err(_) => Err(RemoteError::NoMemory),
    }
}

/// Returns the content of a remote's file of `size` bytes. Allocates that many bytes, so the size
/// should have been checked against a limit.
pub(crate) fn read_whole<R: Remotes>(
    alloc: Global,
    remotes: &mut R,
    url: &str,
    path: &Path,
    size: u64,
) -> Result<Blob, RemoteError>
    ensures same { R.holds remotes.new ≡ R.holds remotes.old }
    ensures tells { (held : Holdings) → R.holds remotes.old ≡ Some held
        → length (bytes_of (held url.now path.now)) ≡ size
        → IfOk result (λ bytes. bytes ≡ bytes_of (held url.now path.now)) }
    ensures fault_has_cause { IsRemotes (IsErrOf result RemoteError.Failed)
        (R.faults remotes.old) (R.faults remotes.new) }
{
    let mut bytes = buffer(alloc, size)?;
    let count = remotes.read_at(url, path, 0, &mut bytes)?;
    bytes.truncate(count);
    Ok(Blob::from_vec(bytes))
}

/// Returns the content of a remote's file of `size` bytes, or `None` if these are more than `most`.
fn load_sized<R: Remotes>(
    alloc: Global,
    remotes: &mut R,
    url: &str,
    path: &Path,
    size: u64,
    most: u64,
) -> Result<Option<Blob>, RemoteError>
    ensures same { R.holds remotes.new ≡ R.holds remotes.old }
    ensures tells { (held : Holdings) → R.holds remotes.old ≡ Some held → (mode : ℕ)
        → IsNode (held url.now path.now) (nodes.File mode size)
        → IfOk result (λ file. file ≡ small_file most (held url.now path.now)) }
    ensures fault_has_cause { IsRemotes (IsErrOf result RemoteError.Failed)
        (R.faults remotes.old) (R.faults remotes.new) }
{
    if size > most {
        return Ok(None);
    }
    Ok(Some(read_whole(alloc, remotes, url, path, size)?))
}

/// Returns the content of the file at a path of the remote at `url`, or `None` if there is no
/// regular file of at most `most` bytes.
pub(crate) fn load_remote<R: Remotes>(
    alloc: Global,
    remotes: &mut R,
    url: &str,
    path: &Path,
    most: u64,
) -> Result<Option<Blob>, RemoteError>
    ensures same { R.holds remotes.new ≡ R.holds remotes.old }
    ensures tells { (held : Holdings) → R.holds remotes.old ≡ Some held
        → IfOk result (λ file. file ≡ small_file most (held url.now path.now)) }
    ensures fault_has_cause { IsRemotes (IsErrOf result RemoteError.Failed)
        (R.faults remotes.old) (R.faults remotes.new) }
{
    let node = remotes.node(alloc, url, path)?;
    match file_size(&node) {
        Some(size) => load_sized(alloc, remotes, url, path, size, most),
        None => Ok(None),
    }
}
