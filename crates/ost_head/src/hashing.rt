//! Computing the digest of a remote's file piece by piece.
ghost use Rattle.std.specs.Prelude.{◌≡◌, ◌<◌, ◌≤◌, length, take, true, IfOk, IsErrOf, Some};
ghost use Rattle.fp_host.specs.Remote.{CameFrom, Holdings, bytes_of};
ghost use Rattle.ost_model.specs.Contents.{file_digest, is_permission};
ghost use Rattle.ost_walk.specs.Ends.{IsRemotes};
ghost use Rattle.ost_head.specs.Pieces.{TakesIn};

use crate::small::buffer;
use fp_host::{PIECE_BYTES, Path, RemoteError, Remotes};
use fp_name::Digest;
use ost_content::ContentHasher;
use std::alloc::Global;

/// Adds bytes of the remote's file to the hasher, from the byte offset `at` on, as many as fit into
/// `room` or are left. Returns their number.
fn hash_piece<R: Remotes>(
    remotes: &mut R,
    url: &str,
    path: &Path,
    at: u64,
    hasher: &mut ContentHasher,
    room: &mut [u8],
) -> Result<usize, RemoteError>
    ensures bound { IfOk result (λ n. n ≤ length room.old) }
    ensures same { R.holds remotes.new ≡ R.holds remotes.old }
    ensures tells { (held : Holdings) → R.holds remotes.old ≡ Some held
        → IfOk result (CameFrom (bytes_of (held url.now path.now)) at room.new) }
    ensures hashes { IfOk result (λ n. TakesIn (take n room.new) hasher.old hasher.new) }
    ensures fault_has_cause { IsRemotes (IsErrOf result RemoteError.Failed)
        (R.faults remotes.old) (R.faults remotes.new) }
{
    let count = remotes.read_at(url, path, at, room)?;
    hasher.update(&room[..count]);
    Ok(count)
}

/// Adds the content of the remote's file, which has `size` bytes, to the hasher, in pieces of
/// `room`'s size. Ends early if the remote has fewer bytes.
fn hash_pieces<R: Remotes>(
    remotes: &mut R,
    url: &str,
    path: &Path,
    size: u64,
    hasher: &mut ContentHasher,
    room: &mut [u8],
) -> Result<(), RemoteError>
    requires { 0 < length room.old }
    ensures same { R.holds remotes.new ≡ R.holds remotes.old }
    ensures tells { (held : Holdings) → R.holds remotes.old ≡ Some held
        → length (bytes_of (held url.now path.now)) ≡ size
        → IfOk result (λ _. TakesIn (bytes_of (held url.now path.now)) hasher.old hasher.new) }
    ensures fault_has_cause { IsRemotes (IsErrOf result RemoteError.Failed)
        (R.faults remotes.old) (R.faults remotes.new) }
{
    let mut at = 0;
    while at < size {
        let most = (size - at).min(room.len() as u64) as usize;
        let count = hash_piece(remotes, url, path, at, hasher, &mut room[..most])?;
        if count == 0 {
            break;
        }
        at += count as u64;
    }
    Ok(())
}

/// Computes the digest of the remote's file with these permission bits and of `size` bytes. Never
/// keeps all of it in memory.
pub(crate) fn remote_digest<R: Remotes>(
    alloc: Global,
    remotes: &mut R,
    url: &str,
    path: &Path,
    mode: u32,
    size: u64,
) -> Result<Digest, RemoteError>
    requires { is_permission mode ≡ true }
    ensures same { R.holds remotes.new ≡ R.holds remotes.old }
    ensures tells { (held : Holdings) → R.holds remotes.old ≡ Some held
        → length (bytes_of (held url.now path.now)) ≡ size
        → IfOk result (λ got. got ≡ file_digest mode (bytes_of (held url.now path.now))) }
    ensures fault_has_cause { IsRemotes (IsErrOf result RemoteError.Failed)
        (R.faults remotes.old) (R.faults remotes.new) }
{
    let mut room = buffer(alloc, PIECE_BYTES as u64)?;
    let mut hasher = ContentHasher::new(mode);
    hash_pieces(remotes, url, path, size, &mut hasher, &mut room)?;
    Ok(hasher.finish())
}
