//! Copying a file of the remote piece by piece, and computing its digest meanwhile.
ghost use Rattle.std.specs.Prelude.{◌≡◌, ◌<◌, length, true, IfOk, OnOk, IsErrOf};
ghost use Rattle.fp_host.specs.OverHost.{FailsOnly};
ghost use Rattle.fp_host.specs.Frame.{Frame, Only, NoName};
ghost use Rattle.fp_host.specs.Outcome.{Nothing};
ghost use Rattle.ost_model.specs.Contents.{is_permission};
ghost use Rattle.ost_walk.specs.Ends.{IsRemotes};
ghost use Rattle.ost_walk.specs.declared.ends.WalkFault.{WalkFault};
ghost use Rattle.ost_head.specs.Copies.{CopiesFile, CopiesPiece, IsCopied, IsNewFile};

use fp_host::{Host, Path, Remotes};
use fp_name::Digest;
use ost_content::ContentHasher;
use ost_store::stage_piece;
use ost_walk::WalkEnd;

/// Reads bytes of the remote's file from the byte offset `at` on, as many as fit into `room` or are
/// left. Appends them to the file at `to`, adds them to the hasher, and returns their number.
/// Condition: a file that was created since the last sync is at `to`.
fn copy_piece<H: Host, R: Remotes>(
    host: &mut H,
    remotes: &mut R,
    url: &str,
    from: &Path,
    to: &Path,
    at: u64,
    hasher: &mut ContentHasher,
    room: &mut [u8],
) -> Result<usize, WalkEnd>
    ensures frame { Frame Nothing NoName (Only to.now) (H.moments host.old) (H.moments host.new) }
    ensures same { R.holds remotes.new ≡ R.holds remotes.old }
    ensures on_success { IfOk result (CopiesPiece to.now from.now url.now (R.holds remotes.old) at
        room.old room.new hasher.old hasher.new (H.moments host.old) (H.moments host.new)) }
    ensures refuses { (w : WalkFault) → IsErrOf result (WalkEnd.Refused w) → ⊥ }
    ensures fault_has_cause { FailsOnly H.Host host.old host.new
        (IsNewFile to.now) (IsErrOf result WalkEnd.HostFault) }
    ensures remote_fault_has_cause { IsRemotes (IsErrOf result WalkEnd.RemoteFault)
        (R.faults remotes.old) (R.faults remotes.new) }
{
    let count = remotes.read_at(url, from, at, room)?;
    let piece = &room[..count];
    hasher.update(piece);
    stage_piece(host, to, piece)?;
    Ok(count)
}

/// Appends the content of the remote's file, which has `size` bytes, to the file at `to`, in pieces
/// of the buffer's size, and adds it to the hasher. Ends early if the remote has fewer bytes, and
/// never copies more than `size`. Condition: a file that was created since the last sync is at
/// `to`.
fn copy_pieces<H: Host, R: Remotes>(
    host: &mut H,
    remotes: &mut R,
    url: &str,
    from: &Path,
    to: &Path,
    size: u64,
    hasher: &mut ContentHasher,
    buffer: &mut [u8],
) -> Result<(), WalkEnd>
    requires { 0 < length buffer.old }
    ensures frame { Frame Nothing NoName (Only to.now) (H.moments host.old) (H.moments host.new) }
    ensures same { R.holds remotes.new ≡ R.holds remotes.old }
    ensures copies { OnOk result (CopiesFile to.now from.now url.now (R.holds remotes.old) size
        hasher.old hasher.new (H.moments host.old) (H.moments host.new)) }
    ensures refuses { (w : WalkFault) → IsErrOf result (WalkEnd.Refused w) → ⊥ }
    ensures fault_has_cause { FailsOnly H.Host host.old host.new
        (IsNewFile to.now) (IsErrOf result WalkEnd.HostFault) }
    ensures remote_fault_has_cause { IsRemotes (IsErrOf result WalkEnd.RemoteFault)
        (R.faults remotes.old) (R.faults remotes.new) }
{
    let mut at = 0;
    while at < size {
        let room = (size - at).min(buffer.len() as u64) as usize;
        let count = copy_piece(
            host,
            remotes,
            url,
            from,
            to,
            at,
            hasher,
            &mut buffer[..room],
        )?;
        if count == 0 {
            return Ok(());
        }
        at += count as u64;
    }
    Ok(())
}

/// Appends the remote's file of `size` bytes to the file at `to`, which is empty and has these
/// permission bits. Returns the digest of the copy. Condition: a file that was created since the
/// last sync is at `to`.
#[tactic(auto, using(crate::proofs::Copied::copied_digest))]
pub(crate) fn copy_file<H: Host, R: Remotes>(
    host: &mut H,
    remotes: &mut R,
    url: &str,
    from: &Path,
    to: &Path,
    mode: u32,
    size: u64,
    buffer: &mut [u8],
) -> Result<Digest, WalkEnd>
    requires bits { is_permission mode ≡ true }
    requires room { 0 < length buffer.old }
    ensures frame { Frame Nothing NoName (Only to.now) (H.moments host.old) (H.moments host.new) }
    ensures same { R.holds remotes.new ≡ R.holds remotes.old }
    ensures copies { IfOk result (IsCopied to.now from.now url.now (R.holds remotes.old) mode size
        (H.moments host.old) (H.moments host.new)) }
    ensures refuses { (w : WalkFault) → IsErrOf result (WalkEnd.Refused w) → ⊥ }
    ensures fault_has_cause { FailsOnly H.Host host.old host.new
        (IsNewFile to.now) (IsErrOf result WalkEnd.HostFault) }
    ensures remote_fault_has_cause { IsRemotes (IsErrOf result WalkEnd.RemoteFault)
        (R.faults remotes.old) (R.faults remotes.new) }
{
    let mut hasher = ContentHasher::new(mode);
    copy_pieces(host, remotes, url, from, to, size, &mut hasher, buffer)?;
    Ok(hasher.finish())
}
