//! Checking files and symlinks of the store piece by piece.
ghost use Rattle.std.specs.Prelude.{◌≡◌, ◌<◌, ◌≤◌, ◌++◌, ℕ, List, length, take, true, IfOk, IsErrOf, Some};
ghost use Rattle.fp_base.specs.declared.object.ObjKind.TheVariants as kinds;
ghost use Rattle.fp_host.specs.OverHost.{ChangesNothing, FailsAlone, FailsOnly};
ghost use Rattle.fp_host.specs.Moments.{Moments};
ghost use Rattle.fp_host.specs.Outcome.{shows};
ghost use Rattle.fp_host.specs.Paths.{is_link_text};
ghost use Rattle.fp_host.specs.Remote.{CameFrom};
ghost use Rattle.ost_model.specs.declared.object.Object.TheVariants as objects;
ghost use Rattle.ost_model.specs.Contents.{file_digest, is_permission};
ghost use Rattle.ost_model.specs.Objects.{store};
ghost use Rattle.ost_store.specs.Reads.{HasFile};
ghost use Rattle.ost_walk.specs.Ends.{NoFault};
ghost use Rattle.ost_walk.specs.declared.ends.WalkFault.{WalkFault};
ghost use Rattle.ost_head.specs.Contents.{ChecksIfThere};
ghost use Rattle.ost_head.specs.Pieces.{TakesIn};
ghost use Rattle.ost_head.specs.Stored.{IsFileOf};

use crate::limits::{check_limits, check_link, refused};
use fp_base::{ObjKind, Text};
use fp_host::{Host, HostEnd, PIECE_BYTES, Path};
use fp_name::Digest;
use ost_content::ContentHasher;
use ost_model::MOST_FILE_BYTES;
use ost_store::{Got, get, read_piece};
use ost_walk::{ObjectFault, WalkEnd};
use std::alloc::Global;

/// Adds bytes of the store's file to the hasher, from the byte offset `at` on, as many as fit into
/// `room` or are left. Returns their number. Condition: the store has the object as a regular file.
fn hash_piece<H: Host>(
    alloc: Global,
    host: &mut H,
    root: &Path,
    digest: &Digest,
    at: u64,
    hasher: &mut ContentHasher,
    room: &mut [u8],
) -> Result<usize, HostEnd>
    ensures bound { IfOk result (λ n. n ≤ length room.old) }
    ensures unchanged { ChangesNothing H.Host host.old host.new }
    ensures tells { (m : Moments) → H.moments host.old ≡ Some m
        → (mode : ℕ) (content : List ℕ) → store root.now (shows m.now) digest.now kinds.File
        ≡ Some (objects.File mode content)
        → IfOk result (CameFrom content at room.new) }
    ensures hashes { IfOk result (λ n. TakesIn (take n room.new) hasher.old hasher.new) }
    ensures fault_has_cause { FailsOnly H.Host host.old host.new
        (HasFile root.now digest.now) (IsErrOf result HostEnd.Fault) }
{
    let count = read_piece(alloc, host, root, digest, at, room)?;
    hasher.update(&room[..count]);
    Ok(count)
}

/// Adds the content of the store's file, which has `size` bytes, to the hasher, in pieces of the
/// buffer's size. Condition: the store has the object as a regular file.
fn hash_pieces<H: Host>(
    alloc: Global,
    host: &mut H,
    root: &Path,
    digest: &Digest,
    size: u64,
    hasher: &mut ContentHasher,
    buffer: &mut [u8],
) -> Result<(), HostEnd>
    requires { 0 < length buffer.old }
    ensures unchanged { ChangesNothing H.Host host.old host.new }
    ensures tells { (m : Moments) → H.moments host.old ≡ Some m
        → (mode : ℕ) (content : List ℕ) → store root.now (shows m.now) digest.now kinds.File
        ≡ Some (objects.File mode content)
        → length content ≡ size → IfOk result (λ _. TakesIn content hasher.old hasher.new) }
    ensures fault_has_cause { FailsOnly H.Host host.old host.new
        (HasFile root.now digest.now) (IsErrOf result HostEnd.Fault) }
{
    let mut at = 0;
    while at < size {
        let room = (size - at).min(buffer.len() as u64) as usize;
        let count = hash_piece(alloc, host, root, digest, at, hasher, &mut buffer[..room])?;
        if count == 0 {
            break;
        }
        at += count as u64;
    }
    Ok(())
}

/// Computes the digest of the store's file with these permission bits and of `size` bytes.
/// Condition: the store has the object as a regular file.
fn stored_digest<H: Host>(
    alloc: Global,
    host: &mut H,
    root: &Path,
    digest: &Digest,
    mode: u32,
    size: u64,
) -> Result<Digest, HostEnd>
    requires { is_permission mode ≡ true }
    ensures unchanged { ChangesNothing H.Host host.old host.new }
    ensures tells { (m : Moments) → H.moments host.old ≡ Some m
        → (bits : ℕ) (content : List ℕ) → store root.now (shows m.now) digest.now kinds.File
        ≡ Some (objects.File bits content)
        → length content ≡ size → IfOk result (λ got. got ≡ file_digest mode content) }
    ensures fault_has_cause { FailsOnly H.Host host.old host.new
        (HasFile root.now digest.now) (IsErrOf result HostEnd.Fault) }
{
    let mut buffer = vec![in alloc; 0u8; PIECE_BYTES]?;
    let mut hasher = ContentHasher::new(mode);
    hash_pieces(alloc, host, root, digest, size, &mut hasher, &mut buffer)?;
    Ok(hasher.finish())
}

/// Checks that the store's file, with these permission bits and of `size` bytes, is within the
/// limits and matches its digest. Returns true, or `Refused` with its fault. Condition: the store
/// has the object as a regular file.
#[tactic(auto, using(crate::proofs::Checked::stored_refused, crate::proofs::Checked::stored_good, crate::proofs::Checked::stored_corrupt))]
pub(crate) fn check_file<H: Host>(
    alloc: Global,
    host: &mut H,
    root: &Path,
    digest: &Digest,
    mode: u32,
    size: u64,
) -> Result<bool, WalkEnd>
    ensures unchanged { ChangesNothing H.Host host.old host.new }
    ensures tells { (m : Moments) → H.moments host.old ≡ Some m
        → IsFileOf mode size (store root.now (shows m.now) digest.now kinds.File)
        → ChecksIfThere digest.now (store root.now (shows m.now) digest.now kinds.File) result }
    ensures fault_has_cause { FailsOnly H.Host host.old host.new
        (HasFile root.now digest.now) (IsErrOf result WalkEnd.HostFault) }
    ensures remote { IsErrOf result WalkEnd.RemoteFault → ⊥ }
{
    check_limits(digest, mode, size)?;
    let got = stored_digest(alloc, host, root, digest, mode, size)?;
    if got == *digest {
        Ok(true)
    } else {
        Err(refused(digest, ObjectFault::Corrupt(got)))
    }
}

/// Checks that a symlink of the store has a valid text and matches its digest. Returns true, or
/// `Refused` with its fault.
#[tactic(auto, using(crate::proofs::Checked::text_good, crate::proofs::Checked::text_refused))]
pub(crate) fn check_text(alloc: Global, digest: &Digest, text: &Text) -> Result<bool, WalkEnd>
    ensures tells { is_link_text text.now ≡ true
        → ChecksIfThere digest.now (Some (objects.Link text.now)) result }
    ensures faults { NoFault result }
{
    match check_link(alloc, digest, text.as_str()) {
        Ok(()) => Ok(true),
        Err(end) => Err(end),
    }
}

/// Returns whether the store at `root` has a `file` object, and checks the object as one of a
/// remote is checked. `Refused` with its fault. Reads a file piece by piece, and never keeps all of
/// it in memory. Changes nothing.
pub fn check_stored<H: Host>(
    alloc: Global,
    host: &mut H,
    root: &Path,
    digest: &Digest,
) -> Result<bool, WalkEnd>
    ensures unchanged { ChangesNothing H.Host host.old host.new }
    ensures tells { (m : Moments) → H.moments host.old ≡ Some m
        → ChecksIfThere digest.now (store root.now (shows m.now) digest.now kinds.File) result }
    ensures fault_has_cause { FailsAlone H.Host host.old host.new
        (IsErrOf result WalkEnd.HostFault) }
    ensures remote { IsErrOf result WalkEnd.RemoteFault → ⊥ }
{
    match get(alloc, host, root, digest, ObjKind::File, MOST_FILE_BYTES)? {
        Got::File { mode, size } => check_file(alloc, host, root, digest, mode, size),
        Got::Link(text) => check_text(alloc, digest, &text),
        Got::TooLong(size) => Err(refused(digest, ObjectFault::TooLong(size))),
        _ => Ok(false),
    }
}
