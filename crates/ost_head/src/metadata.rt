//! Reading the file `metadata` of a commit from the store or else from the remote.
ghost use Rattle.std.specs.Prelude.{◌≡◌, true, IsErrOf, Some};
ghost use Rattle.fp_base.specs.declared.object.ObjKind.TheVariants as kinds;
ghost use Rattle.fp_host.specs.OverHost.{ChangesNothing, FailsAlone};
ghost use Rattle.fp_host.specs.Moments.{Moments};
ghost use Rattle.fp_host.specs.Outcome.{shows};
ghost use Rattle.fp_host.specs.Paths.{is_link_text};
ghost use Rattle.fp_host.specs.Remote.{Holdings};
ghost use Rattle.ost_model.specs.declared.object.Object.TheVariants as objects;
ghost use Rattle.ost_model.specs.Objects.{Have, store};
ghost use Rattle.ost_model.specs.Remotes.{Supplies, remote_at};
ghost use Rattle.ost_walk.specs.Ends.{IsRemotes, NoFault, Observes, around};
ghost use Rattle.ost_head.specs.Contents.{IsWithinLimits};
ghost use Rattle.ost_head.specs.Kept.{Keeps, KeepsIfThere};
ghost use Rattle.ost_head.specs.Stored.{IsFileOf};

use crate::checking::check_text;
use crate::content::{Content, remote_content};
use crate::limits::refused;
use crate::taking::{keep_remote, keep_stored};
use fp_base::{Blob, ObjKind, Text};
use fp_host::{Host, Path, Remotes};
use fp_name::Digest;
use ost_model::MOST_FILE_BYTES;
use ost_store::{Got, get, path_of};
use ost_walk::{ObjectFault, WalkEnd};
use std::alloc::Global;

/// The part of a checked file `metadata` that is kept.
#[derive(Drop)]
pub(crate) enum Kept {
    /// The content, of at most 1 MiB.
    Bytes(Blob),
    /// The size in bytes of a file of more than 1 MiB, whose content isn't kept.
    Longer(u64),
    /// There is no regular file.
    Nothing,
}

/// Checks a symlink of the store, and returns `Nothing` for it. `Refused` with its fault.
#[tactic(auto, using(crate::proofs::Kept::text_kept))]
fn keep_link(alloc: Global, digest: &Digest, text: &Text) -> Result<Option<Kept>, WalkEnd>
    ensures tells { is_link_text text.now ≡ true
        → KeepsIfThere digest.now (Some (objects.Link text.now)) result }
    ensures faults { NoFault result }
{
    match check_text(alloc, digest, text) {
        Ok(_) => Ok(Some(Kept::Nothing)),
        Err(end) => Err(end),
    }
}

/// Reads and checks the file or the symlink of the store, and returns the part that is kept, or
/// `None` if the store has neither. `Refused` with its fault.
fn find_stored<H: Host>(
    alloc: Global,
    host: &mut H,
    root: &Path,
    digest: &Digest,
) -> Result<Option<Kept>, WalkEnd>
    ensures unchanged { ChangesNothing H.Host host.old host.new }
    ensures tells { (m : Moments) → H.moments host.old ≡ Some m
        → KeepsIfThere digest.now (store root.now (shows m.now) digest.now kinds.File) result }
    ensures fault_has_cause { FailsAlone H.Host host.old host.new
        (IsErrOf result WalkEnd.HostFault) }
    ensures remote { IsErrOf result WalkEnd.RemoteFault → ⊥ }
{
    match get(alloc, host, root, digest, ObjKind::File, MOST_FILE_BYTES)? {
        Got::File { mode, size } => keep_stored(alloc, host, root, digest, mode, size),
        Got::Link(text) => keep_link(alloc, digest, &text),
        Got::TooLong(size) => Err(refused(digest, ObjectFault::TooLong(size))),
        _ => Ok(None),
    }
}

/// Reads and checks the remote's file with these permission bits and of `size` bytes, and returns
/// the part that is kept. `Refused` with `Corrupt`.
fn keep_file<R: Remotes>(
    alloc: Global,
    remotes: &mut R,
    url: &str,
    digest: &Digest,
    mode: u32,
    size: u64,
) -> Result<Kept, WalkEnd>
    requires { IsWithinLimits mode size }
    ensures same { R.holds remotes.new ≡ R.holds remotes.old }
    ensures tells { (held : Holdings) → R.holds remotes.old ≡ Some held
        → IsFileOf mode size (remote_at held url.now digest.now kinds.File)
        → Keeps digest.now (remote_at held url.now digest.now kinds.File) result }
    ensures host { IsErrOf result WalkEnd.HostFault → ⊥ }
    ensures fault_has_cause { IsRemotes (IsErrOf result WalkEnd.RemoteFault)
        (R.faults remotes.old) (R.faults remotes.new) }
{
    let path = path_of(alloc, &Path::root(alloc), digest, ObjKind::File)?;
    keep_remote(alloc, remotes, url, &path, digest, mode, size)
}

/// Reads and checks the file or the symlink of the remote, and returns the part that is kept.
/// `Refused` with its fault.
#[tactic(auto, using(crate::proofs::Kept::link_kept))]
fn find_remote<R: Remotes>(
    alloc: Global,
    remotes: &mut R,
    url: &str,
    digest: &Digest,
) -> Result<Kept, WalkEnd>
    ensures same { R.holds remotes.new ≡ R.holds remotes.old }
    ensures tells { (held : Holdings) → R.holds remotes.old ≡ Some held
        → Keeps digest.now (remote_at held url.now digest.now kinds.File) result }
    ensures host { IsErrOf result WalkEnd.HostFault → ⊥ }
    ensures fault_has_cause { IsRemotes (IsErrOf result WalkEnd.RemoteFault)
        (R.faults remotes.old) (R.faults remotes.new) }
{
    match remote_content(alloc, remotes, url, digest) {
        Ok(Content::Link(_)) => Ok(Kept::Nothing),
        Ok(Content::File { mode, size }) => keep_file(alloc, remotes, url, digest, mode, size),
        Err(end) => Err(end),
    }
}

/// Reads and checks the file `metadata` with this digest, of the store or else of the remote, and
/// returns the part that is kept. `Refused` with the fault of the object. Reads a file of more than
/// 1 MiB piece by piece, and never keeps all of it in memory.
#[tactic(auto, using(crate::proofs::Kept::store_keeps, crate::proofs::Kept::remote_keeps, crate::proofs::Kept::store_refuses))]
pub(crate) fn find_metadata<H: Host, R: Remotes>(
    alloc: Global,
    host: &mut H,
    remotes: &mut R,
    root: &Path,
    url: &str,
    digest: &Digest,
) -> Result<Kept, WalkEnd>
    ensures looks { Observes result
        (around H.Host R.Remotes host.old remotes.old)
        (around H.Host R.Remotes host.new remotes.new) }
    ensures tells { (have : Have) → Supplies root.now (Some url.now) (H.moments host.old)
        (R.holds remotes.old) have
        → Keeps digest.now (have digest.now kinds.File) result }
{
    match find_stored(alloc, host, root, digest) {
        Ok(Some(kept)) => Ok(kept),
        Ok(None) => find_remote(alloc, remotes, url, digest),
        Err(end) => Err(end),
    }
}
