//! Reading a file `metadata`: its content is kept if it is within its limit, and otherwise only
//! hashed.
ghost use Rattle.std.specs.Prelude.{◌≡◌, ◌<◌, ◌≤◌, IsErrOf, Some};
ghost use Rattle.fp_base.specs.declared.object.ObjKind.TheVariants as kinds;
ghost use Rattle.fp_host.specs.OverHost.{ChangesNothing, FailsOnly};
ghost use Rattle.fp_host.specs.Moments.{Moments};
ghost use Rattle.fp_host.specs.Outcome.{shows};
ghost use Rattle.fp_host.specs.Remote.{Holdings};
ghost use Rattle.ost_model.specs.declared.limits.TheConstants.{MOST_METADATA_FILE_BYTES};
ghost use Rattle.ost_model.specs.Objects.{object_at, store};
ghost use Rattle.ost_model.specs.Remotes.{as_spot};
ghost use Rattle.ost_store.specs.Reads.{HasFile};
ghost use Rattle.ost_walk.specs.Ends.{IsRemotes};
ghost use Rattle.ost_head.specs.Contents.{IsWithinLimits};
ghost use Rattle.ost_head.specs.Kept.{Keeps, KeepsIfThere};
ghost use Rattle.ost_head.specs.Stored.{IsFileOf};

use crate::checking::check_file;
use crate::hashing::remote_digest;
use crate::limits::{check_limits, refused};
use crate::metadata::Kept;
use crate::small::read_whole;
use fp_host::{Host, Path, Remotes};
use fp_name::Digest;
use ost_content::file_digest;
use ost_model::MOST_METADATA_FILE_BYTES;
use ost_store::read_sized;
use ost_walk::{ObjectFault, WalkEnd};
use std::alloc::Global;

/// Reads and checks the store's file of `size` bytes, at most 1 MiB, and returns its content.
/// Condition: the store has the object as a regular file.
#[tactic(auto, using(crate::proofs::Checked::stored_refused, crate::proofs::Kept::stored_taken, crate::proofs::Kept::stored_other))]
fn take_stored<H: Host>(
    alloc: Global,
    host: &mut H,
    root: &Path,
    digest: &Digest,
    mode: u32,
    size: u64,
) -> Result<Option<Kept>, WalkEnd>
    requires { size ≤ MOST_METADATA_FILE_BYTES }
    ensures unchanged { ChangesNothing H.Host host.old host.new }
    ensures tells { (m : Moments) → H.moments host.old ≡ Some m
        → IsFileOf mode size (store root.now (shows m.now) digest.now kinds.File)
        → KeepsIfThere digest.now (store root.now (shows m.now) digest.now kinds.File) result }
    ensures fault_has_cause { FailsOnly H.Host host.old host.new
        (HasFile root.now digest.now) (IsErrOf result WalkEnd.HostFault) }
    ensures remote { IsErrOf result WalkEnd.RemoteFault → ⊥ }
{
    check_limits(digest, mode, size)?;
    let bytes = read_sized(alloc, host, root, digest, size)?;
    let got = file_digest(mode, bytes.as_slice());
    if got == *digest {
        Ok(Some(Kept::Bytes(bytes)))
    } else {
        Err(refused(digest, ObjectFault::Corrupt(got)))
    }
}

/// Checks the store's file of `size` bytes, more than 1 MiB, and returns its size. Condition: the
/// store has the object as a regular file.
#[tactic(auto, using(crate::proofs::Kept::stored_longer))]
fn hash_stored<H: Host>(
    alloc: Global,
    host: &mut H,
    root: &Path,
    digest: &Digest,
    mode: u32,
    size: u64,
) -> Result<Option<Kept>, WalkEnd>
    requires { MOST_METADATA_FILE_BYTES < size }
    ensures unchanged { ChangesNothing H.Host host.old host.new }
    ensures tells { (m : Moments) → H.moments host.old ≡ Some m
        → IsFileOf mode size (store root.now (shows m.now) digest.now kinds.File)
        → KeepsIfThere digest.now (store root.now (shows m.now) digest.now kinds.File) result }
    ensures fault_has_cause { FailsOnly H.Host host.old host.new
        (HasFile root.now digest.now) (IsErrOf result WalkEnd.HostFault) }
    ensures remote { IsErrOf result WalkEnd.RemoteFault → ⊥ }
{
    match check_file(alloc, host, root, digest, mode, size) {
        Ok(_) => Ok(Some(Kept::Longer(size))),
        Err(end) => Err(end),
    }
}

/// Reads and checks the store's file with these permission bits and of `size` bytes, and returns
/// the part that is kept. `Refused` with its fault. Condition: the store has the object as a
/// regular file.
pub(crate) fn keep_stored<H: Host>(
    alloc: Global,
    host: &mut H,
    root: &Path,
    digest: &Digest,
    mode: u32,
    size: u64,
) -> Result<Option<Kept>, WalkEnd>
    ensures unchanged { ChangesNothing H.Host host.old host.new }
    ensures tells { (m : Moments) → H.moments host.old ≡ Some m
        → IsFileOf mode size (store root.now (shows m.now) digest.now kinds.File)
        → KeepsIfThere digest.now (store root.now (shows m.now) digest.now kinds.File) result }
    ensures fault_has_cause { FailsOnly H.Host host.old host.new
        (HasFile root.now digest.now) (IsErrOf result WalkEnd.HostFault) }
    ensures remote { IsErrOf result WalkEnd.RemoteFault → ⊥ }
{
    if size > MOST_METADATA_FILE_BYTES {
        hash_stored(alloc, host, root, digest, mode, size)
    } else {
        take_stored(alloc, host, root, digest, mode, size)
    }
}

/// Reads and checks the remote's file of `size` bytes, at most 1 MiB, and returns its content.
#[tactic(auto, using(crate::proofs::Kept::remote_taken, crate::proofs::Kept::remote_other))]
fn take_remote<R: Remotes>(
    alloc: Global,
    remotes: &mut R,
    url: &str,
    path: &Path,
    digest: &Digest,
    mode: u32,
    size: u64,
) -> Result<Kept, WalkEnd>
    requires limits { IsWithinLimits mode size }
    requires short { size ≤ MOST_METADATA_FILE_BYTES }
    ensures same { R.holds remotes.new ≡ R.holds remotes.old }
    ensures tells { (held : Holdings) → R.holds remotes.old ≡ Some held
        → IsFileOf mode size (object_at kinds.File (as_spot (held url.now path.now)))
        → Keeps digest.now (object_at kinds.File (as_spot (held url.now path.now))) result }
    ensures host { IsErrOf result WalkEnd.HostFault → ⊥ }
    ensures fault_has_cause { IsRemotes (IsErrOf result WalkEnd.RemoteFault)
        (R.faults remotes.old) (R.faults remotes.new) }
{
    let bytes = read_whole(alloc, remotes, url, path, size)?;
    let got = file_digest(mode, bytes.as_slice());
    if got == *digest {
        Ok(Kept::Bytes(bytes))
    } else {
        Err(refused(digest, ObjectFault::Corrupt(got)))
    }
}

/// Checks the remote's file of `size` bytes, more than 1 MiB, and returns its size.
#[tactic(auto, using(crate::proofs::Kept::remote_longer, crate::proofs::Kept::remote_off))]
fn hash_remote<R: Remotes>(
    alloc: Global,
    remotes: &mut R,
    url: &str,
    path: &Path,
    digest: &Digest,
    mode: u32,
    size: u64,
) -> Result<Kept, WalkEnd>
    requires limits { IsWithinLimits mode size }
    requires long { MOST_METADATA_FILE_BYTES < size }
    ensures same { R.holds remotes.new ≡ R.holds remotes.old }
    ensures tells { (held : Holdings) → R.holds remotes.old ≡ Some held
        → IsFileOf mode size (object_at kinds.File (as_spot (held url.now path.now)))
        → Keeps digest.now (object_at kinds.File (as_spot (held url.now path.now))) result }
    ensures host { IsErrOf result WalkEnd.HostFault → ⊥ }
    ensures fault_has_cause { IsRemotes (IsErrOf result WalkEnd.RemoteFault)
        (R.faults remotes.old) (R.faults remotes.new) }
{
    let got = remote_digest(alloc, remotes, url, path, mode, size)?;
    if got == *digest {
        Ok(Kept::Longer(size))
    } else {
        Err(refused(digest, ObjectFault::Corrupt(got)))
    }
}

/// Reads and checks the remote's file with these permission bits and of `size` bytes, and returns
/// the part that is kept. `Refused` with `Corrupt`.
pub(crate) fn keep_remote<R: Remotes>(
    alloc: Global,
    remotes: &mut R,
    url: &str,
    path: &Path,
    digest: &Digest,
    mode: u32,
    size: u64,
) -> Result<Kept, WalkEnd>
    requires { IsWithinLimits mode size }
    ensures same { R.holds remotes.new ≡ R.holds remotes.old }
    ensures tells { (held : Holdings) → R.holds remotes.old ≡ Some held
        → IsFileOf mode size (object_at kinds.File (as_spot (held url.now path.now)))
        → Keeps digest.now (object_at kinds.File (as_spot (held url.now path.now))) result }
    ensures host { IsErrOf result WalkEnd.HostFault → ⊥ }
    ensures fault_has_cause { IsRemotes (IsErrOf result WalkEnd.RemoteFault)
        (R.faults remotes.old) (R.faults remotes.new) }
{
    if size > MOST_METADATA_FILE_BYTES {
        hash_remote(alloc, remotes, url, path, digest, mode, size)
    } else {
        take_remote(alloc, remotes, url, path, digest, mode, size)
    }
}
