//! The file `metadata` of a commit in the store.
ghost use Rattle.std.specs.Prelude.{◌≡◌, None, IfOk, IsErrOf};
ghost use Rattle.fp_base.specs.declared.object.ObjKind.TheVariants as kinds;
ghost use Rattle.fp_host.specs.OverHost.{ChangesNothing, FailsAlone};
ghost use Rattle.fp_small.specs.Places.{repo};
ghost use Rattle.ost_model.specs.Look.{look_fault};
ghost use Rattle.ost_model.specs.Objects.{Have};
ghost use Rattle.ost_model.specs.Remotes.{Stores};
ghost use Rattle.ost_walk.specs.Ends.{EndsBy, IsFirst};
ghost use Rattle.ost_walk.specs.Looked.{IsFound};
ghost use Rattle.fl_installed.specs.Files as spec;

use crate::places::{metadata_path, store_alone};
use fp_base::Blob;
use fp_host::{Host, HostEnd, NoRemotes, Path};
use fp_name::Digest;
use fp_small::repo_path;
use ost_model::MOST_METADATA_FILE_BYTES;
use ost_store::read_within;
use ost_walk::{Found, Places, WalkEnd, look};
use std::alloc::Global;

/// Looks up a path of a commit in the store alone, without a remote. Changes nothing.
fn look_there<H: Host>(
    alloc: Global,
    host: &mut H,
    places: &Places,
    commit: &Digest,
    path: &Path,
) -> Result<Found, WalkEnd>
    requires { places.now.url ≡ None }
    ensures unchanged { ChangesNothing H.Host host.old host.new }
    ensures tells { (have : Have) → Stores places.now.root (H.moments host.old) have
        → EndsBy (IsFound have commit.now path.now)
        (IsFirst (look_fault have commit.now path.now)) result }
    ensures fault_has_cause { FailsAlone H.Host host.old host.new
        (IsErrOf result WalkEnd.HostFault) }
    ensures remote { IsErrOf result WalkEnd.RemoteFault → ⊥ }
{
    let mut remotes = NoRemotes;
    look(alloc, host, &mut remotes, places, commit, path)
}

/// Returns the digest of what was found, if it is a file or a symlink.
fn digest_of(found: Found) -> Option<Digest>
    ensures { result ≡ spec.digest_of found }
{
    match found {
        Found::File(digest) => Some(digest),
        Found::Dir | Found::Nothing => None,
    }
}

/// Returns the digest of what a lookup found, or `None` if it found no file or symlink, or was
/// refused.
fn digest_in(looked: Result<Found, WalkEnd>) -> Result<Option<Digest>, HostEnd>
    ensures { result ≡ spec.digest_in looked }
{
    match looked {
        Ok(found) => Ok(digest_of(found)),
        Err(WalkEnd::Refused(_)) => Ok(None),
        Err(WalkEnd::HostFault | WalkEnd::RemoteFault) => Err(HostEnd::Fault),
        Err(WalkEnd::NoMemory) => Err(HostEnd::NoMemory),
    }
}

/// Returns the digest of `metadata` in the root of a commit. Returns `None` if it isn't a file or
/// symlink, or if the commit or the dirtree of its root is missing or not valid. Changes nothing.
fn find_metadata<H: Host>(
    alloc: Global,
    host: &mut H,
    commit: &Digest,
) -> Result<Option<Digest>, HostEnd>
    ensures unchanged { ChangesNothing H.Host host.old host.new }
    ensures tells { (have : Have) → Stores repo (H.moments host.old) have
        → IfOk result (λ digest. digest ≡ spec.metadata_digest have commit.now) }
    ensures fault_has_cause { FailsAlone H.Host host.old host.new (IsErrOf result HostEnd.Fault) }
{
    let places = store_alone(alloc)?;
    let path = metadata_path(alloc)?;
    digest_in(look_there(alloc, host, &places, commit, &path))
}

/// Reads the content of a file object in the store. Returns `None` if it is missing, a symlink, or
/// longer than 1 MiB. Changes nothing.
fn read_short<H: Host>(
    alloc: Global,
    host: &mut H,
    digest: &Digest,
) -> Result<Option<Blob>, HostEnd>
    ensures unchanged { ChangesNothing H.Host host.old host.new }
    ensures tells { (have : Have) → Stores repo (H.moments host.old) have
        → IfOk result (λ bytes. bytes ≡ spec.short_content (have digest.now kinds.File)) }
    ensures fault_has_cause { FailsAlone H.Host host.old host.new (IsErrOf result HostEnd.Fault) }
{
    let root = repo_path(alloc)?;
    read_within(alloc, host, &root, digest, MOST_METADATA_FILE_BYTES)
}

/// Reads the file `metadata` in the root of a commit from the installation's store. Returns `None`
/// if it isn't a file of at most 1 MiB, or if the commit or the dirtree of its root is missing or
/// not valid. Doesn't check that the content matches its digest. Changes nothing.
pub fn metadata_file<H: Host>(
    alloc: Global,
    host: &mut H,
    commit: &Digest,
) -> Result<Option<Blob>, HostEnd>
    ensures unchanged { ChangesNothing H.Host host.old host.new }
    ensures tells { (have : Have) → Stores repo (H.moments host.old) have
        → IfOk result (λ file. file ≡ spec.metadata_file have commit.now) }
    ensures fault_has_cause { FailsAlone H.Host host.old host.new (IsErrOf result HostEnd.Fault) }
{
    match find_metadata(alloc, host, commit)? {
        Some(digest) => read_short(alloc, host, &digest),
        None => Ok(None),
    }
}

/// Reads the file `metadata` in the root of a commit from the installation's store. Returns no
/// bytes if it isn't a file of at most 1 MiB, or if the commit or the dirtree of its root is
/// missing or not valid. Changes nothing.
pub fn read_metadata<H: Host>(alloc: Global, host: &mut H, commit: &Digest) -> Result<Blob, HostEnd>
    ensures unchanged { ChangesNothing H.Host host.old host.new }
    ensures tells { (have : Have) → Stores repo (H.moments host.old) have
        → IfOk result (λ bytes. bytes ≡ spec.metadata_in have commit.now) }
    ensures fault_has_cause { FailsAlone H.Host host.old host.new (IsErrOf result HostEnd.Fault) }
{
    match metadata_file(alloc, host, commit)? {
        Some(bytes) => Ok(bytes),
        None => Ok(Blob::from_vec(Vec::new(alloc))),
    }
}
