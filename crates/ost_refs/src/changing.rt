//! Writing and removing refs.
ghost use Rattle.std.specs.Prelude.{◌≡◌, IfOk, OnOk, IsErrOf};
ghost use Rattle.fp_host.specs.OverHost.{AtEachMoment, AtReturn, FailsOnly};
ghost use Rattle.fp_host.specs.Frame.{Frame, NoPath};
ghost use Rattle.fp_small.specs.Clear.{GoneAt, AbsentAt};
ghost use Rattle.fp_small.specs.Replace.{Replaces, WasReplaced, IsFreeFile};
ghost use Rattle.ost_refs.specs.Places.{place_path};
ghost use Rattle.ost_refs.specs.Files.{ref_bytes};
ghost use Rattle.ost_refs.specs.Changes.{CanWrite, WasDropped};

use crate::place::{RefPlace, path_of};
use fp_host::{Host, HostEnd, Path};
use fp_name::Digest;
use fp_small::{replace, take_away};
use std::alloc::{AllocError, Global};

/// Sets a ref to this commit: replaces its file and syncs it. Makes the directories above it,
/// `repo` and `repo/tmp` if they are missing. Allocates all memory before the first change.
/// Condition: nothing or a file is at the place, each of those directories is absent or a
/// directory, and the store is neither `repo/tmp` nor below it.
pub fn write_ref<H: Host>(
    alloc: Global,
    host: &mut H,
    root: &Path,
    place: &RefPlace,
    digest: &Digest,
) -> Result<(), HostEnd>
    // A crash at any moment leaves at the place what a crash before could have left, or the whole
    // new file.
    ensures any_moment { AtEachMoment H.Host host.old host.new
        (Replaces (place_path root.now place.now) (ref_bytes digest.now)) }
    // Afterwards every crash leaves the new file, and exactly the present content.
    ensures on_success { OnOk result (AtReturn H.Host host.old host.new
        (WasReplaced (place_path root.now place.now)
        (ref_bytes digest.now))) }
    ensures fault_has_cause { FailsOnly H.Host host.old host.new
        (CanWrite root.now place.now) (IsErrOf result HostEnd.Fault) }
    ensures starved_unchanged { IsErrOf result HostEnd.NoMemory → AtReturn H.Host host.old host.new
        (λ u w. w ≡ u) }
{
    let path = path_of(root, place)?;
    let bytes = ref_bytes(alloc, digest)?;
    replace(alloc, host, &path, &bytes)
}

/// Returns the content of a ref's file: the 64 digits of the digest and a newline.
fn ref_bytes(alloc: Global, digest: &Digest) -> Result<Vec<u8>, AllocError>
    ensures { IfOk result (λ bytes. bytes.items ≡ ref_bytes digest.now) }
{
    let mut bytes = Vec::from_slice(alloc, &digest.digits())?;
    bytes.push(b'\n')?;
    Ok(bytes)
}

/// Removes a ref and syncs. If it is absent, no name changes. Condition: nothing or a file is at
/// the place.
pub fn drop_ref<H: Host>(
    alloc: Global,
    host: &mut H,
    root: &Path,
    place: &RefPlace,
) -> Result<(), HostEnd>
    // A crash at any moment leaves at the place what a crash before could have left, or nothing.
    // Nothing else changes.
    ensures frame { Frame (GoneAt (place_path root.now place.now))
        (AbsentAt (place_path root.now place.now)) NoPath
        (H.moments host.old) (H.moments host.new) }
    // Afterwards nothing is at the place, and every crash leaves exactly the present content.
    ensures on_success { OnOk result (AtReturn H.Host host.old host.new
        (λ u w. WasDropped (place_path root.now place.now) w)) }
    ensures fault_has_cause { FailsOnly H.Host host.old host.new
        (IsFreeFile (place_path root.now place.now)) (IsErrOf result HostEnd.Fault) }
    ensures starved_unchanged { IsErrOf result HostEnd.NoMemory → AtReturn H.Host host.old host.new
        (λ u w. w ≡ u) }
{
    let path = path_of(root, place)?;
    take_away(host, &path)?;
    Ok(host.sync()?)
}
