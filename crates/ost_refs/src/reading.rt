//! Reading refs.
ghost use Rattle.std.specs.Prelude.{◌≡◌, IfOk, IsErrOf};
ghost use Rattle.fp_host.specs.OverHost.{AtReturn, ChangesNothing, FailsAlone};
ghost use Rattle.ost_refs.specs.Places.{place_path};
ghost use Rattle.ost_refs.specs.Files.{ref_file, ReadsRef};

use crate::place::{RefFile, RefPlace, path_of};
use fp_host::{Host, HostEnd, Path};
use fp_name::{DIGEST_DIGITS, Digest};
use fp_small::{Loaded, load};
use std::alloc::Global;

/// The size in bytes of a ref's file: 64 digits and a newline.
pub const REF_FILE_BYTES: u64 = DIGEST_DIGITS as u64 + 1;

/// Reads a ref of the store at `root`. Returns `Absent` if nothing is at its place, and `Bad` if
/// something else than a file of 64 lower-case hexadecimal digits and a newline is there. Changes
/// nothing.
pub fn read_ref<H: Host>(
    alloc: Global,
    host: &mut H,
    root: &Path,
    place: &RefPlace,
) -> Result<RefFile, HostEnd>
    ensures unchanged { ChangesNothing H.Host host.old host.new }
    ensures tells { IfOk result (λ ref. AtReturn H.Host host.old host.new
        (λ u w. ReadsRef (place_path root.now place.now) u
        ref)) }
    ensures fault_has_cause { FailsAlone H.Host host.old host.new (IsErrOf result HostEnd.Fault) }
{
    let path = path_of(root, place)?;
    match load(alloc, host, &path, REF_FILE_BYTES)? {
        Loaded::Absent => Ok(RefFile::Absent),
        Loaded::TooLong(_) | Loaded::NotFile => Ok(RefFile::Bad),
        Loaded::Bytes(bytes) => Ok(ref_file(bytes.as_slice())),
    }
}

/// Returns the content of a ref's file with these bytes: `Bad` unless they are 64 lower-case
/// hexadecimal digits and a newline.
#[tactic(auto, using(crate::proofs::Files::too_short))]
pub fn ref_file(bytes: &[u8]) -> RefFile
    ensures { result ≡ ref_file bytes.now }
{
    if bytes.len() < DIGEST_DIGITS {
        return RefFile::Bad;
    }
    let (digits, end) = bytes.split_at(DIGEST_DIGITS);
    if end != b"\n".as_slice() {
        return RefFile::Bad;
    }
    match Digest::parse(digits) {
        Ok(digest) => RefFile::Digest(digest),
        Err(_) => RefFile::Bad,
    }
}
