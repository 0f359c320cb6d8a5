//! The content of files in the installation's store.
ghost use Rattle.std.specs.Prelude.{◌≡◌, IfOk, IsErrOf};
ghost use Rattle.fp_base.specs.declared.object.ObjKind.TheVariants as kinds;
ghost use Rattle.fp_host.specs.OverHost.{ChangesNothing, FailsAlone};
ghost use Rattle.fp_small.specs.Places.{repo};
ghost use Rattle.ost_model.specs.Objects.{Have};
ghost use Rattle.ost_model.specs.Remotes.{Stores};
ghost use Rattle.fl_export.specs.Trees as spec;

use fp_base::{Blob, ObjKind};
use fp_host::{Host, HostEnd};
use fp_name::Digest;
use fp_small::repo_path;
use ost_store::{Got, get, read_within};
use std::alloc::Global;

/// The maximum length of an exported desktop file in bytes, 1 MiB.
const MOST_BYTES: u64 = 1024 * 1024;

/// Reads the content of a file object; returns `None` if it is missing, a symlink or longer than 1
/// MiB. Changes nothing.
pub(crate) fn read_short<H: Host>(
    alloc: Global,
    host: &mut H,
    digest: &Digest,
) -> Result<Option<Blob>, HostEnd>
    ensures unchanged { ChangesNothing H.Host host.old host.new }
    ensures tells { (have : Have) → Stores repo (H.moments host.old) have
        → IfOk result (λ bytes. bytes ≡ spec.short_content (have digest.now kinds.File)) }
    ensures fault_has_cause { FailsAlone H.Host host.old host.new (IsErrOf result HostEnd.Fault) }
{
    let root = repo_path(alloc)?;
    read_within(alloc, host, &root, digest, MOST_BYTES)
}

/// Returns whether the object exists and is a regular file. Changes nothing.
pub(crate) fn is_file<H: Host>(
    alloc: Global,
    host: &mut H,
    digest: &Digest,
) -> Result<bool, HostEnd>
    ensures unchanged { ChangesNothing H.Host host.old host.new }
    ensures tells { (have : Have) → Stores repo (H.moments host.old) have
        → IfOk result (λ is. is ≡ spec.is_file (have digest.now kinds.File)) }
    ensures fault_has_cause { FailsAlone H.Host host.old host.new (IsErrOf result HostEnd.Fault) }
{
    let root = repo_path(alloc)?;
    match get(alloc, host, &root, digest, ObjKind::File, MOST_BYTES)? {
        Got::File { .. } | Got::TooLong(_) => Ok(true),
        _ => Ok(false),
    }
}
