//! The file `metadata` in the directory of a deployed commit.
ghost use Rattle.std.specs.Prelude.{◌≡◌, IfOk, IsErrOf};
ghost use Rattle.fp_host.specs.OverHost.{ChangesNothing, FailsAlone};
ghost use Rattle.fl_installed.specs.Deployed as spec;

use dep_switch::commit_path;
use fp_base::Blob;
use fp_host::{Host, HostEnd, Path};
use fp_name::{Digest, RefName};
use fp_small::{Loaded, load};
use ost_model::MOST_METADATA_FILE_BYTES;
use std::alloc::{AllocError, Global};

/// Returns the path of the file `metadata` in the directory of a ref's commit.
fn metadata_path(alloc: Global, name: &RefName, commit: &Digest) -> Result<Path, AllocError>
    ensures { IfOk result (λ path. path ≡ spec.metadata_path name.now commit.now) }
{
    commit_path(alloc, name, commit)?.child("metadata")
}

/// Returns the loaded bytes, or `None` if the path wasn't a file of at most the maximum length.
fn bytes_loaded(loaded: Loaded) -> Option<Blob>
    ensures { result ≡ spec.bytes_loaded loaded }
{
    match loaded {
        Loaded::Bytes(bytes) => Some(bytes),
        Loaded::Absent | Loaded::TooLong(_) | Loaded::NotFile => None,
    }
}

/// Reads the file `metadata` in the directory of a ref's commit. Returns `None` if it isn't a file
/// of at most 1 MiB; a longer one isn't read. Changes nothing.
pub(crate) fn deployed_file<H: Host>(
    alloc: Global,
    host: &mut H,
    name: &RefName,
    commit: &Digest,
) -> Result<Option<Blob>, HostEnd>
    ensures unchanged { ChangesNothing H.Host host.old host.new }
    ensures tells { (files : spec.DeployedFiles) → spec.Deploys (H.moments host.old) files
        → IfOk result (λ file. file ≡ files name.now commit.now) }
    ensures fault_has_cause { FailsAlone H.Host host.old host.new (IsErrOf result HostEnd.Fault) }
{
    let path = metadata_path(alloc, name, commit)?;
    let loaded = load(alloc, host, &path, MOST_METADATA_FILE_BYTES)?;
    Ok(bytes_loaded(loaded))
}
