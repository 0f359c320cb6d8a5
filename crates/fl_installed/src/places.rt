//! The places where metadata is looked up.
ghost use Rattle.std.specs.Prelude.{◌≡◌, None, IfOk};
ghost use Rattle.fp_small.specs.Places.{repo};
ghost use Rattle.ost_model.specs.Standing.{metadata_name};

use fp_host::Path;
use fp_small::repo_path;
use ost_walk::Places;
use std::alloc::{AllocError, Global};

/// Returns the places with the installation's store and no remote.
pub(crate) fn store_alone(alloc: Global) -> Result<Places, AllocError>
    ensures { IfOk result (λ places. (places.root ≡ repo) × (places.url ≡ None)) }
{
    Ok(Places {
        root: repo_path(alloc)?,
        url: None,
    })
}

/// Returns the path of the file `metadata` in a commit.
pub(crate) fn metadata_path(alloc: Global) -> Result<Path, AllocError>
    ensures { IfOk result (λ path. path ≡ metadata_name) }
{
    Path::root(alloc).child("metadata")
}
