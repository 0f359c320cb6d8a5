//! The paths of an installation's store and of its temporary files.
ghost use Rattle.std.specs.Prelude.{◌≡◌, IfOk};
ghost use Rattle.fp_small.specs.Places.{repo, tmp};

use fp_host::Path;
use std::alloc::{AllocError, Global};

/// Returns the path of an installation's store, `repo`.
pub fn repo_path(alloc: Global) -> Result<Path, AllocError>
    ensures { IfOk result (λ path. path ≡ repo) }
{
    Path::root(alloc).child("repo")
}

/// Returns the path of the directory for temporary files, `repo/tmp`.
pub fn tmp_path(alloc: Global) -> Result<Path, AllocError>
    ensures { IfOk result (λ path. path ≡ tmp) }
{
    repo_path(alloc)?.child("tmp")
}
