//! The paths that bringing a commit uses.
ghost use Rattle.std.specs.Prelude.{IfOk};
ghost use Rattle.op_change.specs.Places.{ArePlaces};

use dep_switch::commit_path;
use fp_host::Path;
use fp_name::{Digest, RefName};
use fp_small::repo_path;
use std::alloc::{AllocError, Global};

/// The paths that bringing a commit uses.
#[derive(Drop)]
pub(crate) struct Places {
    /// The installation's store, `repo`.
    pub(crate) repo: Path,
    /// The store's directory of temporary files, `repo/tmp`.
    pub(crate) tmp: Path,
    /// The pull's work directory `repo/tmp/pull`, which has its objects until all are checked.
    pub(crate) work: Path,
    /// The commit's directory.
    pub(crate) folder: Path,
}

impl Places {
    /// Returns the paths for this commit of the ref.
    pub(crate) fn of(alloc: Global, name: &RefName, commit: &Digest) -> Result<Places, AllocError>
        ensures { IfOk result (ArePlaces name.now commit.now) }
    {
        let repo = repo_path(alloc)?;
        let tmp = repo.child("tmp")?;
        let work = tmp.child("pull")?;
        let folder = commit_path(alloc, name, commit)?;
        Ok(Places {
            repo,
            tmp,
            work,
            folder,
        })
    }
}
