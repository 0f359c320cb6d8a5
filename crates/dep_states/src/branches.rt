//! The branch directories of an installation, and their refs.
ghost use Rattle.std.specs.Prelude.{IfOk, IsErrOf};
ghost use Rattle.fp_host.specs.OverHost.{AtReturn, ChangesNothing, FailsAlone};
ghost use Rattle.dep_states.specs.Branches.{AreBranches, IsRefAt};

use crate::paths::{apps_path, runtimes_path};
use fp_host::{Host, HostEnd, Path};
use fp_name::{NameError, RefName};
use ost_refs::paths_below;
use std::alloc::{AllocError, Global};

/// The number of elements of a branch directory's path below `app` or `runtime`.
const BRANCH_DEPTH: usize = 3;

/// Returns the paths three levels below `app` and `runtime`, where branch directories may be.
/// Changes nothing.
pub fn branch_paths<H: Host>(alloc: Global, host: &mut H) -> Result<Vec<Path>, HostEnd>
    ensures unchanged { ChangesNothing H.Host host.old host.new }
    ensures tells { IfOk result (λ paths. AtReturn H.Host host.old host.new
        (λ u w. AreBranches u paths.items)) }
    ensures fault_has_cause { FailsAlone H.Host host.old host.new (IsErrOf result HostEnd.Fault) }
{
    let apps = apps_path(alloc)?;
    let runtimes = runtimes_path(alloc)?;
    let mut paths = paths_below(alloc, host, apps, BRANCH_DEPTH)?;
    let mut more = paths_below(alloc, host, runtimes, BRANCH_DEPTH)?;
    paths.append(&mut more)?;
    Ok(paths)
}

/// Returns the ref of the branch directory with this path, or `None` if the path isn't that of a
/// ref.
pub fn ref_at(alloc: Global, path: &Path) -> Result<Option<RefName>, AllocError>
    ensures { IfOk result (IsRefAt path.now) }
{
    match RefName::parse(alloc, path.text().as_bytes()) {
        Ok(name) => Ok(Some(name)),
        Err(NameError::Bad) => Ok(None),
        Err(NameError::NoMemory) => Err(AllocError),
    }
}
