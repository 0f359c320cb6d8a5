//! Finding the paths at one depth below a directory.
ghost use Rattle.std.specs.Prelude.{IfOk, IsErrOf};
ghost use Rattle.fp_host.specs.OverHost.{AtReturn, ChangesNothing, FailsAlone};
ghost use Rattle.ost_refs.specs.Walks.{AreBelow, AreLevel};

use fp_host::{Host, HostEnd, Path};
use fp_small::{add_names, list_of_one, names_in};
use std::alloc::Global;

/// Returns the paths directly in these directories.
fn children<H: Host>(alloc: Global, host: &mut H, folders: &[Path]) -> Result<Vec<Path>, HostEnd>
    ensures unchanged { ChangesNothing H.Host host.old host.new }
    ensures tells { IfOk result (λ paths. AtReturn H.Host host.old host.new
        (λ u w. AreBelow folders.now u paths.items)) }
    ensures fault_has_cause { FailsAlone H.Host host.old host.new (IsErrOf result HostEnd.Fault) }
{
    let mut paths = Vec::new(alloc);
    for folder in folders {
        let names = names_in(alloc, host, folder)?;
        add_names(folder, names.as_slice(), &mut paths)?;
    }
    Ok(paths)
}

/// Returns the existing paths that have `depth` more elements than that of the directory, whatever
/// is at them. Changes nothing.
pub fn paths_below<H: Host>(
    alloc: Global,
    host: &mut H,
    folder: Path,
    depth: usize,
) -> Result<Vec<Path>, HostEnd>
    ensures unchanged { ChangesNothing H.Host host.old host.new }
    ensures tells { IfOk result (λ paths. AtReturn H.Host host.old host.new
        (λ u w. AreLevel depth folder u paths.items)) }
    ensures fault_has_cause { FailsAlone H.Host host.old host.new (IsErrOf result HostEnd.Fault) }
{
    let mut paths = list_of_one(alloc, folder)?;
    for _level in 0..depth {
        paths = children(alloc, host, &paths)?;
    }
    Ok(paths)
}
