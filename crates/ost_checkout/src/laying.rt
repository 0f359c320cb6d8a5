//! The checkout of a commit.
ghost use Rattle.std.specs.Prelude.{◌≡◌, OnOk, IsErrOf};
ghost use Rattle.fp_host.specs.OverHost.{AtEachMoment, AtReturn, FailsOnly};
ghost use Rattle.fp_small.specs.Unsynced.{MakesNoFile};
ghost use Rattle.ost_checkout.specs.Checkout.{ChecksOut, WasCheckedOut, HasReserved, CanCheckOut};

use crate::ends::CheckoutEnd;
use crate::listing::list_rows;
use crate::placing::put_rows;
use crate::rows::has_path;
use fp_host::{Host, Path};
use fp_name::Digest;
use std::alloc::Global;

/// Checks out a commit of the store at `root` into the directory `to`: directories are made, files
/// are hard links to the objects' files, and symlinks are made with the objects' texts. All paths
/// are listed before the first is made. Syncs nothing, follows no symlinks, and ignores the modes
/// of the commit's directories. Errs with `ReservedName` if the commit's root directory has an
/// entry `deploy`; then nothing changed. After any other error, some of the paths may have been
/// made. Condition: `to` is absent, its parent is a directory, no object of the store has its path
/// at or below `to`, and the commit has no fault in the store.
pub fn checkout<H: Host>(
    alloc: Global,
    host: &mut H,
    root: &Path,
    commit: &Digest,
    to: &Path,
) -> Result<(), CheckoutEnd>
    // A crash at any moment leaves in the directory some of the commit's paths, each as in the
    // commit. Nothing else changes.
    ensures any_moment { AtEachMoment H.Host host.old host.new
        (ChecksOut root.now commit.now to.now) }
    ensures on_success { OnOk result (AtReturn H.Host host.old host.new
        (WasCheckedOut root.now commit.now to.now)) }
    ensures reserved { IsErrOf result CheckoutEnd.ReservedName
        → AtReturn H.Host host.old host.new (λ u w. (w ≡ u) × HasReserved root.now commit.now u) }
    // Nothing is synced, and no file is created.
    ensures unsynced { AtReturn H.Host host.old host.new MakesNoFile }
    ensures fault_has_cause { FailsOnly H.Host host.old host.new
        (CanCheckOut root.now commit.now to.now) (IsErrOf result CheckoutEnd.Fault) }
{
    let rows = list_rows(alloc, host, root, commit, to)?;
    let reserved = to.child("deploy")?;
    if has_path(&rows, &reserved) {
        return Err(CheckoutEnd::ReservedName);
    }
    Ok(put_rows(alloc, host, root, &rows)?)
}
