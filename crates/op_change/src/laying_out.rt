//! Checking out a commit into its directory.
ghost use Rattle.std.specs.Prelude.{OnOk, IsErrOf};
ghost use Rattle.fp_host.specs.OverHost.{AtEachMoment, AtReturn, FailsOnly};
ghost use Rattle.fp_small.specs.Places.{repo};
ghost use Rattle.ost_checkout.specs.Checkout.{HasReserved};
ghost use Rattle.ost_checkout.specs.declared.ends.CheckoutEnd.TheVariants as ends;
ghost use Rattle.op_change.specs.LayingOut.{LaysOut, WasLaidOut, CanLayOut};

use fp_host::{Host, Path};
use fp_name::Digest;
use fp_small::{make_above, repo_path};
use ost_checkout::{CheckoutEnd, checkout};
use std::alloc::Global;

/// Checks out a commit of the installation's store into the directory `to`, and makes the missing
/// directories above it. Syncs nothing. Errs with `ReservedName` if the commit's root directory has
/// an entry `deploy`. Condition: `to` is absent, and the commit has no fault in the store.
pub(crate) fn lay_out<H: Host>(
    alloc: Global,
    host: &mut H,
    commit: &Digest,
    to: &Path,
) -> Result<(), CheckoutEnd>
    ensures any_moment { AtEachMoment H.Host host.old host.new (LaysOut commit.now to.now) }
    ensures on_success { OnOk result (AtReturn H.Host host.old host.new
        (WasLaidOut commit.now to.now)) }
    ensures reserved { IsErrOf result ends.ReservedName
        → AtReturn H.Host host.old host.new (λ u w. HasReserved repo commit.now w) }
    ensures fault_has_cause { FailsOnly H.Host host.old host.new
        (CanLayOut commit.now to.now) (IsErrOf result ends.Fault) }
{
    let root = repo_path(alloc)?;
    make_above(alloc, host, to)?;
    checkout(alloc, host, &root, commit, to)
}
