//! Setting up the store, and checking out a commit that was pulled.
ghost use Rattle.std.specs.Prelude.{◌≡◌, OnOk, IsErrOf};
ghost use Rattle.fp_host.specs.OverHost.{AtEachMoment, AtReturn, FailsOnly};
ghost use Rattle.fp_small.specs.Places.{repo};
ghost use Rattle.fp_small.specs.declared.refusal.Refusal.{Refusal};
ghost use Rattle.ost_checkout.specs.Checkout.{HasReserved};
ghost use Rattle.dep_states.specs.Names.{commit_dir};
ghost use Rattle.op_change.specs.BringEnds.{of_checkout};
ghost use Rattle.op_change.specs.Furnishing.{Furnishes, WasFurnished, CanFurnish};

use crate::laying_out::lay_out;
use crate::readying::ready_store;
use fp_host::{Host, Path};
use fp_name::{Digest, RefName};
use fp_small::Refusal;
use ost_checkout::CheckoutEnd;
use ost_walk::PullEnd;
use std::alloc::Global;

/// Converts the error of a checkout of this commit to that of a pull.
fn end_of(end: CheckoutEnd, commit: &Digest) -> PullEnd
    ensures { result ≡ of_checkout commit.now end }
{
    match end {
        CheckoutEnd::ReservedName => PullEnd::Refused(Refusal::ReservedName { commit: *commit }),
        CheckoutEnd::Fault => PullEnd::HostFault,
        CheckoutEnd::NoMemory => PullEnd::NoMemory,
    }
}

/// Sets up the store's `refs/heads` and `config`, and checks the commit out into `folder` unless
/// `kept`. Errs with `Refused` if the commit's root directory has an entry `deploy`.
pub(crate) fn furnish<H: Host>(
    alloc: Global,
    host: &mut H,
    name: &RefName,
    commit: &Digest,
    folder: &Path,
    kept: bool,
) -> Result<(), PullEnd>
    requires place { folder.now ≡ commit_dir name.now commit.now }
    ensures any_moment { AtEachMoment H.Host host.old host.new
        (Furnishes commit.now (commit_dir name.now commit.now) kept) }
    ensures on_success { OnOk result (AtReturn H.Host host.old host.new
        (WasFurnished commit.now (commit_dir name.now commit.now) kept)) }
    ensures reserved { (r : Refusal) → IsErrOf result (PullEnd.Refused r)
        → AtReturn H.Host host.old host.new (λ u w. HasReserved repo commit.now w) }
    ensures no_remote_fault { IsErrOf result PullEnd.RemoteFault → ⊥ }
    ensures fault_has_cause { FailsOnly H.Host host.old host.new
        (CanFurnish commit.now (commit_dir name.now commit.now) kept) (IsErrOf result PullEnd.HostFault) }
{
    ready_store(alloc, host)?;
    if kept {
        return Ok(());
    }
    match lay_out(alloc, host, commit, folder) {
        Ok(()) => Ok(()),
        Err(end) => Err(end_of(end, commit)),
    }
}
