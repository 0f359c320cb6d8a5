//! Rolling a ref back.
ghost use Rattle.std.specs.Prelude.{◌≡◌, IfOk};
ghost use Rattle.fp_small.specs.declared.state.Layout.TheVariants.{Two};
ghost use Rattle.ost_walk.specs.Ends.{around};
ghost use Rattle.dep_states.specs.After.{IsGood};
ghost use Rattle.fl_change.specs.Performs.{Acts, Rests};
ghost use Rattle.fl_change.specs.Refs.{rollback_over};
ghost use Rattle.fl_change.specs.Turns.{IsRollback};

use crate::end::RunEnd;
use crate::finding::{previous_of, try_runtime};
use crate::operation::do_op;
use dep_states::Opened;
use fl_installed::described;
use fp_host::{Host, Remotes};
use fp_name::RefName;
use fp_small::Op;
use std::alloc::Global;
use std::thread::Threads;

/// Rolls a ref back to its previous commit. Errs with `NotInstalled` if the ref isn't deployed,
/// with `NoPrevious` if it has no previous commit, with the refusal of that commit's metadata, and
/// with `RuntimeMissing` if this metadata names a runtime that isn't deployed; in this order.
pub(crate) fn roll_back<H: Host, R: Remotes>(
    rt: &(impl Threads + Sync),
    alloc: Global,
    host: &mut H,
    remotes: &mut R,
    acted: &mut bool,
    opened: Opened,
    name: &RefName,
) -> Result<Opened, RunEnd>
    requires good { IsGood opened }
    requires layout { opened.layout ≡ Two }
    ensures good { IfOk result IsGood }
    ensures layout { IfOk result (λ o. o.layout ≡ Two) }
    ensures acts { Acts (Rests opened) (IsRollback name.now) (rollback_over name.now)
        opened acted.old acted.new result
        (around H.Host R.Remotes host.old remotes.old)
        (around H.Host R.Remotes host.new remotes.new) }
{
    let commit = previous_of(opened.state(), name)?;
    match described(alloc, host, name, &commit)? {
        Ok(meta) => {
            try_runtime(opened.state(), &meta.runtime)?;
            let op = Op::Rollback {
                name: name.copy()?,
                commit,
            };
            do_op(rt, alloc, host, remotes, acted, opened, &op)
        }
        Err(refusal) => Err(RunEnd::Refused(refusal)),
    }
}
