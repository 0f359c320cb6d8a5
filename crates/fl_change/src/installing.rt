//! Installing a ref, and doing the operations of a plan.
ghost use Rattle.std.specs.Prelude.{◌≡◌, true, IfOk};
ghost use Rattle.std.specs.List.{AllByRecursion};
ghost use Rattle.fp_small.specs.Config.{name_of};
ghost use Rattle.fp_small.specs.Order.{has_name};
ghost use Rattle.fp_small.specs.declared.state.Layout.TheVariants.{Two};
ghost use Rattle.ost_walk.specs.Ends.{around};
ghost use Rattle.dep_states.specs.After.{IsGood};
ghost use Rattle.fl_plan.specs.Allowed.{AreAllowed, IsComing};
ghost use Rattle.op_change.specs.Applied.{Brings};
ghost use Rattle.fl_change.specs.Performs.{Acts, Rests};
ghost use Rattle.fl_change.specs.Refs.{ops_over, from_remote, install_over};

use crate::end::RunEnd;
use crate::finding::{known_remote, try_new};
use crate::operation::do_op;
use dep_states::Opened;
use fl_plan::ops;
use fp_host::{Host, Remotes};
use fp_name::{RefName, RemoteName};
use fp_small::{Op, RemoteRow};
use std::alloc::Global;
use std::thread::Threads;

/// Does operations that bring commits, one after another up to the first that is refused.
pub(crate) fn do_ops<H: Host, R: Remotes>(
    rt: &(impl Threads + Sync),
    alloc: Global,
    host: &mut H,
    remotes: &mut R,
    acted: &mut bool,
    opened: Opened,
    ops: &[Op],
) -> Result<Opened, RunEnd>
    requires good { IsGood opened }
    requires layout { opened.layout ≡ Two }
    requires allowed { AreAllowed opened ops.now }
    requires coming { AllByRecursion IsComing ops.now }
    ensures good { IfOk result IsGood }
    ensures layout { IfOk result (λ o. o.layout ≡ Two) }
    ensures acts { Acts (Rests opened) Brings (ops_over ops.now) opened acted.old acted.new result
        (around H.Host R.Remotes host.old remotes.old)
        (around H.Host R.Remotes host.new remotes.new) }
{
    let mut current = opened;
    for op in ops {
        current = do_op(rt, alloc, host, remotes, acted, current, op)?;
    }
    Ok(current)
}

/// Installs or updates a ref from a remote, with the runtime and the extensions that the plan has.
pub(crate) fn bring_target<H: Host, R: Remotes>(
    rt: &(impl Threads + Sync),
    alloc: Global,
    host: &mut H,
    remotes: &mut R,
    acted: &mut bool,
    opened: Opened,
    remote: &RemoteRow,
    name: &RefName,
) -> Result<Opened, RunEnd>
    requires good { IsGood opened }
    requires layout { opened.layout ≡ Two }
    requires remote { has_name name_of opened.remotes remote.now.name ≡ true }
    ensures good { IfOk result IsGood }
    ensures layout { IfOk result (λ o. o.layout ≡ Two) }
    ensures acts { Acts (Rests opened) Brings (from_remote remote.now name.now)
        opened acted.old acted.new result
        (around H.Host R.Remotes host.old remotes.old)
        (around H.Host R.Remotes host.new remotes.new) }
{
    let plan = ops(alloc, host, remotes, opened.state(), remote, name)?;
    do_ops(rt, alloc, host, remotes, acted, opened, plan.as_slice())
}

/// Installs a ref from the remote with this name. Errs with `NoSuchRemote` if the state has no such
/// remote, and with `AlreadyInstalled` if the ref is deployed.
pub(crate) fn install<H: Host, R: Remotes>(
    rt: &(impl Threads + Sync),
    alloc: Global,
    host: &mut H,
    remotes: &mut R,
    acted: &mut bool,
    opened: Opened,
    remote: &RemoteName,
    name: &RefName,
) -> Result<Opened, RunEnd>
    requires good { IsGood opened }
    requires layout { opened.layout ≡ Two }
    ensures good { IfOk result IsGood }
    ensures layout { IfOk result (λ o. o.layout ≡ Two) }
    ensures acts { Acts (Rests opened) Brings (install_over remote.now name.now)
        opened acted.old acted.new result
        (around H.Host R.Remotes host.old remotes.old)
        (around H.Host R.Remotes host.new remotes.new) }
{
    let row = known_remote(opened.state(), remote)?;
    try_new(opened.state(), name)?;
    bring_target(rt, alloc, host, remotes, acted, opened, &row, name)
}
