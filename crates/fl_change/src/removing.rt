//! Uninstalling refs.
ghost use Rattle.std.specs.Prelude.{◌≡◌, ◌≢◌, None, IfOk};
ghost use Rattle.fp_small.specs.declared.state.Layout.TheVariants.{Two};
ghost use Rattle.ost_walk.specs.Ends.{around};
ghost use Rattle.dep_states.specs.After.{IsGood, row_at};
ghost use Rattle.fp_small.specs.declared.op.Op.TheVariants as ops;
ghost use Rattle.fl_change.specs.Answer.{each_over};
ghost use Rattle.fl_change.specs.Performs.{Acts, Rests, Just};
ghost use Rattle.fl_change.specs.Refs.{op_over, uninstall_over, unused_over, drop_over};
ghost use Rattle.fl_change.specs.Turns.{IsUninstall};

use crate::end::RunEnd;
use crate::finding::origin_of;
use crate::operation::do_op;
use dep_states::Opened;
use dep_switch::find_ref;
use fl_installed::{first_user, metas, points};
use fl_plan::unused_extended;
use fp_host::{Host, Remotes};
use fp_name::RefName;
use fp_small::{Op, Refusal};
use std::alloc::Global;
use std::thread::Threads;

/// Uninstalls a ref. Errs with `NotInstalled` if it isn't deployed, and with `RuntimeInUse` if a
/// deployed application names it as its runtime.
pub(crate) fn uninstall<H: Host, R: Remotes>(
    rt: &(impl Threads + Sync),
    alloc: Global,
    host: &mut H,
    remotes: &mut R,
    acted: &mut bool,
    opened: Opened,
    name: &RefName,
) -> Result<Opened, RunEnd>
    requires good { IsGood opened }
    requires layout { opened.layout ≡ Two }
    ensures good { IfOk result IsGood }
    ensures layout { IfOk result (λ o. o.layout ≡ Two) }
    ensures acts { Acts (Rests opened) (Just (ops.Uninstall name.now))
        (uninstall_over name.now) opened acted.old acted.new result
        (around H.Host R.Remotes host.old remotes.old)
        (around H.Host R.Remotes host.new remotes.new) }
{
    origin_of(opened.state(), name)?;
    match first_user(alloc, host, opened.state(), name)? {
        Some(app) => Err(RunEnd::Refused(Refusal::RuntimeInUse {
            runtime: name.copy()?,
            app,
        })),
        None => take_away(rt, alloc, host, remotes, acted, opened, name),
    }
}

/// Uninstalls a deployed ref.
fn take_away<H: Host, R: Remotes>(
    rt: &(impl Threads + Sync),
    alloc: Global,
    host: &mut H,
    remotes: &mut R,
    acted: &mut bool,
    opened: Opened,
    name: &RefName,
) -> Result<Opened, RunEnd>
    requires good { IsGood opened }
    requires layout { opened.layout ≡ Two }
    requires deployed { row_at opened name.now ≢ None }
    ensures good { IfOk result IsGood }
    ensures layout { IfOk result (λ o. o.layout ≡ Two) }
    ensures acts { Acts (Rests opened) (Just (ops.Uninstall name.now))
        (op_over (ops.Uninstall name.now)) opened acted.old acted.new result
        (around H.Host R.Remotes host.old remotes.old)
        (around H.Host R.Remotes host.new remotes.new) }
{
    let op = Op::Uninstall { name: name.copy()? };
    do_op(rt, alloc, host, remotes, acted, opened, &op)
}

/// Uninstalls the runtimes that no application, no pin and no extension point keeps.
pub(crate) fn uninstall_unused<H: Host, R: Remotes>(
    rt: &(impl Threads + Sync),
    alloc: Global,
    host: &mut H,
    remotes: &mut R,
    acted: &mut bool,
    opened: Opened,
) -> Result<Opened, RunEnd>
    requires good { IsGood opened }
    requires layout { opened.layout ≡ Two }
    ensures good { IfOk result IsGood }
    ensures layout { IfOk result (λ o. o.layout ≡ Two) }
    ensures acts { Acts (Rests opened) IsUninstall unused_over opened acted.old acted.new result
        (around H.Host R.Remotes host.old remotes.old)
        (around H.Host R.Remotes host.new remotes.new) }
{
    let metas = metas(alloc, host, opened.state())?;
    let points = points(alloc, host, opened.state())?;
    let names = unused_extended(alloc, opened.state(), metas.as_slice(), points.as_slice())?;
    drop_each(rt, alloc, host, remotes, acted, opened, names.as_slice())
}

/// Uninstalls these refs one after another, and passes over those that aren't deployed.
fn drop_each<H: Host, R: Remotes>(
    rt: &(impl Threads + Sync),
    alloc: Global,
    host: &mut H,
    remotes: &mut R,
    acted: &mut bool,
    opened: Opened,
    names: &[RefName],
) -> Result<Opened, RunEnd>
    requires good { IsGood opened }
    requires layout { opened.layout ≡ Two }
    ensures good { IfOk result IsGood }
    ensures layout { IfOk result (λ o. o.layout ≡ Two) }
    ensures acts { Acts (Rests opened) IsUninstall (each_over drop_over names.now)
        opened acted.old acted.new result
        (around H.Host R.Remotes host.old remotes.old)
        (around H.Host R.Remotes host.new remotes.new) }
{
    let mut current = opened;
    for name in names {
        current = drop_one(rt, alloc, host, remotes, acted, current, name)?;
    }
    Ok(current)
}

/// Uninstalls a ref; does nothing if it isn't deployed.
fn drop_one<H: Host, R: Remotes>(
    rt: &(impl Threads + Sync),
    alloc: Global,
    host: &mut H,
    remotes: &mut R,
    acted: &mut bool,
    opened: Opened,
    name: &RefName,
) -> Result<Opened, RunEnd>
    requires good { IsGood opened }
    requires layout { opened.layout ≡ Two }
    ensures good { IfOk result IsGood }
    ensures layout { IfOk result (λ o. o.layout ≡ Two) }
    ensures acts { Acts (Rests opened) IsUninstall (drop_over name.now)
        opened acted.old acted.new result
        (around H.Host R.Remotes host.old remotes.old)
        (around H.Host R.Remotes host.new remotes.new) }
{
    match find_ref(opened.state().refs.as_slice(), name) {
        Some(_) => take_away(rt, alloc, host, remotes, acted, opened, name),
        None => Ok(opened),
    }
}
