//! Updating refs.
ghost use Rattle.std.specs.Prelude.{◌≡◌, Bool, true, IfOk};
ghost use Rattle.fp_small.specs.Config.{name_of};
ghost use Rattle.fp_small.specs.Order.{has_name};
ghost use Rattle.fp_small.specs.declared.state.Layout.TheVariants.{Two};
ghost use Rattle.ost_walk.specs.Ends.{around};
ghost use Rattle.dep_states.specs.After.{IsGood};
ghost use Rattle.op_change.specs.Applied.{Brings};
ghost use Rattle.fl_change.specs.Answer.{each_over};
ghost use Rattle.fl_change.specs.Performs.{Acts, Rests};
ghost use Rattle.fl_change.specs.Refs.{update_over, update_all_over, target_over, updated_from, skipped, is_no_offer as no_offer};

use crate::end::RunEnd;
use crate::finding::{copy_remote, known_remote, origin_of};
use crate::installing::{bring_target, do_ops};
use dep_states::Opened;
use dep_switch::find_ref;
use fl_lines::skipped_line;
use fl_plan::{ops, targets};
use fp_host::{Host, Remotes};
use fp_name::RefName;
use fp_small::{Refusal, RemoteRow};
use ost_walk::PullEnd;
use std::alloc::Global;
use std::thread::Threads;

/// Updates one ref from the remote that it comes from. Errs with `NotInstalled` if it isn't
/// deployed, and with `NoSuchRemote` if that remote is gone.
pub(crate) fn update_one<H: Host, R: Remotes>(
    rt: &(impl Threads + Sync),
    alloc: Global,
    host: &mut H,
    remotes: &mut R,
    acted: &mut bool,
    opened: Opened,
    name: &RefName,
) -> Result<Opened, RunEnd>
    requires good { IsGood opened }
    requires layout { opened.layout ≡ Two }
    ensures good { IfOk result IsGood }
    ensures layout { IfOk result (λ o. o.layout ≡ Two) }
    ensures acts { Acts (Rests opened) Brings (update_over name.now)
        opened acted.old acted.new result
        (around H.Host R.Remotes host.old remotes.old)
        (around H.Host R.Remotes host.new remotes.new) }
{
    let origin = origin_of(opened.state(), name)?;
    let remote = known_remote(opened.state(), &origin)?;
    bring_target(rt, alloc, host, remotes, acted, opened, &remote, name)
}

/// Updates all deployed refs: first the runtimes, then the applications.
pub(crate) fn update_all<H: Host, R: Remotes>(
    rt: &(impl Threads + Sync),
    alloc: Global,
    host: &mut H,
    remotes: &mut R,
    acted: &mut bool,
    opened: Opened,
) -> Result<Opened, RunEnd>
    requires good { IsGood opened }
    requires layout { opened.layout ≡ Two }
    ensures good { IfOk result IsGood }
    ensures layout { IfOk result (λ o. o.layout ≡ Two) }
    ensures acts { Acts (Rests opened) Brings update_all_over opened acted.old acted.new result
        (around H.Host R.Remotes host.old remotes.old)
        (around H.Host R.Remotes host.new remotes.new) }
{
    let names = targets(alloc, opened.state(), None)?;
    update_each(rt, alloc, host, remotes, acted, opened, names.as_slice())
}

/// Updates these refs, one after another up to the first that is refused.
fn update_each<H: Host, R: Remotes>(
    rt: &(impl Threads + Sync),
    alloc: Global,
    host: &mut H,
    remotes: &mut R,
    acted: &mut bool,
    opened: Opened,
    names: &[RefName],
) -> Result<Opened, RunEnd>
    requires good { IsGood opened }
    requires layout { opened.layout ≡ Two }
    ensures good { IfOk result IsGood }
    ensures layout { IfOk result (λ o. o.layout ≡ Two) }
    ensures acts { Acts (Rests opened) Brings (each_over target_over names.now)
        opened acted.old acted.new result
        (around H.Host R.Remotes host.old remotes.old)
        (around H.Host R.Remotes host.new remotes.new) }
{
    let mut current = opened;
    for name in names {
        current = update_target(rt, alloc, host, remotes, acted, current, name)?;
    }
    Ok(current)
}

/// Updates one ref in an update of all, and skips it if the remote that it comes from is gone. Does
/// nothing if the ref isn't deployed.
fn update_target<H: Host, R: Remotes>(
    rt: &(impl Threads + Sync),
    alloc: Global,
    host: &mut H,
    remotes: &mut R,
    acted: &mut bool,
    opened: Opened,
    name: &RefName,
) -> Result<Opened, RunEnd>
    requires good { IsGood opened }
    requires layout { opened.layout ≡ Two }
    ensures good { IfOk result IsGood }
    ensures layout { IfOk result (λ o. o.layout ≡ Two) }
    ensures acts { Acts (Rests opened) Brings (target_over name.now)
        opened acted.old acted.new result
        (around H.Host R.Remotes host.old remotes.old)
        (around H.Host R.Remotes host.new remotes.new) }
{
    let origin = match find_ref(opened.state().refs.as_slice(), name) {
        Some(row) => row.origin.copy()?,
        None => return Ok(opened),
    };
    match copy_remote(opened.state(), &origin)? {
        Some(remote) => update_from(rt, alloc, host, remotes, acted, opened, &remote, name),
        None => skip(alloc, host, remotes, opened, name),
    }
}

/// Returns whether the refusal is that a remote doesn't offer a ref.
fn is_no_offer(refusal: &Refusal) -> bool
    ensures { result ≡ no_offer refusal.now }
{
    matches!(refusal, Refusal::NoSuchRef { .. })
}

/// Updates one ref from the remote in an update of all, and skips it if the remote doesn't offer
/// it.
fn update_from<H: Host, R: Remotes>(
    rt: &(impl Threads + Sync),
    alloc: Global,
    host: &mut H,
    remotes: &mut R,
    acted: &mut bool,
    opened: Opened,
    remote: &RemoteRow,
    name: &RefName,
) -> Result<Opened, RunEnd>
    requires good { IsGood opened }
    requires layout { opened.layout ≡ Two }
    requires remote { has_name name_of opened.remotes remote.now.name ≡ true }
    ensures good { IfOk result IsGood }
    ensures layout { IfOk result (λ o. o.layout ≡ Two) }
    ensures acts { Acts (Rests opened) Brings (updated_from remote.now name.now)
        opened acted.old acted.new result
        (around H.Host R.Remotes host.old remotes.old)
        (around H.Host R.Remotes host.new remotes.new) }
{
    match ops(alloc, host, remotes, opened.state(), remote, name) {
        Ok(plan) => do_ops(rt, alloc, host, remotes, acted, opened, plan.as_slice()),
        Err(PullEnd::Refused(refusal)) => {
            if is_no_offer(&refusal) {
                skip(alloc, host, remotes, opened, name)
            } else {
                Err(RunEnd::Refused(refusal))
            }
        }
        Err(PullEnd::HostFault) => Err(RunEnd::Fault),
        Err(PullEnd::RemoteFault) => Err(RunEnd::RemoteFault),
        Err(PullEnd::NoMemory) => Err(RunEnd::NoMemory),
    }
}

/// Prints that a ref is skipped, and does no operation.
fn skip<H: Host, R: Remotes>(
    alloc: Global,
    host: &mut H,
    remotes: &mut R,
    opened: Opened,
    name: &RefName,
) -> Result<Opened, RunEnd>
    requires good { IsGood opened }
    requires layout { opened.layout ≡ Two }
    ensures good { IfOk result IsGood }
    ensures layout { IfOk result (λ o. o.layout ≡ Two) }
    ensures acts { (acted : Bool) → Acts (Rests opened) Brings (λ held x. skipped name.now)
        opened acted acted result
        (around H.Host R.Remotes host.old remotes.old)
        (around H.Host R.Remotes host.new remotes.new) }
{
    let line = skipped_line(alloc, name)?;
    host.say(line.as_str().as_bytes())?;
    Ok(opened)
}
