//! Making changes to an opened installation.
ghost use Rattle.std.specs.Prelude.{◌≡◌, Option, false, IfOk};
ghost use Rattle.fp_host.specs.OverHost.{AtReturn};
ghost use Rattle.fp_small.specs.declared.state.Layout.TheVariants.{Two};
ghost use Rattle.ost_walk.specs.Ends.{around};
ghost use Rattle.fp_small.specs.declared.refusal.Refusal.{Refusal as SomeRefusal};
ghost use Rattle.fp_small.specs.declared.op.Op.{Op as SomeOp};
ghost use Rattle.fp_small.specs.declared.op.Op.TheVariants as ops;
ghost use Rattle.dep_states.specs.After.{IsGood};
ghost use Rattle.dep_states.specs.Sound.{Opens};
ghost use Rattle.fl_change.specs.Answer.{op_answer, unless};
ghost use Rattle.fl_change.specs.Ends.{IsAsked, IsPlain};
ghost use Rattle.fl_change.specs.Current.{updates_all};
ghost use Rattle.fl_change.specs.Performs.{Acts, Rests, Just, SettlesOver};
ghost use Rattle.fl_change.specs.Turns.{migrating, change_over, in_turn, changing, OpsOf, OpsOfAny, MayDo};

use crate::current::{is_idle, is_update_of_all};
use crate::end::RunEnd;
use crate::going_back::roll_back;
use crate::installing::install;
use crate::operation::do_op;
use crate::overriding::{change_override, reset};
use crate::removing::{uninstall, uninstall_unused};
use crate::settings::{add_pin, add_remote, drop_pin, drop_remote, modify_remote};
use crate::updating::{update_all, update_one};
use dep_states::Opened;
use dep_tidy::tidy;
use fl_words::Change;
use fp_host::{Host, Remotes};
use fp_small::{Layout, Op};
use std::alloc::Global;
use std::thread::Threads;

/// Makes changes to an opened installation, one after another up to the first refusal. First tidies
/// the installation, and migrates it from layout 1. Skips all that for an update of all and nothing
/// else, if the layout is 2, `repo/tmp` is empty, and the remote of each deployed ref offers its
/// deployed commit. Sets `acted` once an operation was done and tidied after, and never clears it.
/// After an error, the installation must be opened again before anything else is done with it.
pub fn change_all<H: Host, R: Remotes>(
    rt: &(impl Threads + Sync),
    alloc: Global,
    host: &mut H,
    remotes: &mut R,
    acted: &mut bool,
    opened: Opened,
    changes: &[Change],
) -> Result<Opened, RunEnd>
    requires good { IsGood opened }
    // At each moment, the first pieces of the answer were printed, and a crash leaves the state
    // after a prefix of its operations, with at least those that these pieces acknowledge. After
    // success and after a refusal, `acted` is true exactly if it was before or an operation was
    // done.
    ensures acts { Acts (Opens opened) (MayDo changes.now) (changing changes.now)
        opened acted.old acted.new result
        (around H.Host R.Remotes host.old remotes.old)
        (around H.Host R.Remotes host.new remotes.new) }
    // Unless the changes are an update of all and nothing else, nothing is left to tidy after
    // success and after a refusal, even if no operation was done.
    ensures settles { updates_all changes.now ≡ false → AtReturn H.Host host.old host.new
        (SettlesOver (R.holds remotes.old) opened result) }
{
    if !is_update_of_all(changes) {
        return tidy_and_change(rt, alloc, host, remotes, acted, opened, changes);
    }
    if is_idle(alloc, host, remotes, opened.state())? {
        return Ok(opened);
    }
    tidy_and_change(rt, alloc, host, remotes, acted, opened, changes)
}

/// Tidies the installation, migrates it from layout 1, and makes the changes.
fn tidy_and_change<H: Host, R: Remotes>(
    rt: &(impl Threads + Sync),
    alloc: Global,
    host: &mut H,
    remotes: &mut R,
    acted: &mut bool,
    opened: Opened,
    changes: &[Change],
) -> Result<Opened, RunEnd>
    requires good { IsGood opened }
    ensures acts { Acts (Opens opened) (MayDo changes.now) (changing changes.now)
        opened acted.old acted.new result
        (around H.Host R.Remotes host.old remotes.old)
        (around H.Host R.Remotes host.new remotes.new) }
    ensures settles { AtReturn H.Host host.old host.new
        (SettlesOver (R.holds remotes.old) opened result) }
{
    let tidied = tidy(alloc, host, opened)?;
    let current = migrate(rt, alloc, host, remotes, acted, tidied)?;
    do_each(rt, alloc, host, remotes, acted, current, changes)
}

/// Migrates an installation of layout 1 to layout 2, and leaves one of layout 2 as it is.
fn migrate<H: Host, R: Remotes>(
    rt: &(impl Threads + Sync),
    alloc: Global,
    host: &mut H,
    remotes: &mut R,
    acted: &mut bool,
    opened: Opened,
) -> Result<Opened, RunEnd>
    requires good { IsGood opened }
    ensures good { IfOk result IsGood }
    ensures layout { IfOk result (λ o. o.layout ≡ Two) }
    ensures acts { Acts (Rests opened) (Just ops.Migrate) migrating
        opened acted.old acted.new result
        (around H.Host R.Remotes host.old remotes.old)
        (around H.Host R.Remotes host.new remotes.new) }
{
    match opened.state().layout {
        Layout::One => do_op(rt, alloc, host, remotes, acted, opened, &Op::Migrate),
        Layout::Two => Ok(opened),
    }
}

/// Makes the changes one after another, up to the first refusal.
fn do_each<H: Host, R: Remotes>(
    rt: &(impl Threads + Sync),
    alloc: Global,
    host: &mut H,
    remotes: &mut R,
    acted: &mut bool,
    opened: Opened,
    changes: &[Change],
) -> Result<Opened, RunEnd>
    requires good { IsGood opened }
    requires layout { opened.layout ≡ Two }
    ensures acts { Acts (Rests opened) (OpsOfAny changes.now) (in_turn changes.now)
        opened acted.old acted.new result
        (around H.Host R.Remotes host.old remotes.old)
        (around H.Host R.Remotes host.new remotes.new) }
{
    let mut current = opened;
    for change in changes {
        current = do_change(rt, alloc, host, remotes, acted, current, change)?;
    }
    Ok(current)
}

/// Makes one change, unless it is refused.
fn do_change<H: Host, R: Remotes>(
    rt: &(impl Threads + Sync),
    alloc: Global,
    host: &mut H,
    remotes: &mut R,
    acted: &mut bool,
    opened: Opened,
    change: &Change,
) -> Result<Opened, RunEnd>
    requires good { IsGood opened }
    requires layout { opened.layout ≡ Two }
    ensures good { IfOk result IsGood }
    ensures layout { IfOk result (λ o. o.layout ≡ Two) }
    ensures acts { Acts (Rests opened) (OpsOf change.now) (change_over change.now)
        opened acted.old acted.new result
        (around H.Host R.Remotes host.old remotes.old)
        (around H.Host R.Remotes host.new remotes.new) }
{
    match change {
        Change::Install { remote, name } => install(
            rt, alloc, host, remotes, acted, opened, remote, name,
        ),
        Change::UpdateAll => update_all(rt, alloc, host, remotes, acted, opened),
        Change::UpdateOne(name) => update_one(rt, alloc, host, remotes, acted, opened, name),
        Change::Uninstall(name) => uninstall(rt, alloc, host, remotes, acted, opened, name),
        Change::UninstallUnused => uninstall_unused(rt, alloc, host, remotes, acted, opened),
        Change::Rollback(name) => roll_back(rt, alloc, host, remotes, acted, opened, name),
        Change::OverrideReset { name } => reset(
            rt,
            alloc,
            host,
            remotes,
            acted,
            opened,
            name.as_text(),
        ),
        Change::Pin(pin) => {
            let asked = add_pin(opened.state(), pin);
            do_asked(rt, alloc, host, remotes, acted, opened, asked)
        }
        Change::Unpin(pin) => {
            let asked = drop_pin(opened.state(), pin);
            do_asked(rt, alloc, host, remotes, acted, opened, asked)
        }
        Change::RemoteAdd(row) => {
            let asked = add_remote(opened.state(), row);
            do_asked(rt, alloc, host, remotes, acted, opened, asked)
        }
        Change::RemoteModify(row) => {
            let asked = modify_remote(opened.state(), row);
            do_asked(rt, alloc, host, remotes, acted, opened, asked)
        }
        Change::OverrideChange { name, options } => {
            let asked = change_override(alloc, opened.state(), name, options);
            do_asked(rt, alloc, host, remotes, acted, opened, asked)
        }
        Change::RemoteDelete(name) => {
            let asked = drop_remote(opened.state(), name);
            do_asked(rt, alloc, host, remotes, acted, opened, asked)
        }
    }
}

/// Does the operation that a change asks for, unless the change was refused.
fn do_asked<H: Host, R: Remotes>(
    rt: &(impl Threads + Sync),
    alloc: Global,
    host: &mut H,
    remotes: &mut R,
    acted: &mut bool,
    opened: Opened,
    asked: Result<Op, RunEnd>,
) -> Result<Opened, RunEnd>
    requires good { IsGood opened }
    requires layout { opened.layout ≡ Two }
    requires plain { IfOk asked (IsPlain opened) }
    ensures good { IfOk result IsGood }
    ensures layout { IfOk result (λ o. o.layout ≡ Two) }
    ensures acts { (refusal : Option SomeRefusal) (op : SomeOp) → IsAsked refusal op asked
        → Acts (Rests opened) (Just op) (λ held x. unless refusal (op_answer op))
        opened acted.old acted.new result
        (around H.Host R.Remotes host.old remotes.old)
        (around H.Host R.Remotes host.new remotes.new) }
{
    let op = asked?;
    do_op(rt, alloc, host, remotes, acted, opened, &op)
}
