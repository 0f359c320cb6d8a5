//! Doing one operation, printing its line, and tidying after it.
ghost use Rattle.std.specs.Prelude.{◌≡◌, ◌⊎◌, ℕ, IfOk, IsErrOf, OnOk};
ghost use Rattle.fp_host.specs.OverHost.{AtEachMoment, AtReturn, FailsOnly};
ghost use Rattle.fp_small.specs.declared.state.Layout.TheVariants.{Two};
ghost use Rattle.ost_walk.specs.Ends.{around};
ghost use Rattle.dep_states.specs.After.{May, IsGood, after_op};
ghost use Rattle.dep_states.specs.Sound.{Opens};
ghost use Rattle.dep_tidy.specs.Tidy.{Tidies};
ghost use Rattle.op_change.specs.Applied.{IsShort};
ghost use Rattle.fl_lines.specs.Lines.{op_text};
ghost use Rattle.fl_change.specs.Answer.{keeps_commits as op_keeps_commits};
ghost use Rattle.fl_change.specs.Performs.{Works, Acts, Rests, Just, PerformsOver, DoneOver, WasTidiedAfter};
ghost use Rattle.fl_change.specs.Refs.{op_over};

use crate::end::RunEnd;
use dep_states::Opened;
use dep_tidy::{tidy, tidy_added, tidy_work};
use fl_lines::op_line;
use fp_host::{Host, HostEnd, Remotes};
use fp_small::Op;
use op_change::apply;
use std::alloc::Global;
use std::thread::Threads;

/// Does one operation, prints its line once it is done, and tidies after it. Makes the line before
/// the operation, so that memory can't run out between the two. Sets `acted` once all that is done.
/// Condition: the state allows the operation, and the file of an override has at most 1 MiB.
pub(crate) fn do_op<H: Host, R: Remotes>(
    rt: &(impl Threads + Sync),
    alloc: Global,
    host: &mut H,
    remotes: &mut R,
    acted: &mut bool,
    opened: Opened,
    op: &Op,
) -> Result<Opened, RunEnd>
    requires may { May opened op.now }
    requires short { IsShort op.now }
    requires good { IsGood opened }
    ensures good { IfOk result IsGood }
    ensures layout { IfOk result (λ o. o.layout ≡ Two) }
    ensures made { IfOk result (λ o. (timestamp : ℕ) × (o ≡ after_op opened timestamp op.now)) }
    ensures acts { Acts (Rests opened) (Just op.now) (op_over op.now)
        opened acted.old acted.new result
        (around H.Host R.Remotes host.old remotes.old)
        (around H.Host R.Remotes host.new remotes.new) }
{
    let line = op_line(alloc, op)?;
    let done = do_and_say(
        rt,
        alloc,
        host,
        remotes,
        opened,
        op,
        line.as_str().as_bytes(),
    )?;
    let tidied = tidy_after(alloc, host, done, op)?;
    *acted = true;
    Ok(tidied)
}

/// Does one operation, and prints its line once it is done.
fn do_and_say<H: Host, R: Remotes>(
    rt: &(impl Threads + Sync),
    alloc: Global,
    host: &mut H,
    remotes: &mut R,
    opened: Opened,
    op: &Op,
    line: &[u8],
) -> Result<Opened, RunEnd>
    requires may { May opened op.now }
    requires short { IsShort op.now }
    requires good { IsGood opened }
    requires line { line.now ≡ op_text op.now }
    ensures good { IfOk result IsGood }
    ensures made { IfOk result (λ o. (timestamp : ℕ) × (o ≡ after_op opened timestamp op.now)) }
    ensures works { Works (Just op.now) opened
        (PerformsOver (Rests opened) (R.holds remotes.old) (op_over op.now) opened)
        (DoneOver (R.holds remotes.old) op.now opened result) result
        (around H.Host R.Remotes host.old remotes.old)
        (around H.Host R.Remotes host.new remotes.new) }
{
    let done = apply(rt, alloc, host, remotes, opened, op)?;
    host.say(line)?;
    Ok(done)
}

/// Tidies after an operation. An operation that changes no commit leaves at most temporary files in
/// `repo/tmp`, and an install also a ref without its file. After these, nothing else is looked at.
fn tidy_after<H: Host>(
    alloc: Global,
    host: &mut H,
    done: Opened,
    op: &Op,
) -> Result<Opened, HostEnd>
    ensures state { IfOk result (λ o. o ≡ done) }
    ensures any_moment { AtEachMoment H.Host host.old host.new (Tidies done) }
    ensures on_success { OnOk result (AtReturn H.Host host.old host.new
        (WasTidiedAfter op.now done)) }
    ensures fault_has_cause { FailsOnly H.Host host.old host.new
        (Opens done) (IsErrOf result HostEnd.Fault) }
{
    if keeps_commits(op) {
        return tidy_work(alloc, host, done);
    }
    match op {
        Op::Install { name, .. } => tidy_added(alloc, host, done, name),
        _ => tidy(alloc, host, done),
    }
}

/// Returns whether the operation changes no commit: it is one on pins, remotes or an override.
fn keeps_commits(op: &Op) -> bool
    ensures { result ≡ op_keeps_commits op.now }
{
    match op {
        Op::AddPin(_)
        | Op::DropPin(_)
        | Op::AddRemote(_)
        | Op::ModifyRemote(_)
        | Op::DropRemote(_)
        | Op::SetOverride(_)
        | Op::DropOverride(_) => true,
        Op::Install { .. }
        | Op::Update { .. }
        | Op::Uninstall { .. }
        | Op::Rollback { .. }
        | Op::Migrate => false,
    }
}
