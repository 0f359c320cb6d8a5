//! Tidying an opened installation.
ghost use Rattle.std.specs.Prelude.{◌≡◌, IfOk, OnOk, IsErrOf};
ghost use Rattle.fp_host.specs.OverHost.{AtEachMoment, AtReturn, FailsOnly};
ghost use Rattle.fp_host.specs.Frame.{Frame, NoPath};
ghost use Rattle.fp_host.specs.Outcome.{shows};
ghost use Rattle.fp_small.specs.Places.{repo, tmp};
ghost use Rattle.fp_small.specs.Clear.{GoneBelow, AbsentBelow};
ghost use Rattle.dep_states.specs.Sound.{Opens};
ghost use Rattle.dep_states.specs.Settled.{Settled};
ghost use Rattle.dep_tidy.specs.Lasts.{Lasts};
ghost use Rattle.dep_tidy.specs.Tidy.{Tidies, WasTidied, SettledButWork, SettledButRef};
ghost use Rattle.dep_tidy.specs.Steps.{IsSteady, Steadily, IsReady, IsCleared, HasRefs};

use crate::folders::clear_folders;
use crate::old_files::take_old_files;
use crate::pruning::prune_unused;
use crate::refs::{drop_others, write_file_of, write_files};
use crate::work::empty_work;
use dep_states::Opened;
use fp_host::{Host, HostEnd, Path};
use fp_name::RefName;
use fp_small::{State, repo_path};
use std::alloc::Global;

/// Tidies the installation: syncs; clears everything below `repo/tmp`; clears the directories of
/// commits that the state doesn't keep; removes the files of layout 1 if `config` exists; removes
/// the ref files of refs that the state doesn't have; writes those that don't have their ref's
/// commit; prunes the objects that no kept commit uses; and syncs. The state stays as it is: every
/// crash leaves it.
pub fn tidy<H: Host>(alloc: Global, host: &mut H, opened: Opened) -> Result<Opened, HostEnd>
    ensures state { IfOk result (λ o. o ≡ opened) }
    ensures any_moment { AtEachMoment H.Host host.old host.new (Tidies opened) }
    ensures on_success { OnOk result (AtReturn H.Host host.old host.new (WasTidied opened)) }
    ensures fault_has_cause { FailsOnly H.Host host.old host.new
        (Opens opened) (IsErrOf result HostEnd.Fault) }
{
    host.sync()?;
    settle(alloc, host, opened.state())?;
    Ok(opened)
}

/// Clears everything below `repo/tmp`, and does nothing else. That is enough after an operation
/// that changes no commit, if nothing was left to tidy before it. Syncs nothing. The state stays as
/// it is.
pub fn tidy_work<H: Host>(alloc: Global, host: &mut H, opened: Opened) -> Result<Opened, HostEnd>
    ensures state { IfOk result (λ o. o ≡ opened) }
    ensures frame { Frame (GoneBelow tmp) (AbsentBelow tmp) NoPath
        (H.moments host.old) (H.moments host.new) }
    ensures any_moment { AtEachMoment H.Host host.old host.new (Tidies opened) }
    ensures on_success { OnOk result (AtReturn H.Host host.old host.new
        (λ u w. SettledButWork (shows u) → Settled (shows w))) }
    ensures fault_has_cause { FailsOnly H.Host host.old host.new
        (Opens opened) (IsErrOf result HostEnd.Fault) }
{
    empty_work(alloc, host)?;
    Ok(opened)
}

/// Writes the ref file of this ref, unless it has the deployed commit already; clears everything
/// below `repo/tmp`; and does nothing else. That is enough after an install of the ref, if nothing
/// was left to tidy before it. Syncs only if it writes the file. The state stays as it is.
pub fn tidy_added<H: Host>(
    alloc: Global,
    host: &mut H,
    opened: Opened,
    name: &RefName,
) -> Result<Opened, HostEnd>
    ensures state { IfOk result (λ o. o ≡ opened) }
    ensures any_moment { AtEachMoment H.Host host.old host.new (Tidies opened) }
    ensures on_success { OnOk result (AtReturn H.Host host.old host.new
        (λ u w. Opens opened u → SettledButRef name.now (shows u) → Settled (shows w))) }
    ensures lasts { OnOk result (AtReturn H.Host host.old host.new Lasts) }
    ensures fault_has_cause { FailsOnly H.Host host.old host.new
        (Opens opened) (IsErrOf result HostEnd.Fault) }
{
    settle_added(alloc, host, opened.state(), name)?;
    Ok(opened)
}

/// Writes the ref file of this ref, and clears everything below `repo/tmp`.
fn settle_added<H: Host>(
    alloc: Global,
    host: &mut H,
    state: &State,
    name: &RefName,
) -> Result<(), HostEnd>
    ensures any_moment { AtEachMoment H.Host host.old host.new (Tidies state.now) }
    ensures on_success { OnOk result (AtReturn H.Host host.old host.new
        (λ u w. Opens state.now u → SettledButRef name.now (shows u) → Settled (shows w))) }
    ensures lasts { OnOk result (AtReturn H.Host host.old host.new Lasts) }
    ensures fault_has_cause { FailsOnly H.Host host.old host.new
        (Opens state.now) (IsErrOf result HostEnd.Fault) }
{
    let repo = repo_path(alloc)?;
    write_file_of(alloc, host, &repo, state, name)?;
    empty_work(alloc, host)
}

/// Does all steps of tidying after the first sync, including the last sync.
fn settle<H: Host>(alloc: Global, host: &mut H, state: &State) -> Result<(), HostEnd>
    ensures any_moment { AtEachMoment H.Host host.old host.new
        (λ u w. IsSteady u → Tidies state.now u w) }
    ensures on_success { OnOk result (AtReturn H.Host host.old host.new
        (λ u w. IsSteady u → WasTidied state.now u w)) }
    ensures fault_has_cause { FailsOnly H.Host host.old host.new
        (IsReady state.now) (IsErrOf result HostEnd.Fault) }
{
    let repo = repo_path(alloc)?;
    clear_left(alloc, host, state)?;
    settle_refs(alloc, host, &repo, state)?;
    prune_unused(alloc, host, &repo, state)?;
    Ok(host.sync()?)
}

/// Clears what was left: everything below `repo/tmp`, directories of commits that aren't kept, and
/// the files of layout 1.
fn clear_left<H: Host>(alloc: Global, host: &mut H, state: &State) -> Result<(), HostEnd>
    ensures any_moment { AtEachMoment H.Host host.old host.new
        (λ u w. IsSteady u → Steadily state.now u w) }
    ensures on_success { OnOk result (AtReturn H.Host host.old host.new
        (λ u w. IsCleared state.now w)) }
    ensures lasts { OnOk result (AtReturn H.Host host.old host.new Lasts) }
    ensures fault_has_cause { FailsOnly H.Host host.old host.new
        (IsReady state.now) (IsErrOf result HostEnd.Fault) }
{
    empty_work(alloc, host)?;
    clear_folders(alloc, host, state)?;
    take_old_files(alloc, host)
}

/// Removes the ref files of refs that the state doesn't have, and writes those that don't have
/// their ref's commit.
fn settle_refs<H: Host>(
    alloc: Global,
    host: &mut H,
    root: &Path,
    state: &State,
) -> Result<(), HostEnd>
    requires root { root.now ≡ repo }
    ensures any_moment { AtEachMoment H.Host host.old host.new
        (λ u w. IsSteady u → Steadily state.now u w) }
    ensures on_success { OnOk result (AtReturn H.Host host.old host.new
        (λ u w. IsCleared state.now u → Opens state.now u
        → HasRefs state.now w)) }
    ensures lasts { OnOk result (AtReturn H.Host host.old host.new Lasts) }
    ensures fault_has_cause { FailsOnly H.Host host.old host.new
        (IsReady state.now) (IsErrOf result HostEnd.Fault) }
{
    drop_others(alloc, host, root, state)?;
    write_files(alloc, host, root, state)
}
