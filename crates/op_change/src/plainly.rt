//! Operations that bring no commit.
ghost use Rattle.std.specs.Prelude.{◌≡◌, IfOk, OnOk, IsErrOf};
ghost use Rattle.fp_host.specs.OverHost.{AtEachMoment, AtReturn, FailsOnly};
ghost use Rattle.dep_states.specs.Sound.{Opens};
ghost use Rattle.dep_states.specs.After.{state_after, plain, IsGood};
ghost use Rattle.op_change.specs.Plainly.{MayPlainly, DoesPlainly, WasDonePlainly, IsStarvedPlainly};

use crate::overriding::{drop_override, set_override};
use crate::settings::change_settings;
use crate::{roll_back, uninstall};
use dep_states::Opened;
use fp_host::{Host, HostEnd};
use fp_small::Op;
use std::alloc::Global;

/// Does one operation that brings no commit: a crash at any moment leaves the previous state or the
/// new one, and after success the new one. Condition: the state allows the operation, and it is no
/// install and no update.
pub(crate) fn apply_plainly<H: Host>(
    alloc: Global,
    host: &mut H,
    opened: Opened,
    op: &Op,
) -> Result<Opened, HostEnd>
    requires { MayPlainly opened op.now }
    ensures state { IfOk result (λ o. o ≡ state_after opened (plain op.now)) }
    ensures good { IfOk result IsGood }
    // A crash at any moment leaves the previous state or the new one.
    ensures any_moment { AtEachMoment H.Host host.old host.new (DoesPlainly opened op.now) }
    ensures on_success { OnOk result (AtReturn H.Host host.old host.new
        (WasDonePlainly opened op.now)) }
    ensures fault_has_cause { FailsOnly H.Host host.old host.new
        (Opens opened) (IsErrOf result HostEnd.Fault) }
    ensures starved { IsErrOf result HostEnd.NoMemory → AtReturn H.Host host.old host.new
        (IsStarvedPlainly opened op.now) }
{
    match op {
        Op::Uninstall { name } => uninstall(alloc, host, opened, name),
        Op::Rollback { name, commit } => roll_back(alloc, host, opened, name, commit),
        Op::SetOverride(row) => set_override(alloc, host, opened, row),
        Op::DropOverride(name) => drop_override(alloc, host, opened, name),
        Op::Install { .. } | Op::Update { .. } => unreachable!(),
        Op::AddPin(_)
        | Op::DropPin(_)
        | Op::AddRemote(_)
        | Op::ModifyRemote(_)
        | Op::DropRemote(_)
        | Op::Migrate => change_settings(alloc, host, opened, op),
    }
}
