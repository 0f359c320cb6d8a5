//! Operations on the settings.
ghost use Rattle.std.specs.Prelude.{◌≡◌, IfOk, OnOk, IsErrOf};
ghost use Rattle.fp_host.specs.OverHost.{AtEachMoment, AtReturn, FailsOnly};
ghost use Rattle.fp_small.specs.Config.{config_text, IsSettings};
ghost use Rattle.fp_small.specs.Replace.{Replaces, ReplacesName, WasReplaced, CanReplace};
ghost use Rattle.dep_states.specs.Names.{config};
ghost use Rattle.dep_states.specs.Shown.{settings_of};
ghost use Rattle.dep_states.specs.Sound.{Opens};
ghost use Rattle.dep_states.specs.After.{state_after, plain, IsOnConfig, IsGood};
ghost use Rattle.op_change.specs.Deploys.{Does};
ghost use Rattle.op_change.specs.Applied.{MaySet, SettingsDone};

use dep_states::Opened;
use fp_base::Items;
use fp_host::{Host, HostEnd, Path};
use fp_small::{
    Layout, Op, State, insert_pin, insert_remote, remove_pin, remove_remote, replace, write_config,
};
use std::alloc::{AllocError, Global};

/// Does one operation on the pins, the remotes or the layout of an opened installation: a crash at
/// any moment leaves the previous state or the new one, and after success the new one. A migration
/// writes `config`, and leaves the files of layout 1 where they are. After `NoMemory`, nothing has
/// changed. After an error, the installation must be opened again before anything else is done with
/// it.
pub(crate) fn change_settings<H: Host>(
    alloc: Global,
    host: &mut H,
    opened: Opened,
    op: &Op,
) -> Result<Opened, HostEnd>
    requires { MaySet opened op.now }
    ensures state { IfOk result (λ o. o ≡ state_after opened (plain op.now)) }
    ensures good { IfOk result IsGood }
    // A crash at any moment leaves the previous state or the new one.
    ensures any_moment { AtEachMoment H.Host host.old host.new
        (Does opened (state_after opened (plain op.now))
        (ReplacesName config)) }
    ensures on_success { OnOk result (AtReturn H.Host host.old host.new (SettingsDone opened
        (state_after opened (plain op.now)))) }
    ensures fault_has_cause { FailsOnly H.Host host.old host.new
        (Opens opened) (IsErrOf result HostEnd.Fault) }
    ensures starved_unchanged { IsErrOf result HostEnd.NoMemory → AtReturn H.Host host.old host.new
        (λ u w. w ≡ u) }
{
    let state = changed(opened.take(), op)?;
    write_state(alloc, host, &state)?;
    Ok(Opened::of(state))
}

/// Returns the state after an operation on the settings.
fn changed(state: State, op: &Op) -> Result<State, AllocError>
    requires { IsOnConfig op.now }
    ensures { IfOk result (λ s. s ≡ state_after state (plain op.now)) }
{
    let mut pins = state.pins.into_vec();
    let mut remotes = state.remotes.into_vec();
    let mut layout = state.layout;
    match op {
        Op::AddPin(pin) => insert_pin(&mut pins, pin.copy()?)?,
        Op::DropPin(pin) => remove_pin(&mut pins, pin),
        Op::AddRemote(row) => insert_remote(&mut remotes, row.copy()?)?,
        Op::ModifyRemote(row) => {
            remove_remote(&mut remotes, &row.name);
            insert_remote(&mut remotes, row.copy()?)?;
        }
        Op::DropRemote(name) => remove_remote(&mut remotes, name),
        Op::Migrate => layout = Layout::Two,
        Op::Install { .. }
        | Op::Update { .. }
        | Op::Uninstall { .. }
        | Op::SetOverride(_)
        | Op::DropOverride(_)
        | Op::Rollback { .. } => unreachable!(),
    }
    Ok(State {
        layout,
        refs: state.refs,
        remotes: Items::from_vec(remotes),
        pins: Items::from_vec(pins),
        overrides: state.overrides,
    })
}

/// Replaces `config`, or creates it, with the state's remotes and pins.
fn write_state<H: Host>(alloc: Global, host: &mut H, state: &State) -> Result<(), HostEnd>
    requires { IsSettings (settings_of state.now) }
    ensures any_moment { AtEachMoment H.Host host.old host.new
        (Replaces config (config_text (settings_of state.now))) }
    ensures on_success { OnOk result (AtReturn H.Host host.old host.new (WasReplaced config
        (config_text (settings_of state.now)))) }
    ensures fault_has_cause { FailsOnly H.Host host.old host.new
        (CanReplace config) (IsErrOf result HostEnd.Fault) }
    ensures starved_unchanged { IsErrOf result HostEnd.NoMemory → AtReturn H.Host host.old host.new
        (λ u w. w ≡ u) }
{
    let path = Path::root(alloc).child("config")?;
    let text = write_config(alloc, state.remotes.as_slice(), state.pins.as_slice())?;
    replace(alloc, host, &path, text.as_str().as_bytes())
}
