//! Setting and dropping overrides.
ghost use Rattle.std.specs.Prelude.{◌≡◌, ◌≤◌, true, length, IfOk, OnOk, IsErrOf};
ghost use Rattle.fp_host.specs.OverHost.{AtEachMoment, AtReturn, FailsOnly};
ghost use Rattle.fp_keyfile.specs.KeyFile.{text_of, is_good};
ghost use Rattle.fp_small.specs.Replace.{Replaces, ReplacesName, WasReplaced, CanReplace};
ghost use Rattle.fp_small.specs.declared.op.Op.TheVariants.{SetOverride, DropOverride};
ghost use Rattle.dep_states.specs.After.{state_after, plain};
ghost use Rattle.dep_states.specs.Names.{override_path};
ghost use Rattle.fp_name.specs.Grammar.{is_override};
ghost use Rattle.dep_states.specs.Shown.{small_most};
ghost use Rattle.dep_states.specs.Sound.{Opens};
ghost use Rattle.op_change.specs.Deploys.{Does, WasDone};
ghost use Rattle.op_change.specs.Overriding.{with_layer, without_layer, AbsentAtPath};

use dep_states::Opened;
use dep_switch::{put_override, remove_override};
use fp_base::{Items, Text};
use fp_host::{Host, HostEnd, Path};
use fp_small::{OverrideRow, State, replace, take_away};
use std::alloc::{AllocError, Global};

/// Returns the path of an override, `overrides/NAME`.
#[tactic(auto, using(fp_small::proofs::Elements::element_override))]
fn path_of(alloc: Global, name: &Text) -> Result<Path, AllocError>
    requires { is_override name.now ≡ true }
    ensures { IfOk result (λ p. p ≡ override_path name.now) }
{
    Path::root(alloc).child("overrides")?.child(name.as_str())
}

/// Copies an override.
fn copy_of(row: &OverrideRow) -> Result<OverrideRow, AllocError>
    ensures { IfOk result (λ r. r ≡ row.now) }
{
    Ok(OverrideRow {
        name: row.name.copy()?,
        file: row.file.copy()?,
    })
}

/// Returns the state with the override, in place of the one with its name.
fn with_override(state: State, row: OverrideRow) -> Result<State, AllocError>
    ensures { IfOk result (λ s. s ≡ with_layer state row) }
{
    let mut overrides = state.overrides.into_vec();
    put_override(&mut overrides, row)?;
    Ok(State {
        layout: state.layout,
        refs: state.refs,
        remotes: state.remotes,
        pins: state.pins,
        overrides: Items::from_vec(overrides),
    })
}

/// Returns the state without the override of this name.
fn without_override(state: State, name: &Text) -> State
    ensures { result ≡ without_layer state name.now }
{
    let mut overrides = state.overrides.into_vec();
    remove_override(&mut overrides, name);
    State {
        layout: state.layout,
        refs: state.refs,
        remotes: state.remotes,
        pins: state.pins,
        overrides: Items::from_vec(overrides),
    }
}

/// Replaces the file of an override, or creates it.
fn write_layer<H: Host>(alloc: Global, host: &mut H, row: &OverrideRow) -> Result<(), HostEnd>
    requires { is_override row.now.name ≡ true }
    ensures any_moment { AtEachMoment H.Host host.old host.new
        (Replaces (override_path row.now.name) (text_of row.now.file)) }
    ensures on_success { OnOk result (AtReturn H.Host host.old host.new
        (WasReplaced (override_path row.now.name)
        (text_of row.now.file))) }
    ensures fault_has_cause { FailsOnly H.Host host.old host.new
        (CanReplace (override_path row.now.name)) (IsErrOf result HostEnd.Fault) }
    ensures starved_unchanged { IsErrOf result HostEnd.NoMemory → AtReturn H.Host host.old host.new
        (λ u w. w ≡ u) }
{
    let path = path_of(alloc, &row.name)?;
    let text = row.file.write()?;
    replace(alloc, host, &path, text.as_str().as_bytes())
}

/// Sets an override: replaces its file, or creates it. After `NoMemory`, nothing has changed.
/// Condition: the name and the groups are valid, and the file has at most 1 MiB.
pub(crate) fn set_override<H: Host>(
    alloc: Global,
    host: &mut H,
    opened: Opened,
    row: &OverrideRow,
) -> Result<Opened, HostEnd>
    requires name { is_override row.now.name ≡ true }
    requires file { is_good row.now.file ≡ true }
    requires short { length (text_of row.now.file) ≤ small_most }
    ensures state { IfOk result (λ o. o ≡ state_after opened (plain (SetOverride row.now))) }
    ensures any_moment { AtEachMoment H.Host host.old host.new
        (Does opened (state_after opened (plain (SetOverride row.now)))
        (ReplacesName (override_path row.now.name))) }
    ensures on_success { OnOk result (AtReturn H.Host host.old host.new (WasDone opened
        (state_after opened (plain (SetOverride row.now))))) }
    ensures fault_has_cause { FailsOnly H.Host host.old host.new
        (Opens opened) (IsErrOf result HostEnd.Fault) }
    ensures starved_unchanged { IsErrOf result HostEnd.NoMemory → AtReturn H.Host host.old host.new
        (λ u w. w ≡ u) }
{
    let state = with_override(opened.take(), copy_of(row)?)?;
    write_layer(alloc, host, row)?;
    Ok(Opened::of(state))
}

/// Drops an override: removes its file, if there is one, and syncs. After `NoMemory`, nothing has
/// changed.
pub(crate) fn drop_override<H: Host>(
    alloc: Global,
    host: &mut H,
    opened: Opened,
    name: &Text,
) -> Result<Opened, HostEnd>
    requires { is_override name.now ≡ true }
    ensures state { IfOk result (λ o. o ≡ state_after opened (plain (DropOverride name.now))) }
    ensures any_moment { AtEachMoment H.Host host.old host.new
        (Does opened (state_after opened (plain (DropOverride name.now)))
        (AbsentAtPath (override_path name.now))) }
    ensures on_success { OnOk result (AtReturn H.Host host.old host.new (WasDone opened
        (state_after opened (plain (DropOverride name.now))))) }
    ensures fault_has_cause { FailsOnly H.Host host.old host.new
        (Opens opened) (IsErrOf result HostEnd.Fault) }
    ensures starved_unchanged { IsErrOf result HostEnd.NoMemory → AtReturn H.Host host.old host.new
        (λ u w. w ≡ u) }
{
    let path = path_of(alloc, name)?;
    take_away(host, &path)?;
    host.sync()?;
    Ok(Opened::of(without_override(opened.take(), name)))
}
