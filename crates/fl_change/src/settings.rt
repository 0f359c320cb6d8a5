//! Changing pins and remotes.
ghost use Rattle.std.specs.Prelude.{◌≡◌, IfOk};
ghost use Rattle.fp_small.specs.declared.op.Op.TheVariants as ops;
ghost use Rattle.fl_change.specs.Settings.{add_pin_refusal, drop_pin_refusal, add_remote_refusal, remote_refusal, drop_remote_refusal};
ghost use Rattle.fl_change.specs.Ends.{IsTried, IsAsked, IsPlain};
ghost use Rattle.std.specs.Option.{option_copied};
ghost use Rattle.std.specs.List.{find};
ghost use Rattle.std.specs.Str.{bytes_eq};

use crate::end::RunEnd;
use fp_base::What;
use fp_name::{PinPattern, RefName, RemoteName};
use fp_small::{
    MOST_PINS, MOST_REMOTES, Op, RefRow, Refusal, RemoteRow, State, has_pin, has_remote,
};

/// One more than the maximum number of pins.
const TOO_MANY_PINS: u64 = MOST_PINS as u64 + 1;

/// One more than the maximum number of remotes.
const TOO_MANY_REMOTES: u64 = MOST_REMOTES as u64 + 1;

/// Returns the operation that adds a pin. Errs with `PinExists` if the state has it, and with
/// `Limit` if the state has 1,024 pins.
pub(crate) fn add_pin(state: &State, pin: &PinPattern) -> Result<Op, RunEnd>
    ensures asked { IsAsked (add_pin_refusal state.now.pins pin.now) (ops.AddPin pin.now) result }
    ensures plain { IfOk result (IsPlain state.now) }
{
    let pins = state.pins.as_slice();
    if has_pin(pins, pin) {
        return Err(RunEnd::Refused(Refusal::PinExists { pin: pin.copy()? }));
    }
    if pins.len() >= MOST_PINS {
        return Err(RunEnd::Refused(Refusal::Limit {
            what: What::Pins,
            number: TOO_MANY_PINS,
        }));
    }
    Ok(Op::AddPin(pin.copy()?))
}

/// Returns the operation that drops a pin. Errs with `NoSuchPin` if the state doesn't have it.
pub(crate) fn drop_pin(state: &State, pin: &PinPattern) -> Result<Op, RunEnd>
    ensures asked { IsAsked (drop_pin_refusal state.now.pins pin.now) (ops.DropPin pin.now) result }
    ensures plain { IfOk result (IsPlain state.now) }
{
    if !has_pin(state.pins.as_slice(), pin) {
        return Err(RunEnd::Refused(Refusal::NoSuchPin { pin: pin.copy()? }));
    }
    Ok(Op::DropPin(pin.copy()?))
}

/// Returns the operation that adds a remote. Errs with `RemoteExists` if the state has one with its
/// name, and with `Limit` if the state has 256 remotes.
pub(crate) fn add_remote(state: &State, row: &RemoteRow) -> Result<Op, RunEnd>
    ensures asked { IsAsked (add_remote_refusal state.now.remotes row.now.name)
        (ops.AddRemote row.now) result }
    ensures plain { IfOk result (IsPlain state.now) }
{
    let remotes = state.remotes.as_slice();
    if has_remote(remotes, &row.name) {
        let remote = row.name.copy()?;
        return Err(RunEnd::Refused(Refusal::RemoteExists { remote }));
    }
    if remotes.len() >= MOST_REMOTES {
        return Err(RunEnd::Refused(Refusal::Limit {
            what: What::Remotes,
            number: TOO_MANY_REMOTES,
        }));
    }
    Ok(Op::AddRemote(row.copy()?))
}

/// Checks that a remote with this name exists. Errs with `NoSuchRemote` if it doesn't.
fn try_remote(remotes: &[RemoteRow], name: &RemoteName) -> Result<(), RunEnd>
    ensures { IsTried (remote_refusal remotes.now name.now) result }
{
    if !has_remote(remotes, name) {
        let remote = name.copy()?;
        return Err(RunEnd::Refused(Refusal::NoSuchRemote { remote }));
    }
    Ok(())
}

/// Returns the operation that gives a remote this URL. Errs with `NoSuchRemote` if there is no
/// remote with its name.
pub(crate) fn modify_remote(state: &State, row: &RemoteRow) -> Result<Op, RunEnd>
    ensures asked { IsAsked (remote_refusal state.now.remotes row.now.name)
        (ops.ModifyRemote row.now) result }
    ensures plain { IfOk result (IsPlain state.now) }
{
    try_remote(state.remotes.as_slice(), &row.name)?;
    Ok(Op::ModifyRemote(row.copy()?))
}

/// Returns the first row whose ref comes from the remote.
fn first_from<'a>(rows: &'a [RefRow], remote: &RemoteName) -> Option<&'a RefRow>
    ensures { option_copied result ≡ find (λ row. bytes_eq row.origin remote.now) rows.now }
{
    rows.iter()
        .find(|row| row.origin.as_str() == remote.as_str())
}

/// Returns the operation that drops a remote. Errs with `NoSuchRemote` if it doesn't exist, and
/// with `RemoteInUse` if a deployed ref comes from it.
pub(crate) fn drop_remote(state: &State, name: &RemoteName) -> Result<Op, RunEnd>
    ensures asked { IsAsked (drop_remote_refusal state.now name.now)
        (ops.DropRemote name.now) result }
    ensures plain { IfOk result (IsPlain state.now) }
{
    try_remote(state.remotes.as_slice(), name)?;
    if let Some(row) = first_from(state.refs.as_slice(), name) {
        return Err(RunEnd::Refused(Refusal::RemoteInUse {
            remote: name.copy()?,
            name: row.name.copy()?,
        }));
    }
    Ok(Op::DropRemote(name.copy()?))
}
