//! Lookups in a state, and their refusals.
ghost use Rattle.std.specs.Prelude.{◌≡◌, option_map, IfOk};
ghost use Rattle.fp_small.specs.Config.{name_of};
ghost use Rattle.fp_small.specs.declared.refusal.Refusal.TheVariants as refusals;
ghost use Rattle.dep_states.specs.After.{row_at};
ghost use Rattle.dep_states.specs.Shown.{at_name};
ghost use Rattle.fl_change.specs.Ends.{IsTried, IsSaid, or_refuse};
ghost use Rattle.fl_change.specs.Refs.{previous_in, missing_refusal, installed_refusal};

use crate::end::RunEnd;
use dep_switch::{find_ref, find_remote};
use fl_extension::has_ref;
use fp_name::{Digest, RefName, RemoteName};
use fp_small::{Refusal, RemoteRow, State};
use std::alloc::AllocError;

/// Returns a copy of the remote with this name; `None` if the state has none.
pub(crate) fn copy_remote(state: &State, name: &RemoteName) -> Result<Option<RemoteRow>, AllocError>
    ensures { IfOk result (λ row. row ≡ at_name name_of state.now.remotes name.now) }
{
    match find_remote(state.remotes.as_slice(), name) {
        Some(row) => Ok(Some(row.copy()?)),
        None => Ok(None),
    }
}

/// Returns a copy of the remote with this name. Errs with `NoSuchRemote` if the state has none.
pub(crate) fn known_remote(state: &State, name: &RemoteName) -> Result<RemoteRow, RunEnd>
    ensures { IsSaid (or_refuse (refusals.NoSuchRemote name.now)
        (at_name name_of state.now.remotes name.now)) result }
{
    match copy_remote(state, name)? {
        Some(row) => Ok(row),
        None => Err(RunEnd::Refused(Refusal::NoSuchRemote {
            remote: name.copy()?,
        })),
    }
}

/// Checks that the ref isn't deployed. Errs with `AlreadyInstalled` if it is.
pub(crate) fn try_new(state: &State, name: &RefName) -> Result<(), RunEnd>
    ensures { IsTried (installed_refusal name.now (row_at state.now name.now)) result }
{
    match find_ref(state.refs.as_slice(), name) {
        Some(_) => Err(RunEnd::Refused(Refusal::AlreadyInstalled { name: name.copy()? })),
        None => Ok(()),
    }
}

/// Returns the name of the remote that a deployed ref comes from. Errs with `NotInstalled` if the
/// ref isn't deployed.
pub(crate) fn origin_of(state: &State, name: &RefName) -> Result<RemoteName, RunEnd>
    ensures { IsSaid (or_refuse (refusals.NotInstalled name.now)
        (option_map (λ row. row.origin) (row_at state.now name.now))) result }
{
    match find_ref(state.refs.as_slice(), name) {
        Some(row) => Ok(row.origin.copy()?),
        None => Err(RunEnd::Refused(Refusal::NotInstalled { name: name.copy()? })),
    }
}

/// Returns the previous commit of a deployed ref. Errs with `NotInstalled` if the ref isn't
/// deployed, and with `NoPrevious` if it has no previous commit.
pub(crate) fn previous_of(state: &State, name: &RefName) -> Result<Digest, RunEnd>
    ensures { IsSaid (previous_in name.now (row_at state.now name.now)) result }
{
    match find_ref(state.refs.as_slice(), name) {
        Some(row) => match row.previous {
            Some(previous) => Ok(previous.commit),
            None => Err(RunEnd::Refused(Refusal::NoPrevious { name: name.copy()? })),
        },
        None => Err(RunEnd::Refused(Refusal::NotInstalled { name: name.copy()? })),
    }
}

/// Checks that the runtime, if one is named, is deployed. Errs with `RuntimeMissing` if it isn't.
pub(crate) fn try_runtime(state: &State, runtime: &Option<RefName>) -> Result<(), RunEnd>
    ensures { IsTried (missing_refusal state.now runtime.now) result }
{
    match runtime {
        Some(name) => {
            if has_ref(state, name) {
                Ok(())
            } else {
                Err(RunEnd::Refused(Refusal::RuntimeMissing { name: name.copy()? }))
            }
        }
        None => Ok(()),
    }
}
