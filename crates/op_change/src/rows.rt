//! The row of a ref for a commit that is brought.
ghost use Rattle.std.specs.Prelude.{◌≡◌, ◌<◌, ◌^◌, true, false, IfOk, OnOk};
ghost use Rattle.fp_name.specs.Grammar.{is_remote_name};
ghost use Rattle.fp_name.specs.Refs.{is_ref};
ghost use Rattle.dep_states.specs.After.{HasRow, HasPrevious};
ghost use Rattle.op_change.specs.Brought.{row_brought, previous_for};

use dep_switch::find_ref;
use fp_name::{Digest, RefName};
use fp_small::{Previous, RefRow, RemoteRow, State};
use std::alloc::AllocError;

/// Returns the commit that the ref is at, which becomes its previous one; `None` if the ref isn't
/// deployed.
fn previous_for(state: &State, name: &RefName) -> Option<Previous>
    ensures { result ≡ previous_for state.now name.now }
{
    match find_ref(state.refs.as_slice(), name) {
        Some(row) => Some(Previous {
            commit: row.commit,
            timestamp: row.timestamp,
        }),
        None => None,
    }
}

/// Returns the row of the ref at this commit, with the commit that it is at now as its previous
/// one.
pub(crate) fn row_brought(
    state: &State,
    name: &RefName,
    remote: &RemoteRow,
    commit: &Digest,
    timestamp: u64,
) -> Result<RefRow, AllocError>
    ensures row { IfOk result (λ row. row ≡
        row_brought state.now name.now remote.now.name commit.now timestamp) }
    ensures time { OnOk result (timestamp < 2 ^ 64) }
    ensures origin { is_remote_name remote.now.name ≡ true }
{
    let _origin = remote.name.as_str();
    Ok(RefRow {
        name: name.copy()?,
        origin: remote.name.copy()?,
        commit: *commit,
        timestamp,
        previous: previous_for(state, name),
    })
}

/// Returns whether the ref keeps this commit as its previous one.
pub(crate) fn is_kept(state: &State, name: &RefName, commit: &Digest) -> bool
    ensures kept { result ≡ true → HasRow state.now name.now (HasPrevious commit.now) }
    ensures unkept { result ≡ false → HasRow state.now name.now (HasPrevious commit.now) → ⊥ }
    ensures good { is_ref name.now ≡ true }
{
    let Some(row) = find_ref(state.refs.as_slice(), name) else {
        return false;
    };
    match &row.previous {
        Some(previous) => previous.commit == *commit,
        None => false,
    }
}
