//! The deployed commit of a ref in a state.
ghost use Rattle.std.specs.Prelude.{◌≡◌};
ghost use Rattle.fl_extension.specs.Found.{row_of};
ghost use Rattle.fl_plan.specs.Plans.{is_at, time_of};

use fl_extension::row_of;
use fp_name::{Digest, RefName};
use fp_small::State;

/// Returns whether the ref is deployed at this commit.
pub(crate) fn is_at(state: &State, name: &RefName, commit: &Digest) -> bool
    ensures { result ≡ is_at commit.now (row_of state.now name.now) }
{
    match row_of(state, name) {
        Some(row) => row.commit == *commit,
        None => false,
    }
}

/// Returns the time of the ref's deployed commit, in seconds since 1970-01-01 00:00 UTC.
pub(crate) fn time_of(state: &State, name: &RefName) -> Option<u64>
    ensures { result ≡ time_of (row_of state.now name.now) }
{
    match row_of(state, name) {
        Some(row) => Some(row.timestamp),
        None => None,
    }
}
