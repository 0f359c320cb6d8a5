//! Finding the candidate of a point that is installed.

ghost use Rattle.std.specs.Prelude.{◌≡◌};
ghost use Rattle.std.specs.Option.{option_copied};
ghost use Rattle.fl_extension.specs.Found as spec;

use crate::point::Point;
use fp_name::RefName;
use fp_small::{RefRow, State};

/// Returns whether a ref is deployed in this state.
pub fn has_ref(state: &State, name: &RefName) -> bool
    ensures { result ≡ spec.has_ref state.now name.now }
{
    state.refs.as_slice().iter().any(|row| row.name == *name)
}

/// Returns the row of a ref, or `None` if it isn't deployed.
pub fn row_of<'a>(state: &'a State, name: &RefName) -> Option<&'a RefRow>
    ensures { option_copied result ≡ spec.row_of state.now name.now }
{
    let mut rows = state.refs.as_slice().iter();
    rows.find(|row| row.name == *name)
}

/// Returns the index of the point's first candidate that is deployed, or `None` if none is.
/// Allocates nothing.
pub fn found_place(point: &Point, state: &State) -> Option<usize>
    ensures { result ≡ spec.found_place point.now state.now }
{
    let mut candidates = point.candidates.as_slice().iter();
    candidates.position(|name| has_ref(state, name))
}

/// Returns the point's first candidate that is deployed, or `None` if none is.
pub fn found_ref<'a>(state: &State, point: &'a Point) -> Option<&'a RefName>
    ensures { option_copied result ≡ spec.found_ref state.now point.now }
{
    let place = found_place(point, state)?;
    point.candidates.as_slice().get(place)
}
