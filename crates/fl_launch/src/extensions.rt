//! The extensions in a launch's text.

ghost use Rattle.std.specs.Prelude.{◌≡◌, ◌++◌, IfOk, OnOk, string_bytes};
ghost use Rattle.fl_launch.specs.Extensions as spec;

use fl_extension::{Point, found_ref, row_of};
use fp_base::Text;
use fp_name::RefName;
use fp_small::State;
use std::alloc::{AllocError, Global};

/// Returns the deployed commit of a ref in hexadecimal, or an empty text if the ref isn't deployed.
pub(crate) fn commit_of(alloc: Global, state: &State, name: &RefName) -> Result<Text, AllocError>
    ensures { IfOk result (λ text. text ≡ spec.commit_of state.now name.now) }
{
    match row_of(state, name) {
        Some(row) => row.commit.write(alloc),
        None => Text::from_str(alloc, ""),
    }
}

/// Appends `NAME=COMMIT;` of the extension that is found for a point, if there is one.
fn push_extension(
    alloc: Global,
    out: &mut String,
    state: &State,
    point: &Point,
) -> Result<(), AllocError>
    ensures { OnOk result (string_bytes out.new ≡ string_bytes out.old ++ spec.extension_of
        state.now point.now) }
{
    let Some(name) = found_ref(state, point) else {
        return Ok(());
    };
    let commit = commit_of(alloc, state, name)?;
    out.push_str(point.name.as_str())?;
    out.push('=')?;
    out.push_str(commit.as_str())?;
    out.push(';')
}

/// Returns the extensions of these points: `NAME=COMMIT;` for each point for which one is found.
#[tactic(auto, unfolding(crate::specs::Extensions::extensions_of))]
pub(crate) fn extensions_of(
    alloc: Global,
    state: &State,
    points: &[Point],
) -> Result<String, AllocError>
    ensures { IfOk result (λ text. string_bytes text ≡ spec.extensions_of state.now points.now) }
{
    let mut out = String::new(alloc);
    for point in points {
        push_extension(alloc, &mut out, state, point)?;
    }
    Ok(out)
}
