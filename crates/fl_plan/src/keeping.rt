//! Detection of unused runtimes.
ghost use Rattle.std.specs.Prelude.{◌≡◌, [], IfOk};
ghost use Rattle.fl_extension.specs.Found.{found_ref};
ghost use Rattle.fl_installed.specs.Users.{is_name};
ghost use Rattle.fl_plan.specs.Unused as spec;

use crate::updating::same_kind;
use fl_extension::{Point, found_ref};
use fl_meta::Meta;
use fp_base::Items;
use fp_name::{RefKind, RefName};
use fp_small::State;
use std::alloc::{AllocError, Global};

/// Returns whether the metadata names the runtime.
fn names_runtime(meta: &Meta, name: &RefName) -> bool
    ensures { result ≡ is_name name.now meta.now.runtime }
{
    match &meta.runtime {
        Some(runtime) => *runtime == *name,
        None => false,
    }
}

/// Returns whether an application names the runtime.
fn is_named(metas: &[(RefName, Meta)], name: &RefName) -> bool
    ensures { result ≡ spec.is_named metas.now name.now }
{
    metas.iter().any(|app| names_runtime(&app.1, name))
}

/// Returns whether a pin matches the ref.
fn is_pinned(state: &State, name: &RefName) -> bool
    ensures { result ≡ spec.is_pinned state.now name.now }
{
    state.pins.as_slice().iter().any(|pin| pin.matches(name))
}

/// Returns whether an application names the runtime, or a pin matches it.
fn is_needed(state: &State, metas: &[(RefName, Meta)], name: &RefName) -> bool
    ensures { result ≡ spec.is_needed state.now metas.now name.now }
{
    is_named(metas, name) || is_pinned(state, name)
}

/// Returns whether the ref is the one that is found for the point.
fn finds(state: &State, point: &Point, name: &RefName) -> bool
    ensures { result ≡ is_name name.now (found_ref state.now point.now) }
{
    match found_ref(state, point) {
        Some(candidate) => *candidate == *name,
        None => false,
    }
}

/// Returns whether the ref is the one that is found for one of the points.
fn one_finds(state: &State, points: &Items<Point>, name: &RefName) -> bool
    ensures { result ≡ spec.one_finds state.now name.now points.now }
{
    points
        .as_slice()
        .iter()
        .any(|point| finds(state, point, name))
}

/// Returns whether the extensions of the ref are kept: it is an application, or a runtime that is
/// needed.
fn is_owner(state: &State, metas: &[(RefName, Meta)], name: &RefName) -> bool
    ensures { result ≡ spec.is_owner state.now metas.now name.now }
{
    same_kind(RefKind::App, name.kind()) || is_needed(state, metas, name)
}

/// Returns whether the ref is an extension that is kept, because it is found for a point of an
/// application or of a needed runtime.
fn is_extension(
    state: &State,
    metas: &[(RefName, Meta)],
    points: &[(RefName, Items<Point>)],
    name: &RefName,
) -> bool
    ensures { result ≡ spec.is_extension state.now metas.now points.now name.now }
{
    points.iter().any(|owner| is_owner(state, metas, &owner.0) && one_finds(state, &owner.1, name))
}

/// Returns whether the ref is a runtime that is neither needed nor kept as an extension.
fn is_unused(
    state: &State,
    metas: &[(RefName, Meta)],
    points: &[(RefName, Items<Point>)],
    name: &RefName,
) -> bool
    ensures { result ≡ spec.is_unused state.now metas.now points.now name.now }
{
    same_kind(RefKind::Runtime, name.kind())
        && !(is_needed(state, metas, name) || is_extension(state, metas, points, name))
}

/// Returns the installed runtimes that nothing uses, in the order of the state. A runtime is used
/// if an application names it, a pin matches it, or it is the extension that is found for a point
/// of an application or of a runtime that is named or pinned. `metas` has to contain the metadata
/// of each installed application, and `points` the extension points of each installed ref.
pub fn unused_extended(
    alloc: Global,
    state: &State,
    metas: &[(RefName, Meta)],
    points: &[(RefName, Items<Point>)],
) -> Result<Items<RefName>, AllocError>
    ensures { IfOk result (λ names. names ≡ spec.unused_of state.now metas.now points.now) }
{
    let mut names = Items::new(alloc);
    for row in state.refs.as_slice() {
        if is_unused(state, metas, points, &row.name) {
            names.push(row.name.copy()?)?;
        }
    }
    Ok(names)
}

/// Returns the installed runtimes that no application names and no pin matches, in the order of the
/// state, without regard to extension points. `metas` has to contain the metadata of each installed
/// application.
pub fn unused(
    alloc: Global,
    state: &State,
    metas: &[(RefName, Meta)],
) -> Result<Items<RefName>, AllocError>
    ensures { IfOk result (λ names. names ≡ spec.unused_of state.now metas.now []) }
{
    unused_extended(alloc, state, metas, &[])
}
