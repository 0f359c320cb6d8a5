//! The layers of a launch's permissions.

ghost use Rattle.std.specs.Prelude.{◌≡◌, IfOk};
ghost use Rattle.std.specs.List.{find};
ghost use Rattle.std.specs.Option.{option_copied};
ghost use Rattle.std.specs.Str.{bytes_eq};
ghost use Rattle.fl_meta.specs.declared.permission.Permission.{Permission};
ghost use Rattle.fl_context.specs.Grants.{IsAscending, last_mention, value_in};
ghost use Rattle.fl_launch.specs.Layers as spec;

use fl_context::{Grants, fold};
use fl_meta::{Layer, Meta, Source, mentions_of};
use fp_small::{OverrideRow, State};
use std::alloc::{AllocError, Global};

/// Returns the override with this name, if there is one.
fn override_row<'a>(state: &'a State, name: &str) -> Option<&'a OverrideRow>
    ensures { option_copied result ≡ find (λ row. bytes_eq row.name name.now)
        state.now.overrides }
{
    let mut rows = state.overrides.as_slice().iter();
    rows.find(|row| row.name.as_str() == name)
}

/// Returns the mentions of the override with this name; none if there is no such override.
#[tactic(auto, unfolding(crate::specs::Layers::override_of))]
fn override_of(alloc: Global, state: &State, name: &str) -> Result<Layer, AllocError>
    ensures { IfOk result (λ layer. layer ≡ spec.override_of state.now name.now) }
{
    match override_row(state, name) {
        Some(row) => mentions_of(alloc, &row.file, Source::Override),
        None => Ok(Layer::new(alloc)),
    }
}

/// Returns the last mention of each permission in five layers, the earliest first.
fn fold_five<'a>(
    alloc: Global,
    runtime: &'a Layer,
    app: &'a Layer,
    global: &'a Layer,
    own: &'a Layer,
    words: &'a Layer,
) -> Result<Grants, AllocError>
    ensures granted { IfOk result (λ grants. grants ≡ spec.granted_by
        (spec.five runtime.now app.now global.now own.now words.now)) }
    ensures last { IfOk result (λ grants. (p : Permission) → value_in grants p ≡ last_mention
        (spec.five runtime.now app.now global.now own.now words.now) p) }
    ensures ascending { IfOk result IsAscending }
{
    let grants = fold(alloc, &[runtime, app, global, own, words])?;
    Ok(grants)
}

/// Returns the last mention of each permission in the layers of a launch, the earliest first: the
/// metadata of the runtime and of the application, the global override, the application's override,
/// and the options.
pub(crate) fn grants_of(
    alloc: Global,
    state: &State,
    id: &str,
    app: &Meta,
    runtime: &Meta,
    words: &Layer,
) -> Result<Grants, AllocError>
    ensures granted { IfOk result (λ grants. grants ≡ spec.granted_by
        (spec.all_mentions state.now id.now app.now runtime.now words.now)) }
    ensures last { IfOk result (λ grants. (p : Permission) → value_in grants p ≡ last_mention
        (spec.all_mentions state.now id.now app.now runtime.now words.now) p) }
    ensures ascending { IfOk result IsAscending }
{
    let global = override_of(alloc, state, "global")?;
    let own = override_of(alloc, state, id)?;
    fold_five(
        alloc,
        &runtime.mentions,
        &app.mentions,
        &global,
        &own,
        words,
    )
}
