//! The refs that an update includes.
ghost use Rattle.std.specs.Prelude.{◌≡◌, ◌++◌, IfOk, OnOk};
ghost use Rattle.std.specs.Option.{option_copied};
ghost use Rattle.fp_name.specs.Pins.{same_kind};
ghost use Rattle.fl_plan.specs.Targets as spec;

use fp_base::Items;
use fp_name::{RefKind, RefName};
use fp_small::{RefRow, State};
use std::alloc::{AllocError, Global};

/// Returns whether two kinds are equal.
pub(crate) fn same_kind(a: RefKind, b: RefKind) -> bool
    ensures { result ≡ same_kind a b }
{
    match (a, b) {
        (RefKind::App, RefKind::App) | (RefKind::Runtime, RefKind::Runtime) => true,
        (RefKind::App, RefKind::Runtime) | (RefKind::Runtime, RefKind::App) => false,
    }
}

/// Appends the refs of a kind.
fn push_kind(out: &mut Items<RefName>, rows: &[RefRow], kind: RefKind) -> Result<(), AllocError>
    ensures { OnOk result (out.new ≡ out.old ++ spec.names_in kind rows.now) }
{
    for row in rows {
        if same_kind(kind, row.name.kind()) {
            out.push(row.name.copy()?)?;
        }
    }
    Ok(())
}

/// Returns the refs that an update includes: the given one, or else the installed runtimes and then
/// the installed applications, each in the order of the state.
pub fn targets(
    alloc: Global,
    state: &State,
    which: Option<&RefName>,
) -> Result<Items<RefName>, AllocError>
    ensures { IfOk result (λ names. names ≡ spec.targets_of state.now (option_copied which.entry)) }
{
    let mut names = Items::new(alloc);
    match which {
        Some(name) => names.push(name.copy()?)?,
        None => {
            push_kind(&mut names, state.refs.as_slice(), RefKind::Runtime)?;
            push_kind(&mut names, state.refs.as_slice(), RefKind::App)?;
        }
    }
    Ok(names)
}
