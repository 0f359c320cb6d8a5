//! The runtimes that deployed commits name.
ghost use Rattle.std.specs.Prelude.{◌≡◌, IfOk, IsErrOf};
ghost use Rattle.std.specs.Option.{option_copied};
ghost use Rattle.fp_host.specs.OverHost.{ChangesNothing, FailsAlone};
ghost use Rattle.fp_small.specs.Places.{repo};
ghost use Rattle.ost_model.specs.Objects.{Have};
ghost use Rattle.ost_model.specs.Remotes.{Stores};
ghost use Rattle.fp_name.specs.Pins as pins;
ghost use Rattle.fl_installed.specs.Users as spec;

use crate::files::read_metadata;
use crate::metadata::runtime_named;
use fp_host::{Host, HostEnd};
use fp_name::{Digest, RefKind, RefName};
use fp_small::{RefRow, State};
use std::alloc::Global;

/// Returns whether the ref is an application's.
pub(crate) fn is_app(name: &RefName) -> bool
    ensures { result ≡ pins.is_app name.now }
{
    match name.kind() {
        RefKind::App => true,
        RefKind::Runtime => false,
    }
}

/// Returns the runtime that a ref's commit names, read from the installation's store. Returns
/// `None` for a runtime's commit, and if the metadata is missing or not valid. Changes nothing.
pub fn runtime_at<H: Host>(
    alloc: Global,
    host: &mut H,
    name: &RefName,
    commit: &Digest,
) -> Result<Option<RefName>, HostEnd>
    ensures unchanged { ChangesNothing H.Host host.old host.new }
    ensures tells { (have : Have) → Stores repo (H.moments host.old) have
        → IfOk result (λ runtime. runtime ≡ spec.runtime_at have name.now commit.now) }
    ensures fault_has_cause { FailsAlone H.Host host.old host.new (IsErrOf result HostEnd.Fault) }
{
    let metadata = read_metadata(alloc, host, commit)?;
    Ok(runtime_named(alloc, name, &metadata)?)
}

/// Returns whether `other` is the ref `name`; false if `other` is `None`.
fn is_name(name: &RefName, other: Option<&RefName>) -> bool
    ensures { result ≡ spec.is_name name.now (option_copied other.entry) }
{
    match other {
        Some(other) => *other == *name,
        None => false,
    }
}

/// Returns whether the deployed commit of the row names the runtime. A runtime's commit names none,
/// and isn't read. Changes nothing.
fn names_it<H: Host>(
    alloc: Global,
    host: &mut H,
    runtime: &RefName,
    row: &RefRow,
) -> Result<bool, HostEnd>
    ensures unchanged { ChangesNothing H.Host host.old host.new }
    ensures tells { (have : Have) → Stores repo (H.moments host.old) have
        → IfOk result (λ it. it ≡ spec.names_it have runtime.now row.now) }
    ensures fault_has_cause { FailsAlone H.Host host.old host.new (IsErrOf result HostEnd.Fault) }
{
    if !is_app(&row.name) {
        return Ok(false);
    }
    let named = runtime_at(alloc, host, &row.name, &row.commit)?;
    Ok(is_name(runtime, named.as_ref()))
}

/// Returns the first ref of these rows whose deployed commit names the runtime. Changes nothing.
fn first_among<H: Host>(
    alloc: Global,
    host: &mut H,
    rows: &[RefRow],
    runtime: &RefName,
) -> Result<Option<RefName>, HostEnd>
    ensures unchanged { ChangesNothing H.Host host.old host.new }
    ensures tells { (have : Have) → Stores repo (H.moments host.old) have
        → IfOk result (λ user. user ≡ spec.first_user have runtime.now rows.now) }
    ensures fault_has_cause { FailsAlone H.Host host.old host.new (IsErrOf result HostEnd.Fault) }
{
    for row in rows {
        if names_it(alloc, host, runtime, row)? {
            return Ok(Some(row.name.copy()?));
        }
    }
    Ok(None)
}

/// Returns the first application, in the order of the state, whose deployed commit names the
/// runtime. Changes nothing.
pub fn first_user<H: Host>(
    alloc: Global,
    host: &mut H,
    state: &State,
    runtime: &RefName,
) -> Result<Option<RefName>, HostEnd>
    ensures unchanged { ChangesNothing H.Host host.old host.new }
    ensures tells { (have : Have) → Stores repo (H.moments host.old) have
        → IfOk result (λ user. user ≡ spec.first_user have runtime.now state.now.refs) }
    ensures fault_has_cause { FailsAlone H.Host host.old host.new (IsErrOf result HostEnd.Fault) }
{
    first_among(alloc, host, state.refs.as_slice(), runtime)
}
