//! The metadata and the extension points of all deployed commits.
ghost use Rattle.std.specs.Prelude.{◌≡◌, ◌++◌, IfOk, OnOk, IsErrOf, option_to_list};
ghost use Rattle.fp_host.specs.OverHost.{ChangesNothing, FailsAlone};
ghost use Rattle.fp_small.specs.Places.{repo};
ghost use Rattle.ost_model.specs.Objects.{Have};
ghost use Rattle.ost_model.specs.Remotes.{Stores};
ghost use Rattle.fl_installed.specs.Users as spec;

use crate::files::read_metadata;
use crate::metadata::{meta_said, points_in};
use crate::users::is_app;
use fl_extension::Point;
use fl_meta::Meta;
use fp_base::{Blob, Items};
use fp_host::{Host, HostEnd};
use fp_name::RefName;
use fp_small::{RefRow, State};
use std::alloc::{AllocError, Global};

/// Returns the ref with the metadata that these bytes are, or `None` if they aren't valid metadata
/// of its kind.
fn named_meta(
    alloc: Global,
    name: &RefName,
    metadata: &Blob,
) -> Result<Option<(RefName, Meta)>, AllocError>
    ensures { IfOk result (λ meta. meta ≡ spec.named_meta name.now metadata.now) }
{
    match meta_said(alloc, name, metadata)? {
        Some(meta) => Ok(Some((name.copy()?, meta))),
        None => Ok(None),
    }
}

/// Returns the application with the metadata of its deployed commit, or `None` if the metadata
/// isn't valid. Returns `None` for a runtime, whose commit isn't read. Changes nothing.
fn meta_at<H: Host>(
    alloc: Global,
    host: &mut H,
    row: &RefRow,
) -> Result<Option<(RefName, Meta)>, HostEnd>
    ensures unchanged { ChangesNothing H.Host host.old host.new }
    ensures tells { (have : Have) → Stores repo (H.moments host.old) have
        → IfOk result (λ meta. meta ≡ spec.meta_at have row.now) }
    ensures fault_has_cause { FailsAlone H.Host host.old host.new (IsErrOf result HostEnd.Fault) }
{
    if !is_app(&row.name) {
        return Ok(None);
    }
    let metadata = read_metadata(alloc, host, &row.commit)?;
    Ok(named_meta(alloc, &row.name, &metadata)?)
}

/// Appends the metadata, if there is any.
fn add_meta(
    found: Option<(RefName, Meta)>,
    metas: &mut Items<(RefName, Meta)>,
) -> Result<(), AllocError>
    ensures { OnOk result (metas.new ≡ metas.old ++ option_to_list found) }
{
    match found {
        Some(meta) => metas.push(meta),
        None => Ok(()),
    }
}

/// Returns the applications of these rows with their metadata, in order. Changes nothing.
fn metas_of<H: Host>(
    alloc: Global,
    host: &mut H,
    rows: &[RefRow],
) -> Result<Items<(RefName, Meta)>, HostEnd>
    ensures unchanged { ChangesNothing H.Host host.old host.new }
    ensures tells { (have : Have) → Stores repo (H.moments host.old) have
        → IfOk result (λ metas. metas ≡ spec.installed_metas have rows.now) }
    ensures fault_has_cause { FailsAlone H.Host host.old host.new (IsErrOf result HostEnd.Fault) }
{
    let mut metas = Items::new(alloc);
    for row in rows {
        let found = meta_at(alloc, host, row)?;
        add_meta(found, &mut metas)?;
    }
    Ok(metas)
}

/// Returns each deployed application once, with the metadata of its commit, in the order of the
/// state, read from the installation's store. Leaves out applications whose metadata isn't valid.
/// Changes nothing.
pub fn metas<H: Host>(
    alloc: Global,
    host: &mut H,
    state: &State,
) -> Result<Items<(RefName, Meta)>, HostEnd>
    ensures unchanged { ChangesNothing H.Host host.old host.new }
    ensures tells { (have : Have) → Stores repo (H.moments host.old) have
        → IfOk result (λ metas. metas ≡ spec.installed_metas have state.now.refs) }
    ensures fault_has_cause { FailsAlone H.Host host.old host.new (IsErrOf result HostEnd.Fault) }
{
    metas_of(alloc, host, state.refs.as_slice())
}

/// Returns the ref of the row with the extension points of its deployed commit. Changes nothing.
fn points_at<H: Host>(
    alloc: Global,
    host: &mut H,
    row: &RefRow,
) -> Result<(RefName, Items<Point>), HostEnd>
    ensures unchanged { ChangesNothing H.Host host.old host.new }
    ensures tells { (have : Have) → Stores repo (H.moments host.old) have
        → IfOk result (λ points. points ≡ spec.points_at have row.now) }
    ensures fault_has_cause { FailsAlone H.Host host.old host.new (IsErrOf result HostEnd.Fault) }
{
    let metadata = read_metadata(alloc, host, &row.commit)?;
    let points = points_in(alloc, &row.name, &metadata)?;
    Ok((row.name.copy()?, points))
}

/// Returns the refs of these rows with their extension points, in order. Changes nothing.
fn points_of<H: Host>(
    alloc: Global,
    host: &mut H,
    rows: &[RefRow],
) -> Result<Items<(RefName, Items<Point>)>, HostEnd>
    ensures unchanged { ChangesNothing H.Host host.old host.new }
    ensures tells { (have : Have) → Stores repo (H.moments host.old) have
        → IfOk result (λ points. points ≡ spec.installed_points have rows.now) }
    ensures fault_has_cause { FailsAlone H.Host host.old host.new (IsErrOf result HostEnd.Fault) }
{
    let mut points = Items::new(alloc);
    for row in rows {
        points.push(points_at(alloc, host, row)?)?;
    }
    Ok(points)
}

/// Returns each deployed ref once, with the extension points of its commit, in the order of the
/// state, read from the installation's store. Changes nothing.
pub fn points<H: Host>(
    alloc: Global,
    host: &mut H,
    state: &State,
) -> Result<Items<(RefName, Items<Point>)>, HostEnd>
    ensures unchanged { ChangesNothing H.Host host.old host.new }
    ensures tells { (have : Have) → Stores repo (H.moments host.old) have
        → IfOk result (λ points. points ≡ spec.installed_points have state.now.refs) }
    ensures fault_has_cause { FailsAlone H.Host host.old host.new (IsErrOf result HostEnd.Fault) }
{
    points_of(alloc, host, state.refs.as_slice())
}
