//! The list of all exports, in order.
ghost use Rattle.std.specs.Prelude.{◌≡◌, IfOk, IsErrOf};
ghost use Rattle.std.specs.BTreeMap.{values};
ghost use Rattle.fp_host.specs.OverHost.{ChangesNothing, FailsAlone};
ghost use Rattle.fp_small.specs.Places.{repo};
ghost use Rattle.ost_model.specs.Objects.{Have};
ghost use Rattle.ost_model.specs.Remotes.{Stores};
ghost use Rattle.fl_export.specs.Exported as spec;

use crate::gathering::add_exports;
use crate::rows::ExportRow;
use fp_base::Items;
use fp_host::{Host, HostEnd};
use fp_small::{RefRow, State, values_in_order};
use std::alloc::{AllocError, Global};
use std::collections::BTreeMap;

/// Returns the exports of the deployed commits of these refs, in the order of the refs. Changes
/// nothing.
fn all_exported<H: Host>(
    alloc: Global,
    host: &mut H,
    refs: &[RefRow],
) -> Result<Vec<ExportRow>, HostEnd>
    ensures unchanged { ChangesNothing H.Host host.old host.new }
    ensures tells { (have : Have) → Stores repo (H.moments host.old) have
        → IfOk result (λ rows. rows.items ≡ spec.all_exported have refs.now) }
    ensures fault_has_cause { FailsAlone H.Host host.old host.new (IsErrOf result HostEnd.Fault) }
{
    let mut rows = Vec::new(alloc);
    for row in refs {
        add_exports(alloc, host, row, &mut rows)?;
    }
    Ok(rows)
}

/// Returns the rows by the texts of their paths. Of several rows with the same path, the first is
/// kept.
fn by_path(
    alloc: Global,
    mut rows: Vec<ExportRow>,
) -> Result<BTreeMap<String, ExportRow>, AllocError>
    ensures { IfOk result (λ keyed. values keyed ≡ spec.in_order rows.items) }
{
    let mut keyed = BTreeMap::new(alloc);
    while let Some(row) = rows.pop() {
        let path = String::from_str(alloc, row.path.text())?;
        keyed.insert(path, row)?;
    }
    Ok(keyed)
}

/// Returns what the installation's applications export according to its store, ascending by the
/// bytes of the paths: desktop files in `share/applications`, rewritten, and symlinks to icons in
/// `share/icons/hicolor`. Only files whose names begin with the application's ID and `.` or `-` are
/// exported. If several refs export the same path, the export of the first is kept. Changes
/// nothing.
#[tactic(auto, unfolding(crate::specs::Exported::exported))]
pub fn wanted<H: Host>(
    alloc: Global,
    host: &mut H,
    state: &State,
) -> Result<Items<ExportRow>, HostEnd>
    ensures unchanged { ChangesNothing H.Host host.old host.new }
    ensures tells { (have : Have) → Stores repo (H.moments host.old) have
        → IfOk result (λ rows. rows ≡ spec.exported have state.now) }
    ensures fault_has_cause { FailsAlone H.Host host.old host.new (IsErrOf result HostEnd.Fault) }
{
    let rows = all_exported(alloc, host, state.refs.as_slice())?;
    let keyed = by_path(alloc, rows)?;
    Ok(Items::from_vec(values_in_order(alloc, keyed)?))
}
