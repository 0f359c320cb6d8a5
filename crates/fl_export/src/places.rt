//! The paths of exports in an installation.
ghost use Rattle.std.specs.Prelude.{◌≡◌, ◌++◌, IfOk};
ghost use Rattle.fl_export.specs.Placed.{exports, places_of};

use crate::rows::ExportRow;
use fp_host::Path;
use std::alloc::{AllocError, Global};

/// Returns the path of the directory `exports`.
pub(crate) fn exports_path(alloc: Global) -> Result<Path, AllocError>
    ensures { IfOk result (λ path. path ≡ exports) }
{
    Path::root(alloc).child("exports")
}

/// Returns the path below the directory `exports`.
pub(crate) fn place_of(alloc: Global, path: &Path) -> Result<Path, AllocError>
    ensures { IfOk result (λ place. place ≡ path.now ++ exports) }
{
    match path.name() {
        None => exports_path(alloc),
        Some(name) => place_of(alloc, &path.folder(1)?)?.child(name),
    }
}

/// Returns the paths of these rows below `exports`.
pub(crate) fn places_of(alloc: Global, rows: &[ExportRow]) -> Result<Vec<Path>, AllocError>
    ensures { IfOk result (λ places. places.items ≡ places_of rows.now) }
{
    let mut places = Vec::new(alloc);
    for row in rows {
        places.push(place_of(alloc, &row.path)?)?;
    }
    Ok(places)
}
