//! The trees of runtimes and applications.
ghost use Rattle.std.specs.Prelude.{◌≡◌, ◌∷◌, ◌++◌, [], ◌<◌, ◌^◌, IfOk, OnOk};
ghost use Rattle.fl_gen.specs.Made as made;

use crate::limits::{LIBRARIES, OWN_FILES, SHARED_FILES};
use crate::naming::{app_metadata, path_at_root, path_in_files, runtime_metadata};
use crate::series::{Series, push_series};
use fp_base::{Blob, Items, Text};
use fp_small::FILE_MODE;
use ost_commit::TreeRow;
use std::alloc::{AllocError, Global};

/// Returns the rows of a tree that has only the file `metadata`.
fn with_metadata(alloc: Global, bytes: Blob) -> Result<Items<TreeRow>, AllocError>
    ensures { IfOk result (λ rows. rows ≡ made.metadata_row bytes ∷ []) }
{
    let path = path_at_root(alloc, "metadata")?;
    let mut rows = Items::new(alloc);
    rows.push(TreeRow::File {
        path,
        mode: FILE_MODE,
        bytes,
    })?;
    Ok(rows)
}

/// Returns the rows of the runtime with this number, in this version.
pub(crate) fn runtime_rows(
    alloc: Global,
    version: usize,
    number: usize,
) -> Result<Items<TreeRow>, AllocError>
    requires version { version < 2 ^ 8 }
    requires low { number < 2 ^ 8 }
    ensures { IfOk result (λ rows. rows ≡ made.runtime_rows version number) }
{
    let libraries = Series {
        base: 11 * number,
        step: 5,
        version,
    };
    let mut rows = with_metadata(alloc, runtime_metadata(alloc, number)?)?;
    push_series(alloc, &mut rows, "lib", libraries, LIBRARIES)?;
    Ok(rows)
}

/// Appends the link `files/link` to the rows. Its target is `f0`.
fn push_link(alloc: Global, rows: &mut Items<TreeRow>) -> Result<(), AllocError>
    ensures { OnOk result (rows.new ≡ rows.old ++ made.link_row ∷ []) }
{
    let path = path_in_files(alloc, "link")?;
    let target = Text::from_str(alloc, "f0")?;
    rows.push(TreeRow::Link { path, target })
}

/// Returns the rows of the application with this number, in this version.
pub(crate) fn app_rows(
    alloc: Global,
    version: usize,
    number: usize,
) -> Result<Items<TreeRow>, AllocError>
    requires version { version < 2 ^ 8 }
    requires low { number < 2 ^ 8 }
    ensures { IfOk result (λ rows. rows ≡ made.app_rows version number) }
{
    let own = Series {
        base: 7 * number,
        step: 3,
        version,
    };
    let shared = Series {
        base: 0,
        step: 1,
        version: 0,
    };
    let mut rows = with_metadata(alloc, app_metadata(alloc, number)?)?;
    push_series(alloc, &mut rows, "f", own, OWN_FILES)?;
    push_series(alloc, &mut rows, "shared", shared, SHARED_FILES)?;
    push_link(alloc, &mut rows)?;
    Ok(rows)
}
