//! Making the GVariant values of a dirtree's rows.
ghost use Rattle.std.specs.Prelude.{◌≡◌, true, map, IfOk, OnOk};
ghost use Rattle.std.specs.List.{list_all};
ghost use Rattle.gv_value.specs.Views.{plain, plains};
ghost use Rattle.ost_model.specs.Readers.{has_long, has_both_long};
ghost use Rattle.ost_object.specs.Values.{each_value, file_value, dir_value};
ghost use Rattle.ost_object.specs.Views.{file_row, dir_row};

use crate::dirtree::{DirEntry, FileEntry};
use crate::field_values::{digest_as_value, text_as_value};
use gv_value::GvValue;
use std::alloc::{AllocError, Global};

/// Returns files as values of type `(say)`.
pub fn files_as_values(alloc: Global, files: &[FileEntry]) -> Result<Vec<GvValue>, AllocError>
    ensures values { IfOk result (λ values. plains values.items ≡ each_value file_value
        (map file_row files.now)) }
    ensures long { OnOk result (list_all has_long (map file_row files.now) ≡ true) }
{
    let mut values = Vec::with_capacity(alloc, files.len())?;
    for file in files {
        values.push(file_as_value(alloc, file)?)?;
    }
    Ok(values)
}

/// Returns a file as a value of type `(say)`: its name and its digest.
fn file_as_value(alloc: Global, file: &FileEntry) -> Result<GvValue, AllocError>
    ensures value { IfOk result (λ value. plain value ≡ file_value (file_row file.now)) }
    ensures long { OnOk result (has_long (file_row file.now) ≡ true) }
{
    let name = text_as_value(alloc, file.name.as_str())?;
    let digest = digest_as_value(alloc, &file.digest)?;
    Ok(GvValue::Tuple(vec![in alloc; name, digest]?))
}

/// Returns directories as values of type `(sayay)`.
pub fn dirs_as_values(alloc: Global, dirs: &[DirEntry]) -> Result<Vec<GvValue>, AllocError>
    ensures values { IfOk result (λ values. plains values.items ≡ each_value dir_value
        (map dir_row dirs.now)) }
    ensures long { OnOk result (list_all has_both_long (map dir_row dirs.now) ≡ true) }
{
    let mut values = Vec::with_capacity(alloc, dirs.len())?;
    for dir in dirs {
        values.push(dir_as_value(alloc, dir)?)?;
    }
    Ok(values)
}

/// Returns a directory as a value of type `(sayay)`: its name and the digests of its dirtree and
/// its dirmeta.
fn dir_as_value(alloc: Global, dir: &DirEntry) -> Result<GvValue, AllocError>
    ensures value { IfOk result (λ value. plain value ≡ dir_value (dir_row dir.now)) }
    ensures long { OnOk result (has_both_long (dir_row dir.now) ≡ true) }
{
    let name = text_as_value(alloc, dir.name.as_str())?;
    let tree = digest_as_value(alloc, &dir.tree)?;
    let meta = digest_as_value(alloc, &dir.meta)?;
    Ok(GvValue::Tuple(vec![in alloc; name, tree, meta]?))
}
