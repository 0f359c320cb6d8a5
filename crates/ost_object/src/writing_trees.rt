//! Writing dirtrees.
ghost use Rattle.std.specs.Prelude.{◌≡◌, IfOk};
ghost use Rattle.gv_value.specs.Tree.{tuple, array, tree as first, no_trees};
ghost use Rattle.gv_value.specs.Views.{plain, plains};
ghost use Rattle.ost_model.specs.Readers.{tree_breaks, tree_read};
ghost use Rattle.ost_model.specs.Types.{tree_shape};
ghost use Rattle.ost_object.specs.Views.{rows_view, tree_view};
ghost use Rattle.ost_object.specs.Writes.{Spells, Writes};

use crate::dirtree::{DirEntry, DirTree, FileEntry};
use crate::error::ObjectError;
use crate::row_values::{dirs_as_values, files_as_values};
use crate::spelling::spelled;
use crate::tree_rules::broken_name;
use crate::types::tree_type;
use fp_base::Blob;
use gv_value::GvValue;
use std::alloc::{AllocError, Global};

/// Returns the serialised form of a dirtree: the bytes that `read_dirtree` reads as this dirtree.
/// `Malformed` if and only if there are none: with the first of the rules `Name`, `Order` and
/// `Both` that it breaks, or with `Value` if there would be more than 16 MiB.
pub fn write_dirtree(alloc: Global, tree: &DirTree) -> Result<Blob, ObjectError>
    ensures { Writes tree_read tree_breaks result (tree_view tree.now) }
{
    write_rows(alloc, tree.files.as_slice(), tree.dirs.as_slice())
}

/// Writes the dirtree of these files and directories.
fn write_rows(alloc: Global, files: &[FileEntry], dirs: &[DirEntry]) -> Result<Blob, ObjectError>
    ensures { Writes tree_read tree_breaks result (rows_view files.now dirs.now) }
{
    let file_values = files_as_values(alloc, files)?;
    let dir_values = dirs_as_values(alloc, dirs)?;
    match broken_name(files, dirs) {
        Some(rule) => Err(ObjectError::Malformed(rule)),
        None => spelled_rows(alloc, file_values, dir_values),
    }
}

/// Returns the serialised form of a dirtree, by the values of its files and directories.
fn spelled_rows(alloc: Global, files: Vec<GvValue>, dirs: Vec<GvValue>) -> Result<Blob, ObjectError>
    ensures { Spells result tree_shape (tuple (first (array (plains files.items))
        (first (array (plains dirs.items)) no_trees))) }
{
    let of = tree_type(alloc)?;
    let value = rows_as_value(alloc, files, dirs)?;
    spelled(alloc, &of, &value)
}

/// Returns the value of a dirtree, by the values of its files and directories.
fn rows_as_value(
    alloc: Global,
    files: Vec<GvValue>,
    dirs: Vec<GvValue>,
) -> Result<GvValue, AllocError>
    ensures { IfOk result (λ value. plain value ≡ tuple (first (array (plains files.items))
        (first (array (plains dirs.items)) no_trees))) }
{
    Ok(GvValue::Tuple(vec![in alloc; GvValue::Array(files), GvValue::Array(dirs)]?))
}
