//! Reading dirtrees.
ghost use Rattle.std.specs.Prelude.{◌≡◌, ◌∷◌, []};
ghost use Rattle.std.specs.Option.{IsSome};
ghost use Rattle.gv_value.specs.Reading.{value_of};
ghost use Rattle.gv_value.specs.Tree.{tuple};
ghost use Rattle.gv_decode.specs.Decoded.{slices};
ghost use Rattle.ost_model.specs.Fields.{tree_in};
ghost use Rattle.ost_model.specs.Readers.{kept, judged, first_broken, name_tests, tree_breaks, tree_read};
ghost use Rattle.ost_model.specs.Types.{related_shape, dirs_shape};
ghost use Rattle.ost_object.specs.Answers.{Reads};
ghost use Rattle.ost_object.specs.Parts.{rows_shapes, each_tree, AreEach};
ghost use Rattle.ost_object.specs.Views.{rows_view, tree_view};

use crate::checked::members_of;
use crate::dirtree::{DirEntry, DirTree, FileEntry};
use crate::error::ObjectError;
use crate::reading_rows::{dirs_of, files_of};
use crate::tree_rules::broken_name;
use crate::types::tree_type;
use crate::values::check;
use fp_base::Items;
use std::alloc::Global;

/// Reads a dirtree object. `Malformed` with the first of the rules `Value`, `Digest`, `Name`,
/// `Order` and `Both` that the bytes break. Checks all bytes before it keeps anything, and then
/// cuts them row by row.
pub fn read_dirtree(alloc: Global, bytes: &[u8]) -> Result<DirTree, ObjectError>
    ensures { Reads tree_view result (tree_read bytes.now) }
{
    let of = tree_type(alloc)?;
    check(alloc, &of, bytes)?;
    let members = members_of(alloc, &of, bytes)?;
    tree_of_members(alloc, &members)
}

/// Returns the dirtree by the bytes of its members. `Malformed` with the first of the rules
/// `Digest`, `Name`, `Order` and `Both` that it breaks.
fn tree_of_members(alloc: Global, members: &[&[u8]]) -> Result<DirTree, ObjectError>
    requires { AreEach rows_shapes (slices members.now) }
    ensures { Reads tree_view result (judged tree_breaks
        (tree_in (tuple (each_tree rows_shapes (slices members.now))))) }
{
    match members {
        [files, dirs] => tree_of_rows(alloc, files, dirs),
        _ => unreachable!(),
    }
}

/// Returns the dirtree by the bytes of its two arrays. `Malformed` with the first of the rules
/// `Digest`, `Name`, `Order` and `Both` that it breaks.
fn tree_of_rows(alloc: Global, files: &[u8], dirs: &[u8]) -> Result<DirTree, ObjectError>
    requires files { IsSome (value_of related_shape files.now) }
    requires dirs { IsSome (value_of dirs_shape dirs.now) }
    ensures { Reads tree_view result (judged tree_breaks
        (tree_in (tuple (each_tree rows_shapes (files.now ∷ dirs.now ∷ []))))) }
{
    let files = files_of(alloc, files)?;
    let dirs = dirs_of(alloc, dirs)?;
    named(files, dirs)
}

/// Returns the dirtree of these files and directories. `Malformed` with the first of the rules
/// `Name`, `Order` and `Both` that it breaks.
fn named(files: Vec<FileEntry>, dirs: Vec<DirEntry>) -> Result<DirTree, ObjectError>
    ensures { Reads tree_view result (kept (first_broken (name_tests
        (rows_view files.items dirs.items))) (rows_view files.items dirs.items)) }
{
    match broken_name(&files, &dirs) {
        Some(rule) => Err(ObjectError::Malformed(rule)),
        None => Ok(DirTree {
            files: Items::from_vec(files),
            dirs: Items::from_vec(dirs),
        }),
    }
}
