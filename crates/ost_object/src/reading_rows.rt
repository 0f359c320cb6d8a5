//! Reading the rows of a dirtree, one after another, from bytes that are known to be a value.
ghost use Rattle.std.specs.Prelude.{◌≡◌, ◌∷◌, [], map, option_and_then};
ghost use Rattle.std.specs.Option.{IsSome};
ghost use Rattle.gv_value.specs.Reading.{value_of};
ghost use Rattle.gv_value.specs.Shape.{tuple as tuple_shape};
ghost use Rattle.gv_value.specs.Tree.{tuple};
ghost use Rattle.gv_value.specs.Views.{shape_of};
ghost use Rattle.gv_decode.specs.Decoded.{slices};
ghost use Rattle.gv_decode.specs.Stepped.{elements_left, IsOpen};
ghost use Rattle.ost_model.specs.Contents.{bytes_shape};
ghost use Rattle.ost_model.specs.Fields.{file_in, dir_in};
ghost use Rattle.ost_model.specs.Readers.{has_long, has_both_long};
ghost use Rattle.ost_model.specs.Types.{text_shape, related_shape, dirs_shape};
ghost use Rattle.ost_object.specs.Answers.{Tries, passing, only};
ghost use Rattle.ost_object.specs.Parts.{file_shapes, dir_shapes, each_tree, AreEach, AreLeft, files_in, dirs_in, rows_passing};
ghost use Rattle.ost_object.specs.Views.{file_row, dir_row, tree_at};

use crate::checked::{members_of, next_row, rows_of};
use crate::digests::digest_of;
use crate::dirtree::{DirEntry, FileEntry};
use crate::error::ObjectError;
use crate::types::{dir_type, dirs_type, file_type, related_type};
use crate::values::text_of_bytes;
use fp_base::Rule;
use gv_decode::Elements;
use gv_value::GvType;
use std::alloc::Global;

/// Returns the files in an array. `Malformed` with the rule `Digest` if a digest isn't 32 bytes
/// long.
pub fn files_of(alloc: Global, bytes: &[u8]) -> Result<Vec<FileEntry>, ObjectError>
    requires { IsSome (value_of related_shape bytes.now) }
    ensures { Tries Rule.Digest (λ files. map file_row files.items) result
        (option_and_then (only has_long) (files_in (tree_at related_shape bytes.now))) }
{
    let of = related_type(alloc)?;
    let row = file_type(alloc)?;
    let rows = rows_of(alloc, &of, bytes)?;
    file_rows(alloc, &row, rows)
}

/// Returns the directories in an array. `Malformed` with the rule `Digest` if a digest isn't 32
/// bytes long.
pub fn dirs_of(alloc: Global, bytes: &[u8]) -> Result<Vec<DirEntry>, ObjectError>
    requires { IsSome (value_of dirs_shape bytes.now) }
    ensures { Tries Rule.Digest (λ dirs. map dir_row dirs.items) result
        (option_and_then (only has_both_long) (dirs_in (tree_at dirs_shape bytes.now))) }
{
    let of = dirs_type(alloc)?;
    let row = dir_type(alloc)?;
    let rows = rows_of(alloc, &of, bytes)?;
    dir_rows(alloc, &row, rows)
}

/// Returns the files of the rows that are left. `of` is the type of a row.
fn file_rows(alloc: Global, of: &GvType, rows: Elements<'_>) -> Result<Vec<FileEntry>, ObjectError>
    requires ready { IsOpen rows }
    requires of { shape_of of.now ≡ tuple_shape file_shapes }
    requires values { AreLeft (tuple_shape file_shapes) (elements_left rows) }
    ensures { Tries Rule.Digest (λ files. map file_row files.items) result
        (rows_passing has_long file_in (tuple_shape file_shapes) (elements_left rows.entry)) }
{
    let mut files = Vec::new(alloc);
    let mut left = rows;
    while let Some((row, others)) = next_row(left)? {
        files.push(file_entry(alloc, of, row)?)?;
        left = others;
    }
    Ok(files)
}

/// Returns the directories of the rows that are left. `of` is the type of a row.
fn dir_rows(alloc: Global, of: &GvType, rows: Elements<'_>) -> Result<Vec<DirEntry>, ObjectError>
    requires ready { IsOpen rows }
    requires of { shape_of of.now ≡ tuple_shape dir_shapes }
    requires values { AreLeft (tuple_shape dir_shapes) (elements_left rows) }
    ensures { Tries Rule.Digest (λ dirs. map dir_row dirs.items) result
        (rows_passing has_both_long dir_in (tuple_shape dir_shapes) (elements_left rows.entry)) }
{
    let mut dirs = Vec::new(alloc);
    let mut left = rows;
    while let Some((row, others)) = next_row(left)? {
        dirs.push(dir_entry(alloc, of, row)?)?;
        left = others;
    }
    Ok(dirs)
}

/// Returns the file of a row. `Malformed` with the rule `Digest` if its digest isn't 32 bytes long.
fn file_entry(alloc: Global, of: &GvType, bytes: &[u8]) -> Result<FileEntry, ObjectError>
    requires of { shape_of of.now ≡ tuple_shape file_shapes }
    requires value { IsSome (value_of (tuple_shape file_shapes) bytes.now) }
    ensures { Tries Rule.Digest file_row result (option_and_then (passing has_long)
        (file_in (tree_at (tuple_shape file_shapes) bytes.now))) }
{
    let members = members_of(alloc, of, bytes)?;
    file_of_members(alloc, &members)
}

/// Returns the file of a row, by the bytes of its members.
fn file_of_members(alloc: Global, members: &[&[u8]]) -> Result<FileEntry, ObjectError>
    requires { AreEach file_shapes (slices members.now) }
    ensures { Tries Rule.Digest file_row result (option_and_then (passing has_long)
        (file_in (tuple (each_tree file_shapes (slices members.now))))) }
{
    match members {
        [name, digest] => file_of_parts(alloc, name, digest),
        _ => unreachable!(),
    }
}

/// Returns the file of a row, by the bytes of its name and its digest.
fn file_of_parts(alloc: Global, name: &[u8], digest: &[u8]) -> Result<FileEntry, ObjectError>
    requires name { IsSome (value_of text_shape name.now) }
    requires digest { IsSome (value_of bytes_shape digest.now) }
    ensures { Tries Rule.Digest file_row result (option_and_then (passing has_long)
        (file_in (tuple (each_tree file_shapes (name.now ∷ digest.now ∷ []))))) }
{
    let digest = digest_of(digest, Rule::Digest)?;
    let name = text_of_bytes(alloc, name)?;
    Ok(FileEntry { name, digest })
}

/// Returns the directory of a row. `Malformed` with the rule `Digest` if one of its digests isn't
/// 32 bytes long.
fn dir_entry(alloc: Global, of: &GvType, bytes: &[u8]) -> Result<DirEntry, ObjectError>
    requires of { shape_of of.now ≡ tuple_shape dir_shapes }
    requires value { IsSome (value_of (tuple_shape dir_shapes) bytes.now) }
    ensures { Tries Rule.Digest dir_row result (option_and_then (passing has_both_long)
        (dir_in (tree_at (tuple_shape dir_shapes) bytes.now))) }
{
    let members = members_of(alloc, of, bytes)?;
    dir_of_members(alloc, &members)
}

/// Returns the directory of a row, by the bytes of its members.
fn dir_of_members(alloc: Global, members: &[&[u8]]) -> Result<DirEntry, ObjectError>
    requires { AreEach dir_shapes (slices members.now) }
    ensures { Tries Rule.Digest dir_row result (option_and_then (passing has_both_long)
        (dir_in (tuple (each_tree dir_shapes (slices members.now))))) }
{
    match members {
        [name, tree, meta] => dir_of_parts(alloc, name, tree, meta),
        _ => unreachable!(),
    }
}

/// Returns the directory of a row, by the bytes of its name and its digests.
fn dir_of_parts(
    alloc: Global,
    name: &[u8],
    tree: &[u8],
    meta: &[u8],
) -> Result<DirEntry, ObjectError>
    requires name { IsSome (value_of text_shape name.now) }
    requires tree { IsSome (value_of bytes_shape tree.now) }
    requires meta { IsSome (value_of bytes_shape meta.now) }
    ensures { Tries Rule.Digest dir_row result (option_and_then (passing has_both_long)
        (dir_in (tuple (each_tree dir_shapes (name.now ∷ tree.now ∷ meta.now ∷ []))))) }
{
    let tree = digest_of(tree, Rule::Digest)?;
    let meta = digest_of(meta, Rule::Digest)?;
    let name = text_of_bytes(alloc, name)?;
    Ok(DirEntry { name, tree, meta })
}
