//! Reading dirmetas.
ghost use Rattle.std.specs.Prelude.{◌≡◌, IfOk, Some};
ghost use Rattle.std.specs.Option.{IsSome, option_map};
ghost use Rattle.gv_value.specs.Reading.{value_of};
ghost use Rattle.gv_value.specs.Tree.{tuple};
ghost use Rattle.gv_decode.specs.Decoded.{slices};
ghost use Rattle.ost_model.specs.Contents.{attributes_shape};
ghost use Rattle.ost_model.specs.Fields.{meta_in, are_none, items_in};
ghost use Rattle.ost_model.specs.Readers.{kept, meta_breaks, meta_read};
ghost use Rattle.ost_object.specs.Answers.{Finds, Reads};
ghost use Rattle.ost_object.specs.Parts.{meta_shapes, each_tree, AreEach};
ghost use Rattle.ost_object.specs.Views.{meta_fields, meta_view, tree_at};

use crate::checked::{members_of, next_row, rows_of};
use crate::dirmeta::DirMeta;
use crate::error::ObjectError;
use crate::fields::MetaFields;
use crate::types::{attributes_type, meta_type};
use crate::values::{check, number_in_bytes};
use fp_base::Rule;
use ost_model::{DIRECTORY_TYPE, LOWEST_TYPE_BIT};
use std::alloc::{AllocError, Global};

/// Reads a dirmeta object. `Malformed` with the first of the rules `Value`, `Owner`, `Xattrs` and
/// `Kind` that the bytes break.
pub fn read_dirmeta(alloc: Global, bytes: &[u8]) -> Result<DirMeta, ObjectError>
    ensures { Reads meta_view result (meta_read bytes.now) }
{
    let of = meta_type(alloc)?;
    check(alloc, &of, bytes)?;
    let members = members_of(alloc, &of, bytes)?;
    let fields = fields_of(alloc, &members)?;
    meta_of_fields(fields)
}

/// Returns the fields of a dirmeta by the bytes of its members.
fn fields_of(alloc: Global, members: &[&[u8]]) -> Result<MetaFields, ObjectError>
    requires { AreEach meta_shapes (slices members.now) }
    ensures { Finds meta_fields result (meta_in
        (tuple (each_tree meta_shapes (slices members.now)))) }
{
    match members {
        [uid, gid, mode, xattrs] => Ok(MetaFields {
            uid: number_in_bytes(alloc, uid)?,
            gid: number_in_bytes(alloc, gid)?,
            mode: number_in_bytes(alloc, mode)?,
            bare: is_bare(alloc, xattrs)?,
        }),
        _ => unreachable!(),
    }
}

/// Returns whether an array of extended attributes is empty.
fn is_bare(alloc: Global, bytes: &[u8]) -> Result<bool, AllocError>
    requires { IsSome (value_of attributes_shape bytes.now) }
    ensures { IfOk result (λ bare. option_map are_none
        (items_in (tree_at attributes_shape bytes.now)) ≡ Some bare) }
{
    let of = attributes_type(alloc)?;
    let rows = rows_of(alloc, &of, bytes)?;
    let first = next_row(rows)?;
    Ok(first.is_none())
}

/// Returns the dirmeta of these fields. `Malformed` with the first of the rules `Owner`, `Xattrs`
/// and `Kind` that they break.
fn meta_of_fields(fields: MetaFields) -> Result<DirMeta, ObjectError>
    ensures { Reads meta_view result (kept (meta_breaks (meta_fields fields))
        (meta_fields fields)) }
{
    if !(fields.uid == 0 && fields.gid == 0) {
        return Err(ObjectError::Malformed(Rule::Owner));
    }
    if !fields.bare {
        return Err(ObjectError::Malformed(Rule::Xattrs));
    }
    if fields.mode / LOWEST_TYPE_BIT != DIRECTORY_TYPE {
        return Err(ObjectError::Malformed(Rule::Kind));
    }
    Ok(DirMeta { mode: fields.mode })
}
