//! Objects by their digests.

ghost use Rattle.std.specs.Prelude.{◌≡◌, ◌↔◌, ◌++◌, map, IsTrue, OnOk, IfErr};
ghost use Rattle.ost_model.specs.declared.object.Object.TheVariants as objects;
ghost use Rattle.ost_commit.specs.Tables.{PutsObject, IsFaultOfPut, built_of};

use crate::built::{BuildError, BuiltObject};
use fp_base::{Items, ObjKind};
use fp_name::Digest;
use ost_model::Object;
use std::alloc::AllocError;
use std::collections::BTreeMap;

/// Objects of one kind by their digests.
pub(crate) type Table = BTreeMap<Digest, Object>;

/// Puts an object under its digest. `Collision` if a different object has this digest.
pub(crate) fn put(table: &mut Table, digest: Digest, object: Object) -> Result<(), BuildError>
    ensures put { OnOk result (PutsObject table.old.entries table.new.entries digest object) }
    ensures error { IfErr result (IsFaultOfPut table.old.entries digest object) }
{
    match table.get(&digest) {
        Some(there) => {
            if !are_same(there, &object) {
                return Err(BuildError::Collision);
            }
        }
        None => {
            table.insert(digest, object)?;
        }
    }
    Ok(())
}

/// Returns whether two objects are equal.
fn are_same(a: &Object, b: &Object) -> bool
    ensures { IsTrue result ↔ (a.now ≡ b.now) }
{
    match a {
        Object::Meta(bytes) => is_meta(b, bytes.as_slice()),
        Object::File { mode, bytes } => is_file(b, *mode, bytes.as_slice()),
        Object::Link(text) => is_link(b, text.as_str()),
    }
}

/// Returns whether the object is a metadata object with these bytes.
fn is_meta(object: &Object, bytes: &[u8]) -> bool
    ensures { IsTrue result ↔ (object.now ≡ objects.Meta bytes.now) }
{
    match object {
        Object::Meta(others) => others.as_slice() == bytes,
        _ => false,
    }
}

/// Returns whether the object is a file with these permission bits and bytes.
fn is_file(object: &Object, mode: u32, bytes: &[u8]) -> bool
    ensures { IsTrue result ↔ (object.now ≡ objects.File mode bytes.now) }
{
    match object {
        Object::File {
            mode: other,
            bytes: others,
        } => *other == mode && others.as_slice() == bytes,
        _ => false,
    }
}

/// Returns whether the object is a symlink with this text.
fn is_link(object: &Object, text: &str) -> bool
    ensures { IsTrue result ↔ (object.now ≡ objects.Link text.now) }
{
    match object {
        Object::Link(other) => other.as_str() == text,
        _ => false,
    }
}

/// Adds all objects of the table, in ascending order of their digests.
pub(crate) fn add_all(
    objects: &mut Items<BuiltObject>,
    mut table: Table,
    kind: ObjKind,
) -> Result<(), AllocError>
    ensures { OnOk result (objects.new ≡ objects.old ++ map (built_of kind) table.entries) }
{
    while let Some((digest, object)) = table.pop_first() {
        objects.push(BuiltObject {
            digest,
            kind,
            object,
        })?;
    }
    Ok(())
}
