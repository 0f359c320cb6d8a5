//! Objects as items, of which digests are computed.
ghost use Rattle.std.specs.Prelude.{◌≡◌, None, Some, IfOk, IsTrue};
ghost use Rattle.fp_base.specs.declared.object.ObjKind.TheVariants as kinds;
ghost use Rattle.ost_model.specs.declared.object.Object.TheVariants as objects;
ghost use Rattle.ost_model.specs.Objects.{digest_of, object_fault};
ghost use Rattle.ost_store.specs.Stage.{IsKeepable};
ghost use Rattle.ost_head.specs.Objects.{IsFit, rules_fault};
ghost use Rattle.ost_pull.specs.Batches.{IsParted, object_in};

use fp_base::{Blob, ObjKind, Text};
use fp_name::Digest;
use ost_content::{header, is_permission, link_header};
use ost_model::{LOWEST_TYPE_BIT, Object};
use ost_object::{commit_root, read_dirmeta, read_dirtree};
use par_digest::Item;
use std::alloc::{AllocError, Global};

/// An object without the bytes that are the body of its item.
#[derive(Drop)]
pub(crate) enum Form {
    /// A metadata object.
    Meta,
    /// A file with these permission bits.
    File(u32),
    /// A symlink with this text. The body of its item is empty.
    Link(Text),
}

/// Splits an object into its form and the item of which its digest is computed. Copies no bytes of
/// a file or a metadata object.
#[tactic(auto, using(crate::proofs::Read::file_item, crate::proofs::Read::meta_item, ost_content::proofs::Links::link_item))]
pub(crate) fn parted(alloc: Global, object: Object) -> Result<(Form, Item), AllocError>
    requires { IsKeepable object }
    ensures { IfOk result (λ parts. IsParted object parts.0 parts.1) }
{
    match object {
        Object::Meta(bytes) => {
            let head = Blob::from_slice(alloc, &[])?;
            Ok((Form::Meta, Item { head, body: bytes }))
        }
        Object::File { mode, bytes } => {
            let head = Blob::from_slice(alloc, &header(mode))?;
            Ok((Form::File(mode), Item { head, body: bytes }))
        }
        Object::Link(text) => {
            let head = link_header(alloc, text.as_str())?;
            let body = Blob::from_slice(alloc, &[])?;
            Ok((Form::Link(text), Item { head, body }))
        }
    }
}

/// Returns the object of this form and this item. Copies its bytes.
pub(crate) fn whole(alloc: Global, form: &Form, item: &Item) -> Result<Object, AllocError>
    ensures { IfOk result (λ object. object ≡ object_in form.now item.now) }
{
    match form {
        Form::Meta => Ok(Object::Meta(item.body.copy()?)),
        Form::File(mode) => Ok(Object::File {
            mode: *mode,
            bytes: item.body.copy()?,
        }),
        Form::Link(text) => Ok(Object::Link(text.copy()?)),
    }
}

/// Returns whether the bytes are a dirmeta that breaks no rule and has good permission bits.
/// Returns false also if memory runs out.
fn is_dirmeta(alloc: Global, bytes: &[u8]) -> bool
    ensures { IsTrue result → rules_fault kinds.DirMeta (objects.Meta bytes.now) ≡ None }
{
    match read_dirmeta(alloc, bytes) {
        Ok(meta) => is_permission(meta.mode % LOWEST_TYPE_BIT),
        Err(_) => false,
    }
}

/// Returns whether the bytes are a dirtree that breaks no rule. Returns false also if memory runs
/// out.
fn is_dirtree(alloc: Global, bytes: &[u8]) -> bool
    ensures { IsTrue result → rules_fault kinds.DirTree (objects.Meta bytes.now) ≡ None }
{
    match read_dirtree(alloc, bytes) {
        Ok(_) => true,
        Err(_) => false,
    }
}

/// Returns whether the bytes are a commit that breaks no rule. Returns false also if memory runs
/// out.
#[tactic(auto, using(crate::proofs::Read::commit_keeps))]
fn is_commit(alloc: Global, bytes: &[u8]) -> bool
    ensures { IsTrue result → rules_fault kinds.Commit (objects.Meta bytes.now) ≡ None }
{
    match commit_root(alloc, bytes) {
        Ok(_) => true,
        Err(_) => false,
    }
}

/// Returns whether the object breaks no rule of its kind. Returns false also if memory runs out.
fn keeps_rules(alloc: Global, kind: ObjKind, object: &Object) -> bool
    ensures { IsTrue result → rules_fault kind object.now ≡ None }
{
    match object {
        Object::Meta(bytes) => match kind {
            ObjKind::Commit => is_commit(alloc, bytes.as_slice()),
            ObjKind::DirTree => is_dirtree(alloc, bytes.as_slice()),
            ObjKind::DirMeta => is_dirmeta(alloc, bytes.as_slice()),
            ObjKind::File => false,
        },
        Object::File { .. } | Object::Link(_) => true,
    }
}

/// Returns whether the object, whose digest is `got`, has no fault under the digest and kind that
/// name it. Returns false also if memory runs out.
#[tactic(auto, using(crate::proofs::Read::good_by_rules))]
pub(crate) fn is_good(
    alloc: Global,
    digest: &Digest,
    kind: ObjKind,
    object: &Object,
    got: &Digest,
) -> bool
    requires fit { IsFit kind object.now }
    requires got { got.now ≡ digest_of object.now }
    ensures { IsTrue result → object_fault digest.now kind (Some object.now) ≡ None }
{
    if *got == *digest {
        keeps_rules(alloc, kind, object)
    } else {
        false
    }
}
