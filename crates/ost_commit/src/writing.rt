//! Writing metadata objects.

ghost use Rattle.std.specs.Prelude.{◌≡◌, ◌≢◌, ℕ, List, IfOk, IfErr, Ok};
ghost use Rattle.gv_value.specs.Views.{shape_of, plain};
ghost use Rattle.gv_value.specs.Shape.{Shape};
ghost use Rattle.ost_model.specs.Types.{text_shape, dictionary_shape};
ghost use Rattle.ost_model.specs.Readers.{commit_read, tree_read, meta_read};
ghost use Rattle.ost_model.specs.Fields.{text_value};
ghost use Rattle.ost_object.specs.Views.{commit_view, tree_view, tree_at};
ghost use Rattle.ost_commit.specs.Commits.{one_text, refs_of, binding_entry_of, bound_to as binding_of, commit_of_tree};
ghost use Rattle.ost_commit.specs.Shows.{plain_meta};
ghost use Rattle.ost_commit.specs.Sizes.{IsLargeCommit};
ghost use Rattle.ost_commit.specs.Writing.{IsWantOfRoom, HasNoBytes, IsRefused};

use crate::built::BuildError;
use crate::limits::DIRECTORY_MODE;
use fp_base::{Blob, Text};
use fp_name::{Digest, RefName};
use gv_encode::{EncodeError, encode};
use gv_value::{GvType, GvValue, TypeError};
use ost_model::REF_BINDING;
use ost_object::{
    Commit, DirMeta, DirTree, ObjectError, dictionary_type, text_as_value, write_commit,
    write_dirmeta, write_dirtree,
};
use std::alloc::{AllocError, Global};

/// The parts of a commit besides its root: the ref that it is bound to, the subject and the time.
#[derive(Clone, Copy)]
pub(crate) struct Heading<'a> {
    pub(crate) name: &'a RefName,
    pub(crate) subject: &'a str,
    pub(crate) timestamp: u64,
}

/// The digests of the root's dirtree and dirmeta.
#[derive(Clone, Copy)]
pub(crate) struct Root {
    pub(crate) tree: Digest,
    pub(crate) meta: Digest,
}

/// Returns the serialised form of the dirmeta that every directory has.
pub(crate) fn dirmeta_bytes(alloc: Global) -> Result<Blob, BuildError>
    ensures reads { IfOk result (λ bytes. meta_read bytes ≡ Ok plain_meta) }
    ensures error { IfErr result (IsWantOfRoom ⊥) }
{
    let meta = DirMeta {
        mode: DIRECTORY_MODE,
    };
    object_bytes(write_dirmeta(alloc, &meta))
}

/// Returns the serialised form of a dirtree. `TooLarge` if there is none of at most 16 MiB.
pub(crate) fn dirtree_bytes(alloc: Global, tree: &DirTree) -> Result<Blob, BuildError>
    ensures reads { IfOk result (λ bytes. tree_read bytes ≡ Ok (tree_view tree.now)) }
    ensures error { IfErr result (IsWantOfRoom ((bytes : List ℕ)
        → tree_read bytes ≢ Ok (tree_view tree.now))) }
{
    object_bytes(write_dirtree(alloc, tree))
}

/// Returns the serialised form of the commit with this root. `TooLarge` if there is none of at most
/// 16 MiB.
pub(crate) fn commit_bytes(alloc: Global, heading: Heading, root: Root) -> Result<Blob, BuildError>
    ensures reads { IfOk result (λ bytes. commit_read bytes
        ≡ Ok (commit_of_tree heading.entry.name.now
        heading.entry.subject.now heading.entry.timestamp root.tree root.meta)) }
    ensures error { IfErr result (IsWantOfRoom (IsLargeCommit heading.entry.name.now
        heading.entry.subject.now heading.entry.timestamp)) }
{
    // The contract of `as_bytes` states that a digest has 32 bytes.
    let _tree = root.tree.as_bytes();
    let _meta = root.meta.as_bytes();
    let commit = commit_of(alloc, heading, root)?;
    object_bytes(write_commit(alloc, &commit))
}

/// Returns the commit with this root.
fn commit_of(alloc: Global, heading: Heading, root: Root) -> Result<Commit, BuildError>
    ensures says { IfOk result (λ commit. commit_view commit ≡ commit_of_tree heading.entry.name.now
        heading.entry.subject.now heading.entry.timestamp root.tree root.meta) }
    ensures error { IfErr result (IsWantOfRoom (HasNoBytes dictionary_shape
        (binding_of heading.entry.name.now))) }
{
    Ok(Commit {
        metadata: binding_bytes(alloc, heading.name)?,
        parent: None,
        related: Blob::from_slice(alloc, &[])?,
        subject: Text::from_str(alloc, heading.subject)?,
        body: Text::from_str(alloc, "")?,
        timestamp: heading.timestamp,
        tree: root.tree,
        meta: root.meta,
    })
}

/// Returns the serialised form of the metadata of a commit that is bound to the ref.
fn binding_bytes(alloc: Global, name: &RefName) -> Result<Blob, BuildError>
    ensures says { IfOk result (λ bytes. tree_at dictionary_shape bytes ≡ binding_of name.now) }
    ensures error { IfErr result (IsWantOfRoom (HasNoBytes dictionary_shape (binding_of name.now))) }
{
    let value = bound_to(alloc, name)?;
    dictionary_bytes(alloc, &value)
}

/// Returns the serialised form of a value of type `a{sv}`.
fn dictionary_bytes(alloc: Global, value: &GvValue) -> Result<Blob, BuildError>
    ensures says { IfOk result (λ bytes. tree_at dictionary_shape bytes ≡ plain value.now) }
    ensures error { IfErr result (IsWantOfRoom (HasNoBytes dictionary_shape (plain value.now))) }
{
    let of = dictionary_type(alloc)?;
    encoded(alloc, &of, value)
}

/// Returns the serialised form of a value of a type. `TooLarge` if there is none of at most 16 MiB.
fn encoded(alloc: Global, of: &GvType, value: &GvValue) -> Result<Blob, BuildError>
    ensures says { IfOk result (λ bytes. tree_at (shape_of of.now) bytes ≡ plain value.now) }
    ensures error { IfErr result (IsWantOfRoom (HasNoBytes (shape_of of.now) (plain value.now))) }
{
    match encode(alloc, of, value) {
        Ok(bytes) => Ok(bytes),
        Err(EncodeError::NoMemory) => Err(BuildError::NoMemory),
        Err(EncodeError::NotOfType) => Err(BuildError::TooLarge),
        Err(EncodeError::TooLong) => Err(BuildError::TooLarge),
    }
}

/// Returns the metadata of a commit that is bound to the ref: its only entry is
/// `ostree.ref-binding`.
fn bound_to(alloc: Global, name: &RefName) -> Result<GvValue, AllocError>
    ensures { IfOk result (λ value. plain value ≡ binding_of name.now) }
{
    let entry = binding_entry(alloc, name)?;
    Ok(GvValue::Array(vec![in alloc; entry]?))
}

/// Returns the entry `ostree.ref-binding` with the ref.
fn binding_entry(alloc: Global, name: &RefName) -> Result<GvValue, AllocError>
    ensures { IfOk result (λ value. plain value ≡ binding_entry_of name.now) }
{
    let key = boxed_text(alloc, REF_BINDING)?;
    let value = boxed_refs(alloc, name)?;
    Ok(GvValue::Entry(key, value))
}

/// Returns a text as a value in a box.
fn boxed_text(alloc: Global, text: &str) -> Result<Box<GvValue>, AllocError>
    ensures { IfOk result (λ value. plain value.value ≡ text_value text.now) }
{
    let value = text_as_value(alloc, text)?;
    Ok(Box::new(alloc, value)?)
}

/// Returns the list with the ref as a variant in a box.
fn boxed_refs(alloc: Global, name: &RefName) -> Result<Box<GvValue>, AllocError>
    ensures { IfOk result (λ value. plain value.value ≡ refs_of name.now) }
{
    let value = refs_as_value(alloc, name)?;
    Ok(Box::new(alloc, value)?)
}

/// Returns the list with the ref as a variant of type `as`.
fn refs_as_value(alloc: Global, name: &RefName) -> Result<GvValue, AllocError>
    ensures { IfOk result (λ value. plain value ≡ refs_of name.now) }
{
    let of = Box::new(alloc, texts_type(alloc)?)?;
    let refs = Box::new(alloc, list_of(alloc, name.as_str())?)?;
    Ok(GvValue::Variant(of, refs))
}

/// Returns a list with one text as a value of type `as`.
fn list_of(alloc: Global, text: &str) -> Result<GvValue, AllocError>
    ensures { IfOk result (λ value. plain value ≡ one_text text.now) }
{
    let value = text_as_value(alloc, text)?;
    Ok(GvValue::Array(vec![in alloc; value]?))
}

/// Returns the type `as` of a list of texts.
fn texts_type(alloc: Global) -> Result<GvType, AllocError>
    ensures { IfOk result (λ of. shape_of of ≡ Shape.array text_shape) }
{
    match GvType::parse(alloc, b"as") {
        Ok(of) => Ok(of),
        Err(TypeError::NoMemory) => Err(AllocError),
        Err(TypeError::Bad) => unreachable!(),
    }
}

/// Returns the bytes of an object, or `TooLarge` if no bytes read as the object.
fn object_bytes(bytes: Result<Blob, ObjectError>) -> Result<Blob, BuildError>
    ensures bytes { IfOk result (λ b. bytes ≡ Ok b) }
    ensures error { IfErr result (IsWantOfRoom (IsRefused bytes)) }
{
    match bytes {
        Ok(written) => Ok(written),
        Err(ObjectError::Malformed(_)) => Err(BuildError::TooLarge),
        Err(ObjectError::NoMemory) => Err(BuildError::NoMemory),
    }
}
