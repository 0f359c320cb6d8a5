//! Reading the refs that a commit is bound to.
ghost use Rattle.std.specs.Prelude.{◌≡◌, ◌↔◌, ◌∷◌, [], IfOk, IsTrue, option_map, option_and_then};
ghost use Rattle.std.specs.Option.{IsSome};
ghost use Rattle.gv_value.specs.Reading.{value_of};
ghost use Rattle.gv_value.specs.Shape.{basic, variant};
ghost use Rattle.gv_value.specs.Tree.{array, byte_trees};
ghost use Rattle.gv_value.specs.Views.{shape_of, plain, plains};
ghost use Rattle.gv_decode.specs.Decoded.{slices};
ghost use Rattle.ost_model.specs.Fields.{text_in, items_in, each_of};
ghost use Rattle.ost_model.specs.Binding as spec;
ghost use Rattle.ost_model.specs.Binding.{texts_in, is_named, named_in, binding_name, binding_in};
ghost use Rattle.ost_model.specs.Types.{dictionary_shape, text_shape};
ghost use Rattle.ost_object.specs.Answers.{Finds};
ghost use Rattle.ost_object.specs.Entries.{entry_shape, entry_trees, pair_tree, AreEntries, Divides};
ghost use Rattle.ost_object.specs.Views.{tree_at};

use crate::commit::Commit;
use crate::error::ObjectError;
use crate::types::{dictionary_type, entry_type, variant_type};
use crate::values::{check, children_of, text_of, text_of_bytes, value_of};
use fp_base::{Items, Text};
use gv_decode::{DecodeError, variant_parts};
use gv_value::{Basic, GvType, GvValue, Kind, Parts};
use ost_model::REF_BINDING;
use std::alloc::{AllocError, Global};

/// Returns the refs that a commit was made for (OSTree's ref binding): the value of the last entry
/// `ostree.ref-binding` of its metadata. `None` if there is no such entry, or the last one doesn't
/// have the type `as`. Decodes no other value of the metadata.
pub fn binding(alloc: Global, commit: &Commit) -> Result<Option<Items<Text>>, AllocError>
    ensures { IfOk result (λ found. found ≡ binding_in (tree_at dictionary_shape
        commit.now.metadata)) }
{
    match entries_of(alloc, commit.metadata.as_slice()) {
        Ok(entries) => last_binding(alloc, &entries),
        Err(ObjectError::Malformed(_rule)) => Ok(None),
        Err(ObjectError::NoMemory) => Err(AllocError),
    }
}

/// Returns the bytes of each entry of a commit's metadata, in order. `Malformed` with the rule
/// `Value` if `bytes` aren't a value of type `a{sv}`.
fn entries_of(alloc: Global, bytes: &[u8]) -> Result<Vec<&[u8]>, ObjectError>
    ensures { Divides (λ entries. slices entries.items) result bytes.now }
{
    let of = dictionary_type(alloc)?;
    check(alloc, &of, bytes)?;
    children_of(alloc, &of, bytes)
}

/// Returns the refs of the last binding among entries, or `None` if there is none of type `as`.
fn last_binding(alloc: Global, entries: &[&[u8]]) -> Result<Option<Items<Text>>, AllocError>
    requires { AreEntries (slices entries.now) }
    ensures { IfOk result (λ found. found ≡ binding_in (array (entry_trees (slices entries.now)))) }
{
    let of = entry_type(alloc)?;
    last_of(alloc, &of, entries)
}

/// Returns the refs of the last binding among entries, whose type is `of`.
fn last_of(alloc: Global, of: &GvType, entries: &[&[u8]]) -> Result<Option<Items<Text>>, AllocError>
    requires shape { shape_of of.now ≡ entry_shape }
    requires normal { AreEntries (slices entries.now) }
    ensures { IfOk result (λ found. found ≡ binding_in (array (entry_trees (slices entries.now)))) }
{
    let mut found = None;
    for entry in entries {
        if let Some(texts) = bound_by(alloc, of, entry)? {
            found = texts;
        }
    }
    Ok(found)
}

/// Returns `None` if the entry isn't a ref binding. Otherwise returns its refs, which are `None` if
/// its value doesn't have the type `as`.
fn bound_by(
    alloc: Global,
    of: &GvType,
    entry: &[u8],
) -> Result<Option<Option<Items<Text>>>, AllocError>
    requires shape { shape_of of.now ≡ entry_shape }
    requires normal { IsSome (value_of entry_shape entry.now) }
    ensures { IfOk result (λ found. found ≡ option_map texts_in
        (named_in binding_name (tree_at entry_shape entry.now))) }
{
    match children_of(alloc, of, entry) {
        Ok(members) => bound_pair(alloc, &members),
        Err(ObjectError::Malformed(_rule)) => Ok(None),
        Err(ObjectError::NoMemory) => Err(AllocError),
    }
}

/// Returns the refs of an entry by the bytes of its key and its value: `None` if the key isn't that
/// of a ref binding.
fn bound_pair(alloc: Global, members: &[&[u8]]) -> Result<Option<Option<Items<Text>>>, AllocError>
    ensures { IfOk result (λ found. found ≡ option_map texts_in
        (named_in binding_name (pair_tree (slices members.now)))) }
{
    match members {
        [key, value] => {
            if is_binding(alloc, key)? {
                Ok(Some(texts_of_bytes(alloc, value)?))
            } else {
                Ok(None)
            }
        }
        _ => Ok(None),
    }
}

/// Returns whether the bytes of a key are the name of the ref binding.
fn is_binding(alloc: Global, key: &[u8]) -> Result<bool, AllocError>
    ensures { IfOk result (λ named. named ≡ is_named binding_name (tree_at text_shape key.now)) }
{
    let text = text_of_bytes(alloc, key)?;
    Ok(text.as_str() == REF_BINDING)
}

/// Returns the texts in the bytes of a variant, or `None` if its value doesn't have the type `as`.
/// Decodes the value only if the type string is `as`.
fn texts_of_bytes(alloc: Global, bytes: &[u8]) -> Result<Option<Items<Text>>, AllocError>
    ensures { IfOk result (λ found. found ≡ texts_in (tree_at variant bytes.now)) }
{
    match variant_parts(bytes) {
        Ok((_inside, text)) => {
            if are_texts_by(text) {
                texts_of_variant(alloc, bytes)
            } else {
                Ok(None)
            }
        }
        Err(DecodeError::NotNormal) => Ok(None),
        Err(DecodeError::TooLong) => Ok(None),
        Err(DecodeError::NoMemory) => Err(AllocError),
    }
}

/// Returns whether a type string is `as`.
fn are_texts_by(text: &[u8]) -> bool
    ensures { IsTrue result ↔ (text.now ≡ 97 ∷ (115 ∷ [])) }
{
    match text {
        [b'a', b's'] => true,
        _ => false,
    }
}

/// Decodes a variant, and returns its texts, or `None` if its value doesn't have the type `as`.
fn texts_of_variant(alloc: Global, bytes: &[u8]) -> Result<Option<Items<Text>>, AllocError>
    ensures { IfOk result (λ found. found ≡ texts_in (tree_at variant bytes.now)) }
{
    let of = variant_type(alloc)?;
    match value_of(alloc, &of, bytes) {
        Ok(value) => texts_of(alloc, &value),
        Err(ObjectError::Malformed(_rule)) => Ok(None),
        Err(ObjectError::NoMemory) => Err(AllocError),
    }
}

/// Returns the texts of a variant, or `None` if its value doesn't have the type `as`.
fn texts_of(alloc: Global, value: &GvValue) -> Result<Option<Items<Text>>, AllocError>
    ensures { IfOk result (λ found. found ≡ texts_in (plain value.now)) }
{
    match value.parts() {
        Parts::Variant(of, child) => {
            if are_texts(of) {
                item_texts(alloc, child)
            } else {
                Ok(None)
            }
        }
        _ => Ok(None),
    }
}

/// Returns whether a type is `as`.
fn are_texts(of: &GvType) -> bool
    ensures { result ≡ spec.are_texts (shape_of of.now) }
{
    match of.kind() {
        Kind::Array(element) => is_text(element),
        _ => false,
    }
}

/// Returns whether a type is `s`.
fn is_text(of: &GvType) -> bool
    ensures { result ≡ spec.is_text (shape_of of.now) }
{
    match of.kind() {
        Kind::Basic(of) => is_str(of),
        _ => false,
    }
}

/// Returns whether a basic type is `s`.
fn is_str(of: Basic) -> bool
    ensures { result ≡ spec.is_text (basic of) }
{
    match of {
        Basic::Str => true,
        _ => false,
    }
}

/// Returns the texts of an array, or `None` if an item isn't a text.
fn item_texts(alloc: Global, value: &GvValue) -> Result<Option<Items<Text>>, AllocError>
    ensures { IfOk result (λ found. found ≡ option_and_then (each_of text_in)
        (items_in (plain value.now))) }
{
    match value.parts() {
        Parts::Array(items) => if_texts(alloc, items),
        Parts::Bytes(bytes) => Ok(no_texts(alloc, bytes)),
        _ => Ok(None),
    }
}

/// Returns the items as texts, or `None` if one isn't a text.
fn if_texts(alloc: Global, items: &[GvValue]) -> Result<Option<Items<Text>>, AllocError>
    ensures { IfOk result (λ found. found ≡ each_of text_in (plains items.now)) }
{
    match text_rows(alloc, items) {
        Ok(texts) => Ok(Some(Items::from_vec(texts))),
        Err(ObjectError::Malformed(_rule)) => Ok(None),
        Err(ObjectError::NoMemory) => Err(AllocError),
    }
}

/// Returns an empty list if there are no bytes, and otherwise `None`: a byte isn't a text.
fn no_texts(alloc: Global, bytes: &[u8]) -> Option<Items<Text>>
    ensures { result ≡ each_of text_in (byte_trees bytes.now) }
{
    match bytes {
        [] => Some(Items::from_vec(Vec::new(alloc))),
        [_, ..] => None,
    }
}

/// Returns the texts of values of type `s`. `Malformed` if one isn't a text.
fn text_rows(alloc: Global, values: &[GvValue]) -> Result<Vec<Text>, ObjectError>
    ensures { Finds (λ texts. texts.items) result (each_of text_in (plains values.now)) }
{
    let mut texts = Vec::with_capacity(alloc, values.len())?;
    for value in values {
        texts.push(text_of(alloc, value)?)?;
    }
    Ok(texts)
}
