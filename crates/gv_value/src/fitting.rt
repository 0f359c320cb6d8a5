//! Checks whether a value is of a type.
ghost use Rattle.std.specs.Prelude.{◌≡◌, ◌↔◌, ℕ, suc, IsTrue};
ghost use Rattle.gv_value.specs.Basics.{form_of};
ghost use Rattle.gv_value.specs.Parts.{part_tree, content_of, IsHeld, IsHeldContent};
ghost use Rattle.gv_value.specs.Shape.{basic, variant, array, maybe, tuple, entry};
ghost use Rattle.gv_value.specs.Spelling.{content_fits as tree_content_fits, fits as tree_fits, fits_within as tree_fits_within, all_fit as all_trees_fit, each_fits as each_tree_fits};
ghost use Rattle.gv_value.specs.Views.{shape_of, shapes_of, plain, plains};

use crate::basic::Basic;
use crate::kind::Kind;
use crate::limits::MOST_DEPTH;
use crate::nesting::is_type;
use crate::parts::{Content, Parts};
use crate::signatures::is_signature;
use crate::texts::{has_zero, is_object_path};
use crate::types::GvType;
use crate::value::GvValue;

/// Returns whether a value is of a type: the type is valid, the value has its form, its object
/// paths and signatures are valid, its strings have no zero byte, and it nests at most 64 deep.
pub fn fits(of: &GvType, value: &GvValue) -> bool
    ensures { result ≡ tree_fits (shape_of of.now) (plain value.now) }
{
    is_type(of) && fits_within(of, value, MOST_DEPTH)
}

/// Returns whether a value is of a type, and nests at most `room` deep. The outermost `GvType`
/// isn't checked by `is_type`.
#[cycle(fits)]
fn fits_within(of: &GvType, value: &GvValue, room: u32) -> bool
    ensures { result ≡ tree_fits_within room (shape_of of.now) (plain value.now) }
{
    let kind = of.kind();
    let parts = value.parts();
    if let Kind::Basic(basic) = kind {
        return basic_fits(basic, parts);
    }
    if room == 0 {
        return false;
    }
    match kind {
        Kind::Basic(basic) => basic_fits(basic, parts),
        Kind::Variant => variant_fits(parts, room - 1),
        Kind::Array(element) => array_fits(element, parts, room - 1),
        Kind::Maybe(child) => maybe_fits(child, parts, room - 1),
        Kind::Tuple(members) => tuple_fits(members, parts, room - 1),
        Kind::Entry(key, value) => entry_fits(key, value, parts, room - 1),
    }
}

/// Returns whether a value is of a basic type.
fn basic_fits(of: Basic, parts: Parts<'_>) -> bool
    requires { IsHeld parts }
    ensures { (n : ℕ) → result ≡ tree_fits_within n (basic of) (part_tree parts.entry) }
{
    match parts {
        Parts::Basic(held, content) => of == held && content_fits(held, content),
        _ => false,
    }
}

/// Returns whether a text is valid for its basic type. Other contents always are.
fn content_fits(of: Basic, content: Content<'_>) -> bool
    requires { IsHeldContent (form_of of) content }
    ensures { result ≡ tree_content_fits (form_of of) (content_of content.entry) }
{
    match content {
        Content::Text(text) => match of {
            Basic::ObjectPath => is_object_path(text.as_bytes()),
            Basic::Signature => is_signature(text.as_bytes()),
            _ => !has_zero(text.as_bytes()),
        },
        _ => true,
    }
}

/// Returns whether a value is a variant, with a value in it of its type that nests at most `room`
/// deep.
#[cycle(fits)]
fn variant_fits(parts: Parts<'_>, room: u32) -> bool
    ensures { result ≡ tree_fits_within (suc room) variant (part_tree parts.entry) }
{
    match parts {
        Parts::Variant(of, child) => is_type(of) && fits_within(of, child, room),
        _ => false,
    }
}

/// Returns whether a value is an array with elements of this type, which nest at most `room` deep.
#[cycle(fits)]
fn array_fits(element: &GvType, parts: Parts<'_>, room: u32) -> bool
    requires { IsHeld parts }
    ensures { result ≡ tree_fits_within (suc room) (array (shape_of element.now))
        (part_tree parts.entry) }
{
    match parts {
        Parts::Array(items) => all_fit(element, items, room),
        Parts::Bytes(bytes) => bytes.is_empty() || is_byte(element),
        _ => false,
    }
}

/// Returns whether a type is that of bytes.
fn is_byte(of: &GvType) -> bool
    ensures { IsTrue result ↔ (shape_of of.now ≡ basic Basic.Byte) }
{
    match of.kind() {
        Kind::Basic(basic) => basic == Basic::Byte,
        _ => false,
    }
}

/// Returns whether each item is of this type, and nests at most `room` deep.
#[cycle(fits)]
fn all_fit(element: &GvType, items: &[GvValue], room: u32) -> bool
    ensures { result ≡ all_trees_fit (tree_fits_within room (shape_of element.now))
        (plains items.now) }
{
    for item in items {
        if !fits_within(element, item, room) {
            return false;
        }
    }
    true
}

/// Returns whether a value is an empty maybe, or one with a value of this type that nests at most
/// `room` deep.
#[cycle(fits)]
fn maybe_fits(of: &GvType, parts: Parts<'_>, room: u32) -> bool
    ensures { result ≡ tree_fits_within (suc room) (maybe (shape_of of.now))
        (part_tree parts.entry) }
{
    match parts {
        Parts::Nothing => true,
        Parts::Just(child) => fits_within(of, child, room),
        _ => false,
    }
}

/// Returns whether a value is a tuple with members of these types, which nest at most `room` deep.
#[cycle(fits)]
fn tuple_fits(members: &[GvType], parts: Parts<'_>, room: u32) -> bool
    ensures { result ≡ tree_fits_within (suc room) (tuple (shapes_of members.now))
        (part_tree parts.entry) }
{
    match parts {
        Parts::Tuple(items) => each_fits(members, items, room),
        _ => false,
    }
}

/// Returns whether there are as many items as types, each item is of its type, and it nests at most
/// `room` deep.
#[cycle(fits)]
fn each_fits(members: &[GvType], items: &[GvValue], room: u32) -> bool
    ensures { result ≡ each_tree_fits (tree_fits_within room) (shapes_of members.now)
        (plains items.now) }
{
    if members.len() != items.len() {
        return false;
    }
    for i in 0..members.len() {
        if !fits_within(&members[i], &items[i], room) {
            return false;
        }
    }
    true
}

/// Returns whether a value is a dictionary entry with a key and a value of these types, which nest
/// at most `room` deep.
#[cycle(fits)]
fn entry_fits(key: &GvType, value: &GvType, parts: Parts<'_>, room: u32) -> bool
    ensures { result ≡ tree_fits_within (suc room) (entry (shape_of key.now) (shape_of value.now))
        (part_tree parts.entry) }
{
    match parts {
        Parts::Entry(first, second) => {
            fits_within(key, first, room) && fits_within(value, second, room)
        }
        _ => false,
    }
}
