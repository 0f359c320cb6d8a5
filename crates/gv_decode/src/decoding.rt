//! The entry points: reading a value, checking bytes, and cutting a container into its children.
ghost use Rattle.std.specs.Prelude.{◌≡◌, ◌<◌, ◌≤◌, ◌↔◌, IfOk, IsTrue, Err, length};
ghost use Rattle.gv_value.specs.declared.limits.TheConstants.{MOST_BYTES};
ghost use Rattle.gv_value.specs.Plans.{is_plan, plan_shape};
ghost use Rattle.gv_value.specs.Reading.{value_of};
ghost use Rattle.gv_value.specs.Spelled.{Spelled};
ghost use Rattle.gv_value.specs.Tree.{Tree};
ghost use Rattle.gv_value.specs.Views.{shape_of, plain};
ghost use Rattle.gv_decode.specs.Decoded.{Gives, Passes, slices, children_of};
ghost use Rattle.gv_decode.specs.Stepped.{elements_of, IsOpen, Opens};

use crate::checking::check;
use crate::cutting::{elements, members};
use crate::error::DecodeError;
use crate::reading::read;
use crate::stepping::{Elements, elements_in};
use gv_value::{GvType, GvValue, MOST_BYTES, MOST_DEPTH, Plan, is_type, plan_of};
use std::alloc::Global;

/// Reads a value of a type from bytes in the normal form of the GVariant specification. `TooLong`
/// if there are more than 16 MiB; `NotNormal` if the bytes are no such value or the type isn't
/// valid. Time and memory are at most linear in the number of bytes, whatever they are: children
/// never overlap, and reading ends at an offset that runs backwards or a padding byte that isn't
/// zero. But the value of one byte can nest 64 deep and take 15 KiB, so bytes from an untrusted
/// source are better checked by `check_normal`.
pub fn decode(alloc: Global, of: &GvType, bytes: &[u8]) -> Result<GvValue, DecodeError>
    ensures too_long { (result ≡ Err DecodeError.TooLong) ↔ (MOST_BYTES < length bytes.now) }
    ensures spelled { IfOk result (λ value. Spelled (shape_of of.now) (plain value) bytes.now) }
    ensures not_normal { result ≡ Err DecodeError.NotNormal → (v : Tree) → ¬
        (Spelled (shape_of of.now) v bytes.now) }
    ensures read { length bytes.now ≤ MOST_BYTES → Gives plain result
        (value_of (shape_of of.now) bytes.now) }
{
    if bytes.len() > MOST_BYTES as usize {
        return Err(DecodeError::TooLong);
    }
    if !is_type(of) {
        return Err(DecodeError::NotNormal);
    }
    let plan = plan_of(alloc, of)?;
    read(alloc, &plan, bytes, MOST_DEPTH)
}

/// Checks whether bytes are a value of a type in the normal form of the GVariant specification: as
/// `decode`, but without making the value. `TooLong` if there are more than 16 MiB; `NotNormal` if
/// the bytes are no such value or the type isn't valid. Keeps no element of an array: the memory
/// used is that of the types nested at the current position, and 16 bytes for each member of their
/// tuples.
pub fn check_normal(alloc: Global, of: &GvType, bytes: &[u8]) -> Result<(), DecodeError>
    ensures too_long { (result ≡ Err DecodeError.TooLong) ↔ (MOST_BYTES < length bytes.now) }
    ensures normal { IfOk result (λ _. (v : Tree) × Spelled (shape_of of.now) v bytes.now) }
    ensures not_normal { result ≡ Err DecodeError.NotNormal → (v : Tree) → ¬
        (Spelled (shape_of of.now) v bytes.now) }
    ensures read { length bytes.now ≤ MOST_BYTES → Passes result
        (value_of (shape_of of.now) bytes.now) }
{
    if bytes.len() > MOST_BYTES as usize {
        return Err(DecodeError::TooLong);
    }
    if !is_type(of) {
        return Err(DecodeError::NotNormal);
    }
    let plan = plan_of(alloc, of)?;
    check(alloc, &plan, bytes, MOST_DEPTH)
}

/// Returns the bytes of the elements of an array, of the members of a tuple, or of the key and the
/// value of a dictionary entry, in order. Doesn't check the children's own bytes. `TooLong` if
/// there are more than 16 MiB; `NotNormal` if the bytes can't be cut into such children or the type
/// is none of these containers.
pub fn children<'a>(
    alloc: Global,
    of: &GvType,
    bytes: &'a [u8],
) -> Result<Vec<&'a [u8]>, DecodeError>
    ensures too_long { (result ≡ Err DecodeError.TooLong) ↔ (MOST_BYTES < length bytes.now) }
    ensures found { length bytes.now ≤ MOST_BYTES
        → Gives (λ children. slices children.items) result
        (children_of (shape_of of.now) bytes.now) }
{
    if bytes.len() > MOST_BYTES as usize {
        return Err(DecodeError::TooLong);
    }
    let plan = plan_of(alloc, of)?;
    children_by(alloc, &plan, bytes)
}

/// Returns the bytes of the children of a container, by its plan.
fn children_by<'a>(
    alloc: Global,
    plan: &Plan,
    bytes: &'a [u8],
) -> Result<Vec<&'a [u8]>, DecodeError>
    requires planned { IsTrue (is_plan plan.now) }
    requires short { length bytes.now ≤ MOST_BYTES }
    ensures { Gives (λ children. slices children.items) result
        (children_of (plan_shape plan.now) bytes.now) }
{
    match plan {
        Plan::Array(_, element) => elements(alloc, element, bytes),
        Plan::Tuple(run, plans) => members(alloc, *run, plans, bytes),
        Plan::Entry(run, plans) => members(alloc, *run, plans, bytes),
        Plan::Maybe(_, _) => Err(DecodeError::NotNormal),
        Plan::Variant => Err(DecodeError::NotNormal),
        Plan::Basic(_) => Err(DecodeError::NotNormal),
    }
}

/// Returns the elements of an array, for `next_element` to cut one after another. Doesn't check the
/// elements' own bytes. `TooLong` if there are more than 16 MiB; `NotNormal` if the type isn't an
/// array or the offsets aren't in normal form. Other faults of the layout are found by
/// `next_element`.
pub fn array_elements<'a>(
    alloc: Global,
    of: &GvType,
    bytes: &'a [u8],
) -> Result<Elements<'a>, DecodeError>
    ensures too_long { (result ≡ Err DecodeError.TooLong) ↔ (MOST_BYTES < length bytes.now) }
    ensures found { length bytes.now ≤ MOST_BYTES → Opens result
        (elements_of (shape_of of.now) bytes.now) }
    ensures ready { IfOk result IsOpen }
{
    if bytes.len() > MOST_BYTES as usize {
        return Err(DecodeError::TooLong);
    }
    let plan = plan_of(alloc, of)?;
    elements_by(&plan, bytes)
}

/// Returns the elements of an array, by its plan.
fn elements_by<'a>(plan: &Plan, bytes: &'a [u8]) -> Result<Elements<'a>, DecodeError>
    requires planned { IsTrue (is_plan plan.now) }
    requires short { length bytes.now ≤ MOST_BYTES }
    ensures found { Opens result (elements_of (plan_shape plan.now) bytes.now) }
    ensures ready { IfOk result IsOpen }
{
    match plan {
        Plan::Array(_, element) => elements_in(element, bytes),
        Plan::Tuple(_, _) => Err(DecodeError::NotNormal),
        Plan::Entry(_, _) => Err(DecodeError::NotNormal),
        Plan::Maybe(_, _) => Err(DecodeError::NotNormal),
        Plan::Variant => Err(DecodeError::NotNormal),
        Plan::Basic(_) => Err(DecodeError::NotNormal),
    }
}
