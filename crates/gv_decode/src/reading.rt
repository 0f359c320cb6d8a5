//! Reading values of types from their bytes.
ghost use Rattle.std.specs.Prelude.{◌≡◌, ◌≤◌, length, vec_len, IsTrue, option_map, option_and_then};
ghost use Rattle.gv_value.specs.declared.limits.TheConstants.{MOST_BYTES};
ghost use Rattle.gv_value.specs.Capped.{IsRun};
ghost use Rattle.gv_value.specs.Framing.{array_children, tuple_children};
ghost use Rattle.gv_value.specs.Layout.{align_of, size_of, greatest_align, end_of};
ghost use Rattle.gv_value.specs.Plans.{is_plan, plan_shape, are_plans, plan_shapes};
ghost use Rattle.gv_value.specs.Reading.{value_at, variant_at, maybe_at, read_all, read_each, as_entry as entry_of};
ghost use Rattle.gv_value.specs.Shape.{tuple};
ghost use Rattle.gv_value.specs.Tree.{array as array_tree};
ghost use Rattle.gv_value.specs.Views.{plain, plains};
ghost use Rattle.gv_decode.specs.Decoded.{Gives, slices, AreShort};

use crate::contents::read_basic;
use crate::cutting::{elements, inside, is_byte, members};
use crate::error::DecodeError;
use crate::variants::{type_in, variant_parts};
use fp_base::Blob;
use gv_value::{Extent, GvValue, Plan, plan_of};
use std::alloc::Global;

/// Reads a value of a type that nests at most `room` deep. `NotNormal` if the bytes aren't one in
/// normal form.
#[cycle(read)]
pub fn read(alloc: Global, plan: &Plan, bytes: &[u8], room: u32) -> Result<GvValue, DecodeError>
    requires planned { IsTrue (is_plan plan.now) }
    requires short { length bytes.now ≤ MOST_BYTES }
    ensures { Gives plain result (value_at room (plan_shape plan.now) bytes.now) }
{
    if let Plan::Basic(basic) = plan {
        return read_basic(alloc, *basic, bytes);
    }
    if room == 0 {
        return Err(DecodeError::NotNormal);
    }
    match plan {
        Plan::Basic(basic) => read_basic(alloc, *basic, bytes),
        Plan::Variant => read_variant(alloc, bytes, room - 1),
        Plan::Array(_, element) => read_array(alloc, element, bytes, room - 1),
        Plan::Maybe(_, child) => read_maybe(alloc, child, bytes, room - 1),
        Plan::Tuple(run, plans) => {
            let members = read_members(alloc, *run, plans, bytes, room - 1)?;
            Ok(GvValue::Tuple(members))
        }
        Plan::Entry(run, plans) => {
            let members = read_members(alloc, *run, plans, bytes, room - 1)?;
            as_entry(alloc, members)
        }
    }
}

/// Returns the dictionary entry of two members, a key and a value.
fn as_entry(alloc: Global, mut members: Vec<GvValue>) -> Result<GvValue, DecodeError>
    requires { vec_len members ≡ 2 }
    ensures { Gives plain result (entry_of (plains members.items)) }
{
    let Some(value) = members.pop() else {
        return Err(DecodeError::NotNormal);
    };
    let Some(key) = members.pop() else {
        return Err(DecodeError::NotNormal);
    };
    let key = Box::new(alloc, key)?;
    Ok(GvValue::Entry(key, Box::new(alloc, value)?))
}

/// Reads a variant whose value nests at most `room` deep.
#[cycle(read)]
fn read_variant(alloc: Global, bytes: &[u8], room: u32) -> Result<GvValue, DecodeError>
    requires { length bytes.now ≤ MOST_BYTES }
    ensures { Gives plain result (variant_at (value_at room) bytes.now) }
{
    let (inside, text) = variant_parts(bytes)?;
    let of = type_in(alloc, text)?;
    let plan = plan_of(alloc, &of)?;
    let child = read(alloc, &plan, inside, room)?;
    let of = Box::new(alloc, of)?;
    Ok(GvValue::Variant(of, Box::new(alloc, child)?))
}

/// Reads a maybe whose child nests at most `room` deep. No bytes are an empty maybe.
#[cycle(read)]
fn read_maybe(alloc: Global, child: &Plan, bytes: &[u8], room: u32) -> Result<GvValue, DecodeError>
    requires planned { IsTrue (is_plan child.now) }
    requires short { length bytes.now ≤ MOST_BYTES }
    ensures { Gives plain result (maybe_at (value_at room (plan_shape child.now))
        (size_of (plan_shape child.now)) bytes.now) }
{
    if bytes.is_empty() {
        return Ok(GvValue::Maybe(None));
    }
    let inside = inside(child, bytes)?;
    let value = read(alloc, child, inside, room)?;
    Ok(GvValue::Maybe(Some(Box::new(alloc, value)?)))
}

/// Reads an array whose elements nest at most `room` deep. An array of bytes is kept as a blob.
#[cycle(read)]
fn read_array(
    alloc: Global,
    element: &Plan,
    bytes: &[u8],
    room: u32,
) -> Result<GvValue, DecodeError>
    requires planned { IsTrue (is_plan element.now) }
    requires short { length bytes.now ≤ MOST_BYTES }
    ensures { Gives plain result (option_map array_tree
        (option_and_then (read_all (value_at room (plan_shape element.now)))
        (array_children (align_of (plan_shape element.now))
        (size_of (plan_shape element.now)) bytes.now))) }
{
    if is_byte(element) {
        let kept = Vec::from_slice(alloc, bytes)?;
        return Ok(GvValue::Bytes(Blob::from_vec(kept)));
    }
    let children = elements(alloc, element, bytes)?;
    let values = read_items(alloc, element, &children, room)?;
    Ok(GvValue::Array(values))
}

/// Reads each element of an array from its bytes.
#[cycle(read)]
fn read_items(
    alloc: Global,
    element: &Plan,
    children: &[&[u8]],
    room: u32,
) -> Result<Vec<GvValue>, DecodeError>
    requires planned { IsTrue (is_plan element.now) }
    requires short { AreShort (slices children.now) }
    ensures { Gives (λ values. plains values.items) result
        (read_all (value_at room (plan_shape element.now)) (slices children.now)) }
{
    let mut values = Vec::with_capacity(alloc, children.len())?;
    for child in children {
        values.push(read(alloc, element, child, room)?)?;
    }
    Ok(values)
}

/// Reads the members of a tuple or a dictionary entry, which nest at most `room` deep. `run` is the
/// extent of the run of members.
#[cycle(read)]
fn read_members(
    alloc: Global,
    run: Extent,
    plans: &[Plan],
    bytes: &[u8],
    room: u32,
) -> Result<Vec<GvValue>, DecodeError>
    requires planned { IsTrue (are_plans plans.now) }
    requires extent { IsRun run (greatest_align (plan_shapes plans.now))
        (end_of 0 (plan_shapes plans.now)) }
    requires short { length bytes.now ≤ MOST_BYTES }
    ensures { Gives (λ values. plains values.items) result
        (option_and_then (read_each (value_at room) (plan_shapes plans.now))
        (tuple_children (size_of (tuple (plan_shapes plans.now)))
        (plan_shapes plans.now) bytes.now)) }
{
    let children = members(alloc, run, plans, bytes)?;
    read_each_member(alloc, plans, &children, room)
}

/// Reads each member from its bytes. `NotNormal` if there aren't as many children as members.
#[cycle(read)]
fn read_each_member(
    alloc: Global,
    plans: &[Plan],
    children: &[&[u8]],
    room: u32,
) -> Result<Vec<GvValue>, DecodeError>
    requires planned { IsTrue (are_plans plans.now) }
    requires short { AreShort (slices children.now) }
    ensures { Gives (λ values. plains values.items) result
        (read_each (value_at room) (plan_shapes plans.now) (slices children.now)) }
{
    if plans.len() != children.len() {
        return Err(DecodeError::NotNormal);
    }
    let mut values = Vec::with_capacity(alloc, plans.len())?;
    for i in 0..plans.len() {
        values.push(read(alloc, &plans[i], children[i], room)?)?;
    }
    Ok(values)
}
