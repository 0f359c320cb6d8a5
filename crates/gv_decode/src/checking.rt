//! Checking bytes against a type, without making a value.
ghost use Rattle.std.specs.Prelude.{◌≡◌, ◌≤◌, length, IsTrue, option_map, option_and_then};
ghost use Rattle.gv_value.specs.declared.limits.TheConstants.{MOST_BYTES};
ghost use Rattle.gv_value.specs.Capped.{IsRun};
ghost use Rattle.gv_value.specs.Framing.{array_children, tuple_children};
ghost use Rattle.gv_value.specs.Layout.{align_of, size_of, greatest_align, end_of};
ghost use Rattle.gv_value.specs.Plans.{is_plan, plan_shape, are_plans, plan_shapes};
ghost use Rattle.gv_value.specs.Reading.{value_at, variant_at, maybe_at, read_all, read_each};
ghost use Rattle.gv_value.specs.Shape.{tuple};
ghost use Rattle.gv_decode.specs.Decoded.{Passes, slices, AreShort};
ghost use Rattle.gv_decode.specs.Stepped.{elements_left, IsOpen};

use crate::contents::check_basic;
use crate::cutting::{inside, is_byte, members};
use crate::error::DecodeError;
use crate::stepping::{Elements, elements_in, next_element};
use crate::variants::{type_in, variant_parts};
use gv_value::{Extent, Plan, plan_of};
use std::alloc::Global;

/// Checks whether bytes are a value of a type that nests at most `room` deep. `NotNormal` if they
/// aren't.
#[cycle(check)]
pub fn check(alloc: Global, plan: &Plan, bytes: &[u8], room: u32) -> Result<(), DecodeError>
    requires planned { IsTrue (is_plan plan.now) }
    requires short { length bytes.now ≤ MOST_BYTES }
    ensures { Passes result (value_at room (plan_shape plan.now) bytes.now) }
{
    if let Plan::Basic(basic) = plan {
        return check_basic(*basic, bytes);
    }
    if room == 0 {
        return Err(DecodeError::NotNormal);
    }
    match plan {
        Plan::Basic(basic) => check_basic(*basic, bytes),
        Plan::Variant => check_variant(alloc, bytes, room - 1),
        Plan::Array(_, element) => check_array(alloc, element, bytes, room - 1),
        Plan::Maybe(_, child) => check_maybe(alloc, child, bytes, room - 1),
        Plan::Tuple(run, plans) => check_members(alloc, *run, plans, bytes, room - 1),
        Plan::Entry(run, plans) => check_members(alloc, *run, plans, bytes, room - 1),
    }
}

/// Checks whether bytes are a variant whose value nests at most `room` deep.
#[cycle(check)]
fn check_variant(alloc: Global, bytes: &[u8], room: u32) -> Result<(), DecodeError>
    requires { length bytes.now ≤ MOST_BYTES }
    ensures { Passes result (variant_at (value_at room) bytes.now) }
{
    let (inside, text) = variant_parts(bytes)?;
    let of = type_in(alloc, text)?;
    let plan = plan_of(alloc, &of)?;
    check(alloc, &plan, inside, room)
}

/// Checks whether bytes are a maybe whose child nests at most `room` deep. No bytes are an empty
/// maybe.
#[cycle(check)]
fn check_maybe(alloc: Global, child: &Plan, bytes: &[u8], room: u32) -> Result<(), DecodeError>
    requires planned { IsTrue (is_plan child.now) }
    requires short { length bytes.now ≤ MOST_BYTES }
    ensures { Passes result (maybe_at (value_at room (plan_shape child.now))
        (size_of (plan_shape child.now)) bytes.now) }
{
    if bytes.is_empty() {
        return Ok(());
    }
    let inside = inside(child, bytes)?;
    check(alloc, child, inside, room)
}

/// Checks whether bytes are an array with elements that nest at most `room` deep. Any bytes are an
/// array of bytes.
#[cycle(check)]
fn check_array(alloc: Global, element: &Plan, bytes: &[u8], room: u32) -> Result<(), DecodeError>
    requires planned { IsTrue (is_plan element.now) }
    requires short { length bytes.now ≤ MOST_BYTES }
    ensures { Passes result (option_and_then (read_all (value_at room (plan_shape element.now)))
        (array_children (align_of (plan_shape element.now))
        (size_of (plan_shape element.now)) bytes.now)) }
{
    if is_byte(element) {
        return Ok(());
    }
    let elements = elements_in(element, bytes)?;
    check_items(alloc, element, elements, room)
}

/// Checks whether each element is a value of this type that nests at most `room` deep. Cuts the
/// elements one after another, and keeps none.
#[cycle(check)]
fn check_items(
    alloc: Global,
    element: &Plan,
    elements: Elements<'_>,
    room: u32,
) -> Result<(), DecodeError>
    requires planned { IsTrue (is_plan element.now) }
    requires ready { IsOpen elements }
    ensures { Passes result (option_and_then (read_all (value_at room (plan_shape element.now)))
        (elements_left elements.entry)) }
{
    let mut left = elements;
    while let Some((child, others)) = next_element(left)? {
        check(alloc, element, child, room)?;
        left = others;
    }
    Ok(())
}

/// Checks whether bytes are a tuple or a dictionary entry with members of these types, which nest
/// at most `room` deep.
#[cycle(check)]
fn check_members(
    alloc: Global,
    run: Extent,
    plans: &[Plan],
    bytes: &[u8],
    room: u32,
) -> Result<(), DecodeError>
    requires planned { IsTrue (are_plans plans.now) }
    requires extent { IsRun run (greatest_align (plan_shapes plans.now))
        (end_of 0 (plan_shapes plans.now)) }
    requires short { length bytes.now ≤ MOST_BYTES }
    ensures { Passes result (option_and_then (read_each (value_at room) (plan_shapes plans.now))
        (tuple_children (size_of (tuple (plan_shapes plans.now)))
        (plan_shapes plans.now) bytes.now)) }
{
    let children = members(alloc, run, plans, bytes)?;
    check_each(alloc, plans, &children, room)
}

/// Checks whether there are as many children as members, and each child is a value of its member's
/// type that nests at most `room` deep.
#[cycle(check)]
fn check_each(
    alloc: Global,
    plans: &[Plan],
    children: &[&[u8]],
    room: u32,
) -> Result<(), DecodeError>
    requires planned { IsTrue (are_plans plans.now) }
    requires short { AreShort (slices children.now) }
    ensures { Passes result (read_each (value_at room) (plan_shapes plans.now)
        (slices children.now)) }
{
    if plans.len() != children.len() {
        return Err(DecodeError::NotNormal);
    }
    for i in 0..plans.len() {
        check(alloc, &plans[i], children[i], room)?;
    }
    Ok(())
}
