//! Cutting the bytes of a container into those of its children.
ghost use Rattle.std.specs.Prelude.{◌≡◌, ◌↔◌, ◌≤◌, length, IsTrue};
ghost use Rattle.gv_value.specs.declared.limits.TheConstants.{MOST_BYTES};
ghost use Rattle.gv_value.specs.Capped.{IsRun};
ghost use Rattle.gv_value.specs.Framing.{array_children, tuple_children, cut, marks};
ghost use Rattle.gv_value.specs.Layout.{align_of, size_of, greatest_align, end_of};
ghost use Rattle.gv_value.specs.Plans.{is_plan, plan_shape, are_plans, plan_shapes};
ghost use Rattle.gv_value.specs.Shape.{basic, tuple};
ghost use Rattle.gv_decode.specs.Decoded.{Gives, slices, IsWhole, offsets_left, child_bytes};
ghost use Rattle.gv_decode.specs.Stepped.{elements_left, IsOpen};

use crate::contents::before_zero;
use crate::error::DecodeError;
use crate::framing::{Frame, child_at, filled_frame, member_end, open_frame};
use crate::stepping::{Elements, elements_in, next_element};
use gv_value::{Basic, Extent, Plan};
use std::alloc::Global;

/// Returns the bytes of each element of an array, in order. `NotNormal` if the array's bytes can't
/// be cut into elements. The elements' own bytes aren't checked.
pub fn elements<'a>(
    alloc: Global,
    element: &Plan,
    bytes: &'a [u8],
) -> Result<Vec<&'a [u8]>, DecodeError>
    requires planned { IsTrue (is_plan element.now) }
    requires short { length bytes.now ≤ MOST_BYTES }
    ensures { Gives (λ children. slices children.items) result
        (array_children (align_of (plan_shape element.now))
        (size_of (plan_shape element.now)) bytes.now) }
{
    let elements = elements_in(element, bytes)?;
    gathered(alloc, elements)
}

/// Returns the bytes of each element that is left, in order.
fn gathered(alloc: Global, elements: Elements<'_>) -> Result<Vec<&[u8]>, DecodeError>
    requires { IsOpen elements }
    ensures { Gives (λ children. slices children.items) result (elements_left elements.entry) }
{
    let mut children = Vec::with_capacity(alloc, elements.left)?;
    let mut left = elements;
    while let Some((child, others)) = next_element(left)? {
        children.push(child)?;
        left = others;
    }
    Ok(children)
}

/// Returns the bytes of each member of a tuple or a dictionary entry, in order. `run` is the extent
/// of the run of members. `NotNormal` if the bytes can't be cut into these members. The members'
/// own bytes aren't checked.
pub fn members<'a>(
    alloc: Global,
    run: Extent,
    plans: &[Plan],
    bytes: &'a [u8],
) -> Result<Vec<&'a [u8]>, DecodeError>
    requires planned { IsTrue (are_plans plans.now) }
    requires extent { IsRun run (greatest_align (plan_shapes plans.now))
        (end_of 0 (plan_shapes plans.now)) }
    requires short { length bytes.now ≤ MOST_BYTES }
    ensures { Gives (λ children. slices children.items) result
        (tuple_children (size_of (tuple (plan_shapes plans.now)))
        (plan_shapes plans.now) bytes.now) }
{
    match (run.size, run.filled().size) {
        (Some(whole), Some(size)) => {
            let frame = filled_frame(whole as usize, size as usize, bytes)?;
            framed_members(alloc, plans, frame)
        }
        _ => {
            let frame = open_frame(plans, bytes)?;
            framed_members(alloc, plans, frame)
        }
    }
}

/// Returns the bytes of each member in a frame, in order. The offsets are in reverse order: the
/// last one belongs to the first member that has one.
fn framed_members<'a>(
    alloc: Global,
    plans: &[Plan],
    frame: Frame<'a>,
) -> Result<Vec<&'a [u8]>, DecodeError>
    requires planned { IsTrue (are_plans plans.now) }
    requires whole { IsWhole frame }
    requires short { length frame.body.now ≤ MOST_BYTES }
    ensures { Gives (λ children. slices children.items) result
        (cut frame.entry.body.now 0
        (marks (length frame.entry.body.now) 0 (plan_shapes plans.now)
        (offsets_left frame.entry frame.entry.count))) }
{
    let mut children = Vec::with_capacity(alloc, plans.len())?;
    let mut at = 0;
    let mut unused = frame.count;
    let mut left = plans;
    while let Some((plan, others)) = left.split_first() {
        let extent = plan.extent();
        let (end, fewer) = member_end(extent, others.is_empty(), frame, at, unused);
        let child = child_at(frame.body, at, extent.align, end)?;
        children.push(child)?;
        at = end;
        unused = fewer;
        left = others;
    }
    if at == frame.body.len() {
        Ok(children)
    } else {
        Err(DecodeError::NotNormal)
    }
}

/// Returns the bytes of the child of a maybe that isn't empty. A child without a fixed size is
/// followed by a zero byte (GVariant specification, "Maybes").
pub fn inside<'a>(child: &Plan, bytes: &'a [u8]) -> Result<&'a [u8], DecodeError>
    requires { IsTrue (is_plan child.now) }
    ensures { Gives (λ kept. kept.now) result (child_bytes (size_of (plan_shape child.now))
        bytes.now) }
{
    match child.extent().size {
        Some(_) => Ok(bytes),
        None => before_zero(bytes),
    }
}

/// Returns whether a plan is that of the type `y` (a byte).
pub fn is_byte(plan: &Plan) -> bool
    ensures { IsTrue result ↔ (plan_shape plan.now ≡ basic Basic.Byte) }
{
    match plan {
        Plan::Basic(of) => *of == Basic::Byte,
        _ => false,
    }
}
