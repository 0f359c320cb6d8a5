//! The bytes of values of every type.
ghost use Rattle.std.specs.Prelude.{◌≡◌, ◌≤◌, ◌-◌, ◌++◌, [], ℕ, suc, None, vec_len, IsTrue, IfOk};
ghost use Rattle.std.specs.List.{concat};
ghost use Rattle.gv_value.specs.declared.limits.TheConstants.{MOST_BYTES};
ghost use Rattle.gv_value.specs.Bytes.{zeros};
ghost use Rattle.gv_value.specs.Capped.{IsRun};
ghost use Rattle.gv_value.specs.Framing.{tuple_body, written, ends as ends_of, parts_of};
ghost use Rattle.gv_value.specs.Layout.{align_of, size_of, padding as padding_of, greatest_align, end_of};
ghost use Rattle.gv_value.specs.Parts.{part_tree, IsHeld};
ghost use Rattle.gv_value.specs.Plans.{is_plan, plan_shape, are_plans, plan_shapes};
ghost use Rattle.gv_value.specs.Shape.{variant, array, maybe, tuple, entry};
ghost use Rattle.gv_value.specs.Spelled.{two_shapes};
ghost use Rattle.gv_value.specs.Spelling.{fits_within, all_fit, each_fits, spelling, spelling_of_all, spelling_of_each, array_bytes};
ghost use Rattle.gv_value.specs.Views.{plain, plains};
ghost use Rattle.gv_encode.specs.Encoded.{Adds};

use crate::appending::{append, append_zeros};
use crate::contents::write_basic;
use crate::error::EncodeError;
use crate::framing::{append_offsets, close, note_end};
use gv_value::{Extent, GvValue, Parts, Plan, padding, plan_of, push_type};
use std::alloc::Global;

/// Appends the bytes of a value of the plan's type, which nests at most `room` deep. Errs with
/// `TooLong` if the whole would be above 16 MiB.
#[cycle(write)]
pub fn write(
    alloc: Global,
    out: &mut Vec<u8>,
    plan: &Plan,
    value: &GvValue,
    room: u32,
) -> Result<(), EncodeError>
    requires room_left { vec_len out.old ≤ MOST_BYTES }
    requires planned { IsTrue (is_plan plan.now) }
    requires fits { IsTrue (fits_within room (plan_shape plan.now) (plain value.now)) }
    ensures { Adds result out.old.items out.new.items (spelling (plain value.now)
        (plan_shape plan.now)) }
{
    let parts = value.parts();
    if let Plan::Basic(basic) = plan {
        return write_basic(out, *basic, parts);
    }
    if room == 0 {
        return Err(EncodeError::NotOfType);
    }
    match plan {
        Plan::Basic(basic) => write_basic(out, *basic, parts),
        Plan::Variant => write_variant(alloc, out, parts, room - 1),
        Plan::Array(_, element) => write_array(alloc, out, element, parts, room - 1),
        Plan::Maybe(_, child) => write_maybe(alloc, out, child, parts, room - 1),
        Plan::Tuple(run, plans) => write_tuple(alloc, out, *run, plans, parts, room - 1),
        Plan::Entry(run, plans) => match plans.as_slice() {
            [key, value] => write_entry(alloc, out, *run, key, value, parts, room - 1),
            _ => Err(EncodeError::NotOfType),
        },
    }
}

/// Appends a variant: the bytes of its value, a zero byte and its type string.
#[cycle(write)]
fn write_variant(
    alloc: Global,
    out: &mut Vec<u8>,
    parts: Parts<'_>,
    room: u32,
) -> Result<(), EncodeError>
    requires room_left { vec_len out.old ≤ MOST_BYTES }
    requires fits { IsTrue (fits_within (suc room) variant (part_tree parts)) }
    ensures { Adds result out.old.items out.new.items (spelling (part_tree parts.entry) variant) }
{
    let Parts::Variant(of, child) = parts else {
        return Err(EncodeError::NotOfType);
    };
    let plan = plan_of(alloc, of)?;
    write(alloc, out, &plan, child, room)?;
    let mut text = Vec::new(alloc);
    text.push(0)?;
    push_type(&mut text, of)?;
    append(out, &text)
}

/// Appends an array.
#[cycle(write)]
fn write_array(
    alloc: Global,
    out: &mut Vec<u8>,
    element: &Plan,
    parts: Parts<'_>,
    room: u32,
) -> Result<(), EncodeError>
    requires room_left { vec_len out.old ≤ MOST_BYTES }
    requires planned { IsTrue (is_plan element.now) }
    requires held { IsHeld parts }
    requires fits { IsTrue (fits_within (suc room) (array (plan_shape element.now))
        (part_tree parts)) }
    ensures { Adds result out.old.items out.new.items (spelling (part_tree parts.entry)
        (array (plan_shape element.now))) }
{
    match parts {
        Parts::Bytes(bytes) => append(out, bytes),
        Parts::Array(items) => match element.extent().size {
            Some(_) => write_row(alloc, out, element, items, room),
            None => write_framed(alloc, out, element, items, room),
        },
        _ => Err(EncodeError::NotOfType),
    }
}

/// Appends elements, one after the other.
#[cycle(write)]
fn write_row(
    alloc: Global,
    out: &mut Vec<u8>,
    element: &Plan,
    items: &[GvValue],
    room: u32,
) -> Result<(), EncodeError>
    requires room_left { vec_len out.old ≤ MOST_BYTES }
    requires planned { IsTrue (is_plan element.now) }
    requires fits { IsTrue (all_fit (fits_within room (plan_shape element.now))
        (plains items.now)) }
    ensures { Adds result out.old.items out.new.items (concat
        (spelling_of_all (plains items.now) (plan_shape element.now))) }
{
    for item in items {
        write(alloc, out, element, item, room)?;
    }
    Ok(())
}

/// Appends elements without a fixed size, each after its padding, and an offset for the end of
/// each.
#[cycle(write)]
fn write_framed(
    alloc: Global,
    out: &mut Vec<u8>,
    element: &Plan,
    items: &[GvValue],
    room: u32,
) -> Result<(), EncodeError>
    requires room_left { vec_len out.old ≤ MOST_BYTES }
    requires planned { IsTrue (is_plan element.now) }
    requires fits { IsTrue (all_fit (fits_within room (plan_shape element.now))
        (plains items.now)) }
    ensures { Adds result out.old.items out.new.items
        (array_bytes (align_of (plan_shape element.now)) None
        (spelling_of_all (plains items.now) (plan_shape element.now))) }
{
    let start = out.len();
    let mut ends = Vec::new(alloc);
    for item in items {
        write_placed(alloc, out, start, element, item, room)?;
        ends.push(out.len() - start)?;
    }
    append_offsets(out, start, &ends)
}

/// Appends a child of a container that begins at `start`: the padding before it, and its bytes.
#[cycle(write)]
fn write_placed(
    alloc: Global,
    out: &mut Vec<u8>,
    start: usize,
    plan: &Plan,
    item: &GvValue,
    room: u32,
) -> Result<(), EncodeError>
    requires room_left { vec_len out.old ≤ MOST_BYTES }
    requires inside { start ≤ vec_len out.old }
    requires planned { IsTrue (is_plan plan.now) }
    requires fits { IsTrue (fits_within room (plan_shape plan.now) (plain item.now)) }
    ensures { Adds result out.old.items out.new.items
        (zeros (padding_of (vec_len out.old - start) (align_of (plan_shape plan.now)))
        ++ spelling (plain item.now) (plan_shape plan.now)) }
{
    let align = plan.extent().align;
    append_zeros(out, padding((out.len() - start) as u64, align) as usize)?;
    write(alloc, out, plan, item, room)
}

/// Appends a maybe: nothing if it is empty. A zero byte follows a child without a fixed size.
#[cycle(write)]
fn write_maybe(
    alloc: Global,
    out: &mut Vec<u8>,
    child: &Plan,
    parts: Parts<'_>,
    room: u32,
) -> Result<(), EncodeError>
    requires room_left { vec_len out.old ≤ MOST_BYTES }
    requires planned { IsTrue (is_plan child.now) }
    requires fits { IsTrue (fits_within (suc room) (maybe (plan_shape child.now))
        (part_tree parts)) }
    ensures { Adds result out.old.items out.new.items (spelling (part_tree parts.entry)
        (maybe (plan_shape child.now))) }
{
    match parts {
        Parts::Nothing => Ok(()),
        Parts::Just(item) => {
            write(alloc, out, child, item, room)?;
            if child.extent().size.is_none() {
                append(out, &[0])?;
            }
            Ok(())
        }
        _ => Err(EncodeError::NotOfType),
    }
}

/// Appends a tuple.
#[cycle(write)]
fn write_tuple(
    alloc: Global,
    out: &mut Vec<u8>,
    run: Extent,
    plans: &[Plan],
    parts: Parts<'_>,
    room: u32,
) -> Result<(), EncodeError>
    requires room_left { vec_len out.old ≤ MOST_BYTES }
    requires planned { IsTrue (are_plans plans.now) }
    requires extent { IsRun run (greatest_align (plan_shapes plans.now))
        (end_of 0 (plan_shapes plans.now)) }
    requires fits { IsTrue (fits_within (suc room) (tuple (plan_shapes plans.now))
        (part_tree parts)) }
    ensures { Adds result out.old.items out.new.items (spelling (part_tree parts.entry)
        (tuple (plan_shapes plans.now))) }
{
    let Parts::Tuple(items) = parts else {
        return Err(EncodeError::NotOfType);
    };
    let start = out.len();
    let ends = write_members(alloc, out, plans, items, room)?;
    close(out, start, run.filled().size, ends)
}

/// Appends the members of a tuple, each after its padding. Returns the ends that become offsets, in
/// the order of the members.
#[cycle(write)]
fn write_members(
    alloc: Global,
    out: &mut Vec<u8>,
    plans: &[Plan],
    items: &[GvValue],
    room: u32,
) -> Result<Vec<usize>, EncodeError>
    requires room_left { vec_len out.old ≤ MOST_BYTES }
    requires planned { IsTrue (are_plans plans.now) }
    requires fits { IsTrue (each_fits (fits_within room) (plan_shapes plans.now)
        (plains items.now)) }
    ensures body { Adds result out.old.items out.new.items
        (tuple_body (plan_shapes plans.now)
        (spelling_of_each (plains items.now) (plan_shapes plans.now))) }
    ensures noted { IfOk result (λ noted. noted.items ≡ written (plan_shapes plans.now)
        (ends_of [] (parts_of (plan_shapes plans.now)
        (spelling_of_each (plains items.now) (plan_shapes plans.now))))) }
{
    if plans.len() != items.len() {
        return Err(EncodeError::NotOfType);
    }
    let start = out.len();
    let mut ends = Vec::new(alloc);
    for i in 0..plans.len() {
        write_placed(alloc, out, start, &plans[i], &items[i], room)?;
        note_end(
            &mut ends,
            out.len() - start,
            &plans[i],
            i + 1 == plans.len(),
        )?;
    }
    Ok(ends)
}

/// Appends a dictionary entry, which is serialised as a tuple of two.
#[cycle(write)]
fn write_entry(
    alloc: Global,
    out: &mut Vec<u8>,
    run: Extent,
    key_plan: &Plan,
    value_plan: &Plan,
    parts: Parts<'_>,
    room: u32,
) -> Result<(), EncodeError>
    requires room_left { vec_len out.old ≤ MOST_BYTES }
    requires key_planned { IsTrue (is_plan key_plan.now) }
    requires value_planned { IsTrue (is_plan value_plan.now) }
    requires extent { IsRun run (greatest_align (two_shapes (plan_shape key_plan.now)
        (plan_shape value_plan.now))) (end_of 0 (two_shapes (plan_shape key_plan.now)
        (plan_shape value_plan.now))) }
    requires fits { IsTrue (fits_within (suc room) (entry (plan_shape key_plan.now)
        (plan_shape value_plan.now)) (part_tree parts)) }
    ensures { Adds result out.old.items out.new.items (spelling (part_tree parts.entry)
        (entry (plan_shape key_plan.now) (plan_shape value_plan.now))) }
{
    let Parts::Entry(key, value) = parts else {
        return Err(EncodeError::NotOfType);
    };
    let start = out.len();
    let mut ends = Vec::new(alloc);
    write_placed(alloc, out, start, key_plan, key, room)?;
    note_end(&mut ends, out.len() - start, key_plan, false)?;
    write_placed(alloc, out, start, value_plan, value, room)?;
    close(out, start, run.filled().size, ends)
}
