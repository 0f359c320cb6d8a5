//! Framing offsets and padding at the end of tuples.
ghost use Rattle.std.specs.Prelude.{◌≡◌, ◌≤◌, ◌<◌, ◌+◌, ◌-◌, ◌++◌, [], ℕ, Option, length, vec_len, IsTrue, OnOk, reverse};
ghost use Rattle.gv_value.specs.declared.limits.TheConstants.{MOST_BYTES};
ghost use Rattle.gv_value.specs.Capped.{capped_size};
ghost use Rattle.gv_value.specs.Framing.{put_offset};
ghost use Rattle.gv_value.specs.Layout.{size_of};
ghost use Rattle.gv_value.specs.Plans.{is_plan, plan_shape};
ghost use Rattle.gv_encode.specs.Encoded.{Adds, offset_bytes, closing};

use crate::appending::{append_number, append_zeros, room_left};
use crate::error::EncodeError;
use gv_value::{Plan, width};
use std::alloc::AllocError;

/// Appends the framing offsets of a container that begins at `start`, after its body. Each has the
/// smallest width that fits the whole container. Errs with `TooLong` if the whole would be above 16
/// MiB.
pub fn append_offsets(out: &mut Vec<u8>, start: usize, offsets: &[usize]) -> Result<(), EncodeError>
    requires room { vec_len out.old ≤ MOST_BYTES }
    requires inside { start ≤ vec_len out.old }
    ensures { Adds result out.old.items out.new.items (offset_bytes (vec_len out.old - start)
        offsets.now) }
{
    if offsets.len() > room_left(out) {
        return Err(EncodeError::TooLong);
    }
    let size = width(out.len() - start, offsets.len());
    for offset in offsets {
        append_number(out, *offset as u64, size)?;
    }
    Ok(())
}

/// Adds the end of a tuple's member to the ends that become offsets, if the member needs one: it
/// has no fixed size and isn't the last.
pub fn note_end(
    ends: &mut Vec<usize>,
    end: usize,
    plan: &Plan,
    last: bool,
) -> Result<(), AllocError>
    requires { IsTrue (is_plan plan.now) }
    ensures { OnOk result (ends.new.items ≡ ends.old.items ++ put_offset
        (size_of (plan_shape plan.now)) last end []) }
{
    if plan.extent().size.is_none() && !last {
        ends.push(end)?;
    }
    Ok(())
}

/// Appends the bytes after the members of a tuple: zero bytes up to the tuple's fixed size, or its
/// offsets, that of the last member first. `ends` has the offsets in the members' order. Errs with
/// `TooLong` if the whole would be above 16 MiB.
pub fn close(
    out: &mut Vec<u8>,
    start: usize,
    size: Option<u64>,
    mut ends: Vec<usize>,
) -> Result<(), EncodeError>
    requires room { vec_len out.old ≤ MOST_BYTES }
    requires inside { start ≤ vec_len out.old }
    ensures { (whole : Option ℕ) → size ≡ capped_size whole →
        Adds result out.old.items out.new.items
        (closing whole (vec_len out.old - start) (reverse ends.items)) }
{
    match size {
        Some(size) => {
            let used = out.len() - start;
            append_zeros(out, (size as usize).saturating_sub(used))
        }
        None => {
            ends.reverse();
            append_offsets(out, start, &ends)
        }
    }
}
