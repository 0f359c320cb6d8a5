//! The layout of a container: its children, the padding between them, and its framing offsets
//! (GVariant specification, "Framing Offsets").
ghost use Rattle.std.specs.Prelude.{◌≡◌, ◌≤◌, ◌<◌, ◌+◌, ◌-◌, ◌*◌, ◌/◌, ◌==◌, ◌&&◌, if◌then◌else◌, IsTrue, length, drop, take, Some, None, IfOk};
ghost use Rattle.gv_value.specs.declared.limits.TheConstants.{MOST_BYTES};
ghost use Rattle.gv_value.specs.Bytes.{le_value, all_zero as all_are_zero};
ghost use Rattle.gv_value.specs.Framing.{child_at as child_from, offsets_after, width_in, offset_count as offset_count_of, member_end as member_end_of};
ghost use Rattle.gv_value.specs.Layout.{padding as padding_of};
ghost use Rattle.gv_value.specs.Plans.{are_plans, plan_shapes};
ghost use Rattle.gv_decode.specs.Decoded.{Gives, IsFrame, IsWhole, offsets_of, offsets_left};

use crate::error::DecodeError;
use crate::numbers::{all_zero, number};
use gv_value::{Extent, Plan, padding, width};

/// Returns the bytes of a child that ends at `end`. It starts at the first multiple of `align` that
/// is not below `at`. `NotNormal` if the padding before it isn't zero, or the child isn't within
/// the body.
pub fn child_at(body: &[u8], at: usize, align: u64, end: usize) -> Result<&[u8], DecodeError>
    requires pos { 0 < align }
    requires small { align ≤ 8 }
    requires within { at ≤ length body.now }
    ensures { Gives (λ child. child.now) result (child_from body.now at (at + padding_of at align)
        end) }
{
    let start = at + padding(at as u64, align) as usize;
    if start > end || end > body.len() {
        return Err(DecodeError::NotNormal);
    }
    if !all_zero(&body[at..start]) {
        return Err(DecodeError::NotNormal);
    }
    Ok(&body[start..end])
}

/// The bytes of a container, parted into its children and its offsets.
#[derive(Clone, Copy)]
pub struct Frame<'a> {
    /// The children with their padding, without the offsets.
    pub body: &'a [u8],
    /// The offsets, one after the other.
    pub table: &'a [u8],
    /// The number of bytes of each offset.
    pub width: usize,
    /// The number of offsets.
    pub count: usize,
}

/// Returns the number of bytes of each offset in a container: the smallest of 1, 2 and 4 that fits
/// the container's size.
pub fn offset_width(bytes: &[u8]) -> usize
    requires short { length bytes.now ≤ MOST_BYTES }
    ensures value { result ≡ width_in (length bytes.now) }
    ensures pos { 0 < result }
    ensures small { result ≤ 4 }
{
    width(bytes.len(), 0)
}

/// Parts a container into its children, which take `before` bytes, and `count` offsets after them.
/// `NotNormal` if there aren't exactly that many offsets, or a smaller width would do for them.
pub fn take_apart(bytes: &[u8], before: usize, count: usize) -> Result<Frame<'_>, DecodeError>
    requires short { length bytes.now ≤ MOST_BYTES }
    requires few { count ≤ length bytes.now }
    ensures offsets { Gives offsets_of result (offsets_after before count bytes.now) }
    ensures frame { IfOk result (λ f. IsFrame f bytes.now before count) }
{
    let width_here = offset_width(bytes);
    if before > bytes.len() {
        return Err(DecodeError::NotNormal);
    }
    let (body, table) = bytes.split_at(before);
    if width(before, count) != width_here {
        return Err(DecodeError::NotNormal);
    }
    if table.len() != count * width_here {
        return Err(DecodeError::NotNormal);
    }
    Ok(Frame {
        body,
        table,
        width: width_here,
        count,
    })
}

/// Returns the number of offsets of a tuple: one for each member without a fixed size, except the
/// last member.
pub fn offset_count(plans: &[Plan]) -> usize
    requires { IsTrue (are_plans plans.now) }
    ensures { result ≡ offset_count_of (plan_shapes plans.now) }
{
    let mut count: usize = 0;
    let mut left = plans;
    while let Some((plan, others)) = left.split_first() {
        if plan.extent().size.is_none() && !others.is_empty() {
            count += 1;
        }
        left = others;
    }
    count
}

/// Returns the offset with this index in the table.
pub fn offset_at(frame: Frame<'_>, index: usize) -> usize
    requires whole { IsWhole frame }
    requires inside { index < frame.count }
    ensures { result ≡ le_value (take frame.entry.width (drop (index * frame.entry.width)
        frame.entry.table.now)) }
{
    let start = index * frame.width;
    number(&frame.table[start..start + frame.width]) as usize
}

/// Returns the frame of a tuple of the fixed size `size`, whose members end at `whole`. `NotNormal`
/// if there aren't `size` bytes, or one after the members isn't zero.
pub fn filled_frame(whole: usize, size: usize, bytes: &[u8]) -> Result<Frame<'_>, DecodeError>
    requires { whole ≤ size }
    ensures body { Gives (λ f. f.body.now) result
        (if length bytes.now == size && all_are_zero (drop whole bytes.now)
        then Some (take whole bytes.now) else None) }
    ensures frame { IfOk result (λ f. IsWhole f × (f.count ≡ 0)) }
{
    if bytes.len() != size {
        return Err(DecodeError::NotNormal);
    }
    let (body, fill) = bytes.split_at(whole);
    if !all_zero(fill) {
        return Err(DecodeError::NotNormal);
    }
    Ok(Frame {
        body,
        table: &[],
        width: 1,
        count: 0,
    })
}

/// Returns the frame of a tuple without a fixed size. `NotNormal` if there aren't as many offsets
/// as the members need, or a smaller width would do for them.
pub fn open_frame<'a>(plans: &[Plan], bytes: &'a [u8]) -> Result<Frame<'a>, DecodeError>
    requires planned { IsTrue (are_plans plans.now) }
    requires short { length bytes.now ≤ MOST_BYTES }
    ensures offsets { Gives offsets_of result
        (offsets_after (length bytes.now - offset_count_of (plan_shapes plans.now) * width_in
        (length bytes.now)) (offset_count_of (plan_shapes plans.now)) bytes.now) }
    ensures frame { IfOk result (λ f. IsFrame f bytes.now
        (length bytes.now - offset_count_of (plan_shapes plans.now) * width_in (length bytes.now))
        (offset_count_of (plan_shapes plans.now))) }
{
    let count = offset_count(plans);
    if count > bytes.len() {
        return Err(DecodeError::NotNormal);
    }
    let before = bytes.len().saturating_sub(count * offset_width(bytes));
    take_apart(bytes, before, count)
}

/// Returns where a member ends, and the number of offsets that are left. The member's padding
/// starts at `at`. The end is known from its size, or is the last of the `left` offsets. The last
/// member ends with the body.
pub fn member_end(
    extent: Extent,
    last: bool,
    frame: Frame<'_>,
    at: usize,
    left: usize,
) -> (usize, usize)
    requires whole { IsWhole frame }
    requires few { left ≤ frame.count }
    requires within { at ≤ length frame.body.now }
    requires short { length frame.body.now ≤ MOST_BYTES }
    ensures found { (result.0, offsets_left frame.entry result.1)
        ≡ member_end_of extent.size last (length frame.entry.body.now) at extent.align
        (offsets_left frame.entry left) }
    ensures fewer { result.1 ≤ left }
{
    match extent.size {
        Some(size) => (
            at + padding(at as u64, extent.align) as usize + size as usize,
            left,
        ),
        None => {
            if last || left == 0 {
                (frame.body.len(), left)
            } else {
                (offset_at(frame, left - 1), left - 1)
            }
        }
    }
}
