//! Cutting the elements of an array one after another, without keeping those that were cut.
ghost use Rattle.std.specs.Prelude.{◌≡◌, ◌≤◌, ◌<◌, ◌-◌, ◌∷◌, ◌/◌, length, IsTrue, IfOk};
ghost use Rattle.gv_value.specs.declared.limits.TheConstants.{MOST_BYTES, TOO_LARGE};
ghost use Rattle.gv_value.specs.Framing.{array_children, framed_children, cut, steps};
ghost use Rattle.gv_value.specs.Layout.{align_of, size_of};
ghost use Rattle.gv_value.specs.Plans.{is_plan, plan_shape};
ghost use Rattle.gv_decode.specs.Stepped.{marks_left, elements_left, IsOpen, AreEnds, Opens, Steps, GoesOn};

use crate::error::DecodeError;
use crate::framing::{child_at, offset_width, take_apart};
use crate::numbers::number;
use gv_value::Plan;

/// The information where the elements of an array end.
#[derive(Clone, Copy)]
pub enum Ends<'a> {
    /// The size in bytes of each element.
    Size(usize),
    /// The number of bytes of an offset, and the offsets of the elements that are left, one after
    /// the other.
    Offsets(usize, &'a [u8]),
}

/// The elements of an array that are not cut yet. `array_elements` makes them, and `next_element`
/// cuts the first one.
#[derive(Clone, Copy)]
pub struct Elements<'a> {
    /// The bytes of all elements, without the offsets.
    pub body: &'a [u8],
    /// The position in `body` where the next element's padding starts. The element starts at the
    /// first multiple of `align` from there on.
    pub at: usize,
    /// The alignment of the elements in bytes. It is 1 for elements of a fixed size, which need no
    /// padding.
    pub align: u64,
    /// The ends of the elements that are left.
    pub ends: Ends<'a>,
    /// The number of elements that are left.
    pub left: usize,
}

/// Returns the elements of an array whose elements have the plan `element`. `NotNormal` if the
/// offsets aren't in normal form.
pub fn elements_in<'a>(element: &Plan, bytes: &'a [u8]) -> Result<Elements<'a>, DecodeError>
    requires planned { IsTrue (is_plan element.now) }
    requires short { length bytes.now ≤ MOST_BYTES }
    ensures found { Opens result (array_children (align_of (plan_shape element.now))
        (size_of (plan_shape element.now)) bytes.now) }
    ensures ready { IfOk result IsOpen }
{
    let extent = element.extent();
    match extent.size {
        Some(size) => Ok(of_size(size as usize, bytes)),
        None => framed(extent.align, bytes),
    }
}

/// Returns elements of one size in bytes, one after the other.
fn of_size(size: usize, bytes: &[u8]) -> Elements<'_>
    requires pos { 0 < size }
    requires small { size ≤ TOO_LARGE }
    requires short { length bytes.now ≤ MOST_BYTES }
    ensures found { elements_left result ≡ cut bytes.now 0 (steps size 0
        (length bytes.now / size)) }
    ensures ready { IsOpen result }
{
    Elements {
        body: bytes,
        at: 0,
        align: 1,
        ends: Ends::Size(size),
        left: bytes.len() / size,
    }
}

/// Returns elements without a fixed size. The last offset is the end of the last element, and so
/// the position where the offsets start.
fn framed(align: u64, bytes: &[u8]) -> Result<Elements<'_>, DecodeError>
    requires pos { 0 < align }
    requires small { align ≤ 8 }
    requires short { length bytes.now ≤ MOST_BYTES }
    ensures found { Opens result (framed_children align bytes.now) }
    ensures ready { IfOk result IsOpen }
{
    if bytes.is_empty() {
        return Ok(of_size(1, bytes));
    }
    let width = offset_width(bytes);
    let before = number(&bytes[bytes.len() - width..]) as usize;
    let count = bytes.len().saturating_sub(before) / width;
    let frame = take_apart(bytes, before, count)?;
    Ok(Elements {
        body: frame.body,
        at: 0,
        align,
        ends: Ends::Offsets(frame.width, frame.table),
        left: frame.count,
    })
}

/// Cuts the next element, and returns its bytes and the elements after it, or `None` after the last
/// one. `NotNormal` if the element isn't within the array, its padding isn't zero, or bytes remain
/// after the last element. Doesn't check the element's own bytes.
pub fn next_element(elements: Elements<'_>) -> Result<Option<(&[u8], Elements<'_>)>, DecodeError>
    requires ready { IsOpen elements }
    ensures found { Steps result (elements_left elements.entry) }
    ensures ready { GoesOn result elements.entry }
{
    if elements.left == 0 {
        return if elements.at == elements.body.len() {
            Ok(None)
        } else {
            Err(DecodeError::NotNormal)
        };
    }
    let (end, ends) = next_end(elements);
    let child = child_at(elements.body, elements.at, elements.align, end)?;
    let others = Elements {
        body: elements.body,
        at: end,
        align: elements.align,
        ends,
        left: elements.left - 1,
    };
    Ok(Some((child, others)))
}

/// Returns where the next element ends, and the ends of the elements after it.
fn next_end(elements: Elements<'_>) -> (usize, Ends<'_>)
    requires ready { IsOpen elements }
    requires some { 0 < elements.left }
    ensures found { marks_left elements.entry.ends elements.entry.at elements.entry.align
        elements.entry.left ≡ (elements.entry.align, result.0) ∷ marks_left result.1 result.0
        elements.entry.align (elements.entry.left - 1) }
    ensures ends { AreEnds result.1 elements.entry.align (elements.entry.left - 1) }
{
    match elements.ends {
        Ends::Size(size) => (elements.at + size, elements.ends),
        Ends::Offsets(width, table) => {
            let (first, others) = table.split_at(width);
            (number(first) as usize, Ends::Offsets(width, others))
        }
    }
}
