//! Cutting bytes that are known to be a value: nothing but a lack of memory can make it fail.
ghost use Rattle.std.specs.Prelude.{◌≡◌, ◌≤◌, length, IfOk, Some};
ghost use Rattle.std.specs.Option.{IsSome};
ghost use Rattle.gv_value.specs.declared.limits.TheConstants.{MOST_BYTES};
ghost use Rattle.gv_value.specs.Views.{shape_of};
ghost use Rattle.gv_decode.specs.Decoded.{slices, children_of as children_in};
ghost use Rattle.gv_decode.specs.Stepped.{elements_left, elements_of as elements_in, IsOpen};
ghost use Rattle.ost_object.specs.Parts.{IsStep};

use gv_decode::{DecodeError, Elements, array_elements, children, next_element};
use gv_value::GvType;
use std::alloc::{AllocError, Global};

/// Returns the bytes of the members of a tuple.
pub fn members_of<'a>(
    alloc: Global,
    of: &GvType,
    bytes: &'a [u8],
) -> Result<Vec<&'a [u8]>, AllocError>
    requires short { length bytes.now ≤ MOST_BYTES }
    requires there { IsSome (children_in (shape_of of.now) bytes.now) }
    ensures { IfOk result (λ found. children_in (shape_of of.now) bytes.now
        ≡ Some (slices found.items)) }
{
    match children(alloc, of, bytes) {
        Ok(found) => Ok(found),
        Err(DecodeError::TooLong) => unreachable!(),
        Err(DecodeError::NotNormal) => unreachable!(),
        Err(DecodeError::NoMemory) => Err(AllocError),
    }
}

/// Returns the elements of an array, for `next_row` to cut one after another.
pub fn rows_of<'a>(alloc: Global, of: &GvType, bytes: &'a [u8]) -> Result<Elements<'a>, AllocError>
    requires short { length bytes.now ≤ MOST_BYTES }
    requires there { IsSome (elements_in (shape_of of.now) bytes.now) }
    ensures found { IfOk result (λ rows. elements_in (shape_of of.now) bytes.now
        ≡ elements_left rows) }
    ensures ready { IfOk result IsOpen }
{
    match array_elements(alloc, of, bytes) {
        Ok(rows) => Ok(rows),
        Err(DecodeError::TooLong) => unreachable!(),
        Err(DecodeError::NotNormal) => unreachable!(),
        Err(DecodeError::NoMemory) => Err(AllocError),
    }
}

/// Cuts the next row, and returns its bytes and the rows after it, or `None` after the last one.
pub fn next_row(rows: Elements<'_>) -> Result<Option<(&[u8], Elements<'_>)>, AllocError>
    requires ready { IsOpen rows }
    requires there { IsSome (elements_left rows) }
    ensures { IfOk result (λ step. IsStep step rows.entry) }
{
    match next_element(rows) {
        Ok(step) => Ok(step),
        Err(DecodeError::TooLong) => unreachable!(),
        Err(DecodeError::NotNormal) => unreachable!(),
        Err(DecodeError::NoMemory) => Err(AllocError),
    }
}
