//! Parting the bytes of a variant.
ghost use Rattle.std.specs.Prelude.{◌≡◌, ◌≤◌, ◌<◌, ◌^◌, length};
ghost use Rattle.gv_value.specs.Reading.{parted};
ghost use Rattle.gv_value.specs.TypeText.{type_of};
ghost use Rattle.gv_value.specs.Views.{shape_of};
ghost use Rattle.gv_decode.specs.Decoded.{Gives};

use crate::error::DecodeError;
use gv_value::{GvType, TypeError};
use std::alloc::Global;

/// Returns the bytes of the value in a variant, and the type string of its type: the bytes before
/// the last zero byte, and those after it. Checks neither of them. `NotNormal` if there is no zero
/// byte.
pub fn variant_parts(bytes: &[u8]) -> Result<(&[u8], &[u8]), DecodeError>
    ensures { Gives (λ p. (p.0.now, p.1.now)) result (parted bytes.now) }
{
    let mut at = bytes.len();
    while at > 0 {
        at -= 1;
        if bytes[at] == 0 {
            return Ok((&bytes[..at], &bytes[at + 1..]));
        }
    }
    Err(DecodeError::NotNormal)
}

/// Reads a type from its type string. `NotNormal` if it isn't one valid type.
pub fn type_in(alloc: Global, text: &[u8]) -> Result<GvType, DecodeError>
    ensures { Gives shape_of result (type_of text.now) }
{
    match GvType::parse(alloc, text) {
        Ok(of) => Ok(of),
        Err(TypeError::Bad) => Err(DecodeError::NotNormal),
        Err(TypeError::NoMemory) => Err(DecodeError::NoMemory),
    }
}
