//! Encoding values.
ghost use Rattle.gv_value.specs.Views.{shape_of, plain};
ghost use Rattle.ost_object.specs.Writes.{Spells};

use crate::error::ObjectError;
use fp_base::{Blob, Rule};
use gv_encode::{EncodeError, encode};
use gv_value::{GvType, GvValue};
use std::alloc::Global;

/// Returns the serialised form of a value of a type. `Malformed` with the rule `Value` if there is
/// none of at most 16 MiB.
pub fn spelled(alloc: Global, of: &GvType, value: &GvValue) -> Result<Blob, ObjectError>
    ensures { Spells result (shape_of of.now) (plain value.now) }
{
    match encode(alloc, of, value) {
        Ok(bytes) => Ok(bytes),
        Err(EncodeError::NotOfType) => Err(ObjectError::Malformed(Rule::Value)),
        Err(EncodeError::TooLong) => Err(ObjectError::Malformed(Rule::Value)),
        Err(EncodeError::NoMemory) => Err(ObjectError::NoMemory),
    }
}
