//! Decoding the values of fields.
ghost use Rattle.std.specs.Prelude.{◌≡◌, ◌≤◌, length, IfOk, option_and_then};
ghost use Rattle.gv_value.specs.declared.limits.TheConstants.{MOST_BYTES};
ghost use Rattle.gv_value.specs.Reading.{value_of};
ghost use Rattle.gv_value.specs.Views.{shape_of, plain};
ghost use Rattle.ost_model.specs.Fields.{text_in, number_in, time_in};
ghost use Rattle.gv_decode.specs.Decoded.{slices, children_of as children_in};
ghost use Rattle.ost_model.specs.Types.{text_shape};
ghost use Rattle.ost_object.specs.Answers.{Finds, Holds, as_is};
ghost use Rattle.ost_object.specs.Views.{text_at, time_at, tree_at};
ghost use Rattle.ost_model.specs.Contents.{number_shape};
ghost use Rattle.ost_model.specs.Types.{time_shape};

use crate::error::ObjectError;
use crate::numbers::{turned_u32, turned_u64};
use fp_base::{Rule, Text};
use gv_decode::{DecodeError, check_normal, children, decode};
use gv_value::{Basic, GvType, GvValue};
use std::alloc::{AllocError, Global};

/// Decodes a value of a type. `Malformed` with the rule `Value` if the bytes aren't one in normal
/// form.
pub fn value_of(alloc: Global, of: &GvType, bytes: &[u8]) -> Result<GvValue, ObjectError>
    ensures { Finds plain result (value_of (shape_of of.now) bytes.now) }
{
    match decode(alloc, of, bytes) {
        Ok(value) => Ok(value),
        Err(DecodeError::TooLong) => Err(ObjectError::Malformed(Rule::Value)),
        Err(DecodeError::NotNormal) => Err(ObjectError::Malformed(Rule::Value)),
        Err(DecodeError::NoMemory) => Err(ObjectError::NoMemory),
    }
}

/// Checks whether bytes are a value of a type in normal form. `Malformed` with the rule `Value` if
/// they aren't.
pub fn check(alloc: Global, of: &GvType, bytes: &[u8]) -> Result<(), ObjectError>
    ensures { Holds result (value_of (shape_of of.now) bytes.now) }
{
    match check_normal(alloc, of, bytes) {
        Ok(()) => Ok(()),
        Err(DecodeError::TooLong) => Err(ObjectError::Malformed(Rule::Value)),
        Err(DecodeError::NotNormal) => Err(ObjectError::Malformed(Rule::Value)),
        Err(DecodeError::NoMemory) => Err(ObjectError::NoMemory),
    }
}

/// Returns the bytes of the children of a container of at most 16 MiB. `Malformed` with the rule
/// `Value` if the bytes can't be cut into children.
pub fn children_of<'a>(
    alloc: Global,
    of: &GvType,
    bytes: &'a [u8],
) -> Result<Vec<&'a [u8]>, ObjectError>
    requires { length bytes.now ≤ MOST_BYTES }
    ensures { Finds (λ found. slices found.items) result (children_in (shape_of of.now) bytes.now) }
{
    match children(alloc, of, bytes) {
        Ok(found) => Ok(found),
        Err(DecodeError::TooLong) => Err(ObjectError::Malformed(Rule::Value)),
        Err(DecodeError::NotNormal) => Err(ObjectError::Malformed(Rule::Value)),
        Err(DecodeError::NoMemory) => Err(ObjectError::NoMemory),
    }
}

/// Returns the text in the bytes of a value of type `s`, or the empty text if they aren't one.
pub fn text_of_bytes(alloc: Global, bytes: &[u8]) -> Result<Text, AllocError>
    ensures { IfOk result (λ text. text ≡ text_at bytes.now) }
{
    match text_in_bytes(alloc, bytes) {
        Ok(text) => Ok(text),
        Err(ObjectError::Malformed(_rule)) => Ok(Text::from_string(String::new(alloc))),
        Err(ObjectError::NoMemory) => Err(AllocError),
    }
}

/// Returns the text in the bytes of a value of type `s`.
fn text_in_bytes(alloc: Global, bytes: &[u8]) -> Result<Text, ObjectError>
    ensures { Finds as_is result (option_and_then text_in (value_of text_shape bytes.now)) }
{
    let value = value_of(alloc, &GvType::from_basic(Basic::Str), bytes)?;
    text_of(alloc, &value)
}

/// Returns the big-endian number in the bytes of a value of type `t`, or 0 if they aren't one.
pub fn time_of_bytes(alloc: Global, bytes: &[u8]) -> Result<u64, AllocError>
    ensures { IfOk result (λ time. time ≡ time_at bytes.now) }
{
    match time_in_bytes(alloc, bytes) {
        Ok(time) => Ok(time),
        Err(ObjectError::Malformed(_rule)) => Ok(0),
        Err(ObjectError::NoMemory) => Err(AllocError),
    }
}

/// Returns the big-endian number in the bytes of a value of type `t`.
fn time_in_bytes(alloc: Global, bytes: &[u8]) -> Result<u64, ObjectError>
    ensures { Finds as_is result (option_and_then time_in (value_of time_shape bytes.now)) }
{
    let value = value_of(alloc, &GvType::from_basic(Basic::Uint64), bytes)?;
    time_of(&value)
}

/// Returns the big-endian number in the bytes of a value of type `u`. `Malformed` with the rule
/// `Value` if they aren't one.
pub fn number_in_bytes(alloc: Global, bytes: &[u8]) -> Result<u32, ObjectError>
    ensures { Finds as_is result (number_in (tree_at number_shape bytes.now)) }
{
    let value = value_of(alloc, &GvType::from_basic(Basic::Uint32), bytes)?;
    number_of(&value)
}

/// Returns the text of a value. `Malformed` with the rule `Value` if it doesn't have the type `s`.
pub fn text_of(alloc: Global, value: &GvValue) -> Result<Text, ObjectError>
    ensures { Finds as_is result (text_in (plain value.now)) }
{
    match value {
        GvValue::Str(text) => Ok(Text::from_string(String::from_str(alloc, text.as_str())?)),
        _ => Err(ObjectError::Malformed(Rule::Value)),
    }
}

/// Returns the big-endian number of a value. `Malformed` with the rule `Value` if it doesn't have
/// the type `u`.
fn number_of(value: &GvValue) -> Result<u32, ObjectError>
    ensures { Finds as_is result (number_in (plain value.now)) }
{
    match value {
        GvValue::Uint32(number) => Ok(turned_u32(*number)),
        _ => Err(ObjectError::Malformed(Rule::Value)),
    }
}

/// Returns the big-endian number of a value. `Malformed` with the rule `Value` if it doesn't have
/// the type `t`.
fn time_of(value: &GvValue) -> Result<u64, ObjectError>
    ensures { Finds as_is result (time_in (plain value.now)) }
{
    match value {
        GvValue::Uint64(number) => Ok(turned_u64(*number)),
        _ => Err(ObjectError::Malformed(Rule::Value)),
    }
}
