//! Reading and checking values of basic types.
ghost use Rattle.std.specs.Prelude.{◌≡◌, ◌≤◌, ◌<◌, ◌^◌, ◌-◌, length, if◌then◌else◌, Some, None, IfOk, option_map};
ghost use Rattle.std.specs.Str.{is_utf8};
ghost use Rattle.gv_value.specs.Basics.{string, object_path, signature, form_of};
ghost use Rattle.gv_value.specs.Reading.{truth_at, number_at, eight_at, before_zero as before_zero_byte, text_at, content_at};
ghost use Rattle.gv_value.specs.Tree.{leaf, truth, eight, text as text_content};
ghost use Rattle.gv_value.specs.Views.{plain};
ghost use Rattle.gv_decode.specs.Decoded.{Gives, Passes};

use crate::error::DecodeError;
use crate::numbers::number;
use fp_base::Text;
use gv_value::{Basic, GvValue, has_zero, is_object_path, is_signature};
use std::alloc::Global;

/// Returns the little-endian number in `bytes`. `NotNormal` if they aren't `size` bytes.
fn number_of(bytes: &[u8], size: usize) -> Result<u64, DecodeError>
    requires some { 0 < size }
    requires few { size ≤ 8 }
    ensures value { Gives (λ n. n) result (number_at size bytes.now) }
    ensures below { IfOk result (λ n. n < 256 ^ size) }
{
    if bytes.len() != size {
        return Err(DecodeError::NotNormal);
    }
    Ok(number(bytes))
}

/// Returns all bytes but the last one, which must be zero. `NotNormal` if it isn't, or if there are
/// no bytes.
pub fn before_zero(bytes: &[u8]) -> Result<&[u8], DecodeError>
    ensures { Gives (λ text. text.now) result (before_zero_byte (length bytes.now - 1) bytes.now) }
{
    match bytes.split_last() {
        Some((last, text)) => {
            if *last == 0 {
                Ok(text)
            } else {
                Err(DecodeError::NotNormal)
            }
        }
        None => Err(DecodeError::NotNormal),
    }
}

/// Returns the bytes as a text. `NotNormal` if they aren't UTF-8.
fn utf8(bytes: &[u8]) -> Result<&str, DecodeError>
    ensures { Gives (λ text. text.now) result (if is_utf8 bytes.now then Some bytes.now else None) }
{
    match std::str::from_utf8(bytes) {
        Ok(text) => Ok(text),
        Err(_) => Err(DecodeError::NotNormal),
    }
}

/// Returns the string in `bytes`: UTF-8 without a zero byte, and a zero byte after it.
fn string_in(bytes: &[u8]) -> Result<&str, DecodeError>
    ensures { Gives (λ text. text_content text.now) result (text_at string bytes.now) }
{
    let text = before_zero(bytes)?;
    if has_zero(text) {
        return Err(DecodeError::NotNormal);
    }
    utf8(text)
}

/// Returns the D-Bus object path in `bytes`, which a zero byte ends.
fn object_path_in(bytes: &[u8]) -> Result<&str, DecodeError>
    ensures { Gives (λ text. text_content text.now) result (text_at object_path bytes.now) }
{
    let text = before_zero(bytes)?;
    if !is_object_path(text) {
        return Err(DecodeError::NotNormal);
    }
    utf8(text)
}

/// Returns the D-Bus signature in `bytes`, which a zero byte ends.
fn signature_in(bytes: &[u8]) -> Result<&str, DecodeError>
    ensures { Gives (λ text. text_content text.now) result (text_at signature bytes.now) }
{
    let text = before_zero(bytes)?;
    if !is_signature(text) {
        return Err(DecodeError::NotNormal);
    }
    utf8(text)
}

/// Returns the boolean in `bytes`: one byte, 0 or 1.
fn truth_of(bytes: &[u8]) -> Result<bool, DecodeError>
    ensures { Gives truth result (truth_at bytes.now) }
{
    match bytes {
        [0] => Ok(false),
        [1] => Ok(true),
        _ => Err(DecodeError::NotNormal),
    }
}

/// Returns the eight bytes of a double. `NotNormal` if there aren't eight.
fn double_of(bytes: &[u8]) -> Result<[u8; 8], DecodeError>
    ensures { Gives eight result (eight_at bytes.now) }
{
    match bytes {
        [a, b, c, d, e, f, g, h] => Ok([*a, *b, *c, *d, *e, *f, *g, *h]),
        _ => Err(DecodeError::NotNormal),
    }
}

/// Reads a value of a basic type. `NotNormal` if the bytes aren't one in normal form.
pub fn read_basic(alloc: Global, of: Basic, bytes: &[u8]) -> Result<GvValue, DecodeError>
    ensures { Gives plain result (option_map (leaf of) (content_at (form_of of) bytes.now)) }
{
    match of {
        Basic::Bool => Ok(GvValue::Bool(truth_of(bytes)?)),
        Basic::Byte => Ok(GvValue::Byte(number_of(bytes, 1)? as u8)),
        Basic::Int16 => Ok(GvValue::Int16((number_of(bytes, 2)? as u16).cast_signed())),
        Basic::Uint16 => Ok(GvValue::Uint16(number_of(bytes, 2)? as u16)),
        Basic::Int32 => Ok(GvValue::Int32((number_of(bytes, 4)? as u32).cast_signed())),
        Basic::Uint32 => Ok(GvValue::Uint32(number_of(bytes, 4)? as u32)),
        Basic::Int64 => Ok(GvValue::Int64(number_of(bytes, 8)?.cast_signed())),
        Basic::Uint64 => Ok(GvValue::Uint64(number_of(bytes, 8)?)),
        Basic::Handle => Ok(GvValue::Handle((number_of(bytes, 4)? as u32).cast_signed())),
        Basic::Double => Ok(GvValue::Double(double_of(bytes)?)),
        Basic::Str => Ok(GvValue::Str(Text::from_str(alloc, string_in(bytes)?)?)),
        Basic::ObjectPath => {
            let path = object_path_in(bytes)?;
            Ok(GvValue::ObjectPath(Text::from_str(alloc, path)?))
        }
        Basic::Signature => {
            let signature = signature_in(bytes)?;
            Ok(GvValue::Signature(Text::from_str(alloc, signature)?))
        }
    }
}

/// Checks whether bytes are a value of a basic type. `NotNormal` if they aren't.
pub fn check_basic(of: Basic, bytes: &[u8]) -> Result<(), DecodeError>
    ensures { Passes result (content_at (form_of of) bytes.now) }
{
    match of {
        Basic::Bool => {
            truth_of(bytes)?;
        }
        Basic::Byte => {
            number_of(bytes, 1)?;
        }
        Basic::Int16 | Basic::Uint16 => {
            number_of(bytes, 2)?;
        }
        Basic::Int32 | Basic::Uint32 | Basic::Handle => {
            number_of(bytes, 4)?;
        }
        Basic::Int64 | Basic::Uint64 => {
            number_of(bytes, 8)?;
        }
        Basic::Double => {
            double_of(bytes)?;
        }
        Basic::Str => {
            string_in(bytes)?;
        }
        Basic::ObjectPath => {
            object_path_in(bytes)?;
        }
        Basic::Signature => {
            signature_in(bytes)?;
        }
    }
    Ok(())
}
