//! The bytes of basic values.
ghost use Rattle.std.specs.Prelude.{◌≡◌, ◌≤◌, ◌++◌, ◌∷◌, [], ℕ, vec_len, IsTrue};
ghost use Rattle.gv_value.specs.declared.limits.TheConstants.{MOST_BYTES};
ghost use Rattle.gv_value.specs.Basics.{form_of};
ghost use Rattle.gv_value.specs.Parts.{content_of, part_tree, IsHeld, IsHeldContent};
ghost use Rattle.gv_value.specs.Shape.{basic};
ghost use Rattle.gv_value.specs.Spelling.{content_bytes, fits_within, spelling};
ghost use Rattle.gv_encode.specs.Encoded.{Adds};

use crate::appending::{append, append_number};
use crate::error::EncodeError;
use gv_value::{Basic, Content, Parts};

/// Appends a byte or an unsigned integer, in the width of its type.
fn append_unsigned(out: &mut Vec<u8>, of: Basic, number: u64) -> Result<(), EncodeError>
    requires room { vec_len out.old ≤ MOST_BYTES }
    requires held { IsHeldContent (form_of of) (Content.Number number) }
    ensures { Adds result out.old.items out.new.items (content_bytes (form_of of)
        (content_of (Content.Number number))) }
{
    match of {
        Basic::Byte => append_number(out, number, 1),
        Basic::Uint16 => append_number(out, number, 2),
        Basic::Uint32 => append_number(out, number, 4),
        _ => append_number(out, number, 8),
    }
}

/// Appends a signed integer or a handle, in the width of its type.
fn append_signed(out: &mut Vec<u8>, of: Basic, number: i64) -> Result<(), EncodeError>
    requires room { vec_len out.old ≤ MOST_BYTES }
    requires held { IsHeldContent (form_of of) (Content.Integer number) }
    ensures { Adds result out.old.items out.new.items (content_bytes (form_of of)
        (content_of (Content.Integer number))) }
{
    match of {
        Basic::Int16 => append_number(out, u64::from((number as i16).cast_unsigned()), 2),
        Basic::Int64 => append_number(out, number.cast_unsigned(), 8),
        _ => append_number(out, u64::from((number as i32).cast_unsigned()), 4),
    }
}

/// Appends a text and a zero byte.
fn append_text(out: &mut Vec<u8>, text: &str) -> Result<(), EncodeError>
    requires { vec_len out.old ≤ MOST_BYTES }
    ensures { Adds result out.old.items out.new.items (text.now ++ 0 ∷ []) }
{
    append(out, text.as_bytes())?;
    append(out, &[0])
}

/// Appends the bytes of a value of a basic type. Errs with `TooLong` if the whole would be above 16
/// MiB.
pub fn write_basic(out: &mut Vec<u8>, of: Basic, parts: Parts<'_>) -> Result<(), EncodeError>
    requires room { vec_len out.old ≤ MOST_BYTES }
    requires held { IsHeld parts }
    requires fits { (n : ℕ) × IsTrue (fits_within n (basic of) (part_tree parts)) }
    ensures { Adds result out.old.items out.new.items (spelling (part_tree parts.entry)
        (basic of)) }
{
    let Parts::Basic(held, content) = parts else {
        return Err(EncodeError::NotOfType);
    };
    match content {
        Content::Truth(truth) => append(out, &[u8::from(truth)]),
        Content::Number(number) => append_unsigned(out, held, number),
        Content::Integer(number) => append_signed(out, held, number),
        Content::Eight(eight) => append(out, eight),
        Content::Text(text) => append_text(out, text),
    }
}
