//! Messages with another array of names as their body.

ghost use Rattle.std.specs.Prelude.{◌≡◌, ◌+◌, ◌-◌, ◌≤◌, ◌<◌, ◌^◌, ◌++◌, length, OnOk, IfOk, IsSome, map};
ghost use Rattle.bus_frame.specs.Reading.{frame_of, whole};
ghost use Rattle.bus_frame.specs.Bodies.{names_in};
ghost use Rattle.bus_frame.specs.Writing.{number_bytes, elements_bytes, names_bytes, with_body, with_names_bytes};

use crate::header::Header;
use crate::writing::{number_bytes_of, put_text, put_zeros};
use fp_base::{Blob, Items, Text};
use std::alloc::{AllocError, Global};

/// Returns the marshaled elements of an array of strings, of which the first is at the offset `at`.
fn elements_of(
    alloc: Global,
    little: bool,
    at: usize,
    names: &[Text],
) -> Result<Vec<u8>, AllocError>
    requires { at + length (elements_bytes little at names.now) < 2 ^ 32 }
    ensures { IfOk result (λ v. v.items ≡ elements_bytes little at names.now) }
{
    let mut out = Vec::new(alloc);
    for name in names {
        let place = at + out.len();
        put_zeros(&mut out, 4, place)?;
        put_text(&mut out, little, name.as_str())?;
    }
    Ok(out)
}

/// Returns the message with an array of these marshaled elements as its body, and with that body's
/// length in its fixed part.
fn replaced(
    alloc: Global,
    header: &Header,
    message: &[u8],
    elements: &[u8],
) -> Result<Blob, AllocError>
    requires start { 8 ≤ header.now.body_at }
    requires within { header.now.body_at ≤ length message.now }
    requires room { length elements.now + 4 < 2 ^ 32 }
    ensures { IfOk result (λ b. b ≡ with_body header.now message.now
        (number_bytes header.now.little (length elements.now) ++ elements.now)) }
{
    let little = header.little;
    let body_at = header.body_at as usize;
    let count = elements.len() as u32;
    let mut out = Vec::new(alloc);
    out.extend_from_slice(&message[..4])?;
    out.extend_from_slice(&number_bytes_of(little, count + 4))?;
    out.extend_from_slice(&message[8..body_at])?;
    out.extend_from_slice(&number_bytes_of(little, count))?;
    out.extend_from_slice(elements)?;
    Ok(Blob::from_vec(out))
}

/// Returns the message with these names as its body, an array of strings, and with that body's
/// length in its fixed part. The rest stays unchanged. The message must be whole, its body an array
/// of strings (`is_names`), and the new body not longer than the old one.
pub fn with_names(
    alloc: Global,
    header: &Header,
    message: &[u8],
    names: &Items<Text>,
) -> Result<Blob, AllocError>
    requires frame { frame_of message.now ≡ whole header.now (length message.now) }
    requires listed { IsSome (names_in header.now message.now) }
    requires room { length (names_bytes header.now.little header.now.body_at names.now) ≤
        header.now.body_len }
    ensures bytes { IfOk result (λ b. b ≡ with_names_bytes header.now message.now names.now) }
{
    let first = header.body_at as usize + 4;
    let elements = elements_of(alloc, header.little, first, names.as_slice())?;
    replaced(alloc, header, message, &elements)
}
