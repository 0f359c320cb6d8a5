//! Writing of messages (D-Bus specification, "Marshaling" and "Message Protocol").

ghost use Rattle.std.specs.Prelude.{◌≡◌, ℕ, ◌+◌, ◌≤◌, ◌<◌, ◌^◌, ◌++◌, ◌∷◌, [], List, length, vec_len, false, None, OnOk, IfOk, IfSome, replicate, option_map, take, drop};
ghost use Rattle.bus_frame.specs.Fields.{Field, word as word_content, number as number_content};
ghost use Rattle.std.specs.List.{list_any};
ghost use Rattle.std.specs.Option.{ForSome};
ghost use Rattle.std.specs.Prelude.{◌==◌};
ghost use Rattle.bus_frame.specs.Numbers.{padding};
ghost use Rattle.bus_frame.specs.declared.limits.TheConstants.{MOST_NAME_BYTES};
ghost use Rattle.bus_frame.specs.Writing.{number_bytes, zeros, text_bytes, field_bytes, fields_bytes, fixed_bytes, error_fields, error_bytes};

use crate::limits::GREATEST_SERIAL;
use crate::message::{Flags, MessageType};
use crate::names::BUS_NAME;
use byteorder::{BigEndian, ByteOrder, LittleEndian};
use fp_base::Blob;
use std::alloc::{AllocError, Global};

/// Returns the four bytes of a number, little-endian if `little`, else big-endian.
pub fn number_bytes_of(little: bool, number: u32) -> [u8; 4]
    ensures { result ≡ number_bytes little number }
{
    let mut digits = [0; 4];
    if little {
        LittleEndian::write_u32(&mut digits, number);
    } else {
        BigEndian::write_u32(&mut digits, number);
    }
    digits
}

/// Appends the zero bytes from the offset `at` up to the next multiple of `alignment`.
pub fn put_zeros(out: &mut Vec<u8>, alignment: usize, at: usize) -> Result<(), AllocError>
    requires { 0 < alignment }
    ensures { OnOk result (out.new.items ≡ out.old.items ++ zeros alignment at) }
{
    for _ in 0..(alignment - at % alignment) % alignment {
        out.push(0)?;
    }
    Ok(())
}

/// Appends the length of a string as a 32-bit number, the string, and a zero byte.
pub fn put_text(out: &mut Vec<u8>, little: bool, text: &str) -> Result<(), AllocError>
    requires { length text.now < 2 ^ 32 }
    ensures { OnOk result (out.new.items ≡ out.old.items ++ text_bytes little text.now) }
{
    out.extend_from_slice(&number_bytes_of(little, text.len() as u32))?;
    out.extend_from_slice(text.as_bytes())?;
    out.push(0)?;
    Ok(())
}

/// Appends a field of the type `s` to an array of header fields, which begins at byte 16 of its
/// message.
fn put_word(fields: &mut Vec<u8>, little: bool, code: u8, text: &str) -> Result<(), AllocError>
    requires room { length fields.old.items < 2 ^ 32 }
    requires text_len { length text.now ≤ MOST_NAME_BYTES }
    ensures { OnOk result (fields.new.items ≡ fields.old.items
        ++ field_bytes little (16 + length fields.old.items)
        (record { code = code; content = word_content 115 text.now })) }
{
    let at = 16 + fields.len();
    put_zeros(fields, 8, at)?;
    fields.extend_from_slice(&[code, 1, b's', 0])?;
    put_text(fields, little, text)
}

/// Appends a field of the type `u` to an array of header fields, which begins at byte 16 of its
/// message.
fn put_number(fields: &mut Vec<u8>, little: bool, code: u8, number: u32) -> Result<(), AllocError>
    requires { length fields.old.items < 2 ^ 32 }
    ensures { OnOk result (fields.new.items ≡ fields.old.items
        ++ field_bytes little (16 + length fields.old.items)
        (record { code = code; content = number_content number })) }
{
    let at = 16 + fields.len();
    put_zeros(fields, 8, at)?;
    fields.extend_from_slice(&[code, 1, b'u', 0])?;
    fields.extend_from_slice(&number_bytes_of(little, number))?;
    Ok(())
}

/// Returns the array of header fields for a reply to a refused call.
fn error_array(
    alloc: Global,
    little: bool,
    name: &str,
    reply: u32,
    to: Option<&str>,
) -> Result<Vec<u8>, AllocError>
    requires name_len { length name.now ≤ MOST_NAME_BYTES }
    requires to_len { ForSome to (λ t. length t.now ≤ MOST_NAME_BYTES) }
    ensures bound { IfOk result (λ v. vec_len v < 2 ^ 32) }
    ensures fields { IfOk result (λ v. v.items ≡ fields_bytes little 16
        (error_fields name.now reply (option_map (λ t. t.now) to.entry))) }
{
    let mut fields = Vec::new(alloc);
    put_word(&mut fields, little, 4, name)?;
    put_number(&mut fields, little, 5, reply)?;
    if let Some(peer) = to {
        put_word(&mut fields, little, 6, peer)?;
    }
    put_word(&mut fields, little, 7, BUS_NAME)?;
    Ok(fields)
}

/// Appends the fixed part of a message without a body.
fn put_fixed(
    out: &mut Vec<u8>,
    little: bool,
    kind: MessageType,
    flags: Flags,
    serial: u32,
    array_len: u32,
) -> Result<(), AllocError>
    ensures { OnOk result (out.new.items ≡ out.old.items ++ fixed_bytes little kind flags 0 serial
        array_len) }
{
    let order = if little { b'l' } else { b'B' };
    out.extend_from_slice(&[order, kind.code(), flags.bits, 1])?;
    out.extend_from_slice(&number_bytes_of(little, 0))?;
    out.extend_from_slice(&number_bytes_of(little, serial))?;
    out.extend_from_slice(&number_bytes_of(little, array_len))?;
    Ok(())
}

/// Returns the reply to a refused call: an error with this name, from the bus, for the call with
/// the serial `reply`. It goes to the caller `to` if this name is known. It expects no reply, has
/// no body, and its serial is the greatest one. Both names must have at most 255 bytes.
#[tactic(auto, unfolding(crate::specs::Writing::error_bytes))]
pub fn error_frame(
    alloc: Global,
    little: bool,
    name: &str,
    reply: u32,
    to: Option<&str>,
) -> Result<Blob, AllocError>
    requires name_len { length name.now ≤ MOST_NAME_BYTES }
    requires to_len { ForSome to (λ t. length t.now ≤ MOST_NAME_BYTES) }
    ensures bytes { IfOk result (λ b. b ≡ error_bytes little name.now reply
        (option_map (λ t. t.now) to.entry)) }
{
    let fields = error_array(alloc, little, name, reply, to)?;
    let mut out = Vec::new(alloc);
    put_fixed(
        &mut out,
        little,
        MessageType::Error,
        Flags::NO_REPLY_EXPECTED,
        GREATEST_SERIAL,
        fields.len() as u32,
    )?;
    out.extend_from_slice(&fields)?;
    put_zeros(&mut out, 8, 16 + fields.len())?;
    Ok(Blob::from_vec(out))
}
