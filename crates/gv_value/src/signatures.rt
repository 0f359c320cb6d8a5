//! D-Bus signatures.
ghost use Rattle.std.specs.Prelude.{◌≡◌, ◌+◌, length, option_and_then};
ghost use Rattle.std.specs.Option.{option_copied};
ghost use Rattle.gv_value.specs.Signs.{sign_at};
ghost use Rattle.gv_value.specs.Texts.{is_signature as is_signature_text, after_type as rest_after_type, after_members as rest_after_members, after_element as rest_after_element, after_key};

use crate::limits::{MOST_OPEN, MOST_SIGNATURE_BYTES};
use crate::sign::Sign;

/// Returns whether the text is a D-Bus signature: at most 255 bytes that are complete types, one
/// after the other, with at most 32 nested arrays and 32 nested structs (D-Bus specification,
/// "Valid Signatures").
pub fn is_signature(text: &[u8]) -> bool
    ensures { result ≡ is_signature_text text.now }
{
    if text.len() > MOST_SIGNATURE_BYTES {
        return false;
    }
    let mut left = text;
    'types: while !left.is_empty() {
        match after_type(left, MOST_OPEN, MOST_OPEN) {
            Some(rest) => left = rest,
            None => return false,
        }
    }
    true
}

/// Returns the text after the complete type at the front, in which this number of arrays and of
/// structs may nest. Returns `None` if no such type is at the front.
#[cycle(signature)]
fn after_type(text: &[u8], arrays: u32, structs: u32) -> Option<&[u8]>
    ensures { option_copied result ≡ rest_after_type (arrays + structs) arrays structs text.now }
{
    let (sign, rest) = Sign::at_front(text)?;
    match sign {
        Sign::Basic(_) => Some(rest),
        Sign::Variant => Some(rest),
        Sign::Array => {
            if arrays == 0 {
                return None;
            }
            after_element(rest, arrays - 1, structs)
        }
        Sign::TupleOpen => {
            if structs == 0 {
                return None;
            }
            after_members(rest, arrays, structs - 1)
        }
        _ => None,
    }
}

/// Returns the text after the element type of an array, which alone may be a dictionary entry.
#[cycle(signature)]
fn after_element(text: &[u8], arrays: u32, structs: u32) -> Option<&[u8]>
    ensures { option_copied result
        ≡ option_and_then (λ p. rest_after_element
        (rest_after_type (arrays + structs) arrays structs) text.now p.0 p.1)
        (sign_at text.now) }
{
    let (sign, rest) = Sign::at_front(text)?;
    match sign {
        Sign::EntryOpen => after_entry(rest, arrays, structs),
        _ => after_type(text, arrays, structs),
    }
}

/// Returns the text after a dictionary entry's key, value and closing brace.
#[cycle(signature)]
fn after_entry(text: &[u8], arrays: u32, structs: u32) -> Option<&[u8]>
    ensures { option_copied result
        ≡ option_and_then (λ p. after_key (rest_after_type (arrays + structs) arrays structs) p.0
        p.1) (sign_at text.now) }
{
    let (key, rest) = Sign::at_front(text)?;
    match key {
        Sign::Basic(_) => {}
        _ => return None,
    }
    let rest = after_type(rest, arrays, structs)?;
    let (close, rest) = Sign::at_front(rest)?;
    match close {
        Sign::EntryClose => Some(rest),
        _ => None,
    }
}

/// Returns the text after one or more complete types and a closing parenthesis.
#[cycle(signature)]
fn after_members(text: &[u8], arrays: u32, structs: u32) -> Option<&[u8]>
    ensures { option_copied result
        ≡ rest_after_members (rest_after_type (arrays + structs) arrays structs)
        (length text.now) text.now }
{
    let mut left = text;
    'members: loop {
        left = after_type(left, arrays, structs)?;
        let (sign, rest) = Sign::at_front(left)?;
        if let Sign::TupleClose = sign {
            return Some(rest);
        }
    }
}
