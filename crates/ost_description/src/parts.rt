//! Reading the parts of a description's lines.

ghost use Rattle.std.specs.Prelude.{◌≡◌, ◌<◌, ◌==◌, IfOk, IfSome, true, not};
ghost use Rattle.std.specs.Char.{is_ascii_digit};
ghost use Rattle.std.specs.List.{list_all, list_any};
ghost use Rattle.fp_base.specs.Steps.{Gives};
ghost use Rattle.ost_description.specs.Parts.{has_leading_zero, are_digits as are_digits_of, number_in, octal_in, mode_in, content_in, path_in, text_in, is_subject as may_be_subject};
ghost use Rattle.fp_base.specs.Parts.{is_control};

use crate::limits::MOST_SUBJECT_BYTES;
use fp_base::{Blob, bytes_of_hex, is_control};
use fp_host::{Path, PathError};
use std::alloc::{AllocError, Global};
use std::str;

/// Returns whether the text has a leading zero before other digits.
fn has_leading_zero(text: &[u8]) -> bool
    ensures { result ≡ has_leading_zero text.now }
{
    text.len() > 1 && text[0] == b'0'
}

/// Returns whether the byte is a decimal ASCII digit.
fn is_digit(byte: u8) -> bool
    ensures { result ≡ is_ascii_digit byte }
{
    matches!(byte, b'0'..=b'9')
}

/// Returns whether all bytes are decimal ASCII digits.
fn is_all_digits(text: &[u8]) -> bool
    ensures { result ≡ list_all is_ascii_digit text.now }
{
    text.iter().all(|byte| is_digit(*byte))
}

/// Returns whether the text is one or more decimal digits without a leading zero.
fn are_digits(text: &[u8]) -> bool
    ensures { result ≡ are_digits_of text.now }
{
    !text.is_empty() && !has_leading_zero(text) && is_all_digits(text)
}

/// Returns the number in decimal digits, or `None` if it isn't below 2^64.
fn value(digits: &str) -> Option<u64>
    requires { are_digits_of digits.now ≡ true }
    ensures { Gives (λ n. n) result (number_in digits.now) }
{
    match digits.parse::<u64>() {
        Ok(number) => Some(number),
        Err(_) => None,
    }
}

/// Returns the number below 2^64 in decimal digits without a leading zero, or `None` for any other
/// text.
#[tactic(auto, unfolding(crate::specs::Parts::number_in))]
pub(crate) fn number(text: &[u8]) -> Option<u64>
    ensures { Gives (λ n. n) result (number_in text.now) }
{
    if !are_digits(text) {
        return None;
    }
    match str::from_utf8(text) {
        Ok(digits) => value(digits),
        Err(_) => None,
    }
}

/// Returns the value of an octal digit, or `None` for any other byte.
fn octal_digit(digit: u8) -> Option<u32>
    ensures digit { Gives (λ n. n) result (octal_in digit) }
    ensures small { IfSome result (λ n. n < 8) }
{
    if digit < b'0' || digit > b'7' {
        return None;
    }
    Some((digit - b'0') as u32)
}

/// Returns permission bits from three octal digits, or `None` for any other text.
#[tactic(auto, unfolding(crate::specs::Parts::mode_in))]
pub(crate) fn mode(text: &[u8]) -> Option<u32>
    ensures { Gives (λ n. n) result (mode_in text.now) }
{
    if text.len() != 3 {
        return None;
    }
    let first = octal_digit(text[0])?;
    let second = octal_digit(text[1])?;
    let third = octal_digit(text[2])?;
    Some(first * 64 + second * 8 + third)
}

/// Returns the content of a file: no bytes for a dash, and otherwise those in lower-case
/// hexadecimal. `None` for any other text, the empty one included.
#[tactic(auto, unfolding(crate::specs::Parts::content_in))]
pub(crate) fn content(alloc: Global, text: &[u8]) -> Result<Option<Blob>, AllocError>
    ensures { IfOk result (λ found. Gives (λ b. b) found (content_in text.now)) }
{
    let found = match text {
        b"-" => Some(Vec::new(alloc)),
        _ => bytes_of_hex(alloc, text)?,
    };
    Ok(found.map(Blob::from_vec))
}

/// Returns the bytes as a text, or `None` if they aren't UTF-8.
#[tactic(auto, unfolding(crate::specs::Parts::text_in))]
pub(crate) fn text(bytes: &[u8]) -> Option<&str>
    ensures { Gives (λ t. t.now) result (text_in bytes.now) }
{
    match str::from_utf8(bytes) {
        Ok(text) => Some(text),
        Err(_) => None,
    }
}

/// Returns whether a byte is a space.
fn has_space(bytes: &[u8]) -> bool
    ensures { result ≡ list_any (λ b. b == 32) bytes.now }
{
    bytes.iter().any(|byte| *byte == b' ')
}

/// Returns the path without spaces in the bytes, or `None` if they aren't one.
#[tactic(auto, unfolding(crate::specs::Parts::path_in, crate::specs::Parts::text_in))]
pub(crate) fn path(alloc: Global, bytes: &[u8]) -> Result<Option<Path>, AllocError>
    ensures { IfOk result (λ found. Gives (λ p. p) found (path_in bytes.now)) }
{
    let Some(text) = text(bytes) else {
        return Ok(None);
    };
    if has_space(bytes) {
        return Ok(None);
    }
    match Path::parse(alloc, text) {
        Ok(path) => Ok(Some(path)),
        Err(PathError::Bad) => Ok(None),
        Err(PathError::NoMemory) => Err(AllocError),
    }
}

/// Returns whether no byte is an ASCII control character.
fn has_no_control(text: &[u8]) -> bool
    ensures { result ≡ list_all (λ b. not (is_control b)) text.now }
{
    text.iter().all(|byte| !is_control(*byte))
}

/// Returns whether the text can be a subject: at most 1,024 bytes without control characters.
pub(crate) fn is_subject(text: &str) -> bool
    ensures { result ≡ may_be_subject text.now }
{
    text.len() <= MOST_SUBJECT_BYTES && has_no_control(text.as_bytes())
}
