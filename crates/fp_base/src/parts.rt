//! Splitting of lines at a byte, and decoding of hexadecimal.
ghost use Rattle.std.specs.Prelude.{◌≡◌, ◌==◌, IfOk};
ghost use Rattle.std.specs.List.{list_all, position};
ghost use Rattle.fp_base.specs.Steps.{Gives};
ghost use Rattle.fp_base.specs.Parts.{parts_at, is_lower_digit, hex_in};

use hex::FromHexError;
use std::alloc::{AllocError, Global};

/// Returns the index of the first occurrence of a byte.
fn place_of_first(byte: u8, bytes: &[u8]) -> Option<usize>
    ensures { result ≡ position (λ b. b == byte) bytes.now }
{
    bytes.iter().position(|b| *b == byte)
}

/// Splits bytes at the first occurrence of a byte. Returns the parts before it and after it, or
/// `None` if the byte doesn't occur.
#[tactic(auto, unfolding(crate::specs::Parts::parts_at))]
pub fn cut(byte: u8, bytes: &[u8]) -> Option<(&[u8], &[u8])>
    ensures { Gives (λ p. (p.0.now, p.1.now)) result (parts_at byte bytes.now) }
{
    let at = place_of_first(byte, bytes)?;
    Some((&bytes[..at], &bytes[at + 1..]))
}

fn is_lower_hex_digit(digit: u8) -> bool
    ensures { result ≡ is_lower_digit digit }
{
    matches!(digit, b'0'..=b'9' | b'a'..=b'f')
}

fn are_lower_hex_digits(text: &[u8]) -> bool
    ensures { result ≡ list_all is_lower_digit text.now }
{
    text.iter().all(|digit| is_lower_hex_digit(*digit))
}

/// Decodes lower-case hexadecimal of one byte or more. Returns `None` for any other text, the empty
/// one included. Errs if memory runs out.
#[tactic(auto, unfolding(crate::specs::Parts::hex_in))]
pub fn bytes_of_hex(alloc: Global, text: &[u8]) -> Result<Option<Vec<u8>>, AllocError>
    ensures { IfOk result (λ found. Gives (λ v. v.items) found (hex_in text.now)) }
{
    if text.is_empty() || !are_lower_hex_digits(text) {
        return Ok(None);
    }
    match hex::decode(alloc, text) {
        Ok(bytes) => Ok(Some(bytes)),
        Err(FromHexError::OutOfMemory) => Err(AllocError),
        Err(_) => Ok(None),
    }
}
