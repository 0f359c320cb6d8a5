//! Positions in a message, and the reading of values there (D-Bus specification, "Marshaling").

ghost use Rattle.std.specs.Prelude.{◌≡◌, ℕ, ◌+◌, ◌^◌, ◌<◌, ◌≤◌, if◌then◌else◌, length, Some, None};
ghost use Rattle.fp_base.specs.Steps.{Gives};

use crate::steps::first_byte;
use byteorder::{BigEndian, ByteOrder, LittleEndian};
use std::str;

/// A position in a message, and the bytes from there on.
#[derive(Clone, Copy)]
pub struct Cursor<'a> {
    /// The position, in bytes from the message's first byte.
    pub at: usize,
    /// The bytes from the position on, up to the end of the part that is read.
    pub rest: &'a [u8],
    ghost fits: { at + length rest.now < 2 ^ 64 },
}

ghost use Rattle.bus_frame.specs.Numbers.{are_zero, number_from, is_text};

/// Returns whether all bytes are zero.
pub fn all_zero(bytes: &[u8]) -> bool
    ensures { result ≡ are_zero bytes.now }
{
    bytes.iter().all(|byte| *byte == 0)
}

/// Returns the 32-bit number that the first four bytes encode, little-endian if `little`, else
/// big-endian.
pub fn number(little: bool, digits: &[u8]) -> u32
    requires { 4 ≤ length digits.now }
    ensures { result ≡ number_from little digits.now }
{
    if little {
        LittleEndian::read_u32(digits)
    } else {
        BigEndian::read_u32(digits)
    }
}

fn text(bytes: &[u8]) -> Option<&str>
    ensures { Gives (λ t. t.now) result (if is_text bytes.now then Some bytes.now else None) }
{
    if bytes.contains(&0) {
        return None;
    }
    match str::from_utf8(bytes) {
        Ok(text) => Some(text),
        Err(_) => None,
    }
}

impl<'a> Cursor<'a> {
    ghost use Rattle.std.specs.Prelude.{◌≡◌, ℕ, ◌+◌, ◌^◌, ◌<◌, ◌≤◌, length};
    ghost use Rattle.fp_base.specs.Steps.{Gives};
    ghost use Rattle.bus_frame.specs.Places.{place_of, bytes_at, byte_at, aligned_at, number_at, text_at, long_text_at, short_text_at};

    /// Returns the next `count` bytes and the position after them, or `None` if there are fewer.
    pub fn bytes(self, count: usize) -> Option<(&'a [u8], Cursor<'a>)>
        ensures { Gives (λ x. (x.0.now, place_of x.1)) result
            (bytes_at count (place_of self.entry)) }
    {
        if self.rest.len() < count {
            return None;
        }
        let (front, rest) = self.rest.split_at(count);
        let remainder = Cursor {
            at: self.at + count,
            rest,
        };
        Some((front, remainder))
    }

    /// Returns the next byte and the position after it, or `None` at the end.
    pub fn byte(self) -> Option<(u8, Cursor<'a>)>
        ensures { Gives (λ x. (x.0, place_of x.1)) result (byte_at (place_of self.entry)) }
    {
        let (byte, rest) = first_byte(self.rest)?;
        let remainder = Cursor {
            at: self.at + 1,
            rest,
        };
        Some((byte, remainder))
    }

    /// Returns the first multiple of `alignment` at or after the position, or `None` if a padding
    /// byte before it is missing or isn't zero.
    #[tactic(auto, unfolding(crate::specs::Places::aligned_at))]
    pub fn aligned(self, alignment: usize) -> Option<Cursor<'a>>
        requires { 0 < alignment }
        ensures { Gives place_of result (aligned_at alignment (place_of self.entry)) }
    {
        let padding = (alignment - self.at % alignment) % alignment;
        let (zeros, remainder) = self.bytes(padding)?;
        if !all_zero(zeros) {
            return None;
        }
        Some(remainder)
    }

    /// Reads a 32-bit number at the next multiple of 4, and returns it with the position after it.
    /// Returns `None` if bytes are missing or a padding byte isn't zero.
    #[tactic(auto, unfolding(crate::specs::Places::number_at))]
    pub fn number(self, little: bool) -> Option<(u32, Cursor<'a>)>
        ensures { Gives (λ x. (x.0, place_of x.1)) result (number_at little (place_of self.entry)) }
    {
        let (digits, remainder) = self.aligned(4)?.bytes(4)?;
        Some((number(little, digits), remainder))
    }

    /// Reads a string of `count` bytes and the zero byte after it, and returns it with the position
    /// after that. Returns `None` if bytes are missing, the string isn't UTF-8 or contains a zero
    /// byte, or another byte than zero follows it.
    #[tactic(auto, unfolding(crate::specs::Places::text_at))]
    pub fn text(self, count: usize) -> Option<(&'a str, Cursor<'a>)>
        ensures { Gives (λ x. (x.0.now, place_of x.1)) result
            (text_at count (place_of self.entry)) }
    {
        let (bytes, remainder) = self.bytes(count)?;
        let (end, remainder) = remainder.byte()?;
        let text = text(bytes)?;
        if end != 0 {
            return None;
        }
        Some((text, remainder))
    }

    /// Reads a string with its length before it as a 32-bit number (the types `s` and `o`), and
    /// returns it with the position after it, or `None` if there is no such string.
    #[tactic(auto, unfolding(crate::specs::Places::long_text_at))]
    pub fn long_text(self, little: bool) -> Option<(&'a str, Cursor<'a>)>
        ensures { Gives (λ x. (x.0.now, place_of x.1)) result
            (long_text_at little (place_of self.entry)) }
    {
        let (count, remainder) = self.number(little)?;
        remainder.text(count as usize)
    }

    /// Reads a string with its length before it in one byte (the type `g`), and returns it with the
    /// position after it, or `None` if there is no such string.
    #[tactic(auto, unfolding(crate::specs::Places::short_text_at))]
    pub fn short_text(self) -> Option<(&'a str, Cursor<'a>)>
        ensures { Gives (λ x. (x.0.now, place_of x.1)) result
            (short_text_at (place_of self.entry)) }
    {
        let (count, remainder) = self.byte()?;
        remainder.text(usize::from(count))
    }
}
