//! The fixed part of a message: its first 16 bytes (D-Bus specification, "Message Format").

ghost use Rattle.std.specs.Prelude.{◌≡◌, ◌+◌, ◌<◌, ◌≤◌, ◌^◌, take, drop, length};
ghost use Rattle.bus_frame.specs.Numbers.{number_from};
ghost use Rattle.bus_frame.specs.Reading.{is_little, type_of, fixed_of, array_end, body_start, message_len, fixed_fault};

use crate::cursor::number;
use crate::limits::{MOST_ARRAY_BYTES, MOST_MESSAGE_BYTES};
use crate::message::{Flags, MessageType};
use fp_base::FrameRule;

/// The fixed part of a message: byte order, message type, flags, protocol version, and three
/// numbers.
#[derive(Clone, Copy)]
pub struct Fixed {
    /// The byte order: `l` is little-endian, and `B` is big-endian.
    pub order: u8,
    /// The code of the message type.
    pub kind: u8,
    /// The flags.
    pub flags: Flags,
    /// The version of the protocol; only 1 is valid.
    pub version: u8,
    /// The length of the body in bytes.
    pub body_len: u32,
    /// The serial, by which a reply refers to the message.
    pub serial: u32,
    /// The length of the array of header fields in bytes.
    pub array_len: u32,
}

fn number_at(little: bool, bytes: &[u8], at: usize) -> u32
    requires { at + 4 ≤ length bytes.now }
    ensures { result ≡ number_from little (take 4 (drop at bytes.now)) }
{
    number(little, &bytes[at..at + 4])
}

impl Fixed {
    /// Reads the fixed part from the first 16 of at least 16 bytes.
    #[tactic(auto, unfolding(crate::specs::Reading::fixed_of))]
    pub fn read(bytes: &[u8]) -> Self
        requires { 16 ≤ length bytes.now }
        ensures { result ≡ fixed_of bytes.now }
    {
        let little = bytes[0] == b'l';
        Fixed {
            order: bytes[0],
            kind: bytes[1],
            flags: Flags { bits: bytes[2] },
            version: bytes[3],
            body_len: number_at(little, bytes, 4),
            serial: number_at(little, bytes, 8),
            array_len: number_at(little, bytes, 12),
        }
    }

    /// Returns whether the message's numbers are little-endian.
    pub fn is_little_endian(&self) -> bool
        ensures { result ≡ is_little self.now }
    {
        self.order == b'l'
    }

    /// Returns the message type.
    pub fn message_type(&self) -> MessageType
        ensures { result ≡ type_of self.now }
    {
        MessageType::from_code(self.kind)
    }

    /// Returns the offset at which the array of header fields ends, in bytes from the message's
    /// first byte.
    pub fn end_of_array(&self) -> u64
        ensures value { result ≡ array_end self.now }
        ensures bound { result < 2 ^ 32 + 16 }
    {
        16 + u64::from(self.array_len)
    }

    /// Returns the offset at which the body begins, in bytes from the message's first byte: the
    /// first multiple of 8 at or after the end of the header fields.
    pub fn start_of_body(&self) -> u64
        ensures value { result ≡ body_start self.now }
        ensures bound { result < 2 ^ 32 + 32 }
        ensures order { array_end self.now ≤ result }
    {
        let end = self.end_of_array();
        end + (8 - end % 8) % 8
    }

    /// Returns the length of the message in bytes.
    pub fn len(&self) -> u64
        ensures { result ≡ message_len self.now }
    {
        self.start_of_body() + u64::from(self.body_len)
    }

    /// Returns the first rule that the fixed part breaks, or `None`.
    #[tactic(auto, unfolding(crate::specs::Reading::fixed_fault))]
    pub fn broken_rule(&self) -> Option<FrameRule>
        ensures { result ≡ fixed_fault self.now }
    {
        if self.order != b'l' && self.order != b'B' {
            return Some(FrameRule::Order);
        }
        if self.kind == 0 {
            return Some(FrameRule::ZeroType);
        }
        if self.version != 1 {
            return Some(FrameRule::Version);
        }
        if self.serial == 0 {
            return Some(FrameRule::Serial);
        }
        if self.array_len > MOST_ARRAY_BYTES || self.len() > MOST_MESSAGE_BYTES {
            return Some(FrameRule::Length);
        }
        None
    }
}
