//! The rules of D-Bus messages (D-Bus specification, "Message Protocol").

use std::fmt;

/// The rule that a D-Bus message breaks (D-Bus specification, "Message Format"). The variants are
/// in the order in which the rules are checked: first those of the first 16 bytes (`Order` to
/// `Length`), then, for each header field, `Fields` to `Value`, then the rest.
#[derive(Clone, Copy, Debug, PartialEq, Eq)]
pub enum FrameRule {
    /// The first byte, the byte order, is neither `l` (little-endian) nor `B` (big-endian).
    Order,
    /// The message type is 0.
    ZeroType,
    /// The version of the protocol isn't 1.
    Version,
    /// The serial is 0.
    Serial,
    /// The array of header fields is longer than 64 MiB (2^26 bytes), or the message longer than 16
    /// MiB.
    Length,
    /// An element of the header fields' array isn't a code and a variant.
    Fields,
    /// A header field's code is 0.
    Code,
    /// A known header field occurs twice.
    Double,
    /// A known header field doesn't have its type.
    Kind,
    /// The value of a known header field isn't valid: a name, path or signature is outside its
    /// grammar, or the reply serial is 0.
    Value,
    /// A padding byte between the header fields and the body isn't zero.
    Padding,
    /// A header field that this message type requires is missing.
    Required,
    /// There is a body, but the header field with its signature is missing or empty.
    Body,
    /// The stream ends within a message.
    Cut,
}

impl FrameRule {
    fn words(self) -> &'static str {
        match self {
            FrameRule::Order => "the first byte is neither l nor B",
            FrameRule::ZeroType => "the message type is 0",
            FrameRule::Version => "the version of the protocol isn't 1",
            FrameRule::Serial => "the serial is 0",
            FrameRule::Length => "the field array or the message is too long",
            FrameRule::Fields => "what stands at a field's place isn't a code and a variant",
            FrameRule::Code => "a field's code is 0",
            FrameRule::Double => "a known field comes again",
            FrameRule::Kind => "a known field has another type than its own",
            FrameRule::Value => "a name, path or signature isn't valid, or the reply serial is 0",
            FrameRule::Padding => "a byte between the field array and the body isn't zero",
            FrameRule::Required => "a field that the message's type needs isn't there",
            FrameRule::Body => "there is a body, and no signature for it",
            FrameRule::Cut => "the stream ends within the message",
        }
    }
}

impl fmt::Display for FrameRule {
    fn fmt<W: fmt::Write>(&self, f: &mut fmt::Formatter<W>) -> fmt::Result {
        f.write_str(self.words())
    }
}
