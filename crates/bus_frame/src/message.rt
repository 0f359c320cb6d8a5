//! The types and flags of messages (D-Bus specification, "Message Format").

ghost use Rattle.std.specs.Prelude.{◌≡◌};
ghost use Rattle.bus_frame.specs.Messages.{message_type, type_code, wants_no_reply};

/// The type of a message.
#[derive(Clone, Copy)]
pub enum MessageType {
    /// A method call.
    MethodCall,
    /// A method return.
    MethodReturn,
    /// An error that answers a call.
    Error,
    /// A signal.
    Signal,
    /// A type that the specification doesn't define, by its code. A receiver ignores such a
    /// message.
    Unknown(u8),
}

impl MessageType {
    /// Returns the type with this code.
    pub fn from_code(code: u8) -> Self
        ensures value { result ≡ message_type code }
        ensures code { type_code result ≡ code }
    {
        match code {
            1 => MessageType::MethodCall,
            2 => MessageType::MethodReturn,
            3 => MessageType::Error,
            4 => MessageType::Signal,
            _ => MessageType::Unknown(code),
        }
    }

    /// Returns the type's code.
    pub fn code(self) -> u8
        ensures { result ≡ type_code self }
    {
        match self {
            MessageType::MethodCall => 1,
            MessageType::MethodReturn => 2,
            MessageType::Error => 3,
            MessageType::Signal => 4,
            MessageType::Unknown(code) => code,
        }
    }
}

/// The flags of a message, one bit each.
#[derive(Clone, Copy)]
pub struct Flags {
    /// The byte that contains the flags.
    pub bits: u8,
}

impl Flags {
    /// No flag.
    pub const NONE: Flags = Flags { bits: 0 };

    /// NO_REPLY_EXPECTED: the sender expects no reply.
    pub const NO_REPLY_EXPECTED: Flags = Flags { bits: 1 };

    /// Returns whether the sender expects no reply, which the lowest bit indicates.
    pub fn want_no_reply(self) -> bool
        ensures { result ≡ wants_no_reply self }
    {
        self.bits % 2 == 1
    }
}
