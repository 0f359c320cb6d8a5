//! The basic types of GVariant.
ghost use Rattle.std.specs.Prelude.{◌≡◌};

/// A basic type of GVariant: one that contains no other type.
#[derive(Clone, Copy, PartialEq, Eq)]
pub enum Basic {
    /// `b`: a boolean.
    Bool,
    /// `y`: a byte.
    Byte,
    /// `n`: a signed 16-bit integer.
    Int16,
    /// `q`: an unsigned 16-bit integer.
    Uint16,
    /// `i`: a signed 32-bit integer.
    Int32,
    /// `u`: an unsigned 32-bit integer.
    Uint32,
    /// `x`: a signed 64-bit integer.
    Int64,
    /// `t`: an unsigned 64-bit integer.
    Uint64,
    /// `h`: a signed 32-bit integer that is the index of a file descriptor of the same D-Bus
    /// message.
    Handle,
    /// `d`: an IEEE 754 floating-point number of 64 bits.
    Double,
    /// `s`: a string, of UTF-8 without a zero byte.
    Str,
    /// `o`: a D-Bus object path.
    ObjectPath,
    /// `g`: a D-Bus signature.
    Signature,
}

impl Basic {
    ghost use Rattle.gv_value.specs.Signs.{basic_letter};

    /// Returns the character of the type in type strings, as ASCII.
    pub fn letter(self) -> u8
        ensures { result ≡ basic_letter self }
    {
        match self {
            Basic::Bool => b'b',
            Basic::Byte => b'y',
            Basic::Int16 => b'n',
            Basic::Uint16 => b'q',
            Basic::Int32 => b'i',
            Basic::Uint32 => b'u',
            Basic::Int64 => b'x',
            Basic::Uint64 => b't',
            Basic::Handle => b'h',
            Basic::Double => b'd',
            Basic::Str => b's',
            Basic::ObjectPath => b'o',
            Basic::Signature => b'g',
        }
    }
}
