//! The types of GVariant.
ghost use Rattle.std.specs.Prelude.{◌≡◌};
ghost use Rattle.gv_value.specs.Shape.{basic};
ghost use Rattle.gv_value.specs.Views.{shape_of};

use crate::basic::Basic;

/// A type of the GVariant specification. Not every `GvType` is valid: `is_type` checks the depth,
/// and that the keys of dictionary entries are basic.
#[derive(Debug, Drop)]
pub enum GvType {
    /// `b`: a boolean.
    Bool,
    /// `y`: a byte.
    Byte,
    /// `n`: a signed 16-bit integer.
    Int16,
    /// `q`: an unsigned 16-bit integer.
    Uint16,
    /// `i`: a signed 32-bit integer.
    Int32,
    /// `u`: an unsigned 32-bit integer.
    Uint32,
    /// `x`: a signed 64-bit integer.
    Int64,
    /// `t`: an unsigned 64-bit integer.
    Uint64,
    /// `h`: a signed 32-bit integer that is the index of a file descriptor of the same D-Bus
    /// message.
    Handle,
    /// `d`: an IEEE 754 floating-point number of 64 bits.
    Double,
    /// `s`: a string, of UTF-8 without a zero byte.
    Str,
    /// `o`: a D-Bus object path.
    ObjectPath,
    /// `g`: a D-Bus signature.
    Signature,
    /// `v`: a variant, which is a value with its type.
    Variant,
    /// `a` and a type: an array, with the type of its elements.
    Array(Box<GvType>),
    /// `m` and a type: a maybe, which is empty or has a value of that type.
    Maybe(Box<GvType>),
    /// `(`, types and `)`: a tuple, with the types of its members.
    Tuple(Vec<GvType>),
    /// `{`, a basic type, a type and `}`: a dictionary entry, with the types of its key and its
    /// value.
    Entry(Box<GvType>, Box<GvType>),
}

impl GvType {
    /// Returns the `GvType` of a basic type.
    pub fn from_basic(of: Basic) -> GvType
        ensures { shape_of result ≡ basic of }
    {
        match of {
            Basic::Bool => GvType::Bool,
            Basic::Byte => GvType::Byte,
            Basic::Int16 => GvType::Int16,
            Basic::Uint16 => GvType::Uint16,
            Basic::Int32 => GvType::Int32,
            Basic::Uint32 => GvType::Uint32,
            Basic::Int64 => GvType::Int64,
            Basic::Uint64 => GvType::Uint64,
            Basic::Handle => GvType::Handle,
            Basic::Double => GvType::Double,
            Basic::Str => GvType::Str,
            Basic::ObjectPath => GvType::ObjectPath,
            Basic::Signature => GvType::Signature,
        }
    }
}
