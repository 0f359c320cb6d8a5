//! The values of GVariant.
use crate::types::GvType;
use fp_base::{Blob, Text};

/// A value of a GVariant type. `fits` checks whether it is of a type.
#[derive(Drop)]
pub enum GvValue {
    /// `b`: a boolean.
    Bool(bool),
    /// `y`: a byte.
    Byte(u8),
    /// `n`: a signed 16-bit integer.
    Int16(i16),
    /// `q`: an unsigned 16-bit integer.
    Uint16(u16),
    /// `i`: a signed 32-bit integer.
    Int32(i32),
    /// `u`: an unsigned 32-bit integer.
    Uint32(u32),
    /// `x`: a signed 64-bit integer.
    Int64(i64),
    /// `t`: an unsigned 64-bit integer.
    Uint64(u64),
    /// `h`: the index of a file descriptor of the same D-Bus message.
    Handle(i32),
    /// `d`: the eight bytes of an IEEE 754 floating-point number, in the order in which they are
    /// serialised.
    Double([u8; 8]),
    /// `s`: a string.
    Str(Text),
    /// `o`: a D-Bus object path.
    ObjectPath(Text),
    /// `g`: a D-Bus signature.
    Signature(Text),
    /// `v`: a variant, with the type of its value.
    Variant(Box<GvType>, Box<GvValue>),
    /// An array, with its elements.
    Array(Vec<GvValue>),
    /// A maybe, with its value if it has one.
    Maybe(Option<Box<GvValue>>),
    /// A tuple, with its members.
    Tuple(Vec<GvValue>),
    /// A dictionary entry, with its key and its value.
    Entry(Box<GvValue>, Box<GvValue>),
    /// An array of bytes, in one byte of memory each. It is the same value as an `Array` of
    /// `Byte`s.
    Bytes(Blob),
}
