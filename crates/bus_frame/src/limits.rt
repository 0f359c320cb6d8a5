//! The limits of a message.

/// The greatest length in bytes of an array's elements and of a message's header fields: 64 MiB
/// (D-Bus specification, "Marshaling" and "Message Format").
pub const MOST_ARRAY_BYTES: u32 = 64 * 1024 * 1024;

/// The greatest length in bytes of a message: 16 MiB. This limit is fpk's own and bounds a filter's
/// memory; the D-Bus specification allows 128 MiB.
pub const MOST_MESSAGE_BYTES: u64 = 16 * 1024 * 1024;

/// The greatest length in bytes of the name of an interface, an error, a member or a connection.
pub const MOST_NAME_BYTES: usize = 255;

/// The greatest length in bytes of a signature.
pub const MOST_SIGNATURE_BYTES: usize = 255;

/// The greatest depth of nested containers of any kind in a value.
pub const MOST_CONTAINERS: u8 = 64;

/// The greatest depth of nested arrays in a type or a value.
pub const MOST_ARRAYS: u8 = 32;

/// The greatest depth of nested structs in a type or a value.
pub const MOST_STRUCTS: u8 = 32;

/// The greatest serial, which fpk's replies to refused calls have.
pub const GREATEST_SERIAL: u32 = u32::MAX;
