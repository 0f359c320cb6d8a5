//! The limits of types, values and signatures.

/// The maximum size of a serialised value, in bytes: 16 MiB.
pub const MOST_BYTES: u64 = 16 * 1024 * 1024;

/// The size in bytes that stands for every size above `MOST_BYTES`.
pub const TOO_LARGE: u64 = MOST_BYTES + 1;

/// The maximum depth to which types nest, and values. A basic type has depth 0, and `v` has depth
/// 1.
pub const MOST_DEPTH: u32 = 64;

/// The maximum length of a D-Bus signature, in bytes.
pub const MOST_SIGNATURE_BYTES: usize = 255;

/// The maximum depth of nested arrays in a D-Bus signature, and of nested structs.
pub const MOST_OPEN: u32 = 32;
