//! The limits of bus names.

/// The maximum length of a name on a bus in bytes (D-Bus specification, "Valid Names").
pub const MOST_BUS_NAME_BYTES: usize = 255;
