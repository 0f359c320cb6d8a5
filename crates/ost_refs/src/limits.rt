//! The limits of a store's small files.

/// The maximum size of a store's `config` in bytes: 1 MiB.
pub const MOST_STORE_CONFIG_BYTES: u64 = 1024 * 1024;

/// The maximum number of bytes of the mode in a store's `config`.
pub const MOST_MODE_BYTES: usize = 32;
