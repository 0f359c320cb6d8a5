//! The limits of an installation, and the mode of its files.

/// The permission bits of the small files that are created.
pub const FILE_MODE: u32 = 0o644;

/// The maximum number of elements of a path in an installation.
pub const MOST_ELEMENTS: usize = 128;

/// The maximum number of deployed refs.
pub const MOST_REFS: u64 = 4096;

/// The maximum number of remotes.
pub const MOST_REMOTES: usize = 256;

/// The maximum number of pins.
pub const MOST_PINS: usize = 1024;

/// The maximum length of the file `config`: 2 MiB.
pub const MOST_CONFIG_BYTES: u64 = 2 * 1024 * 1024;

/// The maximum length of each other small file, such as an override or the record of a deployment:
/// 1 MiB.
pub const MOST_TEXT_BYTES: u64 = 1024 * 1024;
