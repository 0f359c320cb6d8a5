//! The permission bits of new directories.

/// The permission bits of a directory that fpk makes.
pub const FOLDER_BITS: u32 = 0o755;
