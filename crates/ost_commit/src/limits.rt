//! The limit of a tree, and the mode of its directories.

/// The maximum number of names below the root.
pub const MOST_NAMES: usize = 40_000;

/// The mode of every directory.
pub const DIRECTORY_MODE: u32 = 0o040755;
