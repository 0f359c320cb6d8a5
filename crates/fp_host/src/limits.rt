//! The limits of a host, and the size of the pieces that are read.

/// The maximum length of a path's element, in bytes (Linux's `NAME_MAX`).
pub const MOST_ELEMENT_BYTES: usize = 255;

/// The maximum length of a symlink's text, in bytes (Linux's `PATH_MAX` without the terminating
/// zero byte).
pub const MOST_LINK_BYTES: usize = 4095;

/// All permission bits of a file: setuid, setgid, sticky, and the nine of owner, group and others.
pub const PERMISSION_BITS: u32 = 0o7777;

/// The maximum number of bytes that are read or copied at once.
pub const PIECE_BYTES: usize = 64 * 1024;
