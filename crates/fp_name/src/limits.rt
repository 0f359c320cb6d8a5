//! The maximum lengths of names and URLs, and the length of a digest's text.

/// The maximum length of an ID, an architecture, a branch and a file name, in bytes.
pub const MOST_NAME_BYTES: usize = 255;

/// The maximum length of a remote's name, in bytes.
pub const MOST_REMOTE_NAME_BYTES: usize = 64;

/// The maximum length of a remote's URL, in bytes.
pub const MOST_URL_BYTES: usize = 1024;

/// The number of hexadecimal digits in a digest's text.
pub const DIGEST_DIGITS: usize = 64;
