//! The limit of a description.

/// The maximum number of bytes of a subject.
pub const MOST_SUBJECT_BYTES: usize = 1024;
