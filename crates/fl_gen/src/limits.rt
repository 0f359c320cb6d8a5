//! The amounts that the generator makes.

/// The number of runtimes.
pub(crate) const RUNTIMES: usize = 4;

/// The number of files that a runtime has besides `metadata`.
pub(crate) const LIBRARIES: usize = 32;

/// The number of files that belong to one application, besides `metadata`.
pub(crate) const OWN_FILES: usize = 64;

/// The number of files that each application has and that are the same in all.
pub(crate) const SHARED_FILES: usize = 16;

/// The number of files, the first ones of a series, that differ between the versions.
pub(crate) const CHANGED_FILES: usize = 8;

/// The number of bytes of each file but `metadata`.
pub(crate) const FILE_BYTES: usize = 4_096;

/// The end of the range of the bytes in a generated file: each is below it.
pub(crate) const BYTE_END: usize = 251;
