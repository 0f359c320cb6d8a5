//! The limits of objects and commits, and the constants of OSTree's formats.

/// The maximum number of a commit's objects; an object that occurs several times counts each time.
pub const MOST_OBJECTS: usize = 200_000;

/// The maximum number of levels that a commit's directory may be below the root directory.
pub const MOST_LEVELS: u32 = 64;

/// The maximum size of a metadata object (a commit, dirtree or dirmeta), in bytes: 16 MiB.
pub const MOST_METADATA_OBJECT_BYTES: u64 = 16 * 1024 * 1024;

/// The maximum size of a file, in bytes: 1 GiB.
pub const MOST_FILE_BYTES: u64 = 1024 * 1024 * 1024;

/// The maximum size of a commit's file `metadata`, in bytes: 1 MiB.
pub const MOST_METADATA_FILE_BYTES: u64 = 1024 * 1024;

/// The permission bits that a file or a directory of a commit may have.
pub const STORED_BITS: u32 = 0o775;

/// The lowest bit of a mode that is part of the file type. The bits below it are permission bits.
pub const LOWEST_TYPE_BIT: u32 = 0o10000;

/// The file type of a directory: its mode divided by `LOWEST_TYPE_BIT`.
pub const DIRECTORY_TYPE: u32 = 0o4;

/// The mode of a regular file without its permission bits, which are added to it.
pub const REGULAR_MODE: u32 = 0o100000;

/// The mode of a symlink.
pub const LINK_MODE: u32 = 0o120777;

/// The content of the file `config` of a repository in the mode bare-user-only.
pub const STORE_CONFIG: &str = "[core]\nrepo_version=1\nmode=bare-user-only\n";

/// The key in a commit's metadata whose value is the refs that the commit is bound to.
pub const REF_BINDING: &str = "ostree.ref-binding";
