//! The status of a path in the file system.
ghost use Rattle.std.specs.Prelude.{◌≤◌, IfOk};
ghost use Rattle.fp_host.specs.Reads.{HasBits};

use crate::cause::{Cause, known};
use fp_host::{PERMISSION_BITS, Stat};
use std::fs;
use std::fs::Metadata;
use std::io::ErrorKind;
use std::os::unix::fs::MetadataExt;
use std::rt::Files;

/// The type of what is at a path.
#[derive(Clone, Copy, PartialEq, Eq)]
pub enum Kind {
    /// Nothing: the name is missing, or something above it is no directory.
    Absent,
    /// A directory.
    Dir,
    /// A regular file.
    File,
    /// A symlink.
    Link,
    /// A socket, a pipe or a device.
    Other,
}

/// The status of a path. If nothing is there, all its numbers are 0.
#[derive(Clone, Copy)]
pub struct Found {
    /// The type of what is there.
    pub kind: Kind,
    mode: u32,
    /// The length in bytes.
    pub size: u64,
    // The numbers of the inode and of its device.
    id: u64,
    device: u64,
}

impl Found {
    fn of(found: &Metadata) -> Self {
        Found {
            kind: kind_of(found),
            mode: found.mode(),
            size: found.len(),
            id: found.ino(),
            device: found.dev(),
        }
    }

    fn nothing() -> Self {
        Found {
            kind: Kind::Absent,
            mode: 0,
            size: 0,
            id: 0,
            device: 0,
        }
    }

    /// Returns whether it is a regular file or a symlink.
    pub fn is_leaf(&self) -> bool {
        matches!(self.kind, Kind::File | Kind::Link)
    }

    /// Returns whether both are the same inode of the same device.
    pub fn is_one_with(&self, other: &Found) -> bool {
        self.id == other.id && self.device == other.device
    }

    /// Returns the permission bits, at most 0o7777, without the file type.
    pub fn permission_bits(&self) -> u32
        ensures { result ≤ PERMISSION_BITS }
    {
        self.mode & PERMISSION_BITS
    }

    /// Converts it to a host's `Stat`, whose id is the inode number. Errs with `IsOther` for a
    /// socket, pipe or device.
    pub fn stat(&self) -> Result<Stat, Cause>
        ensures { IfOk result HasBits }
    {
        match self.kind {
            Kind::Absent => Ok(Stat::Absent),
            Kind::Dir => Ok(Stat::Dir),
            Kind::Link => Ok(Stat::Link),
            Kind::File => Ok(Stat::File {
                id: self.id,
                mode: self.permission_bits(),
                size: self.size,
            }),
            Kind::Other => Err(Cause::IsOther),
        }
    }
}

fn kind_of(found: &Metadata) -> Kind {
    if found.is_dir() {
        Kind::Dir
    } else if found.is_file() {
        Kind::File
    } else if found.is_symlink() {
        Kind::Link
    } else {
        Kind::Other
    }
}

/// Returns the status of the path, without following a symlink. An absent path is no error.
pub fn look<R: Files>(rt: &R, at: &str) -> Result<Found, Cause> {
    match known(fs::symlink_metadata(rt, at)) {
        Ok(found) => Ok(Found::of(&found)),
        Err(e) if e.is_absence() => Ok(Found::nothing()),
        Err(e) => Err(e),
    }
}

/// Returns the type of what is at the path, without following a symlink.
pub fn kind_at<R: Files>(rt: &R, at: &str) -> Result<Kind, Cause> {
    match look(rt, at) {
        Ok(found) => Ok(found.kind),
        Err(e) => Err(e),
    }
}

/// Returns whether a directory is at the path, following symlinks. Errs with `NotADirectory` if
/// something else is there.
pub fn has_folder<R: Files>(rt: &R, at: &str) -> Result<bool, Cause> {
    match known(fs::metadata(rt, at)) {
        Ok(found) => must_be_dir(&found),
        Err(e) if e.is(ErrorKind::NotFound) => Ok(false),
        Err(e) => Err(e),
    }
}

fn must_be_dir(found: &Metadata) -> Result<bool, Cause> {
    if found.is_dir() {
        Ok(true)
    } else {
        Err(Cause::Kind(ErrorKind::NotADirectory))
    }
}
