//! The reasons why a call was refused.
ghost use Rattle.std.specs.Prelude.{◌≡◌, IfOk};

use std::alloc::AllocError;
use std::io::ErrorKind;
use std::{fmt, io};

/// The errno `ENOENT` of Linux: nothing is at the path.
pub const NO_ENTRY: i32 = 2;

/// The errno `EMFILE` of Linux: the process has too many open files.
const TOO_MANY_OPEN: i32 = 24;

/// The reason why a call was refused: an error of the system, or a condition of the call that
/// doesn't hold.
#[derive(Clone, Copy, Debug)]
pub enum Cause {
    /// An error of the system, by its `errno`.
    Number(i32),
    /// An error of the system without an `errno`.
    Kind(ErrorKind),
    /// Memory ran out.
    NoMemory,
    /// Permission bits above 0o7777, or with the sticky bit.
    BadBits,
    /// Bytes to append to a file that was not created since the last sync.
    NotNew,
    /// A name that can't be an element of a host's path.
    BadName,
    /// A remote's URL that isn't `file://` followed by an absolute path.
    BadUrl,
    /// The root as the directory to remove.
    IsRoot,
    /// Something that is neither a regular file, a directory nor a symlink.
    IsOther,
    /// A symlink where a directory is expected.
    IsSymlink,
    /// Something other than a regular file.
    NoFile,
    /// Something other than a regular file at the path of the lock file.
    NoLock,
    /// A directory where a file or a symlink is expected.
    NoLeaf,
    /// Two paths that are names of the same file.
    OneFile,
    /// A directory at the target path of a move.
    InTheWay,
    /// A change on a host that is open only for reading.
    OnlyLooks,
    /// An earlier sync that failed, or a change that could not be noted: data may be lost.
    MayBeLost,
    /// A directory that no file marks as an installation of fpk's, with something in it that fpk
    /// would remove.
    NotOurs,
}

impl Cause {
    /// Converts an error of the system.
    pub fn of(error: &io::Error) -> Self {
        if error.kind() == ErrorKind::OutOfMemory {
            return Cause::NoMemory;
        }
        match error.raw_os_error() {
            Some(number) => Cause::Number(number),
            None => Cause::Kind(error.kind()),
        }
    }

    fn kind(self) -> ErrorKind {
        match self {
            Cause::Number(number) => io::Error::from_raw_os_error(number).kind(),
            Cause::Kind(kind) => kind,
            Cause::NoMemory => ErrorKind::OutOfMemory,
            _ => ErrorKind::Other,
        }
    }

    /// Returns whether it is an error of this kind.
    pub fn is(self, kind: ErrorKind) -> bool {
        self.kind() == kind
    }

    /// Returns whether it is the error for an absent path: the name is missing, or something above
    /// it is no directory.
    pub fn is_absence(self) -> bool {
        matches!(self.kind(), ErrorKind::NotFound | ErrorKind::NotADirectory)
    }

    /// Returns whether it is `EMFILE`: the process has too many open files.
    pub fn is_too_many_open(self) -> bool {
        matches!(self, Cause::Number(TOO_MANY_OPEN))
    }

    /// Returns whether it is `EINVAL` or `EROFS`, with which fsync(2) fails if the file system
    /// doesn't support a sync of the file or directory.
    pub fn is_no_sync(self) -> bool {
        matches!(
            self.kind(),
            ErrorKind::InvalidInput | ErrorKind::ReadOnlyFilesystem
        )
    }

    /// Returns the message for a cause that has no error of the system.
    fn words(self) -> &'static str {
        match self {
            Cause::Number(_) | Cause::Kind(_) => "",
            Cause::NoMemory => "out of memory",
            Cause::BadBits => "these are no permission bits",
            Cause::NotNew => "it was not created since the last sync",
            Cause::BadName => "a name in it can stand in no path",
            Cause::BadUrl => "a url is file:// and an absolute path",
            Cause::IsRoot => "it is the root",
            Cause::IsOther => "it is no file, folder or symlink",
            Cause::IsSymlink => "a symlink is in the place of a folder",
            Cause::NoFile => "it is no regular file",
            Cause::NoLock => "its .lock is no regular file",
            Cause::NoLeaf => "it is neither a regular file nor a symlink",
            Cause::OneFile => "both names are of one file",
            Cause::InTheWay => "what stands there is no file or symlink",
            Cause::OnlyLooks => "it was opened only to be looked at",
            Cause::MayBeLost => "an earlier change or sync failed and may be lost",
            Cause::NotOurs => "nothing shows that its folder is an installation of fpk's",
        }
    }
}

impl From<AllocError> for Cause {
    fn from(_: AllocError) -> Cause {
        Cause::NoMemory
    }
}

impl fmt::Display for Cause {
    fn fmt<W: fmt::Write>(&self, f: &mut fmt::Formatter<W>) -> fmt::Result {
        match *self {
            Cause::Number(number) => io::Error::from_raw_os_error(number).fmt(f),
            Cause::Kind(kind) => kind.fmt(f),
            rule => f.write_str(rule.words()),
        }
    }
}

/// Converts the error of a result to a `Cause`.
pub fn known<T>(done: io::Result<T>) -> Result<T, Cause>
    ensures { IfOk result (λ t. done ≡ Ok t) }
{
    match done {
        Ok(answer) => Ok(answer),
        Err(e) => Err(Cause::of(&e)),
    }
}
