//! Failed system calls and their number.
ghost use Rattle.std.specs.Prelude.{◌≡◌, ◌↔◌, ◌≤◌, None};
ghost use Rattle.fp_system.specs.Counts.{one_more};

use crate::cause::Cause;
use fp_base::Text;
use std::alloc::Global;
use std::error::Error;
use std::fmt;
use std::io::ErrorKind;
use std::marker::Model;

/// The operation that an adapter asked of the system.
#[derive(Clone, Copy, Debug, PartialEq, Eq)]
pub enum Call {
    /// Looking up a path.
    Stat,
    /// Listing a directory.
    List,
    /// Reading a file.
    Read,
    /// Reading the text of a symlink.
    ReadLink,
    /// Making a directory.
    MakeDir,
    /// Creating a file.
    Create,
    /// Appending bytes to a file.
    Append,
    /// Setting a file's modification time.
    Date,
    /// Making a hard link.
    Link,
    /// Making a symlink.
    Symlink,
    /// Moving a file or a symlink.
    Rename,
    /// Removing a file or a symlink.
    Unlink,
    /// Removing an empty directory.
    RemoveDir,
    /// Finding or making the root directory.
    Enter,
    /// Using an existing directory, which contains files that aren't fpk's, as an installation.
    TakeOver,
    /// Opening a file or directory to sync it.
    Open,
    /// Syncing a file or directory.
    Sync,
    /// Printing.
    Say,
    /// Finding the directory that the URL of a remote names.
    Locate,
    /// Reading standard input.
    Take,
}

impl Call {
    fn words(self) -> &'static str {
        match self {
            Call::Stat => "look at",
            Call::List => "list",
            Call::Read => "read",
            Call::ReadLink => "read the link",
            Call::MakeDir => "make the folder",
            Call::Create => "create",
            Call::Append => "write to",
            Call::Date => "date",
            Call::Link | Call::Symlink => "make the link",
            Call::Rename => "rename to",
            Call::Unlink => "remove",
            Call::RemoveDir => "remove the folder",
            Call::Enter => "use the folder",
            Call::TakeOver => "take over",
            Call::Open => "open",
            Call::Sync => "sync",
            Call::Say => "print",
            Call::Locate => "find the remote",
            Call::Take => "read the standard input",
        }
    }
}

impl fmt::Display for Call {
    fn fmt<W: fmt::Write>(&self, f: &mut fmt::Formatter<W>) -> fmt::Result {
        f.write_str(self.words())
    }
}

/// A system call that failed. It is printed as in `cannot sync installation/config: No space left
/// on device (os error 28)`.
#[derive(Debug, Drop)]
pub struct SystemError {
    /// The operation.
    pub call: Call,
    /// The path, if the operation has one and there was memory to keep it.
    pub path: Option<Text>,
    /// The reason.
    pub cause: Cause,
}

impl SystemError {
    /// Creates an error with a copy of the path. If memory runs out, the path is left out.
    pub fn on(alloc: Global, call: Call, at: &str, cause: Cause) -> Self {
        SystemError {
            call,
            path: at.to_string(alloc).ok().map(Text::from_string),
            cause,
        }
    }

    /// Creates an error with this path.
    pub fn with_path(call: Call, at: String, cause: Cause) -> Self {
        SystemError {
            call,
            path: Some(Text::from_string(at)),
            cause,
        }
    }

    /// Creates an error without a path.
    pub fn without_path(call: Call, cause: Cause) -> Self {
        SystemError {
            call,
            path: None,
            cause,
        }
    }

    /// Returns whether printing failed with `EPIPE`: the reader of a pipe is gone.
    pub fn is_closed_pipe(&self) -> bool {
        self.call == Call::Say && self.cause.is(ErrorKind::BrokenPipe)
    }
}

impl fmt::Display for SystemError {
    fn fmt<W: fmt::Write>(&self, f: &mut fmt::Formatter<W>) -> fmt::Result {
        let call = self.call;
        let cause = self.cause;
        match &self.path {
            Some(path) => {
                let path = path.as_str().escape_debug();
                write!(f, "cannot {call} {path}: {cause}")
            }
            None => write!(f, "cannot {call}: {cause}"),
        }
    }
}

impl Error for SystemError {}

/// The number of failed calls, and the last failure. Contracts see the number.
#[derive(Drop)]
pub struct Faults {
    count: u64,
    last: Option<SystemError>,
    ghost kept: { (last ≡ None) ↔ (count ≡ 0) },
}

impl Model for Faults {
    ghost use Rattle.std.specs.Prelude.{ℕ};

    ghost Value = { ℕ };

    ghost view = { λ f. f.count };
}

impl Faults {
    /// Creates a count of 0.
    pub fn none() -> Self
        ensures { result ≡ 0 }
    {
        Faults {
            count: 0,
            last: None,
        }
    }

    /// Returns the number of failures; it stays at 2^64 - 1 once it gets there.
    pub fn count(&self) -> u64
        ensures { result ≡ self.now }
    {
        self.count
    }

    /// Returns the last failure, or `None` if the count is 0.
    pub fn last(&self) -> Option<&SystemError>
        ensures { (result ≡ None) ↔ (self.now ≡ 0) }
    {
        self.last.as_ref()
    }

    /// Counts a failure and keeps it as the last one.
    pub fn note(&mut self, error: SystemError)
        ensures more { self.new ≡ one_more self.old }
        ensures later { self.old ≤ self.new }
    {
        self.count = self.count.saturating_add(1);
        self.last = Some(error);
    }
}
