//! The reason why a line of a case can't be read.
use std::alloc::{AllocError, AllocFailed};
use std::error::Error;
use std::fmt;

/// The reason why a line of a case can't be read.
#[derive(Clone, Copy, Debug)]
pub enum CaseError {
    /// No kind of line begins like this.
    NoKind,
    /// A line comes before the first `case`, or there is no case.
    NoCase,
    /// An indented line has no line above it that it belongs to.
    NoStep,
    /// A line about a command has no command above it.
    NoCommand,
    /// A line `times` or `fill` has no file, directory or link above it.
    NoFixture,
    /// A line `shown` or `next` has no line `stops` above it.
    NoStops,
    /// A word isn't a number, or the number is too large.
    NoNumber,
    /// The text after a path isn't permission bits in octal.
    NoMode,
    /// The text isn't pairs of hexadecimal digits.
    NoHex,
    /// There is one word where two are expected.
    OneWord,
    /// The words name no object.
    NoObject,
    /// The words don't say how to damage an object.
    NoHarm,
    /// The words don't name two objects with `by` between them.
    NoReplacement,
    /// A line about a remote has no line `remote` above it.
    NoRemote,
    /// A hard link or a line `times` is for a remote or a commit.
    NotInstallation,
    /// Memory ran out.
    NoMemory,
}

impl CaseError {
    /// Returns the message, which says what is expected.
    pub fn text(self) -> &'static str {
        match self {
            CaseError::NoKind => "no line begins like this one",
            CaseError::NoCase => "a line `case NAME` comes first",
            CaseError::NoStep => "an indented line belongs to a line above it, which is missing",
            CaseError::NoCommand => "this line belongs to a command, and none is above it",
            CaseError::NoFixture => "this line belongs to what is given, and nothing is above it",
            CaseError::NoStops => "this line belongs to a line `stops`, and none is above it",
            CaseError::NoNumber => "a number is expected",
            CaseError::NoMode => "after the path come permission bits in octal digits, or nothing",
            CaseError::NoHex => "an even number of hexadecimal digits is expected",
            CaseError::OneWord => "two words are expected",
            CaseError::NoObject => {
                "an object is expected: LABEL, and commit, dirtree, dirmeta, or file and its path"
            }
            CaseError::NoHarm => {
                "the last word is absent, folder, cut, longer, turned, or permission bits"
            }
            CaseError::NoReplacement => "two objects are expected, and `by` between them",
            CaseError::NoRemote => "this line belongs to a remote, and none is above it",
            CaseError::NotInstallation => "this is given to the installation alone",
            CaseError::NoMemory => "out of memory",
        }
    }
}

impl fmt::Display for CaseError {
    fn fmt<W: fmt::Write>(&self, f: &mut fmt::Formatter<W>) -> fmt::Result {
        f.write_str(self.text())
    }
}

impl Error for CaseError {}

impl From<AllocError> for CaseError {
    fn from(_: AllocError) -> CaseError {
        CaseError::NoMemory
    }
}

impl<T: Drop> From<AllocFailed<T>> for CaseError {
    fn from(_: AllocFailed<T>) -> CaseError {
        CaseError::NoMemory
    }
}
