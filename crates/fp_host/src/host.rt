//! The host: a tree of names over files, its syncs, and what is printed.
ghost use Rattle.std.specs.Prelude.{◌≡◌, ◌⊎◌, ◌≤◌, ℕ, List, [], ◌∷◌, Option, Some, length, IfOk, OnOk, OnErr, MatchResult};
ghost use Rattle.fp_host.specs.View.{View, IsTree};
ghost use Rattle.fp_host.specs.Calls.{Change, Step, Creates, makes_dir, appends, links, makes_link, renames, unlinks, removes_dir, syncs, says};
ghost use Rattle.fp_host.specs.Moments.{Moments, Makes, HasCause, NeedsNoMemory};
ghost use Rattle.fp_host.specs.Reads.{StatOf, ListOf, ReadOf, LinkOf, AreNames, HasBits};

use crate::{Path, PathError};
use fp_base::{Items, Text};
use std::alloc::{AllocError, Global};
use std::error::Error;
use std::fmt;

/// The error of a host's call.
#[derive(Clone, Copy, Debug, PartialEq, Eq)]
pub enum HostError {
    /// The host failed. The call may have been done nevertheless, or a crash may leave it done. A
    /// failed `sync` changed nothing.
    Failed,
    /// The call's condition doesn't hold, and nothing changed.
    Clash,
    /// Memory ran out for the result of `list` or `read_link`, and nothing changed.
    NoMemory,
}

impl fmt::Display for HostError {
    fn fmt<W: fmt::Write>(&self, f: &mut fmt::Formatter<W>) -> fmt::Result {
        match self {
            HostError::Failed => write!(f, "the host failed"),
            HostError::Clash => write!(f, "the condition of the call doesn't hold"),
            HostError::NoMemory => write!(f, "out of memory"),
        }
    }
}

impl Error for HostError {}

/// The directory entry of a name that exists.
#[derive(Debug, Drop)]
pub enum Entry {
    /// A directory.
    Dir,
    /// A file, by its id. Names with the same id are hard links of one file.
    File(u64),
    /// A symlink, by its text.
    Link(Text),
}

/// The status of a path.
#[derive(Clone, Copy, Debug, PartialEq, Eq)]
pub enum Stat {
    /// Nothing.
    Absent,
    /// A directory.
    Dir,
    /// A file: its id, its permission bits (at most 0o7777), and its length in bytes. Names with
    /// the same id are hard links of one file.
    File { id: u64, mode: u32, size: u64 },
    /// A symlink.
    Link,
}

/// A file system with one tree of names, and an output that is printed to.
///
/// A *crash* includes a loss of power. After it, each name has, independently of the others, its
/// present directory entry, or one that it had at some moment since the last `sync`, or one that a
/// failed call since then would have given it. Names below anything but a directory are then
/// absent. A file created since that `sync` may have any bytes; every other file has its own. What
/// was printed stays printed. A crash within a call is one before the call or one after it.
///
/// Each call is one atomic step. If it returns `Failed`, the count of faults rose. On a host that
/// reports its content, a call whose condition doesn't hold returns `Clash`, or `Failed` with the
/// count raised, and changes nothing. On another host, `Clash` is returned only if the count rose.
pub trait Host {
    /// The present view and the earlier ones, if the host reports its content; else none.
    ghost moments: { Self → Option Moments };

    /// The number of failures so far; it stays at 2^64 - 1 once it gets there.
    ghost faults: { Self → ℕ };

    /// Returns what is at the path, without a condition. No call follows symlinks: below a file, a
    /// symlink or a missing directory everything is `Absent`.
    fn stat(&mut self, path: &Path) -> Result<Stat, HostError>
        ensures step { Makes (StatOf path.now result) (moments self.old) (moments self.new) }
        ensures bits { IfOk result HasBits }
        ensures fault_has_cause { HasCause (moments self.old) (faults self.old) (faults self.new)
            result }
        ensures needs_no_memory { NeedsNoMemory result };

    /// Lists the names directly in the directory, ascending by their bytes. On every host, each of
    /// them may be an element of a path. Condition: the path is a directory.
    fn list(&mut self, alloc: Global, path: &Path) -> Result<Items<Text>, HostError>
        ensures step { Makes (ListOf path.now result) (moments self.old) (moments self.new) }
        ensures names { IfOk result AreNames }
        ensures fault_has_cause { HasCause (moments self.old) (faults self.old) (faults self.new)
            result };

    /// Reads bytes of the file from the byte offset `at` on, as many as fit into the buffer or are
    /// left. Returns their number. Condition: the path is a file.
    fn read_at(&mut self, path: &Path, at: u64, into: &mut [u8]) -> Result<usize, HostError>
        ensures bound { IfOk result (λ n. n ≤ length into.old) }
        ensures step { Makes (ReadOf path.now at into.new result) (moments self.old)
            (moments self.new) }
        ensures fault_has_cause { HasCause (moments self.old) (faults self.old) (faults self.new)
            result }
        ensures needs_no_memory { NeedsNoMemory result };

    /// Returns the text of the symlink. Condition: the path is a symlink.
    fn read_link(&mut self, alloc: Global, path: &Path) -> Result<Text, HostError>
        ensures step { Makes (LinkOf path.now result) (moments self.old) (moments self.new) }
        ensures fault_has_cause { HasCause (moments self.old) (faults self.old) (faults self.new)
            result };

    /// Makes the directory. Condition: its parent is a directory, and the path is absent.
    fn make_dir(&mut self, path: &Path) -> Result<(), HostError>
        ensures step { Makes (Step (makes_dir path.now) result) (moments self.old)
            (moments self.new) }
        ensures fault_has_cause { HasCause (moments self.old) (faults self.old) (faults self.new)
            result }
        ensures needs_no_memory { NeedsNoMemory result };

    /// Creates an empty file with exactly these permission bits, whatever the umask. Condition: its
    /// parent is a directory, the path is absent, and the bits are at most 0o7777.
    fn create(&mut self, path: &Path, mode: u32) -> Result<(), HostError>
        ensures step { Makes (Creates path.now mode result) (moments self.old) (moments self.new) }
        ensures fault_has_cause { HasCause (moments self.old) (faults self.old) (faults self.new)
            result }
        ensures needs_no_memory { NeedsNoMemory result };

    /// Appends bytes to the file. Condition: the path is a file created since the last sync.
    fn append(&mut self, path: &Path, bytes: &[u8]) -> Result<(), HostError>
        ensures step { Makes (Step (appends path.now bytes.now) result) (moments self.old)
            (moments self.new) }
        ensures fault_has_cause { HasCause (moments self.old) (faults self.old) (faults self.new)
            result }
        ensures needs_no_memory { NeedsNoMemory result };

    /// Makes the second path a hard link of the file at the first. Condition: the first path is a
    /// file, the second is absent, and the second's parent is a directory.
    fn link(&mut self, from: &Path, to: &Path) -> Result<(), HostError>
        ensures step { Makes (Step (links from.now to.now) result) (moments self.old)
            (moments self.new) }
        ensures fault_has_cause { HasCause (moments self.old) (faults self.old) (faults self.new)
            result }
        ensures needs_no_memory { NeedsNoMemory result };

    /// Makes a symlink with this text. Condition: the text has 1 to 4,095 bytes, none of them zero,
    /// the path's parent is a directory, and the path is absent.
    fn symlink(&mut self, text: &str, path: &Path) -> Result<(), HostError>
        ensures step { Makes (Step (makes_link text.now path.now) result) (moments self.old)
            (moments self.new) }
        ensures fault_has_cause { HasCause (moments self.old) (faults self.old) (faults self.new)
            result }
        ensures needs_no_memory { NeedsNoMemory result };

    /// Moves the file or symlink to the second path and replaces a file or symlink there.
    /// Condition: the first path is a file or symlink, the second is no directory, the second's
    /// parent is a directory, and the paths differ and aren't hard links of one file.
    fn rename(&mut self, from: &Path, to: &Path) -> Result<(), HostError>
        ensures step { Makes (Step (renames from.now to.now) result) (moments self.old)
            (moments self.new) }
        ensures fault_has_cause { HasCause (moments self.old) (faults self.old) (faults self.new)
            result }
        ensures needs_no_memory { NeedsNoMemory result };

    /// Removes the name of a file or symlink. Condition: the path is a file or symlink.
    fn unlink(&mut self, path: &Path) -> Result<(), HostError>
        ensures step { Makes (Step (unlinks path.now) result) (moments self.old)
            (moments self.new) }
        ensures fault_has_cause { HasCause (moments self.old) (faults self.old) (faults self.new)
            result }
        ensures needs_no_memory { NeedsNoMemory result };

    /// Removes the directory. Condition: the path is a directory, isn't the root, and has nothing
    /// below it.
    fn remove_dir(&mut self, path: &Path) -> Result<(), HostError>
        ensures step { Makes (Step (removes_dir path.now) result) (moments self.old)
            (moments self.new) }
        ensures fault_has_cause { HasCause (moments self.old) (faults self.old) (faults self.new)
            result }
        ensures needs_no_memory { NeedsNoMemory result };

    /// Makes the present content durable: if it succeeds, a crash right after it leaves exactly
    /// that content.
    fn sync(&mut self) -> Result<(), HostError>
        ensures step { Makes (Step syncs result) (moments self.old) (moments self.new) }
        ensures fault_has_cause { HasCause (moments self.old) (faults self.old) (faults self.new)
            result }
        ensures needs_no_memory { NeedsNoMemory result };

    /// Prints bytes.
    fn say(&mut self, piece: &[u8]) -> Result<(), HostError>
        ensures step { Makes (Step (says piece.now) result) (moments self.old) (moments self.new) }
        ensures fault_has_cause { HasCause (moments self.old) (faults self.old) (faults self.new)
            result }
        ensures needs_no_memory { NeedsNoMemory result };

    /// The present view of a host that reports its content is a well-formed tree.
    ghost is_tree: { (host : Self) (m : Moments) → moments host ≡ Some m → IsTree m.now };
}

/// The error of a function that calls a host.
#[derive(Clone, Copy, Debug, PartialEq, Eq)]
pub enum HostEnd {
    /// A call of the host failed, or the host's content didn't meet the function's condition.
    Fault,
    /// Memory ran out.
    NoMemory,
}

impl From<HostError> for HostEnd {
    ghost use Rattle.std.specs.Prelude.{◌≡◌};
    ghost use Rattle.fp_host.specs.Causes.{end_of};

    ghost from_gives = { λ error end. end ≡ end_of error };

    fn from(error: HostError) -> HostEnd {
        match error {
            HostError::NoMemory => HostEnd::NoMemory,
            HostError::Failed | HostError::Clash => HostEnd::Fault,
        }
    }
}

impl From<AllocError> for HostEnd {
    ghost use Rattle.std.specs.Prelude.{◌≡◌};
    ghost use Rattle.fp_host.specs.declared.host.HostEnd.TheVariants.{NoMemory};

    ghost from_gives = { λ _ end. end ≡ NoMemory };

    fn from(_: AllocError) -> HostEnd {
        HostEnd::NoMemory
    }
}

impl From<PathError> for HostEnd {
    ghost use Rattle.std.specs.Prelude.{◌≡◌};
    ghost use Rattle.fp_host.specs.Causes.{end_of_path};

    ghost from_gives = { λ fault end. end ≡ end_of_path fault };

    fn from(fault: PathError) -> HostEnd {
        match fault {
            PathError::Bad => HostEnd::Fault,
            PathError::NoMemory => HostEnd::NoMemory,
        }
    }
}
