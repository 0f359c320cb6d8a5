//! The remotes that objects come from.
ghost use Rattle.std.specs.Prelude.{◌≡◌, ◌≤◌, Option, Some, None, ℕ, length, IfOk, IsErrOf};
ghost use Rattle.fp_host.specs.Moments.{Rose};
ghost use Rattle.fp_host.specs.Remote.{Holdings, IsNode, HasNodeBits, bytes_of, CameFrom};

use crate::Path;
use fp_base::Text;
use std::alloc::Global;
use std::error::Error;
use std::fmt;

/// The node at a path of a remote.
#[derive(Debug, Drop)]
pub enum Node {
    /// Nothing.
    Absent,
    /// A directory.
    Dir,
    /// A file: its permission bits (at most 0o7777) and its length in bytes.
    File { mode: u32, size: u64 },
    /// A symlink, by its text, which need not meet a host's limits.
    Link(Text),
}

/// The error of a call to a remote.
#[derive(Clone, Copy, Debug, PartialEq, Eq)]
pub enum RemoteError {
    /// A call failed.
    Failed,
    /// Memory ran out.
    NoMemory,
}

impl fmt::Display for RemoteError {
    fn fmt<W: fmt::Write>(&self, f: &mut fmt::Formatter<W>) -> fmt::Result {
        match self {
            RemoteError::Failed => write!(f, "the remote failed"),
            RemoteError::NoMemory => write!(f, "out of memory"),
        }
    }
}

impl Error for RemoteError {}

/// The remotes: for each URL a tree of files. No call changes them.
pub trait Remotes {
    /// The trees of all URLs, if the remotes report them; else none.
    ghost holds: { Self → Option Holdings };

    /// The number of failed calls; it stays at 2^64 - 1 once it gets there.
    ghost faults: { Self → ℕ };

    /// Returns what is at the path of the remote; `Absent` if nothing is there.
    fn node(&mut self, alloc: Global, url: &str, path: &Path) -> Result<Node, RemoteError>
        ensures same { holds self.new ≡ holds self.old }
        ensures tells { (held : Holdings) → holds self.old ≡ Some held → IfOk result
            (IsNode (held url.now path.now)) }
        ensures bits { IfOk result HasNodeBits }
        ensures later { faults self.old ≤ faults self.new }
        ensures failed { IsErrOf result RemoteError.Failed → Rose (faults self.old)
            (faults self.new) };

    /// Reads bytes of the file at the path from the byte offset `at` on, as many as fit into the
    /// buffer or are left. Returns their number, which is 0 if the path is no file.
    fn read_at(
        &mut self,
        url: &str,
        path: &Path,
        at: u64,
        into: &mut [u8],
    ) -> Result<usize, RemoteError>
        ensures same { holds self.new ≡ holds self.old }
        ensures tells { (held : Holdings) → holds self.old ≡ Some held → IfOk result
            (CameFrom (bytes_of (held url.now path.now)) at into.new) }
        ensures bound { IfOk result (λ n. n ≤ length into.old) }
        ensures later { faults self.old ≤ faults self.new }
        ensures failed { IsErrOf result RemoteError.Failed → Rose (faults self.old)
            (faults self.new) }
        ensures needs_no_memory { IsErrOf result RemoteError.NoMemory → ⊥ };
}

/// Remotes that are empty and never fail.
#[derive(Clone, Copy, Debug, PartialEq, Eq)]
pub struct NoRemotes;

impl Remotes for NoRemotes {
    ghost use Rattle.std.specs.Prelude.{Some};
    ghost use Rattle.fp_host.specs.Remote.{nothing};

    ghost holds = { λ r. Some (λ url path. nothing) };

    ghost faults = { λ r. 0 };

    fn node(&mut self, _alloc: Global, _url: &str, _path: &Path) -> Result<Node, RemoteError> {
        Ok(Node::Absent)
    }

    fn read_at(
        &mut self,
        _url: &str,
        _path: &Path,
        _at: u64,
        _into: &mut [u8],
    ) -> Result<usize, RemoteError> {
        Ok(0)
    }
}
