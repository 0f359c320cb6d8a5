//! Remotes below a directory.
ghost use Rattle.std.specs.Prelude.{◌≤◌, IfOk, IsErrOf, length};
ghost use Rattle.fp_host.specs.Remote.{HasNodeBits};
ghost use Rattle.fp_system.specs.Counts.{RemoteCounts};

use fp_host::{Node, Path, RemoteError, Remotes};
use fp_realinput::DirRemotes;
use std::alloc::{AllocError, Global};
use std::rt::Files;

/// Remotes below a directory. The path of a `file://` URL is relative to it, so that a case needs
/// no path of the machine.
pub struct OwnRemotes<'a, R: Files> {
    remotes: DirRemotes<'a, R>,
    alloc: Global,
    /// The absolute path of the directory.
    folder: String,
}

impl<R: Files> Drop for OwnRemotes<'_, R> {
    fn drop(self) {
        let OwnRemotes {
            remotes: _,
            alloc: _,
            folder: _,
        } = self;
    }
}

impl<'a, R: Files + AllocGlobal> OwnRemotes<'a, R> {
    /// Creates the remotes below the directory with this absolute path.
    pub fn new(rt: &'a R, alloc: Global, folder: String) -> Self {
        OwnRemotes {
            remotes: DirRemotes::new(rt, alloc),
            alloc,
            folder,
        }
    }
}

impl<R: Files> OwnRemotes<'_, R> {
    /// Returns the URL of what is below the directory. A URL of another form is returned unchanged,
    /// and refused when it is read.
    fn own(&self, url: &str) -> Result<String, AllocError> {
        let folder = self.folder.as_str();
        match url.strip_prefix("file://") {
            Some(path) => format!(in self.alloc; "file://{folder}{path}"),
            None => String::from_str(self.alloc, url),
        }
    }
}

impl<R: Files + AllocGlobal> Remotes for OwnRemotes<'_, R> {
    ghost use Rattle.std.specs.Prelude.{None};

    ghost holds = { λ r. None };

    ghost faults = { λ r. r.remotes };

    fn node(&mut self, alloc: Global, url: &str, path: &Path) -> Result<Node, RemoteError>
        ensures counts { RemoteCounts self.old.remotes self.new.remotes result }
        ensures bits { IfOk result HasNodeBits }
    {
        match self.own(url) {
            Ok(own) => self.remotes.node(alloc, &own, path),
            Err(_) => Err(RemoteError::NoMemory),
        }
    }

    fn read_at(
        &mut self,
        url: &str,
        path: &Path,
        at: u64,
        into: &mut [u8],
    ) -> Result<usize, RemoteError>
        ensures counts { RemoteCounts self.old.remotes self.new.remotes result }
        ensures bound { IfOk result (λ n. n ≤ length into.old) }
        ensures needs_no_memory { IsErrOf result RemoteError.NoMemory → ⊥ }
    {
        // If memory runs out for the URL, the empty one is used. It is refused, and counted as a
        // failure.
        let own = self.own(url).unwrap_or(String::new(self.alloc));
        self.remotes.read_at(&own, path, at, into)
    }
}
