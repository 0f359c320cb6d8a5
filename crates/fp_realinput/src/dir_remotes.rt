//! Real directories as remotes.
ghost use Rattle.std.specs.Prelude.{◌≡◌, ◌↔◌, ◌≤◌, None, IfOk, IsErrOf, length};
ghost use Rattle.fp_host.specs.Remote.{HasNodeBits};
ghost use Rattle.fp_system.specs.Counts.{RemoteCounts};

use crate::places::{Places, refusal};
use fp_host::{Node, Path, RemoteError, Remotes};
use fp_system::{Call, Cause, Faults, SystemError};
use std::alloc::Global;
use std::marker::Model;
use std::rt::Files;

/// The remotes whose URLs are `file://` followed by the absolute path of a directory, byte for byte
/// without percent-encoding. Contracts see the number of failures.
///
/// It doesn't report its content to contracts. Each error of the system, a URL of another form and
/// a socket, pipe or device are counted and returned as `Failed`, and so is running out of memory
/// in `read_at`.
///
/// The directory of a URL may be a symlink or be below one. Below it no symlink is followed: a call
/// fails if a symlink is in the place of a directory above its path. Each directory is looked up
/// once; a symlink that another program puts in its place later is followed.
pub struct DirRemotes<'a, R: Files> {
    places: Places<'a, R>,
    faults: Faults,
}

impl<R: Files> Drop for DirRemotes<'_, R> {
    fn drop(self) {
        let DirRemotes {
            places: _,
            faults: _,
        } = self;
    }
}

impl<'a, R: Files> Model for DirRemotes<'a, R> {
    ghost use Rattle.std.specs.Prelude.{ℕ};

    ghost Value = { ℕ };

    ghost view = { λ r. r.faults };
}

impl<'a, R: Files + AllocGlobal> DirRemotes<'a, R> {
    /// Creates the remotes of a system. It allocates no memory and makes no system call.
    pub fn new(rt: &'a R, alloc: Global) -> Self
        ensures untold { ⟦<DirRemotes<'a, R> as Remotes>⟧.holds result ≡ None }
        ensures faults { ⟦<DirRemotes<'a, R> as Remotes>⟧.faults result ≡ 0 }
    {
        DirRemotes {
            places: Places::new(rt, alloc),
            faults: Faults::none(),
        }
    }
}

impl<'a, R: Files> DirRemotes<'a, R> {
    /// Returns the number of failures; it stays at 2^64 - 1 once it gets there.
    pub fn faults(&self) -> u64
        ensures { result ≡ self.now }
    {
        self.faults.count()
    }

    /// Returns the last error of the system, or `None` if the number of failures is 0.
    pub fn last_error(&self) -> Option<&SystemError>
        ensures { (result ≡ None) ↔ (self.now ≡ 0) }
    {
        self.faults.last()
    }

    /// Returns the result of a call at a path of a remote, and counts each error.
    fn answer<T>(
        &mut self,
        call: Call,
        url: &str,
        path: &Path,
        done: Result<T, Cause>,
    ) -> Result<T, RemoteError>
        ensures counts { RemoteCounts self.old self.new result }
        ensures needs_no_memory { IsErrOf result RemoteError.NoMemory → ⊥ }
        ensures same { IfOk result (λ t. done ≡ Ok t) }
    {
        match done {
            Ok(answer) => Ok(answer),
            Err(cause) => {
                let refusal = refusal(self.places.alloc(), call, url, path, cause);
                self.faults.note(refusal);
                Err(RemoteError::Failed)
            }
        }
    }
}

impl<R: Files + AllocGlobal> Remotes for DirRemotes<'_, R> {
    ghost use Rattle.std.specs.Prelude.{None};

    ghost holds = { λ r. None };

    ghost faults = { λ r. r };

    fn node(&mut self, alloc: Global, url: &str, path: &Path) -> Result<Node, RemoteError>
        ensures counts { RemoteCounts self.old self.new result }
        ensures bits { IfOk result HasNodeBits }
    {
        match self.places.node(alloc, url, path) {
            Err(Cause::NoMemory) => Err(RemoteError::NoMemory),
            done => self.answer(Call::Stat, url, path, done),
        }
    }

    fn read_at(
        &mut self,
        url: &str,
        path: &Path,
        at: u64,
        into: &mut [u8],
    ) -> Result<usize, RemoteError>
        ensures counts { RemoteCounts self.old self.new result }
        ensures bound { IfOk result (λ n. n ≤ length into.old) }
        ensures needs_no_memory { IsErrOf result RemoteError.NoMemory → ⊥ }
    {
        let done = self.places.read_at(url, path, at, into);
        self.answer(Call::Read, url, path, done)
    }
}
