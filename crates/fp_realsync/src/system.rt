//! The system calls that the adapters need besides those of std.
ghost use Rattle.std.specs.Thread.{IsSync};

use crate::process_limits::most_threads;
use fp_system::{Failure, NewFile, Work, make_by_threads, sync_by_threads, sync_open_in_turn};
use std::fs::{File, TryLockError};
use std::io;
use std::io::IsTerminal;
use std::rt::Files;
use std::thread::Threads;
use std::time::{Clock, Duration};

/// The purpose for which an installation is opened or a lock is taken.
#[derive(Clone, Copy, PartialEq, Eq)]
pub enum Access {
    /// Reading, with a shared lock.
    Look,
    /// Changing, with an exclusive lock.
    Change,
}

/// The number of attempts per second to take a lock that another process holds.
const TRIES_A_SECOND: u64 = 200;

/// The pause between two attempts, in milliseconds.
const PAUSE: u64 = 5;

/// A system whose open files have advisory locks, as by flock(2): the system releases a lock when
/// the process that holds it ends, however it ends.
pub trait System: Files + Eprint + AllocGlobal {
    /// Tries to take the lock of an open file without waiting. Returns false if a conflicting lock
    /// is held.
    fn try_lock(&self, file: &Self::File, access: Access) -> io::Result<bool>;

    /// Takes the lock of an open file, and waits as long as a conflicting lock is held.
    fn lock(&self, file: &Self::File, access: Access) -> io::Result<()>;

    /// Takes the lock of an open file, and waits about this many seconds at most. Returns whether
    /// the lock is taken. A system without a clock waits without a limit.
    fn lock_within(&self, file: &Self::File, access: Access, _seconds: u64) -> io::Result<bool> {
        match self.lock(file, access) {
            Ok(()) => Ok(true),
            Err(e) => Err(e),
        }
    }

    /// Syncs the files and directories at these paths, without changing permission bits to open
    /// them. Returns the first failure; but a failed sync precedes a path that could not be opened.
    /// Absent paths are left out.
    fn sync_paths<T: Threads + Sync>(&self, threads: &T, paths: &[&str]) -> Option<Failure>
        requires sync { IsSync T.row };

    /// Syncs open files, and returns the first failure.
    fn sync_files<T: Threads + Sync>(&self, _threads: &T, files: &[&Self::File]) -> Option<Failure>
        requires sync { IsSync T.row }
    {
        sync_open_in_turn(files)
    }

    /// Creates and syncs new files, either before it returns or by threads that run until they are
    /// joined.
    fn make_files<T: Threads>(&self, _threads: &T, files: Vec<NewFile>) -> Work {
        Work::at_once(self, self.alloc(), files)
    }

    /// Returns whether standard output is a terminal.
    fn prints_to_terminal(&self) -> bool;

    /// Returns whether standard error is a terminal.
    fn complains_to_terminal(&self) -> bool {
        false
    }
}

impl System for HostRuntime {
    fn try_lock(&self, file: &File, access: Access) -> io::Result<bool> {
        let tried = match access {
            Access::Look => file.try_lock_shared(),
            Access::Change => file.try_lock(),
        };
        match tried {
            Ok(()) => Ok(true),
            Err(TryLockError::WouldBlock) => Ok(false),
            Err(TryLockError::Error(e)) => Err(e),
        }
    }

    fn lock(&self, file: &File, access: Access) -> io::Result<()> {
        match access {
            Access::Look => file.lock_shared(),
            Access::Change => file.lock(),
        }
    }

    fn lock_within(&self, file: &File, access: Access, seconds: u64) -> io::Result<bool> {
        for _ in 0..seconds.saturating_mul(TRIES_A_SECOND) {
            if self.try_lock(file, access)? {
                return Ok(true);
            }
            self.sleep(Duration::from_millis(PAUSE));
        }
        Ok(false)
    }

    fn sync_paths<T: Threads + Sync>(&self, threads: &T, paths: &[&str]) -> Option<Failure>
        requires sync { IsSync T.row }
    {
        sync_by_threads(threads, self, paths)
    }

    fn sync_files<T: Threads + Sync>(&self, threads: &T, files: &[&File]) -> Option<Failure>
        requires sync { IsSync T.row }
    {
        sync_by_threads(threads, self, files)
    }

    fn make_files<T: Threads>(&self, threads: &T, files: Vec<NewFile>) -> Work {
        make_by_threads(self, threads, self.alloc(), files, most_threads(self))
    }

    fn prints_to_terminal(&self) -> bool {
        self.stdout().is_terminal()
    }

    fn complains_to_terminal(&self) -> bool {
        self.stderr().is_terminal()
    }
}
