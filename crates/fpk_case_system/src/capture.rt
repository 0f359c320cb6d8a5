//! A system whose output is captured, and whose files are never synced.
ghost use Rattle.std.specs.Thread.{IsSync};

use crate::unsynced::Unsynced;
use fp_realroot::{Access, Failure};
use std::alloc::{Allocator, Global};
use std::cell::RefCell;
use std::fmt::Display;
use std::fs::{Metadata, OpenOptions, Permissions};
use std::io::{self, Eprint};
use std::path::PathBuf;
use std::rt::Files;
use std::thread::Threads;

/// A system that has the files of another one, captures what is printed, and syncs nothing.
pub struct Capture<'a, R> {
    rt: &'a R,
    alloc: Global,
    printed: RefCell<Vec<u8>>,
}

impl<R> Drop for Capture<'_, R> {
    fn drop(self) {
        let Capture {
            rt: _,
            alloc: _,
            printed: _,
        } = self;
    }
}

impl<'a, R> Capture<'a, R> {
    /// Creates a system that has captured nothing yet.
    pub fn new(rt: &'a R, alloc: Global) -> Self {
        Capture {
            rt,
            alloc,
            printed: RefCell::new(Vec::new(alloc)),
        }
    }

    /// Returns what was printed since the last time.
    pub fn take(&self) -> Vec<u8> {
        match self.printed.try_replace(Vec::new(self.alloc)) {
            Ok(printed) => printed,
            Err(_) => Vec::new(self.alloc),
        }
    }

    /// Keeps bytes that are printed.
    fn keep(&self, bytes: &[u8]) -> io::Result<()> {
        match self.printed.try_borrow_mut() {
            Ok(mut printed) => Ok(printed.extend_from_slice(bytes)?),
            Err(_) => Err(io::Error::other("what was printed is in use")),
        }
    }
}

impl<R> Alloc for Capture<'_, R> {
    type A = Global;

    fn alloc(&self) -> Global {
        self.alloc
    }
}

impl<R> Print for Capture<'_, R> {
    fn print<D: Display + Drop>(&self, value: D) -> io::Result<()> {
        let text = value.to_string(self.alloc)?;
        self.keep(text.as_bytes())
    }

    fn println<D: Display + Drop>(&self, value: D) -> io::Result<()> {
        self.print(value)?;
        self.keep(b"\n")
    }

    fn write_all(&self, bytes: &[u8]) -> io::Result<()> {
        self.keep(bytes)
    }
}

impl<R: Files> Files for Capture<'_, R> {
    type File = Unsynced<R::File>;

    type Dir = R::Dir;

    fn open_file(&self, how: &OpenOptions, path: &str) -> io::Result<Unsynced<R::File>> {
        Ok(Unsynced::new(self.rt.open_file(how, path)?))
    }

    fn open_dir(&self, path: &str) -> io::Result<R::Dir> {
        self.rt.open_dir(path)
    }

    fn metadata(&self, path: &str) -> io::Result<Metadata> {
        self.rt.metadata(path)
    }

    fn symlink_metadata(&self, path: &str) -> io::Result<Metadata> {
        self.rt.symlink_metadata(path)
    }

    fn copy(&self, from: &str, to: &str) -> io::Result<u64> {
        self.rt.copy(from, to)
    }

    fn rename(&self, from: &str, to: &str) -> io::Result<()> {
        self.rt.rename(from, to)
    }

    fn remove_file(&self, path: &str) -> io::Result<()> {
        self.rt.remove_file(path)
    }

    fn create_dir(&self, path: &str) -> io::Result<()> {
        self.rt.create_dir(path)
    }

    fn remove_dir(&self, path: &str) -> io::Result<()> {
        self.rt.remove_dir(path)
    }

    fn remove_dir_all<B: Allocator>(&self, alloc: B, path: &str) -> io::Result<()> {
        self.rt.remove_dir_all(alloc, path)
    }

    fn read_link<B: Allocator>(&self, alloc: B, path: &str) -> io::Result<PathBuf<B>> {
        self.rt.read_link(alloc, path)
    }

    fn hard_link(&self, original: &str, link: &str) -> io::Result<()> {
        self.rt.hard_link(original, link)
    }

    fn set_permissions(&self, path: &str, mode: Permissions) -> io::Result<()> {
        self.rt.set_permissions(path, mode)
    }

    fn symlink(&self, original: &str, link: &str) -> io::Result<()> {
        self.rt.symlink(original, link)
    }

    fn create_dir_with_mode(&self, path: &str, mode: u32) -> io::Result<()> {
        self.rt.create_dir_with_mode(path, mode)
    }
}

impl<R: Eprint> Eprint for Capture<'_, R> {
    fn eprint<D: Display + Drop>(&self, value: D) -> io::Result<()> {
        self.rt.eprint(value)
    }

    fn eprintln<D: Display + Drop>(&self, value: D) -> io::Result<()> {
        self.rt.eprintln(value)
    }
}

impl<R: fp_realroot::System> fp_realroot::System for Capture<'_, R> {
    fn try_lock(&self, file: &Unsynced<R::File>, access: Access) -> io::Result<bool> {
        self.rt.try_lock(file.inner(), access)
    }

    fn lock(&self, file: &Unsynced<R::File>, access: Access) -> io::Result<()> {
        self.rt.lock(file.inner(), access)
    }

    fn lock_within(
        &self,
        file: &Unsynced<R::File>,
        access: Access,
        seconds: u64,
    ) -> io::Result<bool> {
        self.rt.lock_within(file.inner(), access, seconds)
    }

    /// Syncs nothing.
    fn sync_paths<T: Threads + Sync>(&self, _threads: &T, _paths: &[&str]) -> Option<Failure> {
        None
    }

    fn prints_to_terminal(&self) -> bool {
        false
    }
}
