//! A system whose calls are watched for the progress of a command.
ghost use Rattle.std.specs.Thread.{IsSync};

use crate::file::WatchedFile;
use crate::line::Progress;
use crate::work::{Phase, Watch};
use fp_realroot::{Access, Failure, System};
use std::alloc::{Alloc, Allocator, Global};
use std::fmt::Display;
use std::fs::{Metadata, OpenOptions, Permissions};
use std::io::{self, Eprint, Print};
use std::path::PathBuf;
use std::rt::Files;
use std::thread::Threads;
use std::time::Clock;

/// The number of files or directories that are synced between two updates of the progress.
const PART: usize = 1000;

/// The end of the path of a store's directory of objects.
const OBJECTS: &str = "/objects";

/// Returns whether the path is a store's directory of objects. It may end with a slash, as paths of
/// directories do that are opened.
fn has_objects(folder: &str) -> bool {
    match folder.strip_suffix("/") {
        Some(path) => path.ends_with(OBJECTS),
        None => folder.ends_with(OBJECTS),
    }
}

/// A system that reports its calls to the progress of a command. It erases the progress line before
/// anything is printed.
pub struct Watched<'a, R> {
    rt: &'a R,
    progress: &'a Progress<'a, R>,
    // Whether its files are those of remotes.
    is_remote: bool,
}

impl<R> Drop for Watched<'_, R> {
    fn drop(self) {
        let Watched {
            rt: _,
            progress: _,
            is_remote: _,
        } = self;
    }
}

impl<'a, R> Watched<'a, R> {
    /// Creates the system of a host.
    pub fn host(rt: &'a R, progress: &'a Progress<'a, R>) -> Self {
        Watched {
            rt,
            progress,
            is_remote: false,
        }
    }

    /// Creates the system of the remotes.
    pub fn remotes(rt: &'a R, progress: &'a Progress<'a, R>) -> Self {
        Watched {
            rt,
            progress,
            is_remote: true,
        }
    }
}

impl<'a, R: Files + Clock + Eprint> Files for Watched<'a, R> {
    type File = WatchedFile<'a, R::File, R>;

    type Dir = R::Dir;

    fn open_file(&self, how: &OpenOptions, path: &str) -> io::Result<WatchedFile<'a, R::File, R>> {
        let file = self.rt.open_file(how, path)?;
        let watch = if how.asks_write() || how.asks_append() {
            Watch::Nothing
        } else {
            self.progress.note_open(path, self.is_remote)
        };
        Ok(WatchedFile::new(file, self.progress, watch))
    }

    fn open_dir(&self, path: &str) -> io::Result<R::Dir> {
        if !self.is_remote && has_objects(path) {
            self.progress.note_listed();
        }
        self.rt.open_dir(path)
    }

    fn metadata(&self, path: &str) -> io::Result<Metadata> {
        self.rt.metadata(path)
    }

    fn symlink_metadata(&self, path: &str) -> io::Result<Metadata> {
        self.rt.symlink_metadata(path)
    }

    fn copy(&self, from: &str, to: &str) -> io::Result<u64> {
        self.rt.copy(from, to)
    }

    fn rename(&self, from: &str, to: &str) -> io::Result<()> {
        self.rt.rename(from, to)?;
        if is_stored(to) {
            self.progress.note_step(Phase::Storing, 1);
        }
        Ok(())
    }

    fn remove_file(&self, path: &str) -> io::Result<()> {
        self.rt.remove_file(path)?;
        self.progress.note_step(Phase::Removing, 1);
        Ok(())
    }

    fn create_dir(&self, path: &str) -> io::Result<()> {
        self.rt.create_dir(path)
    }

    fn remove_dir(&self, path: &str) -> io::Result<()> {
        self.rt.remove_dir(path)
    }

    fn remove_dir_all<B: Allocator>(&self, alloc: B, path: &str) -> io::Result<()> {
        self.rt.remove_dir_all(alloc, path)
    }

    fn read_link<B: Allocator>(&self, alloc: B, path: &str) -> io::Result<PathBuf<B>> {
        self.rt.read_link(alloc, path)
    }

    fn hard_link(&self, original: &str, link: &str) -> io::Result<()> {
        self.rt.hard_link(original, link)?;
        if !is_stored(link) {
            self.progress.note_step(Phase::Linking, 1);
        }
        Ok(())
    }

    fn set_permissions(&self, path: &str, perm: Permissions) -> io::Result<()> {
        self.rt.set_permissions(path, perm)
    }

    fn symlink(&self, original: &str, link: &str) -> io::Result<()> {
        self.rt.symlink(original, link)?;
        self.progress.note_step_on(Phase::Linking);
        Ok(())
    }

    fn create_dir_with_mode(&self, path: &str, mode: u32) -> io::Result<()> {
        self.rt.create_dir_with_mode(path, mode)
    }
}

impl<R: AllocGlobal> Alloc for Watched<'_, R> {
    type A = Global;

    fn alloc(&self) -> Global {
        self.rt.alloc()
    }
}

impl<R: Print + Clock + Eprint> Print for Watched<'_, R> {
    fn print<D: Display + Drop>(&self, value: D) -> io::Result<()> {
        self.progress.clear();
        self.rt.print(value)
    }

    fn println<D: Display + Drop>(&self, value: D) -> io::Result<()> {
        self.progress.clear();
        self.rt.println(value)
    }

    fn write_all(&self, bytes: &[u8]) -> io::Result<()> {
        self.progress.clear();
        self.rt.write_all(bytes)
    }
}

impl<R: Clock + Eprint> Eprint for Watched<'_, R> {
    fn eprint<D: Display + Drop>(&self, value: D) -> io::Result<()> {
        self.progress.clear();
        self.rt.eprint(value)
    }

    fn eprintln<D: Display + Drop>(&self, value: D) -> io::Result<()> {
        self.progress.clear();
        self.rt.eprintln(value)
    }
}

impl<R: System + Clock> System for Watched<'_, R> {
    fn try_lock(&self, file: &Self::File, access: Access) -> io::Result<bool> {
        self.rt.try_lock(file.inner(), access)
    }

    fn lock(&self, file: &Self::File, access: Access) -> io::Result<()> {
        self.rt.lock(file.inner(), access)
    }

    fn lock_within(&self, file: &Self::File, access: Access, seconds: u64) -> io::Result<bool> {
        self.rt.lock_within(file.inner(), access, seconds)
    }

    fn sync_paths<T: Threads + Sync>(&self, threads: &T, paths: &[&str]) -> Option<Failure>
        requires sync { IsSync T.row }
    {
        for (i, part) in paths.chunks(PART).enumerate() {
            if let Some(failure) = self.rt.sync_paths(threads, part) {
                return Some(failure_after(i.saturating_mul(PART), failure));
            }
            self.progress.note_step(Phase::Syncing, part.len());
        }
        None
    }

    fn sync_files<T: Threads + Sync>(&self, threads: &T, files: &[&Self::File]) -> Option<Failure>
        requires sync { IsSync T.row }
    {
        let mut inner = Vec::new(self.rt.alloc());
        for file in files {
            if inner.push(file.inner()).is_err() {
                break;
            }
        }
        let met = self.rt.sync_files(threads, &inner);
        if met.is_some() {
            return met;
        }
        // If memory ran out for a list of all files, the others are synced one after another.
        let listed = inner.len();
        for (i, file) in files.iter().enumerate() {
            if i >= listed
                && let Some(failure) = self.rt.sync_files(threads, &[file.inner()])
            {
                return Some(failure_after(i, failure));
            }
        }
        self.progress.note_step(Phase::Syncing, files.len());
        None
    }

    fn prints_to_terminal(&self) -> bool {
        self.rt.prints_to_terminal()
    }
}

/// Returns whether the path is that of an object in a store.
fn is_stored(path: &str) -> bool {
    path.contains("/objects/")
}

/// Returns the failure with its index raised by the number of items before its list.
fn failure_after(before: usize, failure: Failure) -> Failure {
    Failure {
        place: before.saturating_add(failure.place),
        unsynced: failure.unsynced,
    }
}
