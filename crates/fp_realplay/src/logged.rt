//! A system over the real one that logs the calls that change something.
use crate::log::{Log, crowded, denied, narrow, out};
use fp_realroot::{Access, Failure, System, Unsynced, sync_in_turn};
use fp_system::{Call, known};
use std::alloc::{Alloc, Allocator, Global};
use std::fmt::Display;
use std::fs::{self, File, FileTimes, Metadata, OpenFile, OpenOptions, Permissions};
use std::io;
use std::io::{Eprint, Print, Read, Seek, SeekFrom, Write};
use std::path::PathBuf;
use std::rt::Files;
use std::thread::Threads;
use std::time::{Clock, Duration};

/// A system over the real one that logs changes, locks, syncs and printed texts, and differs from
/// it as its log says. It neither syncs nor prints. Changes of permission bits, and removals of
/// whole directories at once, aren't logged.
#[derive(Drop)]
pub struct Logged<'a> {
    /// The real system.
    pub rt: &'a HostRuntime,
    /// The log.
    pub log: &'a Log<'a>,
}

impl Logged<'_> {
    /// Removes or replaces the file or directory whose lock is waited for, if the log's `Kind` asks
    /// for it.
    fn lose(&self, at: &str) -> io::Result<()> {
        match self.log.loses() {
            Some(comes) => lose_file(self.rt, at, comes),
            None => Ok(()),
        }
    }
}

fn lose_file(rt: &HostRuntime, at: &str, comes: bool) -> io::Result<()> {
    if fs::metadata(rt, at)?.is_dir() {
        return lose_folder(rt, at, comes);
    }
    match rt.remove_file(at) {
        Ok(()) if comes => fs::write(rt, at, ""),
        removed => removed,
    }
}

fn lose_folder(rt: &HostRuntime, at: &str, comes: bool) -> io::Result<()> {
    match rt.remove_dir_all(rt.alloc(), at) {
        Ok(()) if comes => rt.create_dir(at),
        removed => removed,
    }
}

/// An open file of a `Logged` system.
pub struct LoggedFile<'a> {
    log: &'a Log<'a>,
    at: String,
    // Whether it was opened for appending.
    appends: bool,
    file: File,
}

impl Drop for LoggedFile<'_> {
    fn drop(self) {
        let LoggedFile {
            log,
            at: _,
            appends: _,
            file: _,
        } = self;
        log.add_closed();
    }
}

impl LoggedFile<'_> {
    /// Returns the name in the log of a write of this many bytes: `write over` if it stays within
    /// the file's current size and the file wasn't opened for appending, else `write`.
    fn name_of_write(&mut self, count: usize) -> io::Result<&'static str> {
        if self.appends {
            return Ok("write");
        }
        let start = self.file.stream_position()?;
        let size = self.file.metadata()?.len();
        let end = start.saturating_add(count as u64);
        Ok(if end > size { "write" } else { "write over" })
    }
}

impl<'a> Files for Logged<'a> {
    type File = LoggedFile<'a>;

    type Dir = <HostRuntime as Files>::Dir;

    fn open_file(&self, how: &OpenOptions, path: &str) -> io::Result<LoggedFile<'a>> {
        if self.log.denies(path) {
            return Err(denied());
        }
        if self.log.is_full() {
            return Err(narrow());
        }
        if how.asks_create_new() && !self.log.lets("create", path) {
            return Err(out());
        }
        let at = path.to_string(self.log.alloc)?;
        let file = match self.log.limits_for(path) {
            Some(limits) => self.rt.open_file(how, limits)?,
            None => self.rt.open_file(how, path)?,
        };
        self.log.add_open();
        Ok(LoggedFile {
            log: self.log,
            at,
            appends: how.asks_append(),
            file,
        })
    }

    fn open_dir(&self, path: &str) -> io::Result<<HostRuntime as Files>::Dir> {
        if self.log.denies(path) {
            return Err(denied());
        }
        if self.log.lets_look(path) {
            self.rt.open_dir(path)
        } else {
            Err(out())
        }
    }

    fn metadata(&self, path: &str) -> io::Result<Metadata> {
        if self.log.lets_look(path) {
            self.rt.metadata(path)
        } else {
            Err(out())
        }
    }

    fn symlink_metadata(&self, path: &str) -> io::Result<Metadata> {
        if self.log.lets_look(path) {
            self.rt.symlink_metadata(path)
        } else {
            Err(out())
        }
    }

    fn copy(&self, from: &str, to: &str) -> io::Result<u64> {
        if self.log.lets("copy to", to) {
            self.rt.copy(from, to)
        } else {
            Err(out())
        }
    }

    fn rename(&self, from: &str, to: &str) -> io::Result<()> {
        if self.log.lets("rename to", to) {
            self.rt.rename(from, to)
        } else {
            Err(out())
        }
    }

    fn remove_file(&self, path: &str) -> io::Result<()> {
        if self.log.lets("remove", path) {
            self.rt.remove_file(path)
        } else {
            Err(out())
        }
    }

    fn create_dir(&self, path: &str) -> io::Result<()> {
        if self.log.lets("make", path) {
            self.rt.create_dir(path)
        } else {
            Err(out())
        }
    }

    fn create_dir_with_mode(&self, path: &str, mode: u32) -> io::Result<()> {
        if self.log.lets("make", path) {
            self.rt.create_dir_with_mode(path, mode)
        } else {
            Err(out())
        }
    }

    fn remove_dir(&self, path: &str) -> io::Result<()> {
        if self.log.lets("remove", path) {
            self.rt.remove_dir(path)
        } else {
            Err(out())
        }
    }

    fn remove_dir_all<B: Allocator>(&self, alloc: B, path: &str) -> io::Result<()> {
        self.rt.remove_dir_all(alloc, path)
    }

    fn read_link<B: Allocator>(&self, alloc: B, path: &str) -> io::Result<PathBuf<B>> {
        self.rt.read_link(alloc, path)
    }

    fn hard_link(&self, original: &str, link: &str) -> io::Result<()> {
        if self.log.is_crowded() {
            return Err(crowded());
        }
        if self.log.lets("link", link) {
            self.rt.hard_link(original, link)
        } else {
            Err(out())
        }
    }

    fn symlink(&self, original: &str, link: &str) -> io::Result<()> {
        if self.log.lets("link", link) {
            self.rt.symlink(original, link)
        } else {
            Err(out())
        }
    }

    fn set_permissions(&self, path: &str, perm: Permissions) -> io::Result<()> {
        self.rt.set_permissions(path, perm)
    }
}

impl Read for LoggedFile<'_> {
    fn read(&mut self, buf: &mut [u8]) -> io::Result<usize> {
        self.file.read(buf)
    }
}

impl Write for LoggedFile<'_> {
    fn write(&mut self, buf: &[u8]) -> io::Result<usize> {
        let name = self.name_of_write(buf.len())?;
        if self.log.lets(name, &self.at) {
            self.file.write(buf)
        } else {
            Err(out())
        }
    }

    fn flush(&mut self) -> io::Result<()> {
        self.file.flush()
    }
}

impl Seek for LoggedFile<'_> {
    fn seek(&mut self, to: SeekFrom) -> io::Result<u64> {
        self.file.seek(to)
    }
}

impl OpenFile for LoggedFile<'_> {
    fn metadata(&self) -> io::Result<Metadata> {
        self.file.metadata()
    }

    fn set_len(&self, size: u64) -> io::Result<()> {
        if self.log.lets("cut", &self.at) {
            self.file.set_len(size)
        } else {
            Err(out())
        }
    }

    // The sync is only logged: a test's files need not be durable, and on a busy disk many syncs
    // take minutes.
    fn sync_all(&self) -> io::Result<()> {
        self.log.answer("sync", &self.at)
    }

    fn sync_data(&self) -> io::Result<()> {
        self.sync_all()
    }

    fn set_permissions(&self, perm: Permissions) -> io::Result<()> {
        self.file.set_permissions(perm)
    }

    fn set_times(&self, times: FileTimes) -> io::Result<()> {
        if self.log.lets("date", &self.at) {
            self.file.set_times(times)
        } else {
            Err(out())
        }
    }
}

impl Alloc for Logged<'_> {
    type A = Global;

    fn alloc(&self) -> Global {
        self.log.alloc
    }
}

impl Print for Logged<'_> {
    fn print<D: Display + Drop>(&self, _value: D) -> io::Result<()> {
        self.log.answer("print", "a value")
    }

    fn println<D: Display + Drop>(&self, _value: D) -> io::Result<()> {
        self.log.answer("print", "a line")
    }

    fn write_all(&self, bytes: &[u8]) -> io::Result<()> {
        let text = std::str::from_utf8(bytes).ok().unwrap_or("?");
        self.log.answer("print", text)
    }
}

impl Eprint for Logged<'_> {
    fn eprint<D: Display + Drop>(&self, value: D) -> io::Result<()> {
        let text = value.to_string(self.log.alloc)?;
        self.log.answer("complain", &text)
    }

    fn eprintln<D: Display + Drop>(&self, value: D) -> io::Result<()> {
        self.eprint(value)
    }
}

impl Clock for Logged<'_> {
    fn monotonic(&self) -> io::Result<Duration> {
        match self.log.next_second() {
            Some(seconds) => Ok(Duration::from_secs(seconds)),
            None => self.rt.monotonic(),
        }
    }

    fn since_1970(&self) -> io::Result<Duration> {
        self.rt.since_1970()
    }
}

impl System for Logged<'_> {
    fn try_lock(&self, file: &Self::File, access: Access) -> io::Result<bool> {
        if !self.log.lets("lock", &file.at) {
            return Err(out());
        }
        if self.log.is_busy() {
            return Ok(false);
        }
        self.rt.try_lock(&file.file, access)
    }

    fn lock(&self, file: &Self::File, access: Access) -> io::Result<()> {
        if !self.log.lets("wait for", &file.at) {
            return Err(out());
        }
        self.lose(&file.at)?;
        self.rt.lock(&file.file, access)
    }

    fn lock_within(&self, file: &Self::File, access: Access, seconds: u64) -> io::Result<bool> {
        if !self.log.is_stuck() {
            self.lock(file, access)?;
            return Ok(true);
        }
        let what = format!(in self.log.alloc; "wait {seconds} seconds for")?;
        if self.log.lets(&what, &file.at) {
            Ok(false)
        } else {
            Err(out())
        }
    }

    fn sync_paths<T: Threads + Sync>(&self, _threads: &T, paths: &[&str]) -> Option<Failure> {
        sync_in_turn(self, paths)
    }

    fn sync_files<T: Threads + Sync>(
        &self,
        _threads: &T,
        files: &[&Self::File],
    ) -> Option<Failure> {
        for (i, file) in files.iter().enumerate() {
            if let Err(cause) = known(file.sync_all()) {
                let unsynced = Unsynced {
                    call: Call::Sync,
                    cause,
                };
                return Some(Failure { place: i, unsynced });
            }
        }
        None
    }

    fn prints_to_terminal(&self) -> bool {
        false
    }
}
