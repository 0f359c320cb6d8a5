//! New files that threads create.
ghost use Rattle.std.specs.Thread.{IsSync};

use fp_host::Host;
use fp_realhost::HostDir;
use fp_realplay::{Kind, Log, clear, is_message, play_disk, play_lines};
use fp_realroot::{Access, Failure, System};
use fp_system::{Maker, NewFile, Share, SystemError, Work, made_by, make_by_threads};
use std::alloc::{Alloc, Allocator, Global};
use std::fmt::Display;
use std::fs::{File, Metadata, OpenOptions, Permissions};
use std::io::{self, Eprint};
use std::panic::Expect;
use std::rt::Files;
use std::thread::{JoinHandle, Threads, spawn};
use std::time::{Clock, Duration};

/// The milliseconds that a thread takes to open a file.
const SLOWLY: u64 = 40;

/// The name of a file that no thread can create, since the disk is full (`ENOSPC`).
const FULL: &str = "full";

const NO_SPACE: i32 = 28;

/// The name of a file that no thread can create, since too many files are open (`EMFILE`).
const CROWDED: &str = "crowded";

const TOO_MANY: i32 = 24;

/// A system whose threads open files slowly.
#[derive(Clone, Copy)]
struct Slow {
    rt: HostRuntime,
    is_in_thread: bool,
}

impl Files for Slow {
    type File = File;

    type Dir = <HostRuntime as Files>::Dir;

    fn open_file(&self, how: &OpenOptions, path: &str) -> io::Result<File> {
        if !self.is_in_thread {
            return self.rt.open_file(how, path);
        }
        self.rt.sleep(Duration::from_millis(SLOWLY));
        if path.ends_with(FULL) {
            return Err(io::Error::from_raw_os_error(NO_SPACE));
        }
        if path.ends_with(CROWDED) {
            return Err(io::Error::from_raw_os_error(TOO_MANY));
        }
        self.rt.open_file(how, path)
    }

    fn open_dir(&self, path: &str) -> io::Result<<HostRuntime as Files>::Dir> {
        self.rt.open_dir(path)
    }

    fn metadata(&self, path: &str) -> io::Result<Metadata> {
        self.rt.metadata(path)
    }

    fn symlink_metadata(&self, path: &str) -> io::Result<Metadata> {
        self.rt.symlink_metadata(path)
    }

    fn copy(&self, from: &str, to: &str) -> io::Result<u64> {
        self.rt.copy(from, to)
    }

    fn rename(&self, from: &str, to: &str) -> io::Result<()> {
        self.rt.rename(from, to)
    }

    fn remove_file(&self, path: &str) -> io::Result<()> {
        self.rt.remove_file(path)
    }

    fn create_dir(&self, path: &str) -> io::Result<()> {
        self.rt.create_dir(path)
    }

    fn remove_dir(&self, path: &str) -> io::Result<()> {
        self.rt.remove_dir(path)
    }

    fn remove_dir_all<B: Allocator>(&self, alloc: B, path: &str) -> io::Result<()> {
        self.rt.remove_dir_all(alloc, path)
    }

    fn create_dir_with_mode(&self, path: &str, mode: u32) -> io::Result<()> {
        self.rt.create_dir_with_mode(path, mode)
    }

    fn set_permissions(&self, path: &str, perm: Permissions) -> io::Result<()> {
        self.rt.set_permissions(path, perm)
    }
}

impl Alloc for Slow {
    type A = Global;

    fn alloc(&self) -> Global {
        self.rt.alloc()
    }
}

impl Eprint for Slow {
    fn eprint<D: Display + Drop>(&self, value: D) -> io::Result<()> {
        self.rt.eprint(value)
    }

    fn eprintln<D: Display + Drop>(&self, value: D) -> io::Result<()> {
        self.rt.eprintln(value)
    }
}

impl Maker for Slow {
    fn start<T: Threads>(
        &self,
        threads: &T,
        files: Vec<NewFile>,
    ) -> Result<JoinHandle<Share>, Share> {
        let slow = Slow {
            rt: self.rt,
            is_in_thread: true,
        };
        match spawn(threads, move || made_by(slow, files)) {
            Ok(running) => Ok(running),
            Err(refused) => Err((refused.value)()),
        }
    }
}

impl System for Slow {
    fn try_lock(&self, file: &File, access: Access) -> io::Result<bool> {
        self.rt.try_lock(file, access)
    }

    fn lock(&self, file: &File, access: Access) -> io::Result<()> {
        self.rt.lock(file, access)
    }

    fn sync_paths<T: Threads + Sync>(&self, threads: &T, paths: &[&str]) -> Option<Failure>
        requires sync { IsSync T.row }
    {
        self.rt.sync_paths(threads, paths)
    }

    fn make_files<T: Threads>(&self, threads: &T, files: Vec<NewFile>) -> Work {
        make_by_threads(self, threads, self.alloc(), files, 4)
    }

    fn prints_to_terminal(&self) -> bool {
        false
    }
}

/// The first of the files that threads create. The file of a row comes next, and then those of
/// `AFTER`.
const BEFORE: &str = "create a 644\nappend a bytes";

const AFTER: &str = "\
create c 600
append c more\u{20}
append c bytes
create d 644
create e 644
append e last";

/// The content of the files of `BEFORE` and `AFTER` once they are created.
const MADE: &str = "\
holds late/a bytes
holds late/c more bytes
holds late/d
holds late/e last";

/// The lines that are played between `BEFORE` and `AFTER`, and those that are played last.
#[derive(Clone, Copy)]
struct Row {
    between: &'static str,
    last: &'static str,
    // The message of the last error; empty if there is none.
    told: &'static str,
}

/// A sync creates all waiting files, and so does a rename of one of them, which has its bytes then.
/// A file for which there were too many open files is created later. If a file can't be created,
/// the next sync fails with the reason, and each later one fails too.
const ROWS: [Row; 5] = [
    Row {
        between: "create b 644",
        last: "sync",
        told: "",
    },
    Row {
        between: "create b 644\nappend b moved",
        last: "rename b f\nstat b\nshows f 644 5 moved",
        told: "",
    },
    Row {
        between: "create crowded 644\nappend crowded made",
        last: "sync\nstat .\nshows crowded 644 4 made",
        told: "",
    },
    Row {
        between: "create full 644",
        last: "fails sync",
        told: "cannot create late/full: No space left on device (os error 28)",
    },
    Row {
        between: "create full 644",
        last: "fails sync\nfails sync",
        told: "cannot sync: an earlier change or sync failed and may be lost",
    },
];

/// Returns whether the last error is the one of the row, or there is none if the row has none.
fn is_told(alloc: Global, row: &Row, error: Option<&SystemError>) -> bool {
    match row.told {
        "" => error.is_none(),
        told => is_message(alloc, error, told),
    }
}

/// Plays a row. If it has no error, checks that its files are on the disk.
fn play_row<H: Host>(rt: &HostRuntime, log: &Log<'_>, host: &mut H, row: &Row) {
    for lines in [BEFORE, row.between, AFTER, row.last] {
        play_lines(rt, log, host, lines);
    }
    if row.told.is_empty() {
        play_disk(rt, log, MADE);
    }
}

#[test]
fn threads_make_what_waits(rt: HostRuntime) {
    let log = Log::new(rt.alloc(), Kind::Plain);
    let slow = Slow {
        rt,
        is_in_thread: false,
    };
    for (i, row) in (&ROWS).iter().enumerate() {
        clear(&rt, "late");
        let host = HostDir::new(&slow, &rt, &rt, rt.alloc(), "late", Access::Change);
        let mut host = host.expect(&rt, "memory");
        play_row(&rt, &log, &mut host, row);
        log.demand(is_told(rt.alloc(), row, host.last_error()), i, row.told);
        host.finish();
    }
    clear(&rt, "late");
    assert!(rt; log.all_held(&rt));
}
