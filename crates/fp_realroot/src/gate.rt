//! The root directory and its locks.
use crate::folder::{Sight, hold_alone, look_at};
use crate::hold::Hold;
use crate::layout::LAYOUT;
use crate::others::find_others;
use crate::roots::make_root;
use crate::standing::stands_at;
use crate::text::MARK_BYTES;
use crate::waiting::{Wanted, wait};
use fp_host::Path;
use fp_realsync::{Access, System, Touched, largest_file};
use fp_system::{Call, Cause, Kind, SystemError, has_folder, join, kind_at, known};
use std::alloc::{AllocError, Global};
use std::fs::{OpenFile, OpenOptions, Permissions};
use std::io::{ErrorKind, Seek, Write};
use std::os::unix::fs::{OpenOptionsExt, PermissionsExt};

/// The name of the lock file at the top of an installation, by which changes exclude each other. A
/// command that only reads ignores it.
pub const LOCK_NAME: &str = ".lock";

/// The permission bits of the lock file.
const LOCK_BITS: u32 = 0o644;

/// The most attempts to lock a file or directory that is removed or replaced while its lock is
/// waited for.
const TRIES: u32 = 100;

/// The errno `EFBIG` of Linux: a file would get larger than the process may write.
pub const TOO_LARGE: Cause = Cause::Number(27);

/// The verb in the message of a change that waits: another fpk changes the directory.
const WORKS: &str = "works on";

/// The error if the file or directory was removed or replaced at each attempt.
const BUSY: Cause = Cause::Kind(ErrorKind::ResourceBusy);

/// The state of the root directory, as far as it is known.
#[derive(Clone, Copy, PartialEq, Eq)]
enum Root {
    // It was not looked up yet, or that failed.
    Unknown,
    Absent,
    There,
}

/// The lock that is held.
enum Lock<F> {
    // No call asked for it yet.
    NotYet,
    // None: a reader found no root, or could not open it.
    Open,
    // The root directory with a shared lock, for reading.
    Shared(F),
    // The lock file with an exclusive lock, for changing.
    Whole(Hold<F>),
}

impl<F: Drop> Drop for Lock<F> {
    fn drop(self) {
        match self {
            Lock::NotYet | Lock::Open => {}
            Lock::Shared(_) => {}
            Lock::Whole(_) => {}
        }
    }
}

/// The root directory of a host, which is locked against other processes while the host is used.
///
/// There are two locks. Changes exclude each other by the file `.lock`, as long as the host exists.
/// Readers share the lock of the root directory, and a change takes it exclusively only from the
/// first call that a reader may notice to the next sync. So while a reader holds it, a change may
/// only add files that nothing refers to yet. A change takes the lock file first and then the
/// directory; a reader takes the directory alone, and waits for no lock while it holds it. So no
/// two processes wait for each other.
pub struct Gate<F> {
    root: String,
    // The path of the lock file.
    lock_at: String,
    access: Access,
    state: Root,
    lock: Lock<F>,
    // The root directory, while a change holds its lock exclusively.
    alone: Option<F>,
    // The largest size in bytes of a file that is changed.
    largest: u64,
    // Whether an earlier command may have left unsynced changes.
    has_left: bool,
    // The path of something that isn't fpk's, if it is the reason why the directory isn't used as
    // an installation.
    others: Option<String>,
}

impl<F: Drop> Drop for Gate<F> {
    fn drop(self) {
        let Gate {
            root: _,
            lock_at: _,
            access: _,
            state: _,
            lock: _,
            alone: _,
            largest: _,
            has_left: _,
            others: _,
        } = self;
    }
}

impl<F> Gate<F> {
    /// Creates a gate for the root directory at this path; the empty path is the current directory.
    /// It makes no system call.
    pub fn new(alloc: Global, root: &str, access: Access) -> Result<Self, AllocError> {
        let root = if root.is_empty() { "." } else { root };
        let lock_at = format!(in alloc; "{root}/{LOCK_NAME}")?;
        Gate::with_paths(root.to_string(alloc), lock_at, access)
    }

    fn with_paths(
        root: Result<String, AllocError>,
        lock_at: String,
        access: Access,
    ) -> Result<Self, AllocError> {
        match root {
            Ok(root) => Ok(Gate {
                root,
                lock_at,
                access,
                state: Root::Unknown,
                lock: Lock::NotYet,
                alone: None,
                largest: u64::MAX,
                has_left: false,
                others: None,
            }),
            Err(e) => Err(e),
        }
    }

    /// Returns the path of the root directory.
    pub fn root(&self) -> &str {
        &self.root
    }

    /// Returns whether the root is known to exist or to be absent.
    pub fn is_known(&self) -> bool {
        self.state != Root::Unknown
    }

    /// Returns whether the root directory existed when it was last looked up.
    pub fn is_there(&self) -> bool {
        self.state == Root::There
    }

    /// Returns whether the root directory was absent when it was last looked up.
    pub fn is_absent(&self) -> bool {
        self.state == Root::Absent
    }

    /// Returns the error for a root that could not be used. It names the path of what isn't fpk's
    /// there, if that is the reason.
    pub fn refusal(&self, alloc: Global, cause: Cause) -> SystemError {
        match &self.others {
            Some(at) => SystemError::on(alloc, Call::TakeOver, at, cause),
            None => SystemError::on(alloc, Call::Enter, &self.root, cause),
        }
    }

    /// Returns whether an earlier command may have left unsynced changes.
    pub fn has_left(&self) -> bool {
        self.has_left
    }

    /// Returns the largest size in bytes of a file that is changed.
    pub fn largest_file(&self) -> u64 {
        self.largest
    }

    /// Replaces the content of `into` with the root, a slash and the elements of the path.
    pub fn write_path(&self, path: &Path, into: &mut String) -> Result<(), Cause> {
        join(&self.root, path.text(), into)
    }
}

impl<F: Write + Seek + OpenFile + Drop> Gate<F> {
    /// Finds the root and takes the lock, at the first call. If the host changes, an absent root is
    /// made. Errs with `ResourceBusy` if what is locked was replaced 100 times.
    pub fn enter<R: System<File = F>>(
        &mut self,
        rt: &R,
        touched: &mut Touched,
    ) -> Result<(), Cause> {
        match (&self.lock, self.access) {
            (Lock::NotYet, Access::Look) => self.enter_to_look(rt),
            (Lock::NotYet, Access::Change) => self.enter_to_change(rt, touched),
            _ => Ok(()),
        }
    }

    /// Takes a reader's lock. Starts again if the directory was replaced meanwhile, since its lock
    /// then excludes nobody.
    fn enter_to_look<R: System<File = F>>(&mut self, rt: &R) -> Result<(), Cause> {
        self.state = Root::Unknown;
        for _ in 0..TRIES {
            let sight = look_at(rt, &self.root)?;
            if !sight.is_replaced() {
                self.keep_sight(sight);
                return Ok(());
            }
        }
        Err(BUSY)
    }

    /// Keeps the lock. An absent root stays absent for this reader until `release`, even if another
    /// process makes it meanwhile.
    fn keep_sight(&mut self, sight: Sight<F>) {
        self.state = if sight.is_absent() {
            Root::Absent
        } else {
            Root::There
        };
        self.lock = match sight.take() {
            Some(folder) => Lock::Shared(folder),
            None => Lock::Open,
        };
    }

    /// Makes the root if it is absent, and takes the lock of the lock file. Starts again if the
    /// lock file was removed meanwhile, since its lock then excludes nobody. Errs with `TOO_LARGE`
    /// if the process may not write a file as large as a mark.
    fn enter_to_change<R: System<File = F>>(
        &mut self,
        rt: &R,
        touched: &mut Touched,
    ) -> Result<(), Cause> {
        self.largest = largest_file(rt);
        if self.largest < MARK_BYTES {
            return Err(TOO_LARGE);
        }
        for _ in 0..TRIES {
            if self.try_to_change(rt, touched)? {
                return Ok(());
            }
        }
        Err(BUSY)
    }

    /// Tries once to take the lock of the lock file, and returns whether the locked file is still
    /// at its path.
    fn try_to_change<R: System<File = F>>(
        &mut self,
        rt: &R,
        touched: &mut Touched,
    ) -> Result<bool, Cause> {
        let found = find_or_make_root(rt, touched, &self.root, &self.lock_at)?;
        if found == Entry::Unlocked {
            self.must_be_ours(rt)?;
        }
        match take_lock(rt, &self.lock_at, &self.root, found) {
            Ok(Some(hold)) => self.keep(hold, found),
            Ok(None) => Ok(false),
            Err(e) => Err(e),
        }
    }

    /// Errs with `NotOurs` if the directory, which has no lock file, may be another's: fpk would
    /// remove something in it.
    fn must_be_ours<R: System<File = F>>(&mut self, rt: &R) -> Result<(), Cause> {
        self.others = find_others(rt, rt.alloc(), &self.root, &LAYOUT)?;
        match self.others {
            None => Ok(()),
            Some(_) => Err(Cause::NotOurs),
        }
    }

    /// Keeps the lock. If the directory existed without a lock file, an earlier command may have
    /// left unsynced changes, so a mark is written.
    fn keep(&mut self, mut hold: Hold<F>, found: Entry) -> Result<bool, Cause> {
        let is_unknown = found == Entry::Unlocked;
        self.has_left = is_unknown || hold.is_marked();
        let marked = if is_unknown { hold.mark() } else { Ok(()) };
        self.lock = Lock::Whole(hold);
        self.state = Root::There;
        match marked {
            Ok(()) => Ok(true),
            Err(e) => Err(e),
        }
    }

    /// Releases a reader's lock. The next call takes it again.
    pub fn release(&mut self) {
        if matches!(self.lock, Lock::Shared(_) | Lock::Open) {
            self.lock = Lock::NotYet;
        }
    }

    /// Takes the lock of the root directory exclusively: a change is about to remove or replace a
    /// name.
    pub fn keep_looks_out<R: System<File = F>>(&mut self, rt: &R) -> Result<(), Cause> {
        if self.alone.is_some() {
            return Ok(());
        }
        match hold_alone(rt, &self.root) {
            Ok(folder) => {
                self.alone = Some(folder);
                Ok(())
            }
            Err(e) => Err(e),
        }
    }

    /// Releases the exclusive lock of the root directory: all changes are synced.
    pub fn let_looks_in(&mut self) {
        self.alone = None;
    }

    /// Marks in the lock file that changes wait for a sync. Errs with `OnlyLooks` if the host only
    /// reads.
    pub fn mark(&mut self) -> Result<(), Cause> {
        match &mut self.lock {
            Lock::Whole(hold) => hold.mark(),
            _ => Err(Cause::OnlyLooks),
        }
    }

    /// Clears the mark in the lock file.
    pub fn clear(&mut self) -> Result<(), Cause> {
        match &mut self.lock {
            Lock::Whole(hold) => hold.clear(),
            _ => Ok(()),
        }
    }
}

/// The state in which a change finds the root.
#[derive(Clone, Copy, PartialEq, Eq)]
enum Entry {
    // It was just made.
    New,
    // It exists without a lock file.
    Unlocked,
    // It has a lock file.
    Old,
}

/// Makes the root if it is absent. Returns the state in which it was found.
fn find_or_make_root<R: System>(
    rt: &R,
    touched: &mut Touched,
    root: &str,
    lock_at: &str,
) -> Result<Entry, Cause> {
    match has_folder(rt, root) {
        Ok(true) => find_lock_file(rt, lock_at),
        Ok(false) => make_new_root(rt, touched, root),
        Err(e) => Err(e),
    }
}

/// Returns `Old` if the root has a lock file, else `Unlocked`. Doesn't follow a symlink: errs with
/// `NoLock` for anything but a regular file.
fn find_lock_file<R: System>(rt: &R, lock_at: &str) -> Result<Entry, Cause> {
    match kind_at(rt, lock_at) {
        Ok(Kind::Absent) => Ok(Entry::Unlocked),
        Ok(Kind::File) => Ok(Entry::Old),
        Ok(_) => Err(Cause::NoLock),
        Err(e) => Err(e),
    }
}

fn make_new_root<R: System>(rt: &R, touched: &mut Touched, root: &str) -> Result<Entry, Cause> {
    match make_root(rt, touched, root) {
        Ok(()) => Ok(Entry::New),
        Err(e) => Err(e),
    }
}

/// Takes the exclusive lock of the lock file. Returns `None` if another file is at the path by now.
fn take_lock<R: System>(
    rt: &R,
    at: &str,
    root: &str,
    found: Entry,
) -> Result<Option<Hold<R::File>>, Cause> {
    match found {
        Entry::Old => hold_old(rt, at, root),
        Entry::New | Entry::Unlocked => hold_new(rt, at, root),
    }
}

/// Locks the lock file that was found. It is opened without being created or truncated: if another
/// file took its place, that one stays unchanged.
fn hold_old<R: System>(rt: &R, at: &str, root: &str) -> Result<Option<Hold<R::File>>, Cause> {
    match known(OpenOptions::new().write(true).open(rt, at)) {
        Ok(file) => hold_opened(rt, file, at, root),
        Err(e) if e.is(ErrorKind::NotFound) => Ok(None),
        Err(e) => Err(e),
    }
}

fn hold_opened<R: System>(
    rt: &R,
    file: R::File,
    at: &str,
    root: &str,
) -> Result<Option<Hold<R::File>>, Cause> {
    match wait_for_file(rt, &file, at, root) {
        Ok(true) => Ok(Some(Hold::old(rt, file, at))),
        Ok(false) => Ok(None),
        Err(e) => Err(e),
    }
}

/// Creates and locks the lock file. Returns `None` if another process created one first: the caller
/// starts again.
fn hold_new<R: System>(rt: &R, at: &str, root: &str) -> Result<Option<Hold<R::File>>, Cause> {
    match make_lock(rt, at) {
        Ok(file) => hold_made(rt, file, at, root),
        Err(e) if e.is(ErrorKind::AlreadyExists) => Ok(None),
        Err(e) => Err(e),
    }
}

fn make_lock<R: System>(rt: &R, at: &str) -> Result<R::File, Cause> {
    let made = OpenOptions::new()
        .write(true)
        .create_new(true)
        .mode(LOCK_BITS)
        .open(rt, at);
    known(made)
}

fn hold_made<R: System>(
    rt: &R,
    file: R::File,
    at: &str,
    root: &str,
) -> Result<Option<Hold<R::File>>, Cause> {
    match wait_for_file(rt, &file, at, root) {
        Ok(true) => open_to_all(rt, file, at),
        Ok(false) => Ok(None),
        Err(e) => Err(e),
    }
}

/// Sets the permission bits of the new lock file once it is locked, so that all may read it,
/// whatever the umask.
fn open_to_all<R: System>(rt: &R, file: R::File, at: &str) -> Result<Option<Hold<R::File>>, Cause> {
    match known(file.set_permissions(Permissions::from_mode(LOCK_BITS))) {
        Ok(()) => Ok(Some(Hold::made(rt, file, at))),
        Err(e) => Err(e),
    }
}

/// Takes the exclusive lock of the lock file, and returns whether the file is still at the path.
fn wait_for_file<R: System>(rt: &R, file: &R::File, at: &str, root: &str) -> Result<bool, Cause> {
    let wanted = Wanted {
        at,
        access: Access::Change,
        doing: WORKS,
        root,
    };
    match wait(rt, file, wanted) {
        Ok(()) => stands_at(rt, file, at),
        Err(e) => Err(e),
    }
}
