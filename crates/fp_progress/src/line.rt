//! The progress of a command, as one line that is rewritten in place.
use crate::seen::seen_at;
use crate::shown::{COLUMNS, line_of};
use crate::task::Task;
use crate::work::{Phase, Watch, Work};
use std::alloc::Global;
use std::cell::{Cell, RefCell};
use std::io::Eprint;
use std::time::{Clock, Duration};

/// The milliseconds from a command's start to its first line.
const FIRST: u64 = 500;

/// The milliseconds between two lines.
const BETWEEN: u64 = 100;

/// Spaces that overwrite a line.
const BLANK: &str =
    "                                                                               ";

/// The progress of a command. If it takes longer than half a second, a line without a newline shows
/// on standard error what the command does, its current phase and how much of it is done. The line
/// is rewritten in place, at most ten times a second. If standard error is no terminal, or there is
/// no clock, no line is printed, and only `has_listed_objects` works.
pub struct Progress<'a, R> {
    rt: &'a R,
    alloc: Global,
    // The time of the next line, by the monotonic clock; none if no line is to be printed.
    next: Cell<Option<Duration>>,
    // Whether a line is on the screen.
    is_shown: Cell<bool>,
    // Whether the directory of the store's objects was listed.
    is_listed: Cell<bool>,
    work: RefCell<Work>,
}

impl<R> Drop for Progress<'_, R> {
    fn drop(self) {
        let Progress {
            rt: _,
            alloc: _,
            next: _,
            is_shown: _,
            is_listed: _,
            work: _,
        } = self;
    }
}

impl<'a, R: Clock> Progress<'a, R> {
    /// Creates the progress of a command that starts now. `is_terminal` tells whether standard
    /// error is a terminal.
    pub fn new(rt: &'a R, alloc: Global, task: Task, is_terminal: bool) -> Self {
        let next = if is_terminal {
            time_in(rt, FIRST)
        } else {
            None
        };
        Progress {
            rt,
            alloc,
            next: Cell::new(next),
            is_shown: Cell::new(false),
            is_listed: Cell::new(false),
            work: RefCell::new(Work::new(alloc, task)),
        }
    }
}

/// Returns the time in this many milliseconds, or `None` if the clock fails.
fn time_in<R: Clock>(rt: &R, millis: u64) -> Option<Duration> {
    match rt.monotonic() {
        Ok(now) => now.checked_add(Duration::from_millis(millis)),
        Err(_) => None,
    }
}

impl<R: Clock + Eprint> Progress<'_, R> {
    /// Notes that a file of a remote or of the host is opened for reading. Returns what its bytes
    /// contain.
    pub(crate) fn note_open(&self, path: &str, is_remote: bool) -> Watch {
        if self.next.get().is_none() {
            return Watch::Nothing;
        }
        let watch = match self.work.try_borrow_mut() {
            Ok(mut work) => work.open(seen_at(path), is_remote),
            Err(_) => Watch::Nothing,
        };
        self.show();
        watch
    }

    /// Notes bytes that were read from an open file.
    pub(crate) fn note_read(&self, watch: Watch, bytes: &[u8]) {
        if watch == Watch::Nothing {
            return;
        }
        if let Ok(mut work) = self.work.try_borrow_mut() {
            work.read(watch, bytes);
        }
        self.show();
    }

    /// Notes that the phase made this many steps, and makes it the current one.
    pub(crate) fn note_step(&self, phase: Phase, count: usize) {
        if self.next.get().is_none() {
            return;
        }
        if let Ok(mut work) = self.work.try_borrow_mut() {
            work.step(phase, count as u64);
        }
        self.show();
    }

    /// Notes one step of the phase if it is the current one.
    pub(crate) fn note_step_on(&self, phase: Phase) {
        if self.next.get().is_none() {
            return;
        }
        if let Ok(mut work) = self.work.try_borrow_mut() {
            work.step_on(phase);
        }
    }

    /// Notes that the directory of the store's objects is listed.
    pub(crate) fn note_listed(&self) {
        self.is_listed.set(true);
    }

    /// Returns whether the directory of the store's objects was listed. A change lists it after it
    /// has found which objects are used. If it didn't list it, an object that it had to read for
    /// that may be missing or damaged.
    pub fn has_listed_objects(&self) -> bool {
        self.is_listed.get()
    }

    /// Erases the line, so that something else can be printed.
    pub(crate) fn clear(&self) {
        if self.is_shown.get() {
            self.is_shown.set(false);
            let _said = eprint!(self.rt; "\r{BLANK}\r");
        }
    }

    /// Erases the line, and prints none from then on.
    pub fn end(&self) {
        self.next.set(None);
        self.clear();
    }

    fn show(&self) {
        if self.is_due() {
            self.is_shown.set(true);
            self.write();
            self.next.set(time_in(self.rt, BETWEEN));
        }
    }

    fn is_due(&self) -> bool {
        match self.next.get() {
            Some(next) => self.is_after(next),
            None => false,
        }
    }

    fn is_after(&self, next: Duration) -> bool {
        match self.rt.monotonic() {
            Ok(now) => now >= next,
            Err(_) => false,
        }
    }

    /// Writes the line over the previous one. If memory runs out, writes nothing.
    fn write(&self) {
        if let Ok(work) = self.work.try_borrow()
            && let Ok(line) = line_of(self.alloc, &work)
        {
            let rest = BLANK.get(line.len().min(COLUMNS)..).unwrap_or("");
            let _said = eprint!(self.rt; "\r{line}{rest}");
        }
    }
}
