//! The log of a test: the changes that its system is asked for, in order, and the first line that
//! doesn't hold.
use crate::words::{number, pair};
use std::alloc::Global;
use std::cell::Cell;
use std::io;

/// The difference of a `Logged` system from the real one.
#[derive(Clone, Copy)]
pub enum Kind<'a> {
    /// No difference.
    Plain,
    /// Each call that is logged as this line fails, and isn't done.
    Failing(&'a str),
    /// Another process holds each lock until it is waited for.
    Busy,
    /// Another process holds each lock, also when the first wait, of some seconds, ends.
    Stuck,
    /// Another process holds each lock until it is waited for. During each of the first waits, of
    /// this number, the locked file or directory is removed. The flag tells whether a new one is
    /// then in its place.
    Losing(u64, bool),
    /// Lookups and listings are logged, too.
    TellingLooks,
    /// The file or directory at this path can't be opened for lack of permission (`EACCES`).
    Denying(&'a str),
    /// No hard link can be made (`EMLINK`), and each call that is logged as this line fails.
    Crowded(&'a str),
    /// At most this many files can be open (`EMFILE`).
    Narrow(u64),
    /// The file at this path is read in place of `/proc/self/limits`.
    Limited(&'a str),
    /// Each reading of the monotonic clock is one second after the previous one.
    Slow,
}

/// Parses how the system differs, from the rest of a tale's first line. An unknown word means no
/// difference.
pub(crate) fn kind_of(text: &str) -> Kind<'_> {
    let (word, rest) = pair(text);
    match word {
        "failing" => Kind::Failing(rest),
        "busy" => Kind::Busy,
        "stuck" => Kind::Stuck,
        "replacing" => Kind::Losing(number(rest), true),
        "removing" => Kind::Losing(number(rest), false),
        "telling-looks" => Kind::TellingLooks,
        "denying" => Kind::Denying(rest),
        "crowded" => Kind::Crowded(rest),
        "narrow" => Kind::Narrow(number(rest)),
        "limited" => Kind::Limited(rest),
        _ => Kind::Plain,
    }
}

/// The errno `EMLINK` of Linux: the file has too many hard links.
const CROWDED: i32 = 31;

/// The errno `EMFILE` of Linux: the process has too many open files.
const NARROW: i32 = 24;

/// The file in which Linux reports the limits of a process.
const LIMITS: &str = "/proc/self/limits";

/// The log of a test: the calls since it was read last, and the first line of a test that didn't
/// hold.
#[derive(Drop)]
pub struct Log<'a> {
    /// The allocator of the test.
    pub alloc: Global,
    lines: Cell<String>,
    kind: Kind<'a>,
    // The number of waits for a lock that were counted for `Losing`.
    lost: Cell<u64>,
    // The number of open files.
    open: Cell<u64>,
    // The number of readings of the clock.
    seconds: Cell<u64>,
    is_wrong: Cell<bool>,
    wrong: Cell<String>,
}

impl<'a> Log<'a> {
    /// Creates a log with no calls, in which everything holds so far.
    pub fn new(alloc: Global, kind: Kind<'a>) -> Self {
        Log {
            alloc,
            lines: Cell::new(String::new(alloc)),
            kind,
            lost: Cell::new(0),
            open: Cell::new(0),
            seconds: Cell::new(0),
            is_wrong: Cell::new(false),
            wrong: Cell::new(String::new(alloc)),
        }
    }

    /// Notes a line or row of a test if it doesn't hold. Only the first one is kept.
    pub fn demand(&self, holds: bool, row: usize, what: &str) {
        if holds || self.is_wrong.replace(true) {
            return;
        }
        if let Ok(text) = format!(in self.alloc; "row {row}: {what}") {
            self.wrong.set(text);
        }
    }

    /// Returns whether all lines and rows held. If one didn't, prints the first on standard error.
    pub fn all_held(&self, rt: &HostRuntime) -> bool {
        let is_wrong = self.is_wrong.get();
        if is_wrong {
            let wrong = self.wrong.replace(String::new(self.alloc));
            let _said = eprintln!(rt; "{wrong}");
        }
        !is_wrong
    }

    /// Logs a call. Returns whether it is to be done: not if it is to fail, or memory ran out.
    pub(crate) fn lets(&self, what: &str, at: &str) -> bool {
        let mut lines = self.take();
        let is_noted = add_line(&mut lines, what, at);
        self.lines.set(lines);
        is_noted && !self.fails(what, at)
    }

    pub(crate) fn lets_look(&self, at: &str) -> bool {
        match self.kind {
            Kind::TellingLooks => self.lets("look", at),
            _ => true,
        }
    }

    fn fails(&self, what: &str, at: &str) -> bool {
        match self.kind {
            Kind::Failing(line) | Kind::Crowded(line) => is_line(line, what, at),
            _ => false,
        }
    }

    /// Returns whether the file or directory at the path can't be opened. The path of a directory
    /// may end with a slash.
    pub(crate) fn denies(&self, at: &str) -> bool {
        match self.kind {
            Kind::Denying(denied) => at.strip_suffix('/').unwrap_or(at) == denied,
            _ => false,
        }
    }

    /// Returns whether no hard link can be made.
    pub(crate) fn is_crowded(&self) -> bool {
        matches!(self.kind, Kind::Crowded(_))
    }

    /// Returns whether no more files can be open.
    pub(crate) fn is_full(&self) -> bool {
        match self.kind {
            Kind::Narrow(most) => self.open.get() >= most,
            _ => false,
        }
    }

    /// Returns the path of the file that is read in place of `/proc/self/limits`; none for every
    /// other path, and if there is no such file.
    pub(crate) fn limits_for(&self, at: &str) -> Option<&'a str> {
        match self.kind {
            Kind::Limited(limits) if at == LIMITS => Some(limits),
            _ => None,
        }
    }

    /// Returns the next time of the slow clock in seconds; none if the system's clock is read.
    pub(crate) fn next_second(&self) -> Option<u64> {
        match self.kind {
            Kind::Slow => Some(self.seconds.replace(self.seconds.get().saturating_add(1))),
            _ => None,
        }
    }

    pub(crate) fn add_open(&self) {
        self.open.set(self.open.get().saturating_add(1));
    }

    pub(crate) fn add_closed(&self) {
        self.open.set(self.open.get().saturating_sub(1));
    }

    pub(crate) fn is_busy(&self) -> bool {
        matches!(self.kind, Kind::Busy | Kind::Stuck | Kind::Losing(_, _))
    }

    pub(crate) fn is_stuck(&self) -> bool {
        matches!(self.kind, Kind::Stuck)
    }

    /// Returns whether a new file or directory is in the place of a locked one that is removed
    /// while its lock is waited for; none if it isn't removed.
    pub(crate) fn loses(&self) -> Option<bool> {
        match self.kind {
            Kind::Losing(times, comes) if self.counts_to(times) => Some(comes),
            _ => None,
        }
    }

    /// Counts one more, and returns whether fewer than this many were counted before.
    fn counts_to(&self, times: u64) -> bool {
        let lost = self.lost.get();
        self.lost.set(lost.saturating_add(1));
        lost < times
    }

    /// Logs a call of which nothing else is done. Errs if it is to fail.
    pub(crate) fn answer(&self, what: &str, at: &str) -> io::Result<()> {
        if self.lets(what, at) {
            Ok(())
        } else {
            Err(out())
        }
    }

    /// Returns the calls since the last time and removes them from the log. Each ends with a
    /// semicolon and a space.
    pub fn take(&self) -> String {
        self.lines.replace(String::new(self.alloc))
    }

    /// Removes the calls from the log.
    pub(crate) fn forget(&self) {
        self.lines.set(String::new(self.alloc));
    }

    /// Returns whether exactly these calls, separated by a semicolon and a space, were logged since
    /// the last time. Removes them from the log.
    pub fn is_noted(&self, want: &str) -> bool {
        let noted = self.take();
        noted.strip_suffix("; ").unwrap_or("") == want
    }

    /// Returns whether exactly this one call was logged since the last time. Removes it from the
    /// log.
    pub fn is_one(&self, what: &str, at: &str) -> bool {
        match self.take().strip_suffix("; ") {
            Some(line) => is_line(line, what, at),
            None => false,
        }
    }

    /// Returns the number of syncs since the last time of files whose paths contain `/f`. Removes
    /// all calls from the log.
    pub(crate) fn count_synced(&self) -> u64 {
        let noted = self.take();
        let mut count = 0u64;
        for call in noted.split("; ") {
            count = count.saturating_add(is_sync_of_number(call) as u64);
        }
        count
    }
}

fn add_line(lines: &mut String, what: &str, at: &str) -> bool {
    lines.push_str(what).is_ok()
        && lines.push(' ').is_ok()
        && lines.push_str(at).is_ok()
        && lines.push_str("; ").is_ok()
}

fn is_sync_of_number(call: &str) -> bool {
    call.starts_with("sync ") && call.contains("/f")
}

fn is_line(line: &str, what: &str, at: &str) -> bool {
    match line.strip_prefix(what) {
        Some(rest) => rest.strip_prefix(' ') == Some(at),
        None => false,
    }
}

/// The errno `EACCES` of Linux: permission is lacking.
const DENIED: i32 = 13;

/// Returns the error `EACCES`.
pub(crate) fn denied() -> io::Error {
    io::Error::from_raw_os_error(DENIED)
}

/// Returns the error `EMLINK`.
pub(crate) fn crowded() -> io::Error {
    io::Error::from_raw_os_error(CROWDED)
}

/// Returns the error `EMFILE`.
pub(crate) fn narrow() -> io::Error {
    io::Error::from_raw_os_error(NARROW)
}

/// Returns the error of a call that is made to fail. It has no errno.
pub(crate) fn out() -> io::Error {
    io::Error::other("the cable is out")
}
