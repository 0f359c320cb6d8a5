//! A file that stays open between reads.
ghost use Rattle.std.specs.Prelude.{◌≤◌, length, IfOk};

use crate::cause::{Cause, known};
use crate::reading::fill;
use std::alloc::Global;
use std::fs;
use std::io::{Read, Seek, SeekFrom};
use std::rt::Files;

/// The largest offset that a file can have, in bytes.
const LONGEST: u64 = i64::MAX as u64;

/// At most one open file, with its path and the offset of the next read.
pub struct Reader<F> {
    at: String,
    file: Option<F>,
    place: u64,
}

impl<F: Drop> Drop for Reader<F> {
    fn drop(self) {
        let Reader {
            at: _,
            file: _,
            place: _,
        } = self;
    }
}

impl<F: Drop> Reader<F> {
    /// Creates a reader without an open file.
    pub fn nothing(alloc: Global) -> Self {
        Reader {
            at: String::new(alloc),
            file: None,
            place: 0,
        }
    }

    /// Closes the file at the path if it is the open one. Called when it was removed, moved or
    /// replaced.
    pub fn close_at(&mut self, at: &str) {
        if self.at.as_str() == at {
            self.file = None;
        }
    }

    /// Returns whether a read has to open the file first: it begins at the offset 0, or this file
    /// isn't the open one.
    pub fn begins(&self, at: &str, from: u64) -> bool {
        from == 0 || self.file.is_none() || self.at.as_str() != at
    }

    /// Keeps the file open, and closes the previous one.
    fn keep(&mut self, at: &str, file: F) -> Result<(), Cause> {
        self.at.clear();
        self.place = 0;
        match self.at.push_str(at) {
            Ok(()) => {
                self.file = Some(file);
                Ok(())
            }
            Err(_) => {
                self.file = None;
                Err(Cause::NoMemory)
            }
        }
    }
}

impl<F: Read + Seek + Drop> Reader<F> {
    /// Reads the open file from the byte offset `from` on, until the buffer is full or the file
    /// ends. Returns the number of bytes read, 0 if no file is open. Call `open` first if `begins`
    /// returns true.
    pub fn read(&mut self, from: u64, into: &mut [u8]) -> Result<usize, Cause>
        ensures { IfOk result (λ n. n ≤ length into.old) }
    {
        match &mut self.file {
            Some(file) if from <= LONGEST => read_from(file, &mut self.place, from, into),
            _ => Ok(0),
        }
    }

    /// Opens the file at the path, and closes the previous one.
    pub fn open<R: Files<File = F>>(&mut self, rt: &R, at: &str) -> Result<(), Cause> {
        match known(fs::open(rt, at)) {
            Ok(file) => self.keep(at, file),
            Err(e) => Err(e),
        }
    }
}

/// Reads from the byte offset `from` on, and stores the offset of the next read in `place`.
fn read_from<F: Read + Seek>(
    file: &mut F,
    place: &mut u64,
    from: u64,
    into: &mut [u8],
) -> Result<usize, Cause>
    ensures { IfOk result (λ n. n ≤ length into.old) }
{
    if *place != from {
        *place = u64::MAX;
        known(file.seek(SeekFrom::Start(from)))?;
    }
    read_on(file, place, from, into)
}

fn read_on<F: Read>(
    file: &mut F,
    place: &mut u64,
    from: u64,
    into: &mut [u8],
) -> Result<usize, Cause>
    ensures { IfOk result (λ n. n ≤ length into.old) }
{
    let done = fill(file, into);
    *place = match done {
        Ok(n) => from.saturating_add(n as u64),
        Err(_) => u64::MAX,
    };
    done
}
