//! The locked lock file of a change, and its mark for unsynced changes.
use crate::text::{CLEARED, UNKNOWN, is_mark, is_start};
use fp_system::{Cause, known};
use std::fs::OpenFile;
use std::io::{Seek, SeekFrom, Write};
use std::rt::Files;
use std::{fs, io};

/// The file in which Linux reports the boot id, a text that differs after each start of the
/// machine.
const BOOT_ID: &str = "/proc/sys/kernel/random/boot_id";

/// A lock file that is open and locked. While changes are unsynced it contains the boot id as a
/// mark. What an earlier boot left is on the disk, so its mark means nothing. All texts have the
/// same length and overwrite each other: only the first write to a new lock file needs a block of
/// the disk.
pub struct Hold<F> {
    file: F,
    boot: Option<String>,
    mark: Marking,
}

/// The state of the mark, as far as it is known.
#[derive(Clone, Copy, PartialEq, Eq)]
enum Marking {
    Absent,
    // The text that this command writes.
    Ours,
    // Another text, one that was written over a mark, or a mark that could not be cleared.
    Other,
}

impl<F: Drop> Drop for Hold<F> {
    fn drop(self) {
        let Hold {
            file: _,
            boot: _,
            mark: _,
        } = self;
    }
}

impl<F: Write + Seek + OpenFile + Drop> Hold<F> {
    /// Creates the hold of a locked file that existed before.
    pub fn old<R: Files<File = F> + AllocGlobal>(rt: &R, file: F, at: &str) -> Self {
        let boot = read_start(rt);
        let mark = find_mark(rt, at, &boot);
        Hold { file, boot, mark }
    }

    /// Creates the hold of a locked file that this process created.
    pub fn made<R: Files<File = F> + AllocGlobal>(rt: &R, file: F, at: &str) -> Self {
        let boot = read_start(rt);
        let mark = find_mark_of_made(rt, &file, at, &boot);
        Hold { file, boot, mark }
    }

    /// Returns whether there is a mark: a change may be unsynced.
    pub fn is_marked(&self) -> bool {
        self.mark != Marking::Absent
    }

    /// Writes the mark before a change, unless it is written already.
    pub fn mark(&mut self) -> Result<(), Cause> {
        if self.mark == Marking::Ours {
            return Ok(());
        }
        let marked = known(write_text(&mut self.file, mark_of(&self.boot)));
        if marked.is_ok() {
            self.mark = Marking::Ours;
        }
        marked
    }

    /// Clears the mark after a sync.
    pub fn clear(&mut self) -> Result<(), Cause> {
        if self.mark == Marking::Absent {
            return Ok(());
        }
        let cleared = known(write_cleared(&mut self.file));
        self.mark = if cleared.is_ok() {
            Marking::Absent
        } else {
            Marking::Other
        };
        cleared
    }
}

/// Returns the boot id, if the system reports it.
fn read_start<R: Files + AllocGlobal>(rt: &R) -> Option<String> {
    match fs::read_to_string(rt, BOOT_ID) {
        Ok(text) if is_start(text.as_str()) => Some(text),
        _ => None,
    }
}

fn mark_of(boot: &Option<String>) -> &str {
    match boot {
        Some(text) => text.as_str(),
        None => UNKNOWN,
    }
}

/// Reads the mark of the file. A file that can't be read may contain one.
fn find_mark<R: Files + AllocGlobal>(rt: &R, at: &str, boot: &Option<String>) -> Marking {
    match fs::read_to_string(rt, at) {
        Ok(text) if text.as_str() == mark_of(boot) => Marking::Ours,
        Ok(text) if !is_mark(text.as_str(), boot) => Marking::Absent,
        _ => Marking::Other,
    }
}

/// Reads the mark of a file that this process created. An empty file has none: nothing was changed
/// yet.
fn find_mark_of_made<R: Files + AllocGlobal>(
    rt: &R,
    file: &R::File,
    at: &str,
    boot: &Option<String>,
) -> Marking {
    match file.metadata() {
        Ok(found) if found.len() == 0 => Marking::Absent,
        _ => find_mark(rt, at, boot),
    }
}

fn write_cleared<F: Write + Seek + OpenFile>(file: &mut F) -> io::Result<()> {
    match write_text(file, CLEARED) {
        Ok(()) => cut_rest(file),
        Err(e) => Err(e),
    }
}

/// Overwrites the start of the file.
fn write_text<F: Write + Seek>(file: &mut F, text: &str) -> io::Result<()> {
    match file.seek(SeekFrom::Start(0)) {
        Ok(_) => file.write_all(text.as_bytes()),
        Err(e) => Err(e),
    }
}

/// Truncates the file to the length of a mark.
fn cut_rest<F: OpenFile>(file: &F) -> io::Result<()> {
    let length = CLEARED.len() as u64;
    match file.metadata() {
        Ok(found) if found.len() > length => file.set_len(length),
        Ok(_) => Ok(()),
        Err(e) => Err(e),
    }
}
