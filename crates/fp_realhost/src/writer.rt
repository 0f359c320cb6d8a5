//! The file that was written last.
use crate::below::is_below;
use fp_realroot::{OpenFiles, open_own, open_to_read};
use fp_system::{Call, Cause, NewFile, PathMap, Unsynced, create_new, date, give_bits, known};
use std::alloc::Global;
use std::fs::{OpenFile, OpenOptions};
use std::io::Write;
use std::rt::Files;

/// At most one file that is open for writing, with its path. An object that waits to be stored gets
/// the modification time 0 while it is open.
pub struct Writer<F> {
    // The directory below which objects wait to be stored.
    waiting: String,
    at: String,
    file: Option<F>,
    // The objects whose modification time is set, and which were not written since.
    dated: PathMap<()>,
}

impl<F: Drop> Drop for Writer<F> {
    fn drop(self) {
        let Writer {
            waiting: _,
            at: _,
            file: _,
            dated: _,
        } = self;
    }
}

impl<F: Drop> Writer<F> {
    /// Creates a writer without an open file. Objects wait to be stored below the directory
    /// `waiting`.
    pub fn nothing(alloc: Global, waiting: String) -> Self {
        Writer {
            waiting,
            at: String::new(alloc),
            file: None,
            dated: PathMap::new(alloc),
        }
    }

    /// Closes the file at the path if it is the open one. Called when it was removed, moved or
    /// replaced.
    pub fn close_at(&mut self, at: &str) {
        self.dated.remove(at);
        if self.at.as_str() == at {
            self.file = None;
        }
    }

    /// Returns whether the file at the path gets the modification time 0 once it is written.
    pub fn dates(&self, at: &str) -> bool {
        is_below(at, &self.waiting)
    }

    /// Notes that the file at the path has the modification time 0.
    pub fn add_dated(&mut self, at: &str) {
        let _noted = self.dated.put(at, ());
    }

    fn is_at(&self, at: &str) -> bool {
        self.file.is_some() && self.at.as_str() == at
    }

    /// Keeps the file open, and closes the previous one.
    fn keep(&mut self, at: &str, file: F) -> Result<(), Cause> {
        self.at.clear();
        match self.at.push_str(at) {
            Ok(()) => {
                self.file = Some(file);
                Ok(())
            }
            Err(_) => {
                self.file = None;
                Err(Cause::NoMemory)
            }
        }
    }
}

impl<F: Write + OpenFile + Drop> Writer<F> {
    /// Keeps a new file open and sets exactly these permission bits, unless it is known to have
    /// them.
    pub fn keep_new(&mut self, at: &str, file: F, mode: u32, is_given: bool) -> Result<(), Cause> {
        let given = if is_given {
            Ok(())
        } else {
            give_bits(&file, mode)
        };
        match self.keep(at, file) {
            Ok(()) => given,
            Err(e) => Err(e),
        }
    }

    /// Ends writing the open file, and keeps it among those that wait for a sync. An object that
    /// waits to be stored gets the modification time 0; if that fails, it is set before the object
    /// is moved.
    pub fn finish(&mut self, open: &mut OpenFiles<F>) {
        if let Some(file) = self.file.take() {
            if is_below(&self.at, &self.waiting) && date(&file).is_ok() {
                let _noted = self.dated.put(&self.at, ());
            }
            open.keep(&self.at, file);
        }
    }

    /// Creates a file with its content and keeps it open. More bytes may be appended to it.
    pub fn make<R: Files<File = F>>(
        &mut self,
        rt: &R,
        file: &NewFile,
        open: &mut OpenFiles<F>,
    ) -> Result<(), Unsynced> {
        match self.create(rt, file, open) {
            Ok(()) => self.fill(&file.bytes),
            Err(cause) => Err(Unsynced {
                call: Call::Create,
                cause,
            }),
        }
    }

    fn create<R: Files<File = F>>(
        &mut self,
        rt: &R,
        file: &NewFile,
        open: &mut OpenFiles<F>,
    ) -> Result<(), Cause> {
        match create_new(rt, &file.at, file.mode) {
            Ok(opened) => {
                self.finish(open);
                self.keep_new(&file.at, opened, file.mode, file.is_granted)
            }
            Err(e) => Err(e),
        }
    }

    fn fill(&mut self, bytes: &[u8]) -> Result<(), Unsynced> {
        match self.write(bytes) {
            Ok(()) => Ok(()),
            Err(cause) => Err(Unsynced {
                call: Call::Append,
                cause,
            }),
        }
    }

    /// Appends to one of fpk's own files.
    pub fn append<R: Files<File = F>>(
        &mut self,
        rt: &R,
        at: &str,
        bytes: &[u8],
        open: &mut OpenFiles<F>,
    ) -> Result<(), Cause> {
        self.dated.remove(at);
        if self.is_at(at) {
            return self.write(bytes);
        }
        self.finish(open);
        match self.open(rt, at) {
            Ok(()) => self.write(bytes),
            Err(e) => Err(e),
        }
    }

    fn write(&mut self, bytes: &[u8]) -> Result<(), Cause> {
        match &mut self.file {
            Some(file) => known(file.write_all(bytes)),
            None => Err(Cause::NotNew),
        }
    }

    fn open<R: Files<File = F>>(&mut self, rt: &R, at: &str) -> Result<(), Cause> {
        match open_own(rt, OpenOptions::new().append(true), at) {
            Ok(file) => self.keep(at, file),
            Err(e) => Err(e),
        }
    }

    /// Sets the modification time of one of fpk's own files to 0, as OSTree does for stored
    /// objects, unless that is done already.
    pub fn date<R: Files<File = F>>(&self, rt: &R, at: &str) -> Result<(), Cause> {
        if self.dated.has(at) {
            return Ok(());
        }
        match &self.file {
            Some(file) if self.at.as_str() == at => date(file),
            _ => date_at(rt, at),
        }
    }
}

fn date_at<R: Files>(rt: &R, at: &str) -> Result<(), Cause> {
    match open_to_read(rt, at) {
        Ok(file) => date(&file),
        Err(e) => Err(e),
    }
}
