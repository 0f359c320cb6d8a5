//! New files that are written and synced in one go.
use crate::syncing::Unsynced;
use crate::{Call, Cause, known};
use std::fs::{FileTimes, OpenFile, OpenOptions, Permissions};
use std::io::Write;
use std::os::unix::fs::{OpenOptionsExt, PermissionsExt};
use std::rt::Files;
use std::time::UNIX_EPOCH;

/// A file to create, with its content.
#[derive(Drop)]
pub struct NewFile {
    /// The file's path.
    pub at: String,
    /// The permission bits on the disk.
    pub mode: u32,
    /// Whether the umask is known to leave all these bits set, so that no `chmod` is needed.
    pub is_granted: bool,
    /// Whether the modification time is set to 0, the start of 1970.
    pub is_dated: bool,
    /// The file's content.
    pub bytes: Vec<u8>,
}

/// A part of a batch of new files. The files are created in order, so the created and synced ones
/// come first.
#[derive(Drop)]
pub struct Share {
    files: Vec<NewFile>,
    // The number of files that are created and synced.
    made: usize,
    // The reason why the next file could not be created or synced.
    met: Option<Unsynced>,
}

impl Share {
    /// Creates a share with none of these files created yet.
    pub fn unmade(files: Vec<NewFile>) -> Self {
        Share {
            files,
            made: 0,
            met: None,
        }
    }

    /// Returns the files that are created and synced.
    pub fn made(&self) -> &[NewFile] {
        match self.files.get(..self.made) {
            Some(files) => files,
            None => &[],
        }
    }

    /// Returns the path of the file that could not be created or synced, and the reason, or `None`
    /// if there was no failure.
    pub fn met(&self) -> Option<(&str, Unsynced)> {
        match (self.files.get(self.made), self.met) {
            (Some(file), Some(unsynced)) => Some((file.at.as_str(), unsynced)),
            (None, Some(unsynced)) => Some(("", unsynced)),
            _ => None,
        }
    }

    /// Returns whether creating a file failed with `EMFILE`: the process has too many open files.
    pub fn is_crowded(&self) -> bool {
        match self.met {
            Some(unsynced) => { unsynced.call == Call::Create && unsynced.cause.is_too_many_open() }
            None => false,
        }
    }

    /// Creates and syncs the remaining files in order, and stops at the first failure.
    pub fn make<R: Files>(&mut self, rt: &R) {
        self.met = None;
        for i in self.made..self.files.len() {
            self.made = i;
            self.met = make_at(rt, &self.files, i);
            if self.met.is_some() {
                return;
            }
        }
        self.made = self.files.len();
    }
}

fn make_at<R: Files>(rt: &R, files: &[NewFile], place: usize) -> Option<Unsynced> {
    match files.get(place) {
        Some(file) => make_file(rt, file).err(),
        None => None,
    }
}

fn make_file<R: Files>(rt: &R, file: &NewFile) -> Result<(), Unsynced> {
    match create_new(rt, &file.at, file.mode) {
        Ok(mut opened) => fill_new(&mut opened, file),
        Err(cause) => unsynced(Call::Create, cause),
    }
}

fn fill_new<F: Write + OpenFile>(opened: &mut F, file: &NewFile) -> Result<(), Unsynced> {
    if !file.is_granted {
        told(Call::Create, give_bits(opened, file.mode))?;
    }
    told(Call::Append, known(opened.write_all(&file.bytes)))?;
    if file.is_dated {
        told(Call::Date, date(opened))?;
    }
    told(Call::Sync, known(opened.sync_all()))
}

fn told(call: Call, done: Result<(), Cause>) -> Result<(), Unsynced> {
    match done {
        Ok(()) => Ok(()),
        Err(cause) => unsynced(call, cause),
    }
}

fn unsynced(call: Call, cause: Cause) -> Result<(), Unsynced> {
    Err(Unsynced { call, cause })
}

/// Creates a new file, opened to append. Errs if something exists at the path. The umask may clear
/// some of its permission bits.
pub fn create_new<R: Files>(rt: &R, at: &str, mode: u32) -> Result<R::File, Cause> {
    let created = OpenOptions::new()
        .append(true)
        .create_new(true)
        .mode(mode)
        .open(rt, at);
    known(created)
}

/// Sets exactly these permission bits on an open file, whatever the umask.
pub fn give_bits<F: OpenFile>(file: &F, mode: u32) -> Result<(), Cause> {
    known(file.set_permissions(Permissions::from_mode(mode)))
}

/// Sets the modification time of an open file to 0, the start of 1970, as OSTree does for stored
/// objects.
pub fn date<F: OpenFile>(file: &F) -> Result<(), Cause> {
    known(file.set_times(FileTimes::new().set_modified(UNIX_EPOCH)))
}
