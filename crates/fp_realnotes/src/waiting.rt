//! New files that wait in memory until they are created.
ghost use Rattle.std.specs.Prelude.{◌≤◌, length, IfSome};

use fp_system::{NewFile, PathMap};
use std::alloc::{AllocError, Global};
use std::mem::replace;

/// The number of waiting files from which on no other file is added.
const MOST_FILES: usize = 800;

/// The number of bytes in all waiting files from which on no other file is added.
const MOST_BYTES: usize = 8 * 1024 * 1024;

/// The largest length of one file in bytes.
const LARGEST: usize = 256 * 1024;

/// New files with their content, in the order of creation.
#[derive(Drop)]
pub struct Waiting {
    alloc: Global,
    // The index of each file in the list, by path.
    places: PathMap<usize>,
    files: Vec<NewFile>,
    // The number of bytes in all of them.
    size: usize,
}

/// Files that waited together.
#[derive(Drop)]
pub struct Batch {
    /// Their paths, each with the file's index.
    pub paths: PathMap<usize>,
    /// The files.
    pub files: Vec<NewFile>,
}

/// The result of appending bytes to a waiting file.
#[derive(Clone, Copy, PartialEq, Eq)]
pub enum Appended {
    /// The bytes are appended.
    Done,
    /// The file has to be created first: it would be too large to wait, memory ran out, or it
    /// doesn't wait.
    Unfit,
}

impl Waiting {
    /// Creates an empty list.
    pub fn nothing(alloc: Global) -> Self {
        Waiting {
            alloc,
            places: PathMap::new(alloc),
            files: Vec::new(alloc),
            size: 0,
        }
    }

    /// Returns whether no file waits.
    pub fn is_empty(&self) -> bool {
        self.files.is_empty()
    }

    /// Returns whether no other file is to be added.
    pub fn is_full(&self) -> bool {
        self.files.len() >= MOST_FILES || self.size >= MOST_BYTES
    }

    /// Returns whether the file at the path waits.
    pub fn has(&self, at: &str) -> bool {
        self.place_of(at).is_some()
    }

    /// Returns the index of the file at the path. Tries the last file first, since most calls ask
    /// for it.
    fn place_of(&self, at: &str) -> Option<usize> {
        match self.files.last() {
            None => None,
            Some(last) if last.at.as_str() == at => Some(self.files.len() - 1),
            Some(_) => self.places.get(at).copied(),
        }
    }

    /// Adds a file that is still empty. Errs if memory runs out; then it doesn't wait.
    pub fn add(&mut self, file: NewFile) -> Result<(), AllocError> {
        self.places.put(&file.at, self.files.len())?;
        match self.files.push(file) {
            Ok(()) => Ok(()),
            Err(refused) => {
                self.places.remove(refused.value.at.as_str());
                Err(AllocError)
            }
        }
    }

    /// Appends bytes to a waiting file.
    pub fn append(&mut self, at: &str, bytes: &[u8]) -> Appended {
        let place = self.place_of(at);
        match place.and_then(|place| self.files.get_mut(place)) {
            Some(file) if fits(file, bytes) => {
                self.size = self.size.saturating_add(bytes.len());
                extend(file, bytes)
            }
            _ => Appended::Unfit,
        }
    }

    /// Reads a waiting file from the byte offset `from` on. Returns the number of bytes read, or
    /// `None` if no file waits at the path.
    pub fn read(&self, at: &str, from: u64, into: &mut [u8]) -> Option<usize>
        ensures { IfSome result (λ n. n ≤ length into.old) }
    {
        let place = self.place_of(at)?;
        let file = self.files.get(place)?;
        Some(copy_from(file.bytes.as_slice(), from, into))
    }

    /// Removes and returns the file that was added last, if it is the one at the path.
    pub fn take_last(&mut self, at: &str) -> Option<NewFile> {
        match self.files.last() {
            Some(last) if last.at.as_str() == at => self.pop(),
            _ => None,
        }
    }

    fn pop(&mut self) -> Option<NewFile> {
        let last = self.files.pop();
        if let Some(file) = &last {
            self.places.remove(file.at.as_str());
            self.size = self.size.saturating_sub(file.bytes.len());
        }
        last
    }

    /// Removes and returns all files.
    pub fn take(&mut self) -> Batch {
        self.size = 0;
        Batch {
            paths: replace(&mut self.places, PathMap::new(self.alloc)),
            files: replace(&mut self.files, Vec::new(self.alloc)),
        }
    }
}

fn fits(file: &NewFile, bytes: &[u8]) -> bool {
    file.bytes.len().saturating_add(bytes.len()) <= LARGEST
}

fn extend(file: &mut NewFile, bytes: &[u8]) -> Appended {
    match file.bytes.extend_from_slice(bytes) {
        Ok(()) => Appended::Done,
        Err(_) => Appended::Unfit,
    }
}

/// Copies bytes from the offset `from` on, as many as fit or are left. Returns their number.
fn copy_from(bytes: &[u8], from: u64, into: &mut [u8]) -> usize
    ensures { result ≤ length into.old }
{
    let skipped = usize::try_from(from).unwrap_or(usize::MAX).min(bytes.len());
    let rest = &bytes[skipped..];
    let count = rest.len().min(into.len());
    into[..count].copy_from_slice(&rest[..count]);
    count
}
