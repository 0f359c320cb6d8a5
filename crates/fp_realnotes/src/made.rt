//! The directories, files and symlinks that this host made.
ghost use Rattle.std.specs.Prelude.{IfSome};
ghost use Rattle.fp_host.specs.Reads.{HasBits};

use crate::contents::{Contents, MadeFile};
use fp_base::Text;
use fp_host::Stat;
use fp_system::{PathMap, split_name};
use std::alloc::{AllocError, Global};

/// The directories, files and symlinks that this host made. A directory that it made contains only
/// what it made there, unless another program adds something.
#[derive(Drop)]
pub struct Made {
    alloc: Global,
    // The names added to each directory.
    folders: PathMap<Contents>,
    // Whether all changes could be noted, and everything was made as asked.
    is_whole: bool,
    // Whether no file with several names was written: its length would be noted under one name
    // only.
    has_sizes: bool,
    // The number of files created.
    count: u64,
}

impl Made {
    /// Creates an empty record.
    pub fn nothing(alloc: Global) -> Self {
        Made {
            alloc,
            folders: PathMap::new(alloc),
            is_whole: true,
            has_sizes: true,
            count: 0,
        }
    }

    fn file(&self, at: &str) -> Option<&MadeFile> {
        let (folder, name) = split_name(at);
        match self.folders.get(folder) {
            Some(contents) => contents.file(name),
            None => None,
        }
    }

    fn file_mut(&mut self, at: &str) -> Option<&mut MadeFile> {
        let (folder, name) = split_name(at);
        match self.folders.get_mut(folder) {
            Some(contents) => contents.file_mut(name),
            None => None,
        }
    }

    /// Returns whether a regular file that this host created is at the path.
    pub fn is_file(&self, at: &str) -> bool {
        self.file(at).is_some()
    }

    /// Returns the status of a file that this host created, if it is known. Its id isn't an inode
    /// number: ids count down from the largest number.
    pub fn stat(&self, at: &str) -> Option<Stat>
        ensures { IfSome result HasBits }
    {
        if !self.is_whole || !self.has_sizes {
            return None;
        }
        match self.file(at) {
            Some(file) => file.stat(),
            None => None,
        }
    }

    /// Returns whether the path, or its parent directory, is known to be absent.
    pub fn is_absent(&self, at: &str) -> bool {
        if !self.is_whole {
            return false;
        }
        let (folder, name) = split_name(at);
        match self.folders.get(folder) {
            Some(contents) if contents.is_made => contents.lacks(name),
            _ => self.lacks(folder),
        }
    }

    fn lacks(&self, at: &str) -> bool {
        let (folder, name) = split_name(at);
        match self.folders.get(folder) {
            Some(contents) => contents.lacks(name),
            None => false,
        }
    }

    /// Returns the names in a directory that this host made.
    fn made(&self, at: &str) -> Option<&Contents> {
        match self.folders.get(at) {
            Some(contents) if self.is_whole && contents.is_made => Some(contents),
            _ => None,
        }
    }

    /// Returns whether all names in the directory are known, since this host made it.
    pub fn has_names(&self, at: &str) -> bool {
        self.made(at).is_some()
    }

    /// Returns the names in a directory that this host made, in no particular order.
    pub fn names(&self, alloc: Global, at: &str) -> Option<Result<Vec<Text>, AllocError>> {
        match self.made(at) {
            Some(contents) => Some(contents.names(alloc)),
            None => None,
        }
    }

    fn keep(&mut self, noted: Result<(), AllocError>) {
        self.is_whole &= noted.is_ok();
    }

    /// Notes a new empty file with these permission bits.
    pub fn add_file(&mut self, at: &str, mode: u32) {
        self.count = self.count.saturating_add(1);
        let file = MadeFile {
            id: u64::MAX - self.count,
            mode,
            size: Some(0),
        };
        self.put(at, Some(file));
    }

    /// Notes that a file or something else was put at the path.
    fn put(&mut self, at: &str, file: Option<MadeFile>) {
        let (folder, name) = split_name(at);
        let noted = match self.folders.get_mut(folder) {
            Some(contents) => contents.put(self.alloc, name, file),
            None => self.put_first(folder, name, file),
        };
        self.keep(noted);
    }

    /// Notes the first name in a directory that this host didn't make.
    fn put_first(
        &mut self,
        folder: &str,
        name: &str,
        file: Option<MadeFile>,
    ) -> Result<(), AllocError> {
        let mut contents = Contents::nothing(self.alloc, false);
        contents.put(self.alloc, name, file)?;
        self.folders.put(folder, contents)
    }

    /// Notes that this many bytes were appended to a file.
    pub fn add_bytes(&mut self, at: &str, count: usize) {
        if let Some(file) = self.file_mut(at) {
            file.grow(count);
        }
    }

    /// Notes that the status of a file is unknown.
    pub fn doubt_file(&mut self, at: &str) {
        if let Some(file) = self.file_mut(at) {
            file.size = None;
        }
    }

    /// Notes that a file was written that may have several names.
    pub fn doubt_sizes(&mut self) {
        self.has_sizes = false;
    }

    /// Notes that something may have been made, but not as asked. From then on no absence, list of
    /// names or status is known.
    pub fn doubt_folder(&mut self) {
        self.is_whole = false;
    }

    /// Notes a symlink, or something else of which nothing more is known.
    pub fn add_other(&mut self, at: &str) {
        self.put(at, None);
    }

    /// Notes a new directory.
    pub fn add_folder(&mut self, at: &str) {
        let contents = Contents::nothing(self.alloc, true);
        let noted = self.folders.put(at, contents);
        self.keep(noted);
        self.add_other(at);
    }

    /// Notes that the second path became a hard link of the file at the first.
    pub fn add_linked(&mut self, from: &str, to: &str) {
        let file = self.file(from).copied();
        self.put(to, file);
    }

    /// Notes that the file or symlink was moved to the second path.
    pub fn add_moved(&mut self, from: &str, to: &str) {
        self.add_gone(to);
        self.add_linked(from, to);
        self.add_gone(from);
    }

    /// Notes that the file or symlink was removed.
    pub fn add_gone(&mut self, at: &str) {
        let (folder, name) = split_name(at);
        if let Some(contents) = self.folders.get_mut(folder) {
            contents.remove(name);
        }
    }

    /// Notes that the directory was removed.
    pub fn add_gone_folder(&mut self, at: &str) {
        self.folders.remove(at);
        self.add_gone(at);
    }
}
