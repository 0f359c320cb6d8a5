//! The notes of a host on its directory.
use crate::found_files::FoundFiles;
use crate::grants::Grants;
use crate::made::Made;
use fp_realsync::Touched;
use fp_system::{Folders, Found, Kind};
use std::alloc::Global;
use std::marker::Model;

/// A host's notes on its directory: what was looked up, what was made, and what waits for a sync.
/// Contracts see whether no change waits.
#[derive(Drop)]
pub struct Notes {
    /// The directories that were looked up.
    pub folders: Folders,
    /// The files that were looked up.
    pub files: FoundFiles,
    /// The directories, files and symlinks that this host made.
    pub made: Made,
    /// The directories in which the umask clears no permission bits.
    pub grants: Grants,
    /// The changes that wait for a sync.
    pub touched: Touched,
    // Whether a file that may still be written got a second name.
    is_linked: bool,
}

impl Model for Notes {
    ghost use Rattle.std.specs.Prelude.{Bool};

    ghost Value = { Bool };

    ghost view = { λ n. n.touched };
}

impl Notes {
    /// Creates notes of nothing.
    pub fn nothing(alloc: Global) -> Self {
        Notes {
            folders: Folders::none(alloc),
            files: FoundFiles::nothing(alloc),
            made: Made::nothing(alloc),
            grants: Grants::nothing(alloc),
            touched: Touched::nothing(alloc),
            is_linked: false,
        }
    }

    /// Notes what was found at the path, above which there is no symlink.
    pub fn add_found(&mut self, at: &str, found: Found) {
        match found.kind {
            Kind::Dir => self.folders.add(at),
            Kind::File => self.files.add(at, found),
            _ => {}
        }
    }

    /// Notes a new directory, above which there is no symlink.
    pub fn add_made(&mut self, at: &str) {
        self.folders.add(at);
        self.made.add_folder(at);
        self.grants.add_folder(at);
        self.touched.add_made(at);
    }

    /// Notes that a directory may have been made, but not as asked.
    pub fn add_half_made(&mut self, at: &str) {
        self.folders.forget(at);
        self.made.doubt_folder();
    }

    /// Notes a new file with these permission bits.
    pub fn add_created(&mut self, at: &str, mode: u32) {
        self.files.forget(at);
        self.made.add_file(at, mode);
        self.touched.add_created(at);
    }

    /// Notes that bytes are appended to the file, which may have other names.
    pub fn add_written(&mut self, at: &str) {
        self.touched.add_written(at);
        if self.is_linked {
            self.files.forget_all();
            self.made.doubt_sizes();
        } else {
            self.files.forget(at);
        }
    }

    /// Notes a new symlink.
    pub fn add_symlink(&mut self, at: &str) {
        self.folders.forget(at);
        self.files.forget(at);
        self.made.add_other(at);
        self.touched.add_name(at);
    }

    /// Notes that the second path became a hard link of the file at the first.
    pub fn add_linked(&mut self, from: &str, to: &str) {
        self.is_linked |= self.touched.has_file(from);
        self.files.forget(to);
        self.made.add_linked(from, to);
        self.touched.add_linked(from, to);
    }

    /// Notes that the file or symlink was moved to the second path.
    pub fn add_moved(&mut self, from: &str, to: &str) {
        self.folders.forget(to);
        self.files.forget(from);
        self.files.forget(to);
        self.made.add_moved(from, to);
        self.touched.add_moved(from, to);
    }

    /// Notes that the file or symlink was removed.
    pub fn add_gone(&mut self, at: &str) {
        self.files.forget(at);
        self.made.add_gone(at);
        self.touched.add_gone(at);
    }

    /// Notes that the directory was removed.
    pub fn add_gone_folder(&mut self, at: &str) {
        self.folders.forget(at);
        self.grants.forget(at);
        self.made.add_gone_folder(at);
        self.touched.add_gone_folder(at);
    }
}
