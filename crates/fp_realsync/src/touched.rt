//! The changes since the last sync.
ghost use Rattle.std.specs.Prelude.{◌≡◌, Bool, true, OnOk};

use crate::sets::sync_set;
use crate::system::System;
use fp_system::{Call, Cause, PathMap, Unsynced, folder_of};
use std::alloc::{AllocError, Global};
use std::marker::Model;
use std::thread::Threads;

/// The changes that wait for a sync, by path: the files that were created since the last one, each
/// under all of its names, the directories whose names changed, and what an earlier command may
/// have left unsynced. If memory runs out for a change, no later sync succeeds. Contracts see
/// whether nothing waits for a sync.
#[derive(Drop)]
pub struct Touched {
    alloc: Global,
    // The files and directories that an earlier command may have left unsynced.
    left: PathMap<()>,
    // The files, each with whether it was synced and not written since.
    files: PathMap<bool>,
    folders: PathMap<()>,
    is_settled: bool,
    // A change could not be noted, or a sync failed, after which the system may have dropped the
    // data: no later sync succeeds.
    is_lost: bool,
    // The first failure with an open or new file and its path, until the next sync returns it.
    met: Option<Unsynced>,
    met_at: String,
}

impl Model for Touched {
    ghost use Rattle.std.specs.Prelude.{Bool};

    ghost Value = { Bool };

    ghost view = { λ t. t.is_settled };
}

impl Touched {
    /// Creates an empty set of changes.
    pub fn nothing(alloc: Global) -> Self {
        Touched {
            alloc,
            left: PathMap::new(alloc),
            files: PathMap::new(alloc),
            folders: PathMap::new(alloc),
            is_settled: true,
            is_lost: false,
            met: None,
            met_at: String::new(alloc),
        }
    }

    /// Returns whether nothing waits for a sync.
    pub fn is_settled(&self) -> bool {
        self.is_settled
    }

    /// Returns whether the file was created since the last sync.
    pub fn has_file(&self, at: &str) -> bool {
        self.files.has(at)
    }

    /// Notes a file or directory that an earlier command may have left unsynced.
    pub fn add_left(&mut self, at: &str) {
        let noted = self.left.put(at, ());
        self.keep(noted);
    }

    fn add_file(&mut self, at: &str) {
        let noted = self.files.put(at, false);
        self.keep(noted);
    }

    fn add_folder(&mut self, at: &str) {
        let noted = self.folders.put(at, ());
        self.keep(noted);
    }

    fn keep(&mut self, noted: Result<(), AllocError>) {
        self.is_settled = false;
        self.is_lost |= noted.is_err();
    }

    /// Notes that the name of the path was added to its directory, or removed.
    pub fn add_name(&mut self, at: &str) {
        self.add_folder(folder_of(at));
    }

    /// Notes a directory that was made.
    pub fn add_made(&mut self, at: &str) {
        self.add_folder(at);
        self.add_name(at);
    }

    /// Notes a file that was created.
    pub fn add_created(&mut self, at: &str) {
        self.add_file(at);
        self.add_name(at);
    }

    /// Notes that bytes are appended to a file that was created since the last sync.
    pub fn add_written(&mut self, at: &str) {
        self.mark(at, false);
    }

    /// Notes that the file is synced already, so that the next `sync` leaves it out.
    pub fn add_synced(&mut self, at: &str) {
        self.mark(at, true);
    }

    fn mark(&mut self, at: &str, is_synced: bool) {
        if let Some(file) = self.files.get_mut(at) {
            *file = is_synced;
        }
    }

    /// Notes a file that could not be synced. The next `sync` returns the failure, and no later one
    /// succeeds.
    pub fn lose(&mut self, at: &str, met: Unsynced) {
        if self.met.is_none() {
            self.met = Some(met);
            self.met_at.clear();
            let _kept = self.met_at.push_str(at);
        }
        self.is_lost = true;
    }

    /// Notes that the second path became a hard link of the file at the first.
    pub fn add_linked(&mut self, from: &str, to: &str) {
        if self.has_file(from) {
            self.add_file(to);
        }
        self.add_name(to);
    }

    /// Notes that the file or symlink was moved to the second path.
    pub fn add_moved(&mut self, from: &str, to: &str) {
        self.files.remove(to);
        if self.files.remove(from).is_some() {
            self.add_file(to);
        }
        self.add_name(from);
        self.add_name(to);
    }

    /// Notes that the file or symlink was removed.
    pub fn add_gone(&mut self, at: &str) {
        self.files.remove(at);
        self.add_name(at);
    }

    /// Notes that the directory was removed.
    pub fn add_gone_folder(&mut self, at: &str) {
        self.folders.remove(at);
        self.add_name(at);
    }

    /// Syncs all noted files and directories: first what an earlier command left, then the files,
    /// then the directories. On an error the notes stay, and `at` holds the path, or is empty if it
    /// isn't known. If a sync itself failed, no later one succeeds.
    pub fn sync<R: System, T: Threads + Sync>(
        &mut self,
        rt: &R,
        threads: &T,
        at: &mut String,
    ) -> Result<(), Unsynced>
        ensures settled { OnOk result (self.new ≡ true) }
    {
        if self.is_settled {
            return Ok(());
        }
        match self.sync_all(rt, threads, at) {
            Ok(()) => {
                self.settle();
                Ok(())
            }
            Err(e) => {
                self.is_lost |= e.call == Call::Sync;
                self.met = None;
                Err(e)
            }
        }
    }

    fn settle(&mut self)
        ensures { self.new ≡ true }
    {
        self.left.clear();
        self.files.clear();
        self.folders.clear();
        self.is_settled = true;
    }

    fn sync_all<R: System, T: Threads + Sync>(
        &self,
        rt: &R,
        threads: &T,
        at: &mut String,
    ) -> Result<(), Unsynced> {
        if self.is_lost {
            return Err(told(self.met, &self.met_at, at));
        }
        let files = &self.files;
        sync_set(rt, threads, self.alloc, &self.left, files, true, at)?;
        sync_set(rt, threads, self.alloc, files, files, false, at)?;
        sync_set(rt, threads, self.alloc, &self.folders, files, false, at)
    }
}

/// Returns the noted failure, with its path in `at`; else `MayBeLost`, with an empty `at`.
fn told(met: Option<Unsynced>, met_at: &str, at: &mut String) -> Unsynced {
    at.clear();
    match met {
        Some(unsynced) => {
            let _kept = at.push_str(met_at);
            unsynced
        }
        None => Unsynced {
            call: Call::Sync,
            cause: Cause::MayBeLost,
        },
    }
}
