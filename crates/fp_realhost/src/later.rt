//! New files that wait in memory until there are many or a call needs them. Then threads create
//! them while other calls are done.
ghost use Rattle.std.specs.Prelude.{◌≤◌, length, IfSome};

use crate::crew::Crew;
use crate::tree::Tree;
use crate::writer::Writer;
use fp_realnotes::{Appended, Batch, Notes, Waiting};
use fp_realroot::{OpenFiles, System, Touched, sync_open};
use fp_system::{
    Call, Cause, Kind, NewFile, PathMap, Reader, Share, Unsynced, Work, folder_of, kind_at,
};
use std::alloc::{AllocError, Global};
use std::rt::Files;
use std::thread::Threads;

/// The files that wait, and those that threads are creating.
#[derive(Drop)]
pub struct Later {
    alloc: Global,
    waiting: Waiting,
    // The paths of the files that threads are creating.
    at_work: PathMap<usize>,
    work: Work,
}

impl Later {
    /// Creates an empty set.
    pub fn nothing(alloc: Global) -> Self {
        Later {
            alloc,
            waiting: Waiting::nothing(alloc),
            at_work: PathMap::new(alloc),
            work: Work::nothing(alloc),
        }
    }

    /// Returns whether no file waits or is being created.
    pub fn is_empty(&self) -> bool {
        self.waiting.is_empty() && self.at_work.is_empty()
    }

    /// Returns whether the file at the path waits or is being created.
    pub fn has(&self, at: &str) -> bool {
        self.waiting.has(at) || self.at_work.has(at)
    }

    /// Adds an empty file that waits. Errs if memory runs out.
    fn add(
        &mut self,
        at: &str,
        mode: u32,
        is_granted: bool,
        is_dated: bool,
    ) -> Result<(), AllocError> {
        let at = at.to_string(self.alloc)?;
        self.waiting.add(NewFile {
            at,
            mode,
            is_granted,
            is_dated,
            bytes: Vec::new(self.alloc),
        })
    }

    /// Reads a waiting file from the byte offset `from` on. Returns the number of bytes read, or
    /// `None` if no file waits at the path.
    pub fn read(&self, at: &str, from: u64, into: &mut [u8]) -> Option<usize>
        ensures { IfSome result (λ n. n ≤ length into.old) }
    {
        self.waiting.read(at, from, into)
    }
}

impl<R: System> Tree<'_, R> {
    /// Starts to create the waiting files, once those started before are done.
    pub(crate) fn start_waiting<T: System + Threads>(&mut self, crew: &Crew<'_, T>) {
        self.join(crew);
        if !self.later.waiting.is_empty() {
            let Batch { paths, files } = self.later.waiting.take();
            self.later.at_work = paths;
            self.later.work = crew.make_files(self.rt, files);
        }
    }

    /// Waits until the threads are done, and notes the outcome.
    pub(crate) fn join<T: System + Threads>(&mut self, crew: &Crew<'_, T>) {
        if self.later.at_work.is_empty() {
            return;
        }
        for _ in 0..u64::MAX {
            match self.later.work.next(&crew.team) {
                Some(share) => self.end_share(crew, share),
                None => break,
            }
        }
        if self.later.work.is_lost() {
            self.notes.touched.lose("", LOST);
        }
        self.later.at_work.clear();
    }

    /// Notes the outcome of one thread. If it ran out of open files, the host's open files are
    /// closed and the rest of its files is created here.
    fn end_share<T: System + Threads>(&mut self, crew: &Crew<'_, T>, mut share: Share) {
        if share.is_crowded() {
            self.close_all(crew);
            share.make(self.rt);
        }
        note_share(&share, &mut self.notes.touched, &mut self.writer);
    }

    /// Creates all waiting files, and waits until they are synced.
    pub(crate) fn make_waiting<T: System + Threads>(&mut self, crew: &Crew<'_, T>) {
        self.start_waiting(crew);
        self.join(crew);
    }

    /// Creates all waiting files if the one at the path of the call waits or is being created.
    pub(crate) fn make_at<T: System + Threads>(&mut self, crew: &Crew<'_, T>) {
        if self.later.has(&self.at) {
            self.make_waiting(crew);
        }
    }

    /// Creates all waiting files if one at either path of the call waits or is being created.
    pub(crate) fn make_both<T: System + Threads>(&mut self, crew: &Crew<'_, T>) {
        if self.later.has(&self.from) || self.later.has(&self.at) {
            self.make_waiting(crew);
        }
    }

    /// Returns whether a new file at the path of the call may wait: its parent is a directory, and
    /// nothing is at the path. A file that waits there already is created first.
    fn may_wait<T: System + Threads>(&mut self, crew: &Crew<'_, T>) -> Result<bool, Cause> {
        let is_in_folder = self.is_in_folder();
        if is_in_folder && self.notes.made.is_absent(&self.at) {
            return Ok(true);
        }
        self.make_at(crew);
        match kind_at(self.rt, &self.at) {
            Ok(kind) => Ok(is_in_folder && kind == Kind::Absent),
            Err(e) => Err(e),
        }
    }

    /// Returns whether the parent of the call's path is known to be a directory.
    fn is_in_folder(&self) -> bool {
        let folder = folder_of(&self.at);
        folder == self.gate.root() || self.notes.folders.has(folder)
    }

    /// Lets an empty file wait at the path of the call, if it may. Returns whether it waits.
    pub(crate) fn let_wait<T: System + Threads>(
        &mut self,
        crew: &Crew<'_, T>,
        asked: u32,
        kept: u32,
    ) -> Result<bool, Cause> {
        match self.may_wait(crew) {
            Ok(true) => Ok(self.add_waiting(crew, asked, kept)),
            other => other,
        }
    }

    /// Adds the file to those that wait. If these are many, starts to create them first.
    fn add_waiting<T: System + Threads>(
        &mut self,
        crew: &Crew<'_, T>,
        asked: u32,
        kept: u32,
    ) -> bool {
        if self.later.waiting.is_full() {
            self.start_waiting(crew);
        }
        let is_granted = self.notes.grants.has(&self.at, kept);
        let is_dated = self.writer.dates(&self.at);
        let is_added = self.later.add(&self.at, kept, is_granted, is_dated).is_ok();
        if is_added {
            self.notes.add_created(&self.at, asked);
        }
        is_added
    }

    /// Appends bytes to the file at the path of the call if it waits. Returns whether they were
    /// appended: if the file would get too large to wait, it is created instead, without them.
    pub(crate) fn append_waiting<T: System + Threads>(
        &mut self,
        crew: &Crew<'_, T>,
        bytes: &[u8],
    ) -> Result<bool, Cause> {
        if !self.later.has(&self.at) {
            return Ok(false);
        }
        if self.later.waiting.append(&self.at, bytes) == Appended::Done {
            self.notes.made.add_bytes(&self.at, bytes.len());
            return Ok(true);
        }
        match self.later.waiting.take_last(&self.at) {
            Some(file) => self.make_taken(crew, file),
            None => {
                self.make_waiting(crew);
                Ok(false)
            }
        }
    }

    /// Creates a file that waits no longer, and keeps it open. Returns false, since the bytes of
    /// the call are still to be appended.
    fn make_taken<T: System + Threads>(
        &mut self,
        crew: &Crew<'_, T>,
        file: NewFile,
    ) -> Result<bool, Cause> {
        if self.open.are_full() {
            sync_open(self.rt, &crew.team, &mut self.open, &mut self.notes.touched);
        }
        let first = self.writer.make(self.rt, &file, &mut self.open);
        let made = match first {
            Err(unsynced) if unsynced.cause.is_too_many_open() => {
                self.close_all(crew);
                self.join(crew);
                self.writer.make(self.rt, &file, &mut self.open)
            }
            done => done,
        };
        match made {
            Ok(()) => Ok(false),
            Err(unsynced) => {
                self.notes.touched.lose(&file.at, unsynced);
                Err(unsynced.cause)
            }
        }
    }
}

/// The failure noted if memory ran out for the result of creating a file.
const LOST: Unsynced = Unsynced {
    call: Call::Sync,
    cause: Cause::NoMemory,
};

/// Notes the files that are synced and dated, and the first that could not be created.
fn note_share<F: Drop>(share: &Share, touched: &mut Touched, writer: &mut Writer<F>) {
    for file in share.made() {
        touched.add_synced(&file.at);
        if file.is_dated {
            writer.add_dated(&file.at);
        }
    }
    if let Some((at, unsynced)) = share.met() {
        touched.lose(at, unsynced);
    }
}
