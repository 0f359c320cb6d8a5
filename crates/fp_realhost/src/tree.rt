//! A real directory, with its changes since the last sync.
ghost use Rattle.std.specs.Prelude.{◌≡◌, true, OnOk};

use crate::crew::Crew;
use crate::later::Later;
use crate::writer::Writer;
use fp_host::Path;
use fp_realnotes::Notes;
use fp_realroot::{
    Access, Gate, LAYOUT, OpenFiles, System, Touched, Unsynced, add_below, sync_above_root,
    sync_open,
};
use fp_system::{Call, Cause, Folders, Reader, SystemError};
use std::alloc::{AllocError, Global};
use std::marker::Model;
use std::mem::swap;
use std::rt::Files;
use std::thread::Threads;

/// A real directory, with the calls of a host. Each call returns the error of the system as a
/// `Cause`. Contracts see whether no change waits for a sync.
pub struct Tree<'a, R: Files> {
    pub(crate) rt: &'a R,
    alloc: Global,
    pub(crate) gate: Gate<R::File>,
    // The directory of the store's objects, below the root.
    pub(crate) store: &'a str,
    // The system path of the call, and in `from` the first one of a call with two paths.
    pub(crate) at: String,
    pub(crate) from: String,
    pub(crate) notes: Notes,
    // The file that was read last and the file that was written last.
    pub(crate) reader: Reader<R::File>,
    pub(crate) writer: Writer<R::File>,
    // The files that were written earlier and wait for a sync.
    pub(crate) open: OpenFiles<R::File>,
    // The new files that wait in memory.
    pub(crate) later: Later,
    // Whether the changes that an earlier command may have left are noted for a sync.
    is_caught_up: bool,
}

impl<'a, R: Files> Model for Tree<'a, R> {
    ghost use Rattle.std.specs.Prelude.{Bool};

    ghost Value = { Bool };

    ghost view = { λ t. t.notes };
}

impl<R: Files> Drop for Tree<'_, R> {
    fn drop(self) {
        let Tree {
            rt: _,
            alloc: _,
            gate: _,
            store: _,
            at: _,
            from: _,
            notes: _,
            reader: _,
            writer: _,
            open: _,
            later: _,
            is_caught_up: _,
        } = self;
    }
}

impl<'a, R: Files> Tree<'a, R> {
    /// Creates a tree over this directory; the empty path is the current directory. It makes no
    /// system call.
    pub fn new(rt: &'a R, alloc: Global, root: &str, access: Access) -> Result<Self, AllocError> {
        let gate = Gate::new(alloc, root, access)?;
        let root = gate.root();
        let waiting = format!(in alloc; "{root}/{}", LAYOUT.waiting)?;
        Ok(Tree {
            rt,
            alloc,
            gate,
            store: LAYOUT.objects,
            at: String::new(alloc),
            from: String::new(alloc),
            notes: Notes::nothing(alloc),
            reader: Reader::nothing(alloc),
            writer: Writer::nothing(alloc, waiting),
            open: OpenFiles::nothing(alloc),
            later: Later::nothing(alloc),
            is_caught_up: false,
        })
    }

    /// Returns the error of a call on this path.
    pub fn refusal(&self, call: Call, path: &Path, cause: Cause) -> SystemError {
        refusal(self.alloc, &self.gate, call, path, cause)
    }

    /// Returns the error of the last sync.
    pub fn unsynced(&self, met: Unsynced) -> SystemError {
        refusal_of_sync(self.alloc, &self.at, met)
    }
}

/// Returns the error of a call on this path. If the root isn't known, it is an error of the root.
fn refusal<F>(alloc: Global, gate: &Gate<F>, call: Call, path: &Path, cause: Cause) -> SystemError {
    if !gate.is_known() {
        return gate.refusal(alloc, cause);
    }
    let mut at = String::new(alloc);
    match gate.write_path(path, &mut at) {
        Ok(()) => SystemError::with_path(call, at, cause),
        Err(_) => SystemError::without_path(call, cause),
    }
}

fn refusal_of_sync(alloc: Global, at: &str, met: Unsynced) -> SystemError {
    if at.is_empty() {
        return SystemError::without_path(met.call, met.cause);
    }
    SystemError::on(alloc, met.call, at, met.cause)
}

impl<R: System> Tree<'_, R> {
    /// Enters the gate and writes the system path to `at`. Returns the byte offset of its part
    /// below the root.
    pub(crate) fn locate(&mut self, path: &Path) -> Result<usize, Cause> {
        match self.gate.enter(self.rt, &mut self.notes.touched) {
            Ok(()) => locate(&self.gate, path, &mut self.at),
            Err(e) => Err(e),
        }
    }

    /// Writes the system path to `at`, and checks that no symlink is above it.
    pub(crate) fn reach(&mut self, path: &Path) -> Result<(), Cause> {
        match self.locate(path) {
            Ok(below) => look_above(self.rt, &self.at, below, &mut self.notes.folders),
            Err(e) => Err(e),
        }
    }

    /// Prepares a change: writes the path, checks that no symlink is above it, and marks the lock
    /// file.
    pub(crate) fn reach_to_change(&mut self, path: &Path) -> Result<(), Cause> {
        match self.reach(path) {
            Ok(()) => self.gate.mark(),
            Err(e) => Err(e),
        }
    }

    /// Prepares a change with two paths, `from` and `at`.
    pub(crate) fn reach_both(&mut self, from: &Path, to: &Path) -> Result<(), Cause> {
        match self.reach(from) {
            Ok(()) => {
                swap(&mut self.from, &mut self.at);
                self.reach_to_change(to)
            }
            Err(e) => Err(e),
        }
    }

    /// Enters the gate and notes what an earlier command may have left unsynced.
    fn catch_up(&mut self) -> Result<(), Cause> {
        match self.gate.enter(self.rt, &mut self.notes.touched) {
            Ok(()) => self.note_left(),
            Err(e) => Err(e),
        }
    }

    fn note_left(&mut self) -> Result<(), Cause> {
        if self.is_caught_up {
            return Ok(());
        }
        match add_left(self.rt, self.alloc, &self.gate, &mut self.notes.touched) {
            Ok(is_noted) => {
                self.is_caught_up = is_noted;
                Ok(())
            }
            Err(e) => Err(e),
        }
    }
}

impl<R: System> Tree<'_, R> {
    /// Syncs all changes, and the first time also what an earlier command may have left. Threads
    /// create the waiting files while the open ones are synced. Afterwards the lock file's mark is
    /// cleared and readers are let in.
    pub fn sync<T: System + Threads>(&mut self, crew: &Crew<'_, T>) -> Result<(), Unsynced>
        ensures settled { OnOk result (self.new ≡ true) }
    {
        self.start_waiting(crew);
        self.close_written(crew);
        self.join(crew);
        match self.catch_up() {
            Ok(()) => self.sync_touched(crew),
            Err(cause) => Err(unsynced_root(self.gate.root(), &mut self.at, cause)),
        }
    }

    fn sync_touched<T: Threads>(&mut self, crew: &Crew<'_, T>) -> Result<(), Unsynced>
        ensures settled { OnOk result (self.new ≡ true) }
    {
        match self.notes.touched.sync(self.rt, &crew.team, &mut self.at) {
            Ok(()) => {
                cleared(self.gate.clear())?;
                self.gate.let_looks_in();
                Ok(())
            }
            Err(e) => Err(e),
        }
    }
}

impl<R: System> Tree<'_, R> {
    /// Syncs and closes the files that are open for writing.
    fn close_written<T: Threads>(&mut self, crew: &Crew<'_, T>) {
        self.writer.finish(&mut self.open);
        sync_open(self.rt, &crew.team, &mut self.open, &mut self.notes.touched);
    }

    /// Closes all files of the host, and syncs the written ones first.
    pub(crate) fn close_all<T: Threads>(&mut self, crew: &Crew<'_, T>) {
        self.reader = Reader::nothing(self.alloc);
        self.close_written(crew);
    }

    /// Returns whether a call should be tried again: it failed since the process has too many open
    /// files. Then the files of the host and of its threads are closed, the written ones after a
    /// sync.
    pub fn makes_room<T: System + Threads, A>(
        &mut self,
        crew: &Crew<'_, T>,
        done: &Result<A, Cause>,
    ) -> bool {
        let is_crowded = matches!(done, Err(cause) if cause.is_too_many_open());
        if is_crowded {
            self.close_all(crew);
            self.join(crew);
        }
        is_crowded
    }
}

fn locate<F>(gate: &Gate<F>, path: &Path, at: &mut String) -> Result<usize, Cause> {
    match gate.write_path(path, at) {
        Ok(()) => Ok(gate.root().len().saturating_add(1)),
        Err(e) => Err(e),
    }
}

fn look_above<R: Files>(
    rt: &R,
    at: &str,
    below: usize,
    folders: &mut Folders,
) -> Result<(), Cause> {
    match folders.look_above(rt, at, below) {
        Ok(_) => Ok(()),
        Err(e) => Err(e),
    }
}

/// Syncs the directories above the root, and notes the root, and everything below it if an earlier
/// command may have left unsynced changes. Returns false, and does nothing, if no change waits for
/// a sync and no earlier command may have left one.
fn add_left<R: System>(
    rt: &R,
    alloc: Global,
    gate: &Gate<R::File>,
    touched: &mut Touched,
) -> Result<bool, Cause> {
    if touched.is_settled() && !gate.has_left() {
        return Ok(false);
    }
    sync_above_root(rt, gate.root(), touched);
    match gate.has_left() {
        true => add_all_below(rt, alloc, gate, touched),
        false => Ok(true),
    }
}

fn add_all_below<R: System>(
    rt: &R,
    alloc: Global,
    gate: &Gate<R::File>,
    touched: &mut Touched,
) -> Result<bool, Cause> {
    match add_below(rt, alloc, gate.root(), LAYOUT.names, touched) {
        Ok(()) => Ok(true),
        Err(e) => Err(e),
    }
}

fn cleared(done: Result<(), Cause>) -> Result<(), Unsynced> {
    match done {
        Ok(()) => Ok(()),
        Err(cause) => Err(Unsynced {
            call: Call::Sync,
            cause,
        }),
    }
}

fn unsynced_root(root: &str, at: &mut String, cause: Cause) -> Unsynced {
    at.clear();
    let _kept = at.push_str(root);
    Unsynced {
        call: Call::Enter,
        cause,
    }
}
