//! The progress of a command, as far as its calls show it.
use crate::order::Order;
use crate::seen::{Seen, id_in, mark_of_ref};
use crate::task::Task;
use ost_object::read_dirtree;
use std::alloc::{AllocError, Global};

/// The current phase of a command.
#[derive(Clone, Copy, PartialEq, Eq)]
pub(crate) enum Phase {
    /// Finding out what there is to do.
    Looking,
    /// Fetching a commit's objects from a remote.
    Fetching,
    /// Syncing files and directories.
    Syncing,
    /// Moving objects into the store.
    Storing,
    /// Checking out a commit's files.
    Linking,
    /// Removing files.
    Removing,
}

/// The content of an open file, as far as it matters for the progress.
#[derive(Clone, Copy, PartialEq, Eq)]
pub(crate) enum Watch {
    /// Nothing that matters.
    Nothing,
    /// The commit of a ref.
    Ref,
    /// A dirtree of the current commit.
    Tree,
    /// Another object.
    Object,
}

/// The progress of a command, as far as its calls show it.
pub(crate) struct Work {
    alloc: Global,
    pub(crate) task: Task,
    pub(crate) phase: Phase,
    // The number of steps that the phase made.
    pub(crate) count: u64,
    // The number of bytes of refs and objects that were read in this phase.
    pub(crate) bytes: u64,
    pub(crate) order: Order,
    // The ID of the current commit; empty if no ref that was read names the commit.
    pub(crate) id: String,
    // The marks of commits, each with the ID of a ref that names it.
    named: Vec<(u64, String)>,
    // The ID of the ref whose file is being read.
    reading: String,
    // The mark and the bytes of the dirtree that is being read.
    tree: Option<u64>,
    bytes_of_tree: Vec<u8>,
}

impl Drop for Work {
    fn drop(self) {
        let Work {
            alloc: _,
            task: _,
            phase: _,
            count: _,
            bytes: _,
            order: _,
            id: _,
            named: _,
            reading: _,
            tree: _,
            bytes_of_tree: _,
        } = self;
    }
}

impl Work {
    /// Creates the progress of a command that starts. It allocates no memory.
    pub(crate) fn new(alloc: Global, task: Task) -> Self {
        Work {
            alloc,
            task,
            phase: Phase::Looking,
            count: 0,
            bytes: 0,
            order: Order::nothing(alloc),
            id: String::new(alloc),
            named: Vec::new(alloc),
            reading: String::new(alloc),
            tree: None,
            bytes_of_tree: Vec::new(alloc),
        }
    }

    /// Notes that a file is opened for reading. Returns what its bytes contain.
    pub(crate) fn open(&mut self, seen: Seen<'_>, is_remote: bool) -> Watch {
        self.settle_tree();
        match seen {
            Seen::Ref(name) => self.open_ref(name),
            Seen::Commit(mark) => self.open_commit(mark, is_remote),
            Seen::Tree(mark) if self.phase == Phase::Looking && self.task != Task::Check => {
                self.bytes_of_tree.clear();
                self.tree = Some(mark);
                Watch::Tree
            }
            Seen::Tree(mark) | Seen::Object(mark) => self.open_object(mark),
            Seen::Other => Watch::Nothing,
        }
    }

    /// Notes bytes that were read from an open file.
    pub(crate) fn read(&mut self, watch: Watch, bytes: &[u8]) {
        self.bytes = self.bytes.saturating_add(bytes.len() as u64);
        let noted = match watch {
            Watch::Ref => self.note_ref(bytes),
            Watch::Tree => self.note_tree(bytes),
            Watch::Nothing | Watch::Object => Ok(()),
        };
        if noted.is_err() {
            self.order.forget();
        }
    }

    /// Notes that the phase made this many steps, and makes it the current one. A check of a store
    /// has one phase only and notes nothing here.
    pub(crate) fn step(&mut self, phase: Phase, count: u64) {
        if self.task == Task::Check {
            return;
        }
        self.settle_tree();
        if self.phase != phase {
            self.phase = phase;
            self.count = 0;
            self.bytes = 0;
        }
        self.count = self.count.saturating_add(count);
    }

    /// Notes one step of the phase if it is the current one.
    pub(crate) fn step_on(&mut self, phase: Phase) {
        if self.phase == phase {
            self.step(phase, 1);
        }
    }

    fn open_ref(&mut self, name: &str) -> Watch {
        self.reading.clear();
        match self.reading.push_str(id_in(name)) {
            Ok(()) => Watch::Ref,
            Err(_) => Watch::Nothing,
        }
    }

    fn open_object(&mut self, mark: u64) -> Watch {
        self.count = self.count.saturating_add(1);
        if self.phase == Phase::Fetching {
            self.order.take(mark);
        }
        Watch::Object
    }

    /// Notes that a commit is opened. If all its dirtrees were read and it is a remote's, its
    /// objects are fetched from now on.
    fn open_commit(&mut self, mark: u64, is_remote: bool) -> Watch {
        if self.task == Task::Check {
            return self.open_object(mark);
        }
        if !self.order.is_whole(mark) {
            self.begin_commit(mark);
        } else if is_remote && self.phase == Phase::Looking {
            self.phase = Phase::Fetching;
            self.bytes = 0;
            self.order.take(mark);
        }
        Watch::Object
    }

    fn begin_commit(&mut self, mark: u64) {
        self.phase = Phase::Looking;
        self.bytes = 0;
        if self.order.begin(mark).is_err() {
            self.order.forget();
        }
        self.id.clear();
        let found = self.named.iter().rposition(|entry| entry.0 == mark);
        if let Some(at) = found
            && let Some(entry) = self.named.get(at)
            && self.id.push_str(entry.1.as_str()).is_err()
        {
            self.id.clear();
        }
    }

    /// Notes the ID of the commit that a ref's file names.
    fn note_ref(&mut self, bytes: &[u8]) -> Result<(), AllocError> {
        if let Some(mark) = mark_of_ref(bytes) {
            let id = self.reading.as_str().to_string(self.alloc)?;
            self.named.push((mark, id))?;
        }
        Ok(())
    }

    fn note_tree(&mut self, bytes: &[u8]) -> Result<(), AllocError> {
        self.bytes_of_tree.extend_from_slice(bytes)?;
        Ok(())
    }

    /// Adds the dirtree that was read to the known objects. If its bytes are no dirtree, it stays
    /// awaited, so the total remains unknown.
    fn settle_tree(&mut self) {
        if let Some(mark) = self.tree {
            self.tree = None;
            if let Ok(tree) = read_dirtree(self.alloc, self.bytes_of_tree.as_slice())
                && self.order.add(mark, &tree).is_err()
            {
                self.order.forget();
            }
        }
    }
}
