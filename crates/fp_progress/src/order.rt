//! The objects of a commit, in the order in which a pull takes them.
use crate::seen::mark_of;
use ost_object::DirTree;
use std::alloc::{AllocError, Global};

/// The most objects that are read before the first of them is taken.
const BATCH: usize = 64;

/// The known objects of a commit, by their marks: the commit, and for each dirtree that was read
/// the dirtree, its dirmeta (as 0) and its files.
pub(crate) struct Order {
    marks: Vec<u64>,
    // The number of files and symlinks among them.
    files: usize,
    // The number of dirtrees that are named but not read yet.
    awaited: usize,
    // The number of objects that are taken.
    taken: usize,
}

impl Drop for Order {
    fn drop(self) {
        let Order {
            marks: _,
            files: _,
            awaited: _,
            taken: _,
        } = self;
    }
}

impl Order {
    /// Creates an order without a commit.
    pub(crate) fn nothing(alloc: Global) -> Self {
        Order {
            marks: Vec::new(alloc),
            files: 0,
            awaited: 0,
            taken: 0,
        }
    }

    /// Starts with a commit of which nothing else was read yet.
    pub(crate) fn begin(&mut self, commit: u64) -> Result<(), AllocError> {
        self.marks.clear();
        self.files = 0;
        self.awaited = 1;
        self.taken = 0;
        self.marks.push(commit)?;
        Ok(())
    }

    /// Adds a dirtree that was read, with its dirmeta and its files.
    pub(crate) fn add(&mut self, mark: u64, tree: &DirTree) -> Result<(), AllocError> {
        self.marks.push(mark)?;
        self.marks.push(0)?;
        for file in tree.files.as_slice() {
            self.marks.push(mark_of(&file.digest))?;
        }
        self.files = self.files.saturating_add(tree.files.len());
        self.awaited = self
            .awaited
            .saturating_sub(1)
            .saturating_add(tree.dirs.len());
        Ok(())
    }

    /// Forgets the commit.
    pub(crate) fn forget(&mut self) {
        self.marks.clear();
        self.files = 0;
        self.awaited = 0;
        self.taken = 0;
    }

    /// Returns whether this is the commit, and all its dirtrees were read.
    pub(crate) fn is_whole(&self, commit: u64) -> bool {
        self.awaited == 0 && self.marks.first() == Some(&commit)
    }

    /// Returns the number of known objects, with repeats.
    pub(crate) fn len(&self) -> usize {
        self.marks.len()
    }

    /// Returns the number of files and symlinks, with repeats, or `None` if there are none or not
    /// all dirtrees were read.
    pub(crate) fn files(&self) -> Option<usize> {
        if self.awaited == 0 && self.files > 0 {
            Some(self.files)
        } else {
            None
        }
    }

    /// Returns the number of objects that are taken.
    pub(crate) fn taken(&self) -> usize {
        self.taken
    }

    /// Notes that the object is taken, and all before it. An object that is among the last 64 taken
    /// ones changes nothing.
    pub(crate) fn take(&mut self, mark: u64) {
        let before = self.taken.saturating_sub(BATCH);
        let is_before = match self.marks.get(before..self.taken) {
            Some(marks) => marks.contains(&mark),
            None => false,
        };
        if !is_before && let Some(ahead) = self.marks.get(self.taken..) {
            let found = ahead.iter().position(|other| *other == mark);
            if let Some(at) = found {
                self.taken = self.taken.saturating_add(at).saturating_add(1);
            }
        }
    }
}
