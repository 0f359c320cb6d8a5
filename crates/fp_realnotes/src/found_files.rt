//! The regular files that were looked up.
use fp_system::{Found, PathMap};
use std::alloc::Global;

/// The status of regular files, by path, as long as the host doesn't change them.
#[derive(Drop)]
pub struct FoundFiles {
    found: PathMap<Found>,
}

impl FoundFiles {
    /// Creates an empty set.
    pub fn nothing(alloc: Global) -> Self {
        FoundFiles {
            found: PathMap::new(alloc),
        }
    }

    /// Returns the status of the file at the path.
    pub fn get(&self, at: &str) -> Option<&Found> {
        self.found.get(at)
    }

    /// Returns whether a file was found at the path.
    pub fn has(&self, at: &str) -> bool {
        self.found.has(at)
    }

    /// Remembers a file, if there is memory to do so.
    pub fn add(&mut self, at: &str, found: Found) {
        let _noted = self.found.put(at, found);
    }

    /// Forgets the path: another file is there now, or none.
    pub fn forget(&mut self, at: &str) {
        self.found.remove(at);
    }

    /// Forgets all files: any of them may be another one now.
    pub fn forget_all(&mut self) {
        self.found.clear();
    }
}
