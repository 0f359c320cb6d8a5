//! The directories in which the umask clears no permission bits.
use fp_system::{FOLDER_BITS, PathMap, folder_of};
use std::alloc::Global;

/// The directories in which a new directory gets all bits of 0o755: neither the umask nor a default
/// ACL clears any. A directory that is made in such a directory is one too.
#[derive(Drop)]
pub struct Grants {
    folders: PathMap<()>,
}

impl Grants {
    /// Creates an empty set.
    pub fn nothing(alloc: Global) -> Self {
        Grants {
            folders: PathMap::new(alloc),
        }
    }

    /// Returns whether a new file or directory at the path is known to get all of these bits.
    pub fn has(&self, at: &str, bits: u32) -> bool {
        bits & !FOLDER_BITS == 0 && self.folders.has(folder_of(at))
    }

    /// Notes that the directory made at the path got all the bits that were asked for.
    pub fn add(&mut self, at: &str) {
        let _noted = self.folders.put(folder_of(at), ());
    }

    /// Notes a new directory. If new directories get all bits of 0o755 in its parent, they do in it
    /// too.
    pub fn add_folder(&mut self, at: &str) {
        if self.folders.has(folder_of(at)) {
            let _noted = self.folders.put(at, ());
        }
    }

    /// Notes that the directory was removed.
    pub fn forget(&mut self, at: &str) {
        self.folders.remove(at);
    }
}
