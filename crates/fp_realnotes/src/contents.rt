//! The names that this host added to one directory.
ghost use Rattle.std.specs.Prelude.{IfSome};
ghost use Rattle.fp_host.specs.Reads.{HasBits};

use fp_base::Text;
use fp_host::{PERMISSION_BITS, Stat};
use std::alloc::{AllocError, Global};
use std::collections::BTreeMap;

/// A file that this host created. Its length is known as long as each write succeeded.
#[derive(Clone, Copy)]
pub struct MadeFile {
    /// A number of its own, which no other file of this host has.
    pub id: u64,
    /// The permission bits that were asked for.
    pub mode: u32,
    /// The length in bytes, if it is known.
    pub size: Option<u64>,
}

impl MadeFile {
    /// Returns the status of the file, if its length is known.
    pub fn stat(&self) -> Option<Stat>
        ensures { IfSome result HasBits }
    {
        match self.size {
            Some(size) => Some(Stat::File {
                id: self.id,
                mode: self.mode & PERMISSION_BITS,
                size,
            }),
            None => None,
        }
    }

    /// Notes that this many bytes were appended.
    pub fn grow(&mut self, count: usize) {
        self.size = match self.size {
            Some(size) => size.checked_add(count as u64),
            None => None,
        };
    }
}

/// The names that this host added to a directory.
#[derive(Drop)]
pub struct Contents {
    /// Whether this host made the directory, so that no other name is in it.
    pub is_made: bool,
    // The names, each with the file if this host created one there.
    names: BTreeMap<String, Option<MadeFile>>,
}

impl Contents {
    /// Creates a record without names.
    pub fn nothing(alloc: Global, is_made: bool) -> Self {
        Contents {
            is_made,
            names: BTreeMap::new(alloc),
        }
    }

    /// Returns whether the name is known to be absent.
    pub fn lacks(&self, name: &str) -> bool {
        self.is_made && !self.names.contains_key(name)
    }

    /// Returns the file that was created at the name.
    pub fn file(&self, name: &str) -> Option<&MadeFile> {
        match self.names.get(name) {
            Some(Some(file)) => Some(file),
            _ => None,
        }
    }

    /// Returns a mutable reference to the file that was created at the name.
    pub fn file_mut(&mut self, name: &str) -> Option<&mut MadeFile> {
        match self.names.get_mut(name) {
            Some(Some(file)) => Some(file),
            _ => None,
        }
    }

    /// Adds the name. Errs if memory runs out.
    pub fn put(
        &mut self,
        alloc: Global,
        name: &str,
        file: Option<MadeFile>,
    ) -> Result<(), AllocError> {
        let name = name.to_string(alloc)?;
        self.names.insert(name, file)?;
        Ok(())
    }

    /// Removes the name.
    pub fn remove(&mut self, name: &str) {
        self.names.remove(name);
    }

    /// Returns the names.
    pub fn names(&self, alloc: Global) -> Result<Vec<Text>, AllocError> {
        let mut names = Vec::new(alloc);
        for name in self.names.keys() {
            names.push(Text::from_string(name.as_str().to_string(alloc)?))?;
        }
        Ok(names)
    }
}
