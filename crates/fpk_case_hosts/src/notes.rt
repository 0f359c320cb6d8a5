//! Notes of the files that a command creates.
use crate::places::{is_deploy_file, is_deployed, is_in_store, is_lasting};
use fp_base::Text;
use fp_host::Path;
use std::alloc::{AllocError, Global};

/// A file that was created since the notes began.
#[derive(Drop)]
struct MadeFile {
    /// The path at which it was created.
    path: Text,
    has_bytes: bool,
    /// Whether it was at a lasting path at some time.
    has_lasted: bool,
    /// Whether it was at a path of the store's objects at some time.
    was_stored: bool,
}

/// A name of a file that was created.
#[derive(Drop)]
struct Name {
    path: Text,
    /// The index of the file among those that were created.
    file: usize,
}

/// The files that were created since the notes began, and their names.
#[derive(Drop)]
pub struct Notes {
    files: Vec<MadeFile>,
    names: Vec<Name>,
    /// The first name in a commit directory of a file that wasn't in the store before, except
    /// `deploy`.
    copied: Option<Text>,
}

impl Notes {
    /// Creates notes without files.
    pub fn new(alloc: Global) -> Self {
        Notes {
            files: Vec::new(alloc),
            names: Vec::new(alloc),
            copied: None,
        }
    }

    /// Returns the number of files that were created.
    pub fn files(&self) -> u64 {
        self.files.len() as u64
    }

    /// Notes that a file was created.
    pub fn create(&mut self, path: &Path) -> Result<(), AllocError> {
        let file = self.files.len();
        self.files.push(MadeFile {
            path: Text::from_str(*self.files.allocator(), path.text())?,
            has_bytes: false,
            has_lasted: false,
            was_stored: false,
        })?;
        self.add_name(path, file)
    }

    /// Notes that the file at the path got bytes.
    pub fn append(&mut self, path: &Path) {
        let Some(file) = self.file_at(path) else {
            return;
        };
        if let Some(made) = self.files.get_mut(file) {
            made.has_bytes = true;
        }
    }

    /// Notes that the file at the first path has the second name too.
    pub fn link(&mut self, from: &Path, to: &Path) -> Result<(), AllocError> {
        match self.file_at(from) {
            Some(file) => self.add_name(to, file),
            None => Ok(()),
        }
    }

    /// Notes that the file at the first path was moved to the second, and replaced what was there.
    pub fn rename(&mut self, from: &Path, to: &Path) -> Result<(), AllocError> {
        self.remove(to);
        self.link(from, to)?;
        self.remove(from);
        Ok(())
    }

    /// Notes that the name was removed.
    pub fn remove(&mut self, path: &Path) {
        let path = path.text();
        self.names.retain(|name| name.path.as_str() != path);
    }

    /// Returns what is wrong if the command succeeded: a file in a commit directory that isn't a
    /// hard link of the store, or one that got bytes but was never at a lasting path.
    pub fn flaw(&self, alloc: Global) -> Result<Option<String>, AllocError> {
        if let Some(path) = &self.copied {
            let path = path.as_str();
            return Ok(Some(format!(in alloc; "{path} is no link of the store")?));
        }
        match self
            .files
            .iter()
            .find(|made| made.has_bytes && !made.has_lasted)
        {
            Some(made) => {
                let path = made.path.as_str();
                Ok(Some(format!(in alloc; "{path} got bytes, and never stood at a lasting place")?))
            }
            None => Ok(None),
        }
    }

    /// Returns the index of the created file at the path.
    fn file_at(&self, path: &Path) -> Option<usize> {
        let path = path.text();
        let mut names = self.names.iter();
        Some(names.find(|name| name.path.as_str() == path)?.file)
    }

    /// Notes that a created file is at a path.
    fn add_name(&mut self, path: &Path, file: usize) -> Result<(), AllocError> {
        let text = path.text();
        let alloc = *self.names.allocator();
        let Some(made) = self.files.get_mut(file) else {
            return Ok(());
        };
        let is_copy = is_deployed(text) && !made.was_stored && !is_deploy_file(text);
        made.was_stored = made.was_stored || is_in_store(text);
        made.has_lasted = made.has_lasted || is_lasting(text);
        if is_copy && self.copied.is_none() {
            self.copied = Some(Text::from_str(alloc, text)?);
        }
        let path = Text::from_str(alloc, text)?;
        self.names.push(Name { path, file })?;
        Ok(())
    }
}
