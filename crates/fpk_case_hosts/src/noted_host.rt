//! A host in memory that notes the files that its calls create.
ghost use Rattle.std.specs.Prelude.{◌≤◌, length, IfOk};
ghost use Rattle.fp_host.specs.Calls.{Step, Creates, makes_dir, appends, links, makes_link, renames, unlinks, removes_dir, syncs, says};
ghost use Rattle.fp_host.specs.Moments.{Makes, HasCause, NeedsNoMemory};
ghost use Rattle.fp_host.specs.Reads.{StatOf, ListOf, ReadOf, LinkOf, AreNames, HasBits};
ghost use Rattle.fp_memhost.specs.Told.{law};

use crate::notes::Notes;
use fp_base::{Items, Text};
use fp_host::{Host, HostError, Path, Stat};
use fp_memhost::MemHost;
use std::alloc::{AllocError, Global};

/// A host in memory that notes the files that its calls create and the bytes that they append.
#[derive(Drop)]
pub struct NotedHost {
    /// The host. Calls that are made directly on it aren't noted.
    pub host: MemHost,
    notes: Notes,
    /// The number of bytes that were appended.
    bytes: u64,
    /// Whether memory ran out for a note.
    lacks_memory: bool,
}

impl NotedHost {
    /// Creates a host that has noted nothing yet.
    pub fn new(alloc: Global, host: MemHost) -> Self {
        let notes = Notes::new(alloc);
        NotedHost {
            host,
            notes,
            bytes: 0,
            lacks_memory: false,
        }
    }

    /// Forgets all notes.
    pub fn begin(&mut self, alloc: Global) {
        self.notes = Notes::new(alloc);
        self.bytes = 0;
        self.lacks_memory = false;
    }

    /// Returns the number of files that were created since the notes began.
    pub fn files(&self) -> u64 {
        self.notes.files()
    }

    /// Returns the number of bytes that were appended to files since the notes began.
    pub fn bytes(&self) -> u64 {
        self.bytes
    }

    /// Returns what is wrong with the files that a successful command created since the notes
    /// began. Errs if memory ran out, also for an earlier note.
    pub fn flaw(&self, alloc: Global) -> Result<Option<String>, AllocError> {
        match self.lacks_memory {
            true => Err(AllocError),
            false => self.notes.flaw(alloc),
        }
    }
}

impl Host for NotedHost {
    ghost moments = { λ n. ⟦<MemHost as Host>⟧.moments n.host };

    ghost faults = { λ n. ⟦<MemHost as Host>⟧.faults n.host };

    ghost is_tree = { λ n m told. law n.host m told };

    fn stat(&mut self, path: &Path) -> Result<Stat, HostError> {
        self.host.stat(path)
    }

    fn list(&mut self, alloc: Global, path: &Path) -> Result<Items<Text>, HostError> {
        self.host.list(alloc, path)
    }

    fn read_at(&mut self, path: &Path, at: u64, into: &mut [u8]) -> Result<usize, HostError> {
        self.host.read_at(path, at, into)
    }

    fn read_link(&mut self, alloc: Global, path: &Path) -> Result<Text, HostError> {
        self.host.read_link(alloc, path)
    }

    fn make_dir(&mut self, path: &Path) -> Result<(), HostError> {
        self.host.make_dir(path)
    }

    fn create(&mut self, path: &Path, mode: u32) -> Result<(), HostError> {
        self.host.create(path, mode)?;
        let noted = self.notes.create(path);
        self.lacks_memory = self.lacks_memory || noted.is_err();
        Ok(())
    }

    fn append(&mut self, path: &Path, bytes: &[u8]) -> Result<(), HostError> {
        self.host.append(path, bytes)?;
        self.bytes = self.bytes.saturating_add(bytes.len() as u64);
        if !bytes.is_empty() {
            self.notes.append(path);
        }
        Ok(())
    }

    fn link(&mut self, from: &Path, to: &Path) -> Result<(), HostError> {
        self.host.link(from, to)?;
        let noted = self.notes.link(from, to);
        self.lacks_memory = self.lacks_memory || noted.is_err();
        Ok(())
    }

    fn symlink(&mut self, text: &str, path: &Path) -> Result<(), HostError> {
        self.host.symlink(text, path)
    }

    fn rename(&mut self, from: &Path, to: &Path) -> Result<(), HostError> {
        self.host.rename(from, to)?;
        let noted = self.notes.rename(from, to);
        self.lacks_memory = self.lacks_memory || noted.is_err();
        Ok(())
    }

    fn unlink(&mut self, path: &Path) -> Result<(), HostError> {
        self.host.unlink(path)?;
        self.notes.remove(path);
        Ok(())
    }

    fn remove_dir(&mut self, path: &Path) -> Result<(), HostError> {
        self.host.remove_dir(path)
    }

    fn sync(&mut self) -> Result<(), HostError> {
        self.host.sync()
    }

    fn say(&mut self, piece: &[u8]) -> Result<(), HostError> {
        self.host.say(piece)
    }
}
