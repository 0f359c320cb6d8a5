//! The log's record of a change.
ghost use Rattle.std.specs.Prelude.{◌≡◌, IfSome};
ghost use Rattle.fp_host.specs.Calls.{makes_dir, creates, appends, links, makes_link, renames, unlinks, removes_dir, says};
ghost use Rattle.fp_memhost.specs.Replay.{change_of, is_sync};

use fp_base::{Blob, Text};
use fp_host::Path;
use std::alloc::Global;

/// A change of the host by one call.
#[derive(Drop)]
pub enum Event {
    /// A new directory.
    MakeDir(Path),
    /// A new empty file, with these permission bits and this id.
    Create { path: Path, mode: u32, id: u64 },
    /// Bytes that are appended to the file at the path.
    Append { path: Path, bytes: Blob },
    /// A new hard link `to` of the file at `from`.
    Link { from: Path, to: Path },
    /// A new symlink with this text.
    Symlink { text: Text, path: Path },
    /// The renaming of a file or symlink from `from` to `to`, which replaces a file or symlink
    /// there.
    Rename { from: Path, to: Path },
    /// The removal of a file or a symlink.
    Unlink(Path),
    /// The removal of an empty directory.
    RemoveDir(Path),
    /// A sync, which makes the present content durable.
    Sync,
    /// Bytes that are printed.
    Say(Blob),
}

/// A change with the number of its call. A change that wasn't done leaves the present content as it
/// was, but a crash may leave it done.
#[derive(Drop)]
pub struct Noted {
    /// The number of the call, counted from 0.
    pub call: u64,
    /// Whether the change was done.
    pub is_done: bool,
    /// The change.
    pub event: Event,
}

// Each constructor copies its arguments, and returns `None` if memory runs out.
impl Event {
    /// Returns the event that makes a directory; `None` if memory runs out.
    pub fn make_dir(path: &Path) -> Option<Self>
        ensures { IfSome result (λ e. change_of e ≡ makes_dir path.now) }
    {
        Some(Event::MakeDir(path.copy().ok()?))
    }

    /// Returns the event that creates an empty file with these permission bits and this id; `None`
    /// if memory runs out.
    pub fn create(path: &Path, mode: u32, id: u64) -> Option<Self>
        ensures { IfSome result (λ e. change_of e ≡ creates path.now mode id) }
    {
        let path = path.copy().ok()?;
        Some(Event::Create { path, mode, id })
    }

    /// Returns the event that appends bytes to the file at the path; `None` if memory runs out.
    pub fn append(alloc: Global, path: &Path, bytes: &[u8]) -> Option<Self>
        ensures { IfSome result (λ e. change_of e ≡ appends path.now bytes.now) }
    {
        let path = path.copy().ok()?;
        let bytes = Blob::from_vec(bytes.to_vec(alloc).ok()?);
        Some(Event::Append { path, bytes })
    }

    /// Returns the event that makes `to` a hard link of the file at `from`; `None` if memory runs
    /// out.
    pub fn link(from: &Path, to: &Path) -> Option<Self>
        ensures { IfSome result (λ e. change_of e ≡ links from.now to.now) }
    {
        let from = from.copy().ok()?;
        let to = to.copy().ok()?;
        Some(Event::Link { from, to })
    }

    /// Returns the event that makes a symlink with this text; `None` if memory runs out.
    pub fn symlink(alloc: Global, text: &str, path: &Path) -> Option<Self>
        ensures { IfSome result (λ e. change_of e ≡ makes_link text.now path.now) }
    {
        let text = Text::from_string(text.to_string(alloc).ok()?);
        let path = path.copy().ok()?;
        Some(Event::Symlink { text, path })
    }

    /// Returns the event that renames `from` to `to`; `None` if memory runs out.
    pub fn rename(from: &Path, to: &Path) -> Option<Self>
        ensures { IfSome result (λ e. change_of e ≡ renames from.now to.now) }
    {
        let from = from.copy().ok()?;
        let to = to.copy().ok()?;
        Some(Event::Rename { from, to })
    }

    /// Returns the event that removes the file or symlink at the path; `None` if memory runs out.
    pub fn unlink(path: &Path) -> Option<Self>
        ensures { IfSome result (λ e. change_of e ≡ unlinks path.now) }
    {
        Some(Event::Unlink(path.copy().ok()?))
    }

    /// Returns the event that removes the empty directory at the path; `None` if memory runs out.
    pub fn remove_dir(path: &Path) -> Option<Self>
        ensures { IfSome result (λ e. change_of e ≡ removes_dir path.now) }
    {
        Some(Event::RemoveDir(path.copy().ok()?))
    }

    /// Returns the event that prints bytes; `None` if memory runs out.
    pub fn say(alloc: Global, piece: &[u8]) -> Option<Self>
        ensures { IfSome result (λ e. change_of e ≡ says piece.now) }
    {
        Some(Event::Say(Blob::from_vec(piece.to_vec(alloc).ok()?)))
    }

    /// Returns whether the change is a sync.
    pub fn is_sync(&self) -> bool
        ensures { result ≡ is_sync self.now }
    {
        matches!(self, Event::Sync)
    }
}
