//! The content of a host in memory at one moment, with what a crash may bring back.
ghost use Rattle.std.specs.Prelude.{◌≡◌, OnOk, OnErr, IfOk};
ghost use Rattle.fp_memhost.specs.Names.{IsAscending};

use crate::entry::copy_entry;
use crate::event::{Event, Noted};
use crate::files::{Content, add_file, grow, settle};
use crate::names::{Name, entry, forget, may_put, put, ready};
use crate::stood::Stood;
use fp_host::{Entry, Path};
use std::alloc::{AllocError, Global};

/// The content of a host at one moment, with what a crash may bring back.
#[derive(Drop)]
pub struct Scene {
    /// The names, ascending by their texts.
    pub names: Vec<Name>,
    /// The files. If an image listed an id twice, the first one counts.
    pub files: Vec<Content>,
    /// All printed bytes.
    pub printed: Vec<u8>,
    /// Each entry that a name was given so far, the oldest first.
    pub stood: Vec<Stood>,
    ghost ascending: { IsAscending names.items },
}

impl Scene {
    ghost use Rattle.std.specs.Prelude.{◌≡◌, OnOk, OnErr, IfOk};
    ghost use Rattle.fp_host.specs.Paths.{Slot, file};
    ghost use Rattle.fp_host.specs.Calls.{put, may_put, with_file, renames, appends, syncs, says, done, half};
    ghost use Rattle.fp_memhost.specs.Names.{slot_of};
    ghost use Rattle.fp_memhost.specs.Scenes.{seen};
    ghost use Rattle.fp_memhost.specs.Start.{empty_view};
    ghost use Rattle.fp_memhost.specs.Replay.{change_of, stepped};

    /// Creates a scene in which only the root exists.
    pub fn empty(alloc: Global) -> Result<Self, AllocError>
        ensures { IfOk result (λ s. seen s ≡ empty_view) }
    {
        let root = Name {
            path: Path::root(alloc),
            entry: Some(Entry::Dir),
            earlier: Vec::new(alloc),
        };
        let mut names = Vec::new(alloc);
        names.push(root)?;
        Ok(Scene {
            names,
            files: Vec::new(alloc),
            printed: Vec::new(alloc),
            stood: Vec::new(alloc),
        })
    }

    /// Gives the name an entry. If memory runs out, the view stays the same.
    fn put(&mut self, path: &Path, entry: Option<Entry>) -> Result<(), AllocError>
        ensures ok { OnOk result (seen self.new ≡ put path.now (slot_of entry) (seen self.old)) }
        ensures err { OnErr result (seen self.new ≡ seen self.old) }
    {
        ready(&mut self.names, path)?;
        let stood = Stood::new(path, entry.as_ref())?;
        self.stood.push(stood)?;
        put(&mut self.names, path, entry);
        Ok(())
    }

    /// Adds an entry to those that a crash may leave at the name. If memory runs out, the view
    /// stays the same.
    fn may_put(&mut self, path: &Path, entry: Option<Entry>) -> Result<(), AllocError>
        ensures ok { OnOk result (seen self.new ≡ may_put path.now (slot_of entry)
            (seen self.old)) }
        ensures err { OnErr result (seen self.new ≡ seen self.old) }
    {
        ready(&mut self.names, path)?;
        may_put(&mut self.names, path, entry);
        Ok(())
    }

    /// Creates an empty file at the name. If memory runs out, the view stays the same.
    fn create(&mut self, path: &Path, mode: u32, id: u64) -> Result<(), AllocError>
        ensures ok { OnOk result (seen self.new ≡ put path.now (file id)
            (with_file id mode (seen self.old))) }
        ensures err { OnErr result (seen self.new ≡ seen self.old) }
    {
        ready(&mut self.names, path)?;
        let stood = Stood::new(path, Some(&Entry::File(id)))?;
        self.stood.try_reserve(1)?;
        add_file(&mut self.files, id, mode)?;
        self.stood.push(stood).unwrap();
        put(&mut self.names, path, Some(Entry::File(id)));
        Ok(())
    }

    /// Adds an empty file that a crash may leave at the name. If memory runs out, the view stays
    /// the same.
    fn may_create(&mut self, path: &Path, mode: u32, id: u64) -> Result<(), AllocError>
        ensures ok { OnOk result (seen self.new ≡ may_put path.now (file id)
            (with_file id mode (seen self.old))) }
        ensures err { OnErr result (seen self.new ≡ seen self.old) }
    {
        ready(&mut self.names, path)?;
        add_file(&mut self.files, id, mode)?;
        may_put(&mut self.names, path, Some(Entry::File(id)));
        Ok(())
    }

    /// Appends bytes to the name's file. Does nothing if the name is no file. If memory runs out,
    /// the view stays the same.
    fn append(&mut self, path: &Path, bytes: &[u8]) -> Result<(), AllocError>
        ensures ok { OnOk result (seen self.new ≡ done (appends path.now bytes.now)
            (seen self.old)) }
        ensures err { OnErr result (seen self.new ≡ seen self.old) }
    {
        match entry(&self.names, path.text()) {
            Some(Entry::File(id)) => {
                let id = *id;
                grow(&mut self.files, id, bytes)
            }
            _ => Ok(()),
        }
    }

    /// Moves the entry of one name to another. If memory runs out, the view stays the same.
    fn rename(&mut self, from: &Path, to: &Path) -> Result<(), AllocError>
        ensures ok { OnOk result (seen self.new ≡ done (renames from.now to.now) (seen self.old)) }
        ensures err { OnErr result (seen self.new ≡ seen self.old) }
    {
        let moved = copy_entry(entry(&self.names, from.text()))?;
        ready(&mut self.names, to)?;
        ready(&mut self.names, from)?;
        let at_to = Stood::new(to, moved.as_ref())?;
        let at_from = Stood::new(from, None)?;
        self.stood.try_reserve(2)?;
        self.stood.push(at_to).unwrap();
        self.stood.push(at_from).unwrap();
        put(&mut self.names, to, moved);
        put(&mut self.names, from, None);
        Ok(())
    }

    /// Adds a rename that isn't done, but that a crash may leave done, at each of the two names
    /// independently. If memory runs out, the view stays the same.
    fn may_rename(&mut self, from: &Path, to: &Path) -> Result<(), AllocError>
        ensures ok { OnOk result (seen self.new ≡ half (renames from.now to.now) (seen self.old)) }
        ensures err { OnErr result (seen self.new ≡ seen self.old) }
    {
        let moved = copy_entry(entry(&self.names, from.text()))?;
        ready(&mut self.names, to)?;
        ready(&mut self.names, from)?;
        may_put(&mut self.names, to, moved);
        may_put(&mut self.names, from, None);
        Ok(())
    }

    /// Makes the present content durable.
    fn sync(&mut self)
        ensures { seen self.new ≡ done syncs (seen self.old) }
    {
        forget(&mut self.names);
        settle(&mut self.files);
    }

    /// Prints bytes. If memory runs out, the view stays the same.
    fn say(&mut self, piece: &[u8]) -> Result<(), AllocError>
        ensures ok { OnOk result (seen self.new ≡ done (says piece.now) (seen self.old)) }
        ensures err { OnErr result (seen self.new ≡ seen self.old) }
    {
        self.printed.extend_from_slice(piece)
    }

    /// Does the change. If memory runs out, the view stays the same.
    fn make(&mut self, event: &Event) -> Result<(), AllocError>
        ensures ok { OnOk result (seen self.new ≡ done (change_of event.now) (seen self.old)) }
        ensures err { OnErr result (seen self.new ≡ seen self.old) }
    {
        match event {
            Event::MakeDir(path) => self.put(path, Some(Entry::Dir)),
            Event::Create { path, mode, id } => self.create(path, *mode, *id),
            Event::Append { path, bytes } => self.append(path, bytes.as_slice()),
            Event::Link { from, to } => {
                let linked = copy_entry(entry(&self.names, from.text()))?;
                self.put(to, linked)
            }
            Event::Symlink { text, path } => {
                let text = text.copy()?;
                self.put(path, Some(Entry::Link(text)))
            }
            Event::Rename { from, to } => self.rename(from, to),
            Event::Unlink(path) | Event::RemoveDir(path) => self.put(path, None),
            Event::Sync => {
                self.sync();
                Ok(())
            }
            Event::Say(piece) => self.say(piece.as_slice()),
        }
    }

    /// Adds a change that isn't done, but that a crash may leave done. If memory runs out, the view
    /// stays the same.
    fn may_make(&mut self, event: &Event) -> Result<(), AllocError>
        ensures ok { OnOk result (seen self.new ≡ half (change_of event.now) (seen self.old)) }
        ensures err { OnErr result (seen self.new ≡ seen self.old) }
    {
        match event {
            Event::MakeDir(path) => self.may_put(path, Some(Entry::Dir)),
            Event::Create { path, mode, id } => self.may_create(path, *mode, *id),
            Event::Link { from, to } => {
                let linked = copy_entry(entry(&self.names, from.text()))?;
                self.may_put(to, linked)
            }
            Event::Symlink { text, path } => {
                let text = text.copy()?;
                self.may_put(path, Some(Entry::Link(text)))
            }
            Event::Rename { from, to } => self.may_rename(from, to),
            Event::Unlink(path) | Event::RemoveDir(path) => self.may_put(path, None),
            Event::Append { .. } | Event::Sync | Event::Say(_) => Ok(()),
        }
    }

    /// Replays one step of the log. If memory runs out, the view stays the same.
    pub fn play(&mut self, noted: &Noted) -> Result<(), AllocError>
        ensures ok { OnOk result (seen self.new ≡ stepped noted.now (seen self.old)) }
        ensures err { OnErr result (seen self.new ≡ seen self.old) }
    {
        if noted.is_done {
            self.make(&noted.event)
        } else {
            self.may_make(&noted.event)
        }
    }
}
