//! The calls of the host in memory.
ghost use Rattle.std.specs.Prelude.{◌≡◌, ◌≤◌, ℕ, List, Option, Some, length, IfOk};
ghost use Rattle.fp_host.specs.Calls.{Step, Creates, makes_dir, creates, appends, links, makes_link, renames, unlinks, removes_dir, syncs, says};
ghost use Rattle.fp_host.specs.Moments.{Moments, Makes, HasCause, NeedsNoMemory};
ghost use Rattle.fp_host.specs.Reads.{StatOf, ListOf, ReadOf, LinkOf, AreNames, HasBits};
ghost use Rattle.fp_memhost.specs.Story.{FailsAs, FailsToRead, FailsToCreate, Records, AddsNone, AddsAt};
ghost use Rattle.fp_memhost.specs.Stories.{told_of, story_of};
ghost use Rattle.fp_memhost.specs.Told.{law};

use crate::conditions::{
    can_append, can_create, can_link, can_make_dir, can_remove_dir, can_rename, can_symlink,
    can_unlink,
};
use crate::event::Event;
use crate::files::fresh_id;
use crate::mem::MemHost;
use crate::reads::{link_of, list_of, read_of, stat_of};
use crate::story::Recorder;
use fp_base::{Items, Text};
use fp_host::{Host, HostError, Path, Stat};
use std::alloc::Global;

impl Recorder for MemHost {
    ghost story = { story_of };
}

// Besides the clauses of the trait, each call has clauses on what it records. A call that isn't to
// fail fails only if memory for its own record runs out, and then nothing changes. A call that is
// to fail leaves the view that `fail_calls` asks for. A call that only reads needs no record, so it
// never runs out of memory for one.
impl Host for MemHost {
    ghost moments = { λ m. Some (told_of m) };

    ghost faults = { λ m. m.faults };

    ghost is_tree = { law };

    fn stat(&mut self, path: &Path) -> Result<Stat, HostError>
        ensures step { Makes (StatOf path.now result) (Some (told_of self.old))
            (Some (told_of self.new)) }
        ensures bits { IfOk result HasBits }
        ensures fault_has_cause { HasCause (Some (told_of self.old)) self.old.faults
            self.new.faults result }
        ensures needs_no_memory { NeedsNoMemory result }
        ensures records { Records FailsToRead AddsNone (story_of self.old) (story_of self.new)
            (told_of self.old) (told_of self.new) result }
        ensures starved { (story_of self.new).starved ≡ (story_of self.old).starved }
    {
        let stat = stat_of(self.scene(), path);
        self.look(Ok(stat))
    }

    fn list(&mut self, alloc: Global, path: &Path) -> Result<Items<Text>, HostError>
        ensures step { Makes (ListOf path.now result) (Some (told_of self.old))
            (Some (told_of self.new)) }
        ensures names { IfOk result AreNames }
        ensures fault_has_cause { HasCause (Some (told_of self.old)) self.old.faults
            self.new.faults result }
        ensures records { Records FailsToRead AddsNone (story_of self.old) (story_of self.new)
            (told_of self.old) (told_of self.new) result }
        ensures starved { (story_of self.new).starved ≡ (story_of self.old).starved }
    {
        let names = list_of(alloc, self.scene(), path);
        self.look(names)
    }

    fn read_at(&mut self, path: &Path, at: u64, into: &mut [u8]) -> Result<usize, HostError>
        ensures step { Makes (ReadOf path.now at into.new result) (Some (told_of self.old))
            (Some (told_of self.new)) }
        ensures bound { IfOk result (λ n. n ≤ length into.old) }
        ensures fault_has_cause { HasCause (Some (told_of self.old)) self.old.faults
            self.new.faults result }
        ensures needs_no_memory { NeedsNoMemory result }
        ensures records { Records FailsToRead AddsNone (story_of self.old) (story_of self.new)
            (told_of self.old) (told_of self.new) result }
        ensures starved { (story_of self.new).starved ≡ (story_of self.old).starved }
    {
        let many = read_of(self.scene(), path, at, into);
        self.look(many)
    }

    fn read_link(&mut self, _alloc: Global, path: &Path) -> Result<Text, HostError>
        ensures step { Makes (LinkOf path.now result) (Some (told_of self.old))
            (Some (told_of self.new)) }
        ensures fault_has_cause { HasCause (Some (told_of self.old)) self.old.faults
            self.new.faults result }
        ensures records { Records FailsToRead AddsNone (story_of self.old) (story_of self.new)
            (told_of self.old) (told_of self.new) result }
        ensures starved { (story_of self.new).starved ≡ (story_of self.old).starved }
    {
        let text = link_of(self.scene(), path);
        self.look(text)
    }

    fn make_dir(&mut self, path: &Path) -> Result<(), HostError>
        ensures step { Makes (Step (makes_dir path.now) result) (Some (told_of self.old))
            (Some (told_of self.new)) }
        ensures fault_has_cause { HasCause (Some (told_of self.old)) self.old.faults
            self.new.faults result }
        ensures needs_no_memory { NeedsNoMemory result }
        ensures records { Records (FailsAs (makes_dir path.now)) AddsNone (story_of self.old)
            (story_of self.new) (told_of self.old) (told_of self.new) result }
    {
        let can = can_make_dir(self.scene(), path);
        self.play(can, Event::make_dir(path))
    }

    fn create(&mut self, path: &Path, mode: u32) -> Result<(), HostError>
        ensures step { Makes (Creates path.now mode result) (Some (told_of self.old))
            (Some (told_of self.new)) }
        ensures fault_has_cause { HasCause (Some (told_of self.old)) self.old.faults
            self.new.faults result }
        ensures needs_no_memory { NeedsNoMemory result }
        ensures records { Records (FailsToCreate path.now mode) (AddsAt path.now mode)
            (story_of self.old) (story_of self.new) (told_of self.old) (told_of self.new) result }
    {
        let can = can_create(self.scene(), path, mode);
        let id = fresh_id(&self.scene().files);
        self.play(can, Event::create(path, mode, id))
    }

    fn append(&mut self, path: &Path, bytes: &[u8]) -> Result<(), HostError>
        ensures step { Makes (Step (appends path.now bytes.now) result) (Some (told_of self.old))
            (Some (told_of self.new)) }
        ensures fault_has_cause { HasCause (Some (told_of self.old)) self.old.faults
            self.new.faults result }
        ensures needs_no_memory { NeedsNoMemory result }
        ensures records { Records (FailsAs (appends path.now bytes.now)) AddsNone
            (story_of self.old) (story_of self.new) (told_of self.old) (told_of self.new) result }
    {
        let can = can_append(self.scene(), path);
        self.play(can, Event::append(self.alloc(), path, bytes))
    }

    fn link(&mut self, from: &Path, to: &Path) -> Result<(), HostError>
        ensures step { Makes (Step (links from.now to.now) result) (Some (told_of self.old))
            (Some (told_of self.new)) }
        ensures fault_has_cause { HasCause (Some (told_of self.old)) self.old.faults
            self.new.faults result }
        ensures needs_no_memory { NeedsNoMemory result }
        ensures records { Records (FailsAs (links from.now to.now)) AddsNone (story_of self.old)
            (story_of self.new) (told_of self.old) (told_of self.new) result }
    {
        let can = can_link(self.scene(), from, to);
        self.play(can, Event::link(from, to))
    }

    fn symlink(&mut self, text: &str, path: &Path) -> Result<(), HostError>
        ensures step { Makes (Step (makes_link text.now path.now) result) (Some (told_of self.old))
            (Some (told_of self.new)) }
        ensures fault_has_cause { HasCause (Some (told_of self.old)) self.old.faults
            self.new.faults result }
        ensures needs_no_memory { NeedsNoMemory result }
        ensures records { Records (FailsAs (makes_link text.now path.now)) AddsNone
            (story_of self.old) (story_of self.new) (told_of self.old) (told_of self.new) result }
    {
        let can = can_symlink(self.scene(), text, path);
        self.play(can, Event::symlink(self.alloc(), text, path))
    }

    fn rename(&mut self, from: &Path, to: &Path) -> Result<(), HostError>
        ensures step { Makes (Step (renames from.now to.now) result) (Some (told_of self.old))
            (Some (told_of self.new)) }
        ensures fault_has_cause { HasCause (Some (told_of self.old)) self.old.faults
            self.new.faults result }
        ensures needs_no_memory { NeedsNoMemory result }
        ensures records { Records (FailsAs (renames from.now to.now)) AddsNone (story_of self.old)
            (story_of self.new) (told_of self.old) (told_of self.new) result }
    {
        let can = can_rename(self.scene(), from, to);
        self.play(can, Event::rename(from, to))
    }

    fn unlink(&mut self, path: &Path) -> Result<(), HostError>
        ensures step { Makes (Step (unlinks path.now) result) (Some (told_of self.old))
            (Some (told_of self.new)) }
        ensures fault_has_cause { HasCause (Some (told_of self.old)) self.old.faults
            self.new.faults result }
        ensures needs_no_memory { NeedsNoMemory result }
        ensures records { Records (FailsAs (unlinks path.now)) AddsNone (story_of self.old)
            (story_of self.new) (told_of self.old) (told_of self.new) result }
    {
        let can = can_unlink(self.scene(), path);
        self.play(can, Event::unlink(path))
    }

    fn remove_dir(&mut self, path: &Path) -> Result<(), HostError>
        ensures step { Makes (Step (removes_dir path.now) result) (Some (told_of self.old))
            (Some (told_of self.new)) }
        ensures fault_has_cause { HasCause (Some (told_of self.old)) self.old.faults
            self.new.faults result }
        ensures needs_no_memory { NeedsNoMemory result }
        ensures records { Records (FailsAs (removes_dir path.now)) AddsNone (story_of self.old)
            (story_of self.new) (told_of self.old) (told_of self.new) result }
    {
        let can = can_remove_dir(self.scene(), path);
        self.play(can, Event::remove_dir(path))
    }

    fn sync(&mut self) -> Result<(), HostError>
        ensures step { Makes (Step syncs result) (Some (told_of self.old))
            (Some (told_of self.new)) }
        ensures fault_has_cause { HasCause (Some (told_of self.old)) self.old.faults
            self.new.faults result }
        ensures needs_no_memory { NeedsNoMemory result }
        ensures records { Records (FailsAs syncs) AddsNone (story_of self.old) (story_of self.new)
            (told_of self.old) (told_of self.new) result }
    {
        self.play(true, Some(Event::Sync))
    }

    fn say(&mut self, piece: &[u8]) -> Result<(), HostError>
        ensures step { Makes (Step (says piece.now) result) (Some (told_of self.old))
            (Some (told_of self.new)) }
        ensures fault_has_cause { HasCause (Some (told_of self.old)) self.old.faults
            self.new.faults result }
        ensures needs_no_memory { NeedsNoMemory result }
        ensures records { Records (FailsAs (says piece.now)) AddsNone (story_of self.old)
            (story_of self.new) (told_of self.old) (told_of self.new) result }
    {
        self.play(true, Event::say(self.alloc(), piece))
    }
}
