//! A real directory as a host.
ghost use Rattle.std.specs.Prelude.{◌≡◌, ◌≢◌, ◌↔◌, ◌≤◌, [], None, true, length, IfOk, OnOk};
ghost use Rattle.fp_host.specs.Moments.{NeedsNoMemory};
ghost use Rattle.fp_host.specs.Reads.{AreNames, HasBits};
ghost use Rattle.fp_host.specs.declared.host.HostError.TheVariants.{Failed};
ghost use Rattle.fp_host.specs.declared.limits.TheConstants.{PERMISSION_BITS};
ghost use Rattle.fp_system.specs.Counts.{Counts, one_more, many_more};

use crate::crew::Crew;
use crate::output::Output;
use crate::{Change, Tree};
use fp_base::{Items, Text};
use fp_host::{Host, HostError, Path, Stat};
use fp_realroot::{Access, System};
use fp_system::{Call, Cause, Faults, SystemError};
use std::alloc::{AllocError, Global};
use std::marker::Model;
use std::rt::Files;
use std::thread::Threads;

/// A real directory as a host, and the output that it prints to.
///
/// It doesn't report its content to contracts. Each error of the system and each condition that
/// doesn't hold is counted and returned as `Failed`, and so is running out of memory in a call that
/// may not return `NoMemory`. No call returns `Clash`.
///
/// It is opened to read or to change, and takes advisory locks (flock(2)). A host that changes
/// takes the exclusive lock of the file `.lock` at the top of the root at its first call other than
/// `say`, and keeps it as long as it exists. A host that reads takes a shared lock of the root
/// directory at its first call, and releases it when it prints. A host that changes takes the lock
/// of the root directory exclusively before its first call that a reader could notice, and releases
/// it after the next `sync`. Such a call removes a name outside `repo/tmp`, or moves one, unless it
/// moves it within `repo/tmp` or from there to the path of a new object. A host that waits for a
/// lock prints that on standard error, and after ten seconds which processes hold the lock. If what
/// is locked was removed or replaced meanwhile, it starts again.
///
/// A directory without a lock file is not changed if no file marks it as an installation and fpk
/// would remove something in it: the first call fails. A host that reads makes nothing: an absent
/// root reads as an empty directory, and every change fails. A host that changes makes the root,
/// the directories above it and the lock file at its first call, if they are absent. `list` of the
/// root leaves the lock file out.
///
/// The root and each directory below it get the permission bits 0o755, whatever the umask.
/// Directories above the root get the bits that the umask leaves. `stat` reports exactly the bits
/// that `create` was asked for. A file that its owner may not read has 0o400 and the sticky bit on
/// the disk in addition, which Linux ignores there. A file that is moved to the store's objects, or
/// written where they wait, gets the modification time 0, as OSTree's objects have. The id of a
/// file is its inode number; a file that the host created has a number of the host's own. A pipe, a
/// socket and a device are never opened: each is reported as a symlink whose text names its type.
///
/// The root may be a symlink or be below one. Below the root no symlink is followed: a call fails
/// if a symlink is in the place of a directory above its path. The host remembers what it found and
/// made until it changes it: each directory and file is looked up once, and an absent directory
/// too. From what it remembers, it lists the directories that it made and reports the bits and
/// lengths of files. What another program puts there later is followed, or not seen.
///
/// A new file of at most 256 KiB waits in memory until the next `sync`, until a call needs it on
/// the disk, or until 800 files or 8 MiB wait. Then threads create the files while other calls are
/// done. What is asked of such a file meanwhile is answered from memory. If it can't be created,
/// the next `sync` fails, and each later one.
///
/// A `sync` syncs each file and then each directory that was changed since the last one, many of
/// them by several threads. At most 192 larger files stay open until then: if there are more, those
/// are synced earlier. If the process runs out of open files, the open ones are synced and closed,
/// and the call is tried once more. While changes wait for a `sync`, the lock file contains the
/// boot id of Linux as a mark; after a `sync` it contains a line of dashes; a new one is empty. If
/// an earlier command of the same boot left a mark or an empty file, or the root existed without a
/// lock file, the first `sync` syncs every file and directory that can be opened at fpk's names at
/// the top. The directories above the root are synced too, if their file system supports it. After
/// a failed sync of a file or directory, or a change for whose note memory ran out, no later `sync`
/// succeeds.
///
/// If the file system allows no more links of a file, `link` makes a copy of it, a new file.
///
/// Contracts see the number of failures, whether no change waits for a sync, and the number of
/// bytes printed.
pub struct HostDir<'a, R: Files, T, O> {
    tree: Tree<'a, R>,
    crew: Crew<'a, T>,
    output: Output<'a, O>,
    faults: Faults,
}

impl<'a, R: Files, T, O> Model for HostDir<'a, R, T, O> {
    ghost use Rattle.fp_realhost.specs.Seen.{Seen};

    ghost Value = { Seen };

    ghost view = { λ h. record { faults = h.faults; is_settled = h.tree; printed = h.output } };
}

impl<R: Files, T, O> Drop for HostDir<'_, R, T, O> {
    fn drop(self) {
        let HostDir {
            tree: _,
            crew: _,
            output: _,
            faults: _,
        } = self;
    }
}

impl<'a, R: System, T: System + Threads, O: Print> HostDir<'a, R, T, O> {
    /// Creates the host over this directory, printing to this output; the empty path is the current
    /// directory. It makes no system call.
    pub fn new(
        rt: &'a R,
        threads: &T,
        out: &'a O,
        alloc: Global,
        root: &str,
        access: Access,
    ) -> Result<Self, AllocError>
        ensures untold { IfOk result (λ h. ⟦<HostDir<'a, R, T, O> as Host>⟧.moments h ≡ None) }
        ensures faults { IfOk result (λ h. ⟦<HostDir<'a, R, T, O> as Host>⟧.faults h ≡ 0) }
    {
        HostDir::with_crew(rt, Crew::of(threads), out, alloc, root, access)
    }

    /// Creates the host over this directory, with new small files created by another system that
    /// has the same paths. Call `finish` before it is dropped.
    pub fn with_maker(
        rt: &'a R,
        maker: &'a T,
        out: &'a O,
        alloc: Global,
        root: &str,
        access: Access,
    ) -> Result<Self, AllocError>
        ensures untold { IfOk result (λ h. ⟦<HostDir<'a, R, T, O> as Host>⟧.moments h ≡ None) }
        ensures faults { IfOk result (λ h. ⟦<HostDir<'a, R, T, O> as Host>⟧.faults h ≡ 0) }
    {
        HostDir::with_crew(rt, Crew::with(maker), out, alloc, root, access)
    }

    fn with_crew(
        rt: &'a R,
        crew: Crew<'a, T>,
        out: &'a O,
        alloc: Global,
        root: &str,
        access: Access,
    ) -> Result<Self, AllocError>
        ensures untold { IfOk result (λ h. ⟦<HostDir<'a, R, T, O> as Host>⟧.moments h ≡ None) }
        ensures faults { IfOk result (λ h. ⟦<HostDir<'a, R, T, O> as Host>⟧.faults h ≡ 0) }
    {
        Ok(HostDir {
            tree: Tree::new(rt, alloc, root, access)?,
            crew,
            output: Output::new(out),
            faults: Faults::none(),
        })
    }

    /// Waits until no thread creates files. A file that still waits is never created.
    pub fn finish(&mut self)
        ensures faults { self.new.faults ≡ self.old.faults }
    {
        self.tree.join(&self.crew);
    }
}

impl<'a, R: Files, T, O> HostDir<'a, R, T, O> {
    /// Returns the number of failures; it stays at 2^64 - 1 once it gets there.
    pub fn faults(&self) -> u64
        ensures { result ≡ self.now.faults }
    {
        self.faults.count()
    }

    /// Returns the last error of the system, or `None` if the number of failures is 0.
    pub fn last_error(&self) -> Option<&SystemError>
        ensures { (result ≡ None) ↔ (self.now.faults ≡ 0) }
    {
        self.faults.last()
    }

    /// Returns whether the root directory was absent when it was last looked up.
    pub fn is_absent(&self) -> bool {
        self.tree.gate.is_absent()
    }

    /// Counts a failure.
    fn fail(&mut self, refusal: SystemError) -> HostError
        ensures answer { result ≡ Failed }
        ensures more { self.new ≡ record self.old { faults = one_more self.old.faults } }
        ensures later { self.old.faults ≤ self.new.faults }
    {
        self.faults.note(refusal);
        HostError::Failed
    }

    /// Returns the result of a call on a path, and counts each error.
    fn answer<A>(&mut self, call: Call, path: &Path, done: Result<A, Cause>) -> Result<A, HostError>
        ensures counts { Counts self.old.faults self.new.faults result }
        ensures needs_no_memory { NeedsNoMemory result }
        ensures same { IfOk result (λ t. done ≡ Ok t) }
    {
        match done {
            Ok(answer) => Ok(answer),
            Err(e) => {
                let refusal = self.tree.refusal(call, path, e);
                Err(self.fail(refusal))
            }
        }
    }

    /// Returns the result of a call that may return `NoMemory`, and counts each other error.
    fn answer_or_starve<A>(
        &mut self,
        call: Call,
        path: &Path,
        done: Result<A, Cause>,
    ) -> Result<A, HostError>
        ensures counts { Counts self.old.faults self.new.faults result }
        ensures same { IfOk result (λ t. done ≡ Ok t) }
    {
        match done {
            Ok(answer) => Ok(answer),
            Err(Cause::NoMemory) => Err(HostError::NoMemory),
            Err(e) => self.answer(call, path, Err(e)),
        }
    }
}

impl<R: System, T: System + Threads, O> HostDir<'_, R, T, O> {
    /// Makes a change at the path. If the process runs out of open files, closes the open ones and
    /// tries once more.
    fn change(&mut self, call: Call, path: &Path, change: Change<'_>) -> Result<(), HostError>
        ensures counts { Counts self.old.faults self.new.faults result }
        ensures needs_no_memory { NeedsNoMemory result }
    {
        let first = self.tree.change(&self.crew, path, change);
        let done = if self.tree.makes_room(&self.crew, &first) {
            self.tree.change(&self.crew, path, change)
        } else {
            first
        };
        self.answer(call, path, done)
    }
}

impl<R: System, T: System + Threads, O: Print> Host for HostDir<'_, R, T, O> {
    ghost use Rattle.std.specs.Prelude.{None};
    ghost use Rattle.std.proofs.lemmas.Option.{none-some};

    ghost moments = { λ h. None };

    ghost faults = { λ h. h.faults };

    fn stat(&mut self, path: &Path) -> Result<Stat, HostError>
        ensures counts { Counts self.old.faults self.new.faults result }
        ensures bits { IfOk result HasBits }
        ensures needs_no_memory { NeedsNoMemory result }
    {
        let done = self.tree.stat(&self.crew, path);
        self.answer(Call::Stat, path, done)
    }

    fn list(&mut self, alloc: Global, path: &Path) -> Result<Items<Text>, HostError>
        ensures counts { Counts self.old.faults self.new.faults result }
        ensures names { IfOk result AreNames }
    {
        let first = self.tree.list(&self.crew, alloc, path);
        let done = if self.tree.makes_room(&self.crew, &first) {
            self.tree.list(&self.crew, alloc, path)
        } else {
            first
        };
        self.answer_or_starve(Call::List, path, done)
    }

    fn read_at(&mut self, path: &Path, at: u64, into: &mut [u8]) -> Result<usize, HostError>
        ensures counts { Counts self.old.faults self.new.faults result }
        ensures bound { IfOk result (λ n. n ≤ length into.old) }
        ensures needs_no_memory { NeedsNoMemory result }
    {
        let first = self.tree.read_at(&self.crew, path, at, into);
        let done = if self.tree.makes_room(&self.crew, &first) {
            self.tree.read_at(&self.crew, path, at, into)
        } else {
            first
        };
        self.answer(Call::Read, path, done)
    }

    fn read_link(&mut self, alloc: Global, path: &Path) -> Result<Text, HostError>
        ensures counts { Counts self.old.faults self.new.faults result }
    {
        let done = self.tree.read_link(&self.crew, alloc, path);
        self.answer_or_starve(Call::ReadLink, path, done)
    }

    fn make_dir(&mut self, path: &Path) -> Result<(), HostError>
        ensures counts { Counts self.old.faults self.new.faults result }
        ensures needs_no_memory { NeedsNoMemory result }
    {
        self.change(Call::MakeDir, path, Change::MakeDir)
    }

    fn create(&mut self, path: &Path, mode: u32) -> Result<(), HostError>
        ensures counts { Counts self.old.faults self.new.faults result }
        ensures bits { OnOk result (mode ≤ PERMISSION_BITS) }
        ensures needs_no_memory { NeedsNoMemory result }
    {
        let first = self.tree.create(&self.crew, path, mode);
        let done = if self.tree.makes_room(&self.crew, &first) {
            self.tree.create(&self.crew, path, mode)
        } else {
            first
        };
        self.answer(Call::Create, path, done)
    }

    fn append(&mut self, path: &Path, bytes: &[u8]) -> Result<(), HostError>
        ensures counts { Counts self.old.faults self.new.faults result }
        ensures needs_no_memory { NeedsNoMemory result }
    {
        let first = self.tree.append(&self.crew, path, bytes);
        let done = if self.tree.makes_room(&self.crew, &first) {
            self.tree.append(&self.crew, path, bytes)
        } else {
            first
        };
        self.answer(Call::Append, path, done)
    }

    fn link(&mut self, from: &Path, to: &Path) -> Result<(), HostError>
        ensures counts { Counts self.old.faults self.new.faults result }
        ensures needs_no_memory { NeedsNoMemory result }
    {
        let first = self.tree.link(&self.crew, from, to);
        let done = if self.tree.makes_room(&self.crew, &first) {
            self.tree.link(&self.crew, from, to)
        } else {
            first
        };
        self.answer(Call::Link, to, done)
    }

    fn symlink(&mut self, text: &str, path: &Path) -> Result<(), HostError>
        ensures counts { Counts self.old.faults self.new.faults result }
        ensures needs_no_memory { NeedsNoMemory result }
    {
        self.change(Call::Symlink, path, Change::Symlink(text))
    }

    fn rename(&mut self, from: &Path, to: &Path) -> Result<(), HostError>
        ensures counts { Counts self.old.faults self.new.faults result }
        ensures needs_no_memory { NeedsNoMemory result }
    {
        let first = self.tree.rename(&self.crew, from, to);
        let done = if self.tree.makes_room(&self.crew, &first) {
            self.tree.rename(&self.crew, from, to)
        } else {
            first
        };
        self.answer(Call::Rename, to, done)
    }

    fn unlink(&mut self, path: &Path) -> Result<(), HostError>
        ensures counts { Counts self.old.faults self.new.faults result }
        ensures needs_no_memory { NeedsNoMemory result }
    {
        self.change(Call::Unlink, path, Change::Unlink)
    }

    fn remove_dir(&mut self, path: &Path) -> Result<(), HostError>
        ensures counts { Counts self.old.faults self.new.faults result }
        ensures below { OnOk result (path.now ≢ []) }
        ensures needs_no_memory { NeedsNoMemory result }
    {
        let first = self.tree.remove_dir(&self.crew, path);
        let done = if self.tree.makes_room(&self.crew, &first) {
            self.tree.remove_dir(&self.crew, path)
        } else {
            first
        };
        self.answer(Call::RemoveDir, path, done)
    }

    fn sync(&mut self) -> Result<(), HostError>
        ensures counts { Counts self.old.faults self.new.faults result }
        ensures needs_no_memory { NeedsNoMemory result }
        ensures settled { OnOk result (self.new.is_settled ≡ true) }
    {
        match self.tree.sync(&self.crew) {
            Ok(()) => Ok(()),
            Err(unsynced) => {
                let refusal = self.tree.unsynced(unsynced);
                Err(self.fail(refusal))
            }
        }
    }

    fn say(&mut self, piece: &[u8]) -> Result<(), HostError>
        ensures counts { Counts self.old.faults self.new.faults result }
        ensures needs_no_memory { NeedsNoMemory result }
        ensures printed { OnOk result (self.new.printed ≡ many_more self.old.printed
            (length piece.now)) }
    {
        self.tree.gate.release();
        match self.output.print(piece) {
            Ok(()) => Ok(()),
            Err(cause) => Err(self.fail(SystemError::without_path(Call::Say, cause))),
        }
    }

    ghost is_tree = { λ h m e. absurd (none-some m e) };
}
