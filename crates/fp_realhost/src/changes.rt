//! The calls that change a real directory.
ghost use Rattle.std.specs.Prelude.{◌≢◌, ◌≤◌, [], OnOk};

use crate::below::is_below;
use crate::crew::Crew;
use crate::moves::Move;
use crate::tree::Tree;
use crate::writer::Writer;
use crate::{folders, links, moves};
use fp_host::{PERMISSION_BITS, Path, Stat};
use fp_realnotes::Notes;
use fp_realroot::{LAYOUT, OpenFiles, System, TOO_LARGE, sync_open};
use fp_system::{Cause, Reader, create_new, is_sticky, kept_bits, look};
use std::fs::OpenFile;
use std::io::Write;
use std::rt::Files;
use std::thread::Threads;

/// A change of one path, other than creating a file.
#[derive(Clone, Copy)]
pub enum Change<'a> {
    /// Making a directory.
    MakeDir,
    /// Making a symlink with this text.
    Symlink(&'a str),
    /// Removing a file or a symlink.
    Unlink,
    /// Removing an empty directory.
    RemoveDir,
}

impl Change<'_> {
    fn takes_away(self) -> bool {
        matches!(self, Change::Unlink | Change::RemoveDir)
    }
}

/// Returns whether the path is below the directory of temporary files, which readers ignore.
fn is_work(path: &Path) -> bool {
    is_below(path.text(), LAYOUT.work)
}

/// Returns whether readers can't notice the move: it is one of temporary files, or it stores a new
/// object, to which nothing that a reader sees refers yet.
fn is_unseen(from: &Path, to: &Path, is_stored: bool, moved: &Move) -> bool {
    is_work(from) && (is_work(to) || is_stored && !moved.replaces)
}

impl<R: System> Tree<'_, R> {
    /// Makes the change. A new directory gets the permission bits 0o755. A file that waits at the
    /// path is created first. Before a name is removed outside the temporary files, readers are
    /// locked out.
    pub fn change<T: System + Threads>(
        &mut self,
        crew: &Crew<'_, T>,
        path: &Path,
        change: Change<'_>,
    ) -> Result<(), Cause> {
        match self.reach_to_change(path) {
            Ok(()) => {
                self.make_at(crew);
                if change.takes_away() && !is_work(path) {
                    self.gate.keep_looks_out(self.rt)?;
                }
                change_at(
                    self.rt,
                    &self.at,
                    change,
                    &mut self.notes,
                    &mut self.reader,
                    &mut self.writer,
                    &mut self.open,
                )
            }
            Err(e) => Err(e),
        }
    }

    /// Creates an empty file with exactly these permission bits, as `stat` reports them. Errs with
    /// `BadBits` if they are more than 0o7777 or contain the sticky bit. The file may wait with its
    /// content and be created later. If too many files are open that wait for a sync, those are
    /// synced first.
    pub fn create<T: System + Threads>(
        &mut self,
        crew: &Crew<'_, T>,
        path: &Path,
        mode: u32,
    ) -> Result<(), Cause>
        ensures { OnOk result (mode ≤ PERMISSION_BITS) }
    {
        if mode > PERMISSION_BITS || is_sticky(mode) {
            return Err(Cause::BadBits);
        }
        let kept = kept_bits(mode);
        match self.reach_to_change(path) {
            Ok(()) => self.create_at(crew, mode, kept),
            Err(e) => Err(e),
        }
    }

    fn create_at<T: System + Threads>(
        &mut self,
        crew: &Crew<'_, T>,
        asked: u32,
        kept: u32,
    ) -> Result<(), Cause> {
        match self.let_wait(crew, asked, kept) {
            Ok(true) => Ok(()),
            Ok(false) => self.create_now(crew, asked, kept),
            Err(e) => Err(e),
        }
    }

    fn create_now<T: System + Threads>(
        &mut self,
        crew: &Crew<'_, T>,
        asked: u32,
        kept: u32,
    ) -> Result<(), Cause> {
        if self.open.are_full() {
            sync_open(self.rt, &crew.team, &mut self.open, &mut self.notes.touched);
        }
        create(
            self.rt,
            &self.at,
            (asked, kept),
            &mut self.notes,
            &mut self.writer,
            &mut self.open,
        )
    }

    /// Appends bytes to a file that was created since the last sync. Errs with `NotNew` for another
    /// file, and with `TOO_LARGE` if the file would exceed the limit of the process, since Linux
    /// would end the process.
    pub fn append<T: System + Threads>(
        &mut self,
        crew: &Crew<'_, T>,
        path: &Path,
        bytes: &[u8],
    ) -> Result<(), Cause> {
        match self.reach_to_change(path) {
            Ok(()) if self.is_too_large(bytes.len()) => Err(TOO_LARGE),
            Ok(()) => self.append_at(crew, bytes),
            Err(e) => Err(e),
        }
    }

    /// Returns whether the file at the path of the call would be too large with this many more
    /// bytes.
    fn is_too_large(&self, count: usize) -> bool {
        let largest = self.gate.largest_file();
        largest < u64::MAX && self.size_now().saturating_add(count as u64) > largest
    }

    /// Returns the length in bytes of the file at the path of the call.
    fn size_now(&self) -> u64 {
        match self.notes.made.stat(&self.at) {
            Some(Stat::File { size, .. }) => size,
            _ => size_at(self.rt, &self.at),
        }
    }

    fn append_at<T: System + Threads>(
        &mut self,
        crew: &Crew<'_, T>,
        bytes: &[u8],
    ) -> Result<(), Cause> {
        match self.append_waiting(crew, bytes) {
            Ok(true) => Ok(()),
            Ok(false) => append(
                self.rt,
                &self.at,
                bytes,
                &mut self.notes,
                &mut self.writer,
                &mut self.open,
            ),
            Err(e) => Err(e),
        }
    }

    /// Removes an empty directory. Errs with `IsRoot` for the root. All files that wait are created
    /// first, since one may be in the directory.
    pub fn remove_dir<T: System + Threads>(
        &mut self,
        crew: &Crew<'_, T>,
        path: &Path,
    ) -> Result<(), Cause>
        ensures { OnOk result (path.now ≢ []) }
    {
        if path.is_root() {
            return Err(Cause::IsRoot);
        }
        self.make_waiting(crew);
        self.change(crew, path, Change::RemoveDir)
    }

    /// Makes the second path a hard link of the regular file at the first.
    pub fn link<T: System + Threads>(
        &mut self,
        crew: &Crew<'_, T>,
        from: &Path,
        to: &Path,
    ) -> Result<(), Cause> {
        match self.reach_both(from, to) {
            Ok(()) => {
                self.make_both(crew);
                links::link(self.rt, &self.from, &self.at, &mut self.notes)
            }
            Err(e) => Err(e),
        }
    }

    /// Moves a file or symlink, and replaces a file or symlink at the second path. If readers could
    /// notice it, they are locked out first.
    pub fn rename<T: System + Threads>(
        &mut self,
        crew: &Crew<'_, T>,
        from: &Path,
        to: &Path,
    ) -> Result<(), Cause> {
        let is_stored = is_below(to.text(), self.store);
        match self.reach_both(from, to) {
            Ok(()) => {
                self.make_both(crew);
                let moved = Move::of(self.rt, &self.from, &self.at, &self.notes.made)?;
                if !is_unseen(from, to, is_stored, &moved) {
                    self.gate.keep_looks_out(self.rt)?;
                }
                rename_at(
                    self.rt,
                    &self.from,
                    &self.at,
                    is_stored && moved.is_of_file(),
                    &mut self.notes,
                    &mut self.reader,
                    &mut self.writer,
                    &mut self.open,
                )
            }
            Err(e) => Err(e),
        }
    }
}

/// Returns the length in bytes of a file, 0 if it can't be looked up.
fn size_at<R: System>(rt: &R, at: &str) -> u64 {
    match look(rt, at) {
        Ok(found) => found.size,
        Err(_) => 0,
    }
}

fn change_at<R: System>(
    rt: &R,
    at: &str,
    change: Change<'_>,
    notes: &mut Notes,
    reader: &mut Reader<R::File>,
    writer: &mut Writer<R::File>,
    open: &mut OpenFiles<R::File>,
) -> Result<(), Cause> {
    match change {
        Change::MakeDir => folders::make_dir(rt, at, notes),
        Change::Symlink(text) => links::symlink(rt, text, at, notes),
        Change::Unlink => unlink(rt, at, notes, reader, writer, open),
        Change::RemoveDir => links::remove_folder(rt, at, notes),
    }
}

fn create<R: Files>(
    rt: &R,
    at: &str,
    bits: (u32, u32),
    notes: &mut Notes,
    writer: &mut Writer<R::File>,
    open: &mut OpenFiles<R::File>,
) -> Result<(), Cause> {
    let (asked, kept) = bits;
    match create_new(rt, at, kept) {
        Ok(file) => {
            notes.add_created(at, asked);
            writer.finish(open);
            let given = writer.keep_new(at, file, kept, notes.grants.has(at, kept));
            if given.is_err() {
                notes.made.doubt_file(at);
            }
            given
        }
        Err(e) => Err(e),
    }
}

fn append<R: Files>(
    rt: &R,
    at: &str,
    bytes: &[u8],
    notes: &mut Notes,
    writer: &mut Writer<R::File>,
    open: &mut OpenFiles<R::File>,
) -> Result<(), Cause> {
    if !notes.touched.has_file(at) {
        return Err(Cause::NotNew);
    }
    notes.add_written(at);
    let written = writer.append(rt, at, bytes, open);
    match written {
        Ok(()) => notes.made.add_bytes(at, bytes.len()),
        Err(_) => notes.made.doubt_file(at),
    }
    written
}

fn unlink<R: Files>(
    rt: &R,
    at: &str,
    notes: &mut Notes,
    reader: &mut Reader<R::File>,
    writer: &mut Writer<R::File>,
    open: &mut OpenFiles<R::File>,
) -> Result<(), Cause> {
    let done = links::unlink(rt, at, notes);
    if done.is_ok() {
        forget(at, reader, writer, open);
    }
    done
}

fn rename_at<R: Files>(
    rt: &R,
    from: &str,
    to: &str,
    is_dated: bool,
    notes: &mut Notes,
    reader: &mut Reader<R::File>,
    writer: &mut Writer<R::File>,
    open: &mut OpenFiles<R::File>,
) -> Result<(), Cause> {
    let done = moves::rename(rt, from, to, is_dated, notes, writer);
    if done.is_ok() {
        forget(from, reader, writer, open);
        forget(to, reader, writer, open);
    }
    done
}

/// Closes the file at a path whose name was removed or replaced.
fn forget<F: OpenFile + Write + Drop>(
    at: &str,
    reader: &mut Reader<F>,
    writer: &mut Writer<F>,
    open: &mut OpenFiles<F>,
) {
    reader.close_at(at);
    writer.close_at(at);
    open.close_at(at);
}
