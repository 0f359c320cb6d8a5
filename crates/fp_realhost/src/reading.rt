//! The calls that only read a real directory. They make nothing: an absent root reads as an empty
//! directory.
ghost use Rattle.std.specs.Prelude.{◌≤◌, length, IfOk, IfSome};
ghost use Rattle.fp_host.specs.Reads.{AreNames, HasBits};

use crate::crew::Crew;
use crate::special::link_text;
use crate::tree::Tree;
use fp_base::{Items, Text};
use fp_host::{Path, Stat};
use fp_realnotes::Notes;
use fp_realroot::{LOCK_NAME, System, find_file, list_names, sorted_names};
use fp_system::{Cause, Folders, Found, Kind, Reader, asked_bits, look};
use std::alloc::Global;
use std::io::ErrorKind;
use std::rt::Files;
use std::thread::Threads;

impl<R: System> Tree<'_, R> {
    /// Returns what is at the path.
    pub fn stat<T: System + Threads>(
        &mut self,
        crew: &Crew<'_, T>,
        path: &Path,
    ) -> Result<Stat, Cause>
        ensures { IfOk result HasBits }
    {
        match self.locate(path) {
            Ok(_) if path.is_root() => Ok(Stat::Dir),
            Ok(_) if self.gate.is_absent() => Ok(Stat::Absent),
            Ok(below) => match known_stat(&self.at, &self.notes) {
                Some(known) => known,
                None => self.look(crew, below),
            },
            Err(e) => Err(e),
        }
    }

    /// Looks the path up. If a file waits at it, all waiting files are created first.
    fn look<T: System + Threads>(&mut self, crew: &Crew<'_, T>, below: usize) -> Result<Stat, Cause>
        ensures { IfOk result HasBits }
    {
        self.make_at(crew);
        stat_at(self.rt, &self.at, below, &mut self.notes)
    }

    /// Lists the names in a directory, without the lock file. If the directory has to be read from
    /// the disk, all waiting files are created first.
    pub fn list<T: System + Threads>(
        &mut self,
        crew: &Crew<'_, T>,
        alloc: Global,
        path: &Path,
    ) -> Result<Items<Text>, Cause>
        ensures { IfOk result AreNames }
    {
        match self.reach(path) {
            Ok(()) => {
                if !self.notes.made.has_names(&self.at) {
                    self.make_waiting(crew);
                }
                self.list_at(alloc, path.is_root())
            }
            Err(e) => Err(e),
        }
    }

    fn list_at(&mut self, alloc: Global, is_root: bool) -> Result<Items<Text>, Cause>
        ensures { IfOk result AreNames }
    {
        if is_root {
            list_root(self.rt, alloc, &self.at, self.gate.is_there())
        } else {
            list_folder(self.rt, alloc, &self.at, &mut self.notes)
        }
    }

    /// Reads the file from the byte offset `from` on, until the buffer is full or the file ends.
    /// Returns the number of bytes read.
    pub fn read_at<T: System + Threads>(
        &mut self,
        crew: &Crew<'_, T>,
        path: &Path,
        from: u64,
        into: &mut [u8],
    ) -> Result<usize, Cause>
        ensures { IfOk result (λ n. n ≤ length into.old) }
    {
        match self.reach(path) {
            Ok(()) => match self.later.read(&self.at, from, into) {
                Some(count) => Ok(count),
                None => self.read_made(crew, from, into),
            },
            Err(e) => Err(e),
        }
    }

    fn read_made<T: System + Threads>(
        &mut self,
        crew: &Crew<'_, T>,
        from: u64,
        into: &mut [u8],
    ) -> Result<usize, Cause>
        ensures { IfOk result (λ n. n ≤ length into.old) }
    {
        self.make_at(crew);
        let is_found = is_file(&self.at, &self.notes);
        read_piece(self.rt, &self.at, is_found, &mut self.reader, from, into)
    }

    /// Returns the text of a symlink, or for a pipe, socket or device a text that names its type.
    pub fn read_link<T: System + Threads>(
        &mut self,
        crew: &Crew<'_, T>,
        alloc: Global,
        path: &Path,
    ) -> Result<Text, Cause> {
        match self.reach(path) {
            Ok(()) => {
                self.make_at(crew);
                link_text(self.rt, alloc, &self.at)
            }
            Err(e) => Err(e),
        }
    }
}

/// Returns whether a regular file was found or created at the path before.
fn is_file(at: &str, notes: &Notes) -> bool {
    notes.files.has(at) || notes.made.is_file(at)
}

/// Returns what is remembered of the path, without a system call. Files come first, since most
/// calls ask for files.
fn known_stat(at: &str, notes: &Notes) -> Option<Result<Stat, Cause>>
    ensures { IfSome result (λ known. IfOk known HasBits) }
{
    if let Some(made) = notes.made.stat(at) {
        return Some(Ok(made));
    }
    if let Some(found) = notes.files.get(at) {
        return Some(stat_of(found));
    }
    if notes.folders.has(at) {
        return Some(Ok(Stat::Dir));
    }
    if notes.made.is_absent(at) {
        return Some(Ok(Stat::Absent));
    }
    None
}

/// Looks up the directories above the path, then the path.
fn stat_at<R: Files>(rt: &R, at: &str, below: usize, notes: &mut Notes) -> Result<Stat, Cause>
    ensures { IfOk result HasBits }
{
    match notes.folders.look_above(rt, at, below) {
        Ok(true) => stat_below(rt, at, notes),
        Ok(false) => Ok(Stat::Absent),
        Err(e) => Err(e),
    }
}

/// Looks up a path above which there is no symlink.
fn stat_below<R: Files>(rt: &R, at: &str, notes: &mut Notes) -> Result<Stat, Cause>
    ensures { IfOk result HasBits }
{
    match look(rt, at) {
        Ok(found) => {
            notes.add_found(at, found);
            stat_of(&found)
        }
        Err(e) => Err(e),
    }
}

/// Converts what was found to a host's `Stat`. A file gets the bits that were asked for, and a
/// pipe, socket or device is reported as a symlink.
fn stat_of(found: &Found) -> Result<Stat, Cause>
    ensures { IfOk result HasBits }
{
    if found.kind == Kind::Other {
        return Ok(Stat::Link);
    }
    match found.stat() {
        Ok(Stat::File { id, mode, size }) => Ok(Stat::File {
            id,
            mode: asked_bits(mode),
            size,
        }),
        told => told,
    }
}

/// Lists the root without the lock file. An absent root is empty.
fn list_root<R: System>(
    rt: &R,
    alloc: Global,
    at: &str,
    is_there: bool,
) -> Result<Items<Text>, Cause>
    ensures { IfOk result AreNames }
{
    if is_there {
        list_names(rt, alloc, at, LOCK_NAME)
    } else {
        Ok(Items::from_vec(Vec::new(alloc)))
    }
}

fn list_folder<R: System>(
    rt: &R,
    alloc: Global,
    at: &str,
    notes: &mut Notes,
) -> Result<Items<Text>, Cause>
    ensures { IfOk result AreNames }
{
    match notes.made.names(alloc, at) {
        Some(Ok(names)) => sorted_names(names, ""),
        Some(Err(_)) => Err(Cause::NoMemory),
        None => list_found(rt, alloc, at, &mut notes.folders),
    }
}

/// Lists a directory that the host didn't make.
fn list_found<R: System>(
    rt: &R,
    alloc: Global,
    at: &str,
    folders: &mut Folders,
) -> Result<Items<Text>, Cause>
    ensures { IfOk result AreNames }
{
    match folders.is_folder(rt, at) {
        Ok(true) => list_names(rt, alloc, at, ""),
        Ok(false) => Err(Cause::Kind(ErrorKind::NotADirectory)),
        Err(e) => Err(e),
    }
}

fn read_piece<R: Files>(
    rt: &R,
    at: &str,
    is_found: bool,
    reader: &mut Reader<R::File>,
    from: u64,
    into: &mut [u8],
) -> Result<usize, Cause>
    ensures { IfOk result (λ n. n ≤ length into.old) }
{
    match begin(rt, at, is_found, reader, from) {
        Ok(()) => reader.read(from, into),
        Err(e) => Err(e),
    }
}

/// Opens the file, unless the read continues the open one. A file that was found before isn't
/// looked up again.
fn begin<R: Files>(
    rt: &R,
    at: &str,
    is_found: bool,
    reader: &mut Reader<R::File>,
    from: u64,
) -> Result<(), Cause> {
    if !reader.begins(at, from) {
        return Ok(());
    }
    if is_found {
        return reader.open(rt, at);
    }
    match find_file(rt, at) {
        Ok(_) => reader.open(rt, at),
        Err(e) => Err(e),
    }
}
