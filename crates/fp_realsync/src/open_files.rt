//! New files that stay open until they are synced.
use crate::system::System;
use crate::touched::Touched;
use fp_system::Failure;
use std::alloc::{AllocError, Global};
use std::collections::BTreeMap;
use std::thread::Threads;

/// The most files that stay open. Starting a thread costs a dozen system calls, so many files are
/// synced at a time. With a limit of 256 open files, this leaves enough for the files that are read
/// and those that the process inherited.
const MOST: usize = 192;

/// New files that stay open, by path, so that none has to be opened again to be synced.
pub struct OpenFiles<F> {
    alloc: Global,
    files: BTreeMap<String, F>,
}

impl<F: Drop> Drop for OpenFiles<F> {
    fn drop(self) {
        let OpenFiles { alloc: _, files: _ } = self;
    }
}

impl<F: Drop> OpenFiles<F> {
    /// Creates an empty set.
    pub fn nothing(alloc: Global) -> Self {
        OpenFiles {
            alloc,
            files: BTreeMap::new(alloc),
        }
    }

    /// Returns whether no more files may stay open.
    pub fn are_full(&self) -> bool {
        self.files.len() >= MOST
    }

    /// Keeps a file open. If too many are open, or memory runs out, closes it; it is then synced by
    /// its path.
    pub fn keep(&mut self, at: &str, file: F) {
        if self.files.len() < MOST {
            let _kept = insert(self.alloc, &mut self.files, at, file);
        }
    }

    /// Closes the file at the path if it is open. Called when it was removed, moved or replaced.
    pub fn close_at(&mut self, at: &str) {
        self.files.remove(at);
    }
}

fn insert<F: Drop>(
    alloc: Global,
    files: &mut BTreeMap<String, F>,
    at: &str,
    file: F,
) -> Result<(), AllocError> {
    let at = at.to_string(alloc)?;
    files.insert(at, file)?;
    Ok(())
}

/// Syncs and closes the files, by several threads if the system has them, and notes the outcome in
/// `touched`. If memory runs out for a list of them, only closes them; they are then synced by
/// their paths.
pub fn sync_open<R: System, T: Threads + Sync>(
    rt: &R,
    threads: &T,
    open: &mut OpenFiles<R::File>,
    touched: &mut Touched,
) {
    if open.files.is_empty() {
        return;
    }
    if let Ok(met) = sync_all(rt, threads, open.alloc, &open.files) {
        tell(&open.files, met, touched);
    }
    open.files.clear();
}

fn sync_all<R: System, T: Threads + Sync>(
    rt: &R,
    threads: &T,
    alloc: Global,
    files: &BTreeMap<String, R::File>,
) -> Result<Option<Failure>, AllocError> {
    match list_of(alloc, files) {
        Ok(list) => Ok(rt.sync_files(threads, &list)),
        Err(e) => Err(e),
    }
}

fn list_of<'a, F>(alloc: Global, files: &'a BTreeMap<String, F>) -> Result<Vec<&'a F>, AllocError> {
    let mut list = Vec::new(alloc);
    for file in files.values() {
        list.push(file)?;
    }
    Ok(list)
}

/// Notes that the files are synced, or the first that could not be.
fn tell<F>(files: &BTreeMap<String, F>, met: Option<Failure>, touched: &mut Touched) {
    match met {
        Some(failure) => tell_failure(files, failure, touched),
        None => tell_synced(files, touched),
    }
}

fn tell_synced<F>(files: &BTreeMap<String, F>, touched: &mut Touched) {
    for at in files.keys() {
        touched.add_synced(at);
    }
}

fn tell_failure<F>(files: &BTreeMap<String, F>, failure: Failure, touched: &mut Touched) {
    let at = match files.keys().nth(failure.place) {
        Some(at) => at.as_str(),
        None => "",
    };
    touched.lose(at, failure.unsynced);
}
