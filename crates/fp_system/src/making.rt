//! Threads that create new files.
use crate::new_files::{NewFile, Share};
use std::alloc::Global;
use std::rt::Files;
use std::thread::{JoinHandle, Threads, spawn};

/// A batch of files that is being created, in shares.
#[derive(Drop)]
pub struct Work {
    running: Vec<JoinHandle<Share>>,
    // The shares that were done without a thread.
    done: Vec<Share>,
    // Whether memory ran out for the result of a share.
    is_lost: bool,
}

impl Work {
    /// Creates an empty batch.
    pub fn nothing(alloc: Global) -> Self {
        Work {
            running: Vec::new(alloc),
            done: Vec::new(alloc),
            is_lost: false,
        }
    }

    /// Creates and syncs all files on the calling thread.
    pub fn at_once<R: Files>(rt: &R, alloc: Global, files: Vec<NewFile>) -> Self {
        let mut work = Work::nothing(alloc);
        work.make(rt, files);
        work
    }

    fn make<R: Files>(&mut self, rt: &R, files: Vec<NewFile>) {
        self.keep(made(rt, files));
    }

    fn keep(&mut self, share: Share) {
        self.is_lost |= self.done.push(share).is_err();
    }

    fn keep_started<T: Threads>(&mut self, threads: &T, started: Result<JoinHandle<Share>, Share>) {
        match started {
            Ok(running) => self.keep_running(threads, running),
            Err(share) => self.keep(share),
        }
    }

    fn keep_running<T: Threads>(&mut self, threads: &T, running: JoinHandle<Share>) {
        if let Err(refused) = self.running.push(running) {
            self.keep(refused.value.join(threads));
        }
    }

    /// Waits for a thread and returns its share. Once no thread is left, returns the shares that
    /// were done without one, and then `None`.
    pub fn next<T: Threads>(&mut self, threads: &T) -> Option<Share> {
        match self.running.pop() {
            Some(running) => Some(running.join(threads)),
            None => self.done.pop(),
        }
    }

    /// Returns whether the results for some files are lost, since memory ran out.
    pub fn is_lost(&self) -> bool {
        self.is_lost
    }
}

fn made<R: Files>(rt: &R, files: Vec<NewFile>) -> Share {
    let mut share = Share::unmade(files);
    share.make(rt);
    share
}

/// A system whose threads can create files. Only the real system implements it, since it isn't
/// proved of a type parameter that its values may be sent to a thread.
pub trait Maker {
    /// Starts a thread that creates these files in order. If no thread can be started, creates them
    /// at once and returns the share as `Err`.
    fn start<T: Threads>(
        &self,
        threads: &T,
        files: Vec<NewFile>,
    ) -> Result<JoinHandle<Share>, Share>;
}

impl Maker for HostRuntime {
    fn start<T: Threads>(
        &self,
        threads: &T,
        files: Vec<NewFile>,
    ) -> Result<JoinHandle<Share>, Share> {
        let rt = *self;
        match spawn(threads, move || made_by(rt, files)) {
            Ok(running) => Ok(running),
            Err(refused) => Err((refused.value)()),
        }
    }
}

/// Creates files on a thread, which gets a copy of the system.
pub fn made_by<R: Files + Copy>(rt: R, files: Vec<NewFile>) -> Share {
    made(&rt, files)
}

/// The least number of files for which threads are started.
const LEAST: usize = 4;

/// Creates the files by at most `most` threads, each of which gets a share. Fewer than 4 files are
/// created on the calling thread.
pub fn make_by_threads<M: Files + Maker, T: Threads>(
    maker: &M,
    threads: &T,
    alloc: Global,
    files: Vec<NewFile>,
    most: usize,
) -> Work {
    if files.len() < LEAST {
        return Work::at_once(maker, alloc, files);
    }
    let size = files.len().div_ceil(most.max(1));
    start_all(maker, threads, alloc, files, size.max(1))
}

fn start_all<M: Maker, T: Threads>(
    maker: &M,
    threads: &T,
    alloc: Global,
    mut files: Vec<NewFile>,
    size: usize,
) -> Work {
    let mut work = Work::nothing(alloc);
    for _ in 0..files.len() {
        match cut(&mut files, size) {
            Some(part) => work.keep_started(threads, maker.start(threads, part)),
            None => break,
        }
    }
    work.keep_started(threads, maker.start(threads, files));
    work
}

/// Splits `size` files off the end. Returns `None` if no more than that are left, or if memory runs
/// out.
fn cut(files: &mut Vec<NewFile>, size: usize) -> Option<Vec<NewFile>> {
    if files.len() <= size {
        return None;
    }
    let at = files.len() - size;
    files.split_off(at).ok()
}
