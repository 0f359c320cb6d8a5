//! Syncing files and directories.
ghost use Rattle.std.specs.Prelude.{◌≡◌, ◌↔◌, IsTrue, IsNone, IfSome, IsSomeAnd, Some};
ghost use Rattle.std.specs.Thread.{IsSync};

use crate::files::open_to_read;
use crate::{Call, Cause, known};
use std::fs;
use std::fs::{File, OpenFile};
use std::io::ErrorKind;
use std::rt::Files;
use std::thread::{Threads, join};

/// A file or directory that could not be synced.
#[derive(Clone, Copy)]
pub struct Unsynced {
    /// The operation that failed.
    pub call: Call,
    /// The reason.
    pub cause: Cause,
}

/// A failed sync, with the index of the item in a list.
#[derive(Clone, Copy)]
pub struct Failure {
    /// The index, from 0.
    pub place: usize,
    /// The failure.
    pub unsynced: Unsynced,
}

/// The most threads that sync at one time. A disk handles many concurrent syncs in about the time
/// of one.
const THREADS: usize = 8;

/// The least number of items for which a list is split.
const LEAST: usize = 32;

/// A system that can sync items of a type.
pub trait Syncer<I> {
    /// Syncs the item. Returns the failure, or `None` if the item is synced or no longer exists.
    fn sync_one(&self, item: &I) -> Option<Unsynced>;
}

impl<'a> Syncer<&'a str> for HostRuntime {
    fn sync_one(&self, at: &&'a str) -> Option<Unsynced> {
        sync_plain(self, at)
    }
}

impl<'a> Syncer<&'a File> for HostRuntime {
    fn sync_one(&self, file: &&'a File) -> Option<Unsynced> {
        sync_opened(*file)
    }
}

/// Syncs the items, by several threads if there are many. Returns the first failure in the list's
/// order; but a failed sync precedes an item that could not be opened. If the process runs out of
/// open files, the rest is synced one after another once the threads have closed theirs.
pub fn sync_by_threads<T: Threads + Sync, I: Sync, S: Syncer<I> + Sync>(
    threads: &T,
    syncer: &S,
    items: &[I],
) -> Option<Failure> {
    match sync_parts(threads, syncer, 0, items, items.len().div_ceil(THREADS)) {
        Some(failure) if failure.unsynced.cause.is_too_many_open() => {
            sync_from(syncer, items, failure.place)
        }
        met => met,
    }
}

/// Syncs the items from this index on, one after another.
fn sync_from<I, S: Syncer<I>>(syncer: &S, items: &[I], place: usize) -> Option<Failure> {
    match items.split_at_checked(place) {
        Some((_, rest)) => sync_part(syncer, place, rest),
        None => sync_part(syncer, 0, items),
    }
}

/// Splits the list into halves, until a part has at most `most` items or fewer than 32, and syncs
/// each half on a thread of its own. `start` is the index of the first item in the whole list.
fn sync_parts<T: Threads + Sync, I: Sync, S: Syncer<I> + Sync>(
    threads: &T,
    syncer: &S,
    start: usize,
    items: &[I],
    most: usize,
) -> Option<Failure> {
    if items.len() < LEAST || items.len() <= most {
        return sync_part(syncer, start, items);
    }
    let half = items.len() / 2;
    let (front, back) = items.split_at(half);
    let next = start.saturating_add(half);
    let (first, second) = join(
        threads,
        || -> Option<Failure>
            requires { IsSync T.row × IsSync S.row × IsSync I.row }
        { sync_parts(threads, syncer, start, front, most) },
        || -> Option<Failure>
            requires { IsSync T.row × IsSync S.row × IsSync I.row }
        { sync_parts(threads, syncer, next, back, most) },
    );
    gravest(first, second)
}

/// Returns the first failure, but a failed sync before all others: the system reports it only once.
fn gravest(first: Option<Failure>, second: Option<Failure>) -> Option<Failure>
    ensures is_told { IfSome first (λ early. early.unsynced.call ≡ Call.Sync →
        IsSomeAnd result (λ met. met.unsynced.call ≡ Call.Sync)) }
    ensures is_told_late { IfSome second (λ late. late.unsynced.call ≡ Call.Sync →
        IsSomeAnd result (λ met. met.unsynced.call ≡ Call.Sync)) }
    ensures is_first { IfSome first (λ early.
        (IsSomeAnd result (λ met. met.unsynced.call ≡ Call.Sync) → ⊥) → result ≡ Some early) }
    ensures is_second { IsNone first → result ≡ second }
{
    match first {
        Some(early) => Some(graver(early, second)),
        None => second,
    }
}

fn graver(early: Failure, second: Option<Failure>) -> Failure
    ensures is_told { early.unsynced.call ≡ Call.Sync → result.unsynced.call ≡ Call.Sync }
    ensures is_told_late { IfSome second (λ late. late.unsynced.call ≡ Call.Sync →
        result.unsynced.call ≡ Call.Sync) }
    ensures is_first { (result.unsynced.call ≡ Call.Sync → ⊥) → result ≡ early }
{
    match second {
        Some(late) if is_told_once(late) && !is_told_once(early) => late,
        _ => early,
    }
}

fn is_told_once(failure: Failure) -> bool
    ensures { IsTrue result ↔ failure.unsynced.call ≡ Call.Sync }
{
    failure.unsynced.call == Call::Sync
}

/// Syncs the items one after another. `start` is the index of the first one in the whole list.
fn sync_part<I, S: Syncer<I>>(syncer: &S, start: usize, items: &[I]) -> Option<Failure> {
    for (i, item) in items.iter().enumerate() {
        if let Some(unsynced) = syncer.sync_one(item) {
            return Some(failure_at(start, i, unsynced));
        }
    }
    None
}

/// Syncs open files one after another. Returns the first failure.
pub fn sync_open_in_turn<F: OpenFile>(files: &[&F]) -> Option<Failure> {
    for (i, file) in files.iter().enumerate() {
        if let Some(unsynced) = sync_opened(*file) {
            return Some(failure_at(0, i, unsynced));
        }
    }
    None
}

/// Syncs files and directories one after another, without changing permission bits to open them.
/// Returns the first failure. Absent paths are left out.
pub fn sync_in_turn<R: Files>(rt: &R, paths: &[&str]) -> Option<Failure> {
    for (i, at) in paths.iter().enumerate() {
        if let Some(unsynced) = sync_plain(rt, at) {
            return Some(failure_at(0, i, unsynced));
        }
    }
    None
}

/// Syncs fpk's own files and directories one after another; a file whose permission bits forbid it
/// gets wider ones while it is opened. Returns the first failure, whose index counts from `start`.
/// Absent paths are left out. `spares` also leaves out paths that can't be opened for lack of
/// permission, since others may own them.
pub fn sync_own<R: Files>(rt: &R, start: usize, paths: &[&str], spares: bool) -> Option<Failure> {
    for (i, at) in paths.iter().enumerate() {
        if let Some(unsynced) = sync_at(rt, at, spares) {
            return Some(failure_at(start, i, unsynced));
        }
    }
    None
}

fn failure_at(start: usize, i: usize, unsynced: Unsynced) -> Failure {
    Failure {
        place: start.saturating_add(i),
        unsynced,
    }
}

fn sync_plain<R: Files>(rt: &R, at: &str) -> Option<Unsynced> {
    match known(fs::open(rt, at)) {
        Ok(opened) => sync_opened(&opened),
        Err(cause) => not_opened(cause, false),
    }
}

/// Syncs a file or directory that this or an earlier command made. An absent path is left out.
/// `spares` also leaves out a path that can't be opened for lack of permission, since others may
/// own it.
pub fn sync_at<R: Files>(rt: &R, at: &str, spares: bool) -> Option<Unsynced> {
    match open_to_read(rt, at) {
        Ok(opened) => sync_opened(&opened),
        Err(cause) => not_opened(cause, spares),
    }
}

/// Syncs a directory that isn't fpk's but in which it may have made a name. It is left out if it is
/// absent, can't be opened for lack of permission, or is of a file system that doesn't support the
/// sync.
pub fn sync_above<R: Files>(rt: &R, at: &str) -> Option<Unsynced> {
    match sync_at(rt, at, true) {
        Some(unsynced) if unsynced.call == Call::Sync && unsynced.cause.is_no_sync() => None,
        met => met,
    }
}

fn sync_opened<F: OpenFile>(opened: &F) -> Option<Unsynced> {
    match known(opened.sync_all()) {
        Ok(()) => None,
        Err(cause) => Some(Unsynced {
            call: Call::Sync,
            cause,
        }),
    }
}

/// Returns the failure for a path that could not be opened, or `None` if it is left out: it is
/// absent, or, with `spares`, permission is lacking.
fn not_opened(cause: Cause, spares: bool) -> Option<Unsynced> {
    if cause.is_absence() || spares && cause.is(ErrorKind::PermissionDenied) {
        return None;
    }
    Some(Unsynced {
        call: Call::Open,
        cause,
    })
}

/// Returns whether the path could not be opened for lack of permission.
pub fn is_denied(failure: Failure) -> bool {
    let Unsynced { call, cause } = failure.unsynced;
    call == Call::Open && cause.is(ErrorKind::PermissionDenied)
}
