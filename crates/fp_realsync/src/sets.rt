//! Sets of paths that are synced.
use crate::system::System;
use fp_system::{Failure, PathMap, Unsynced, is_denied, sync_each, sync_own};
use std::alloc::{AllocError, Global};
use std::thread::Threads;

/// Syncs all paths of a set, by several threads if the system has them, except those of `files`
/// that are synced already. `spares` also leaves out paths that can't be opened for lack of
/// permission, since others may own them. On an error, `refused` holds the path, if there was
/// memory for it.
pub fn sync_set<R: System, T: Threads + Sync, V>(
    rt: &R,
    threads: &T,
    alloc: Global,
    set: &PathMap<V>,
    files: &PathMap<bool>,
    spares: bool,
    refused: &mut String,
) -> Result<(), Unsynced> {
    match list_of(alloc, set, files) {
        Ok(paths) => answer(sync_list(rt, threads, &paths, spares), &paths, refused),
        Err(_) => sync_in_turn(rt, set, spares, refused),
    }
}

/// Returns the paths of the set, ascending by their bytes, without the files that are synced
/// already.
fn list_of<'a, V>(
    alloc: Global,
    set: &'a PathMap<V>,
    files: &PathMap<bool>,
) -> Result<Vec<&'a str>, AllocError> {
    let mut list = set.paths(alloc)?;
    list.retain(|at| files.get(*at) != Some(&true));
    Ok(list)
}

/// Syncs the paths by threads. From the first one on that can't be opened for lack of permission,
/// syncs them one after another: opening them changes permission bits for a moment, and a file may
/// be in the list under several names.
fn sync_list<R: System, T: Threads + Sync>(
    rt: &R,
    threads: &T,
    paths: &[&str],
    spares: bool,
) -> Option<Failure> {
    match rt.sync_paths(threads, paths) {
        Some(failure) if is_denied(failure) => sync_rest(rt, paths, failure.place, spares),
        met => met,
    }
}

/// Syncs the paths from this index on, one after another; those before it are synced.
fn sync_rest<R: System>(rt: &R, paths: &[&str], place: usize, spares: bool) -> Option<Failure> {
    match paths.split_at_checked(place) {
        Some((_, rest)) => sync_own(rt, place, rest, spares),
        None => sync_own(rt, 0, paths, spares),
    }
}

fn answer(met: Option<Failure>, paths: &[&str], refused: &mut String) -> Result<(), Unsynced> {
    match met {
        Some(failure) => Err(kept(failure, paths, refused)),
        None => Ok(()),
    }
}

fn kept(failure: Failure, paths: &[&str], refused: &mut String) -> Unsynced {
    match paths.get(failure.place) {
        Some(at) => keep(at, refused),
        None => refused.clear(),
    }
    failure.unsynced
}

fn keep(at: &str, refused: &mut String) {
    refused.clear();
    let _kept = refused.push_str(at);
}

/// Syncs the paths one after another, without memory for a list.
fn sync_in_turn<R: System, V>(
    rt: &R,
    set: &PathMap<V>,
    spares: bool,
    refused: &mut String,
) -> Result<(), Unsynced> {
    match sync_each(rt, set, spares) {
        Some((at, unsynced)) => {
            keep(at, refused);
            Err(unsynced)
        }
        None => Ok(()),
    }
}
