//! Syncs of many items, by several threads.
use fp_progress::{Progress, Task, Watched};
use fp_realplay::{Kind, Log};
use fp_realroot::System;
use fp_system::{Call, Cause, Failure, Syncer, Unsynced, sync_by_threads};
use std::alloc::{AllocError, Global};
use std::fs;
use std::sync::atomic::{AtomicU64, Ordering};
use std::thread::Threads;

/// An item to sync: its index, and how often it was synced.
#[derive(Drop)]
struct Item {
    place: usize,
    syncs: AtomicU64,
}

/// A syncer that runs out of open files (`EMFILE`) at the first try of each item at these indices.
#[derive(Clone, Copy)]
struct Crowded {
    places: &'static [usize],
}

impl Syncer<Item> for Crowded {
    fn sync_one(&self, item: &Item) -> Option<Unsynced> {
        let tries = item.syncs.fetch_add(1, Ordering::SeqCst);
        if tries > 0 || !self.places.contains(&item.place) {
            return None;
        }
        Some(Unsynced {
            call: Call::Open,
            cause: Cause::Number(24),
        })
    }
}

/// The number of items, and the indices at which the process runs out of open files.
const CROWDS: [(usize, &[usize]); 4] = [
    (32, &[0]),
    (33, &[32]),
    (1000, &[3, 500, 999]),
    (1000, &[999]),
];

/// Returns whether each item was tried, and each at a crowded index at least twice.
fn are_retried(items: &[Item], crowded: &Crowded) -> bool {
    for item in items {
        let tries = item.syncs.load(Ordering::SeqCst);
        if tries == 0 || tries == 1 && crowded.places.contains(&item.place) {
            return false;
        }
    }
    true
}

fn is_retried<T: Threads + Sync>(
    threads: &T,
    alloc: Global,
    count: usize,
    crowded: &Crowded,
) -> bool {
    match make_items(alloc, count) {
        Ok(items) => {
            let met = sync_by_threads(threads, crowded, items.as_slice());
            met.is_none() && are_retried(items.as_slice(), crowded)
        }
        Err(_) => false,
    }
}

fn all_are_retried<T: Threads + Sync>(threads: &T, log: &Log<'_>) {
    for (i, (count, places)) in (&CROWDS).iter().enumerate() {
        let crowded = Crowded { places: *places };
        let holds = is_retried(threads, log.alloc, *count, &crowded);
        log.demand(holds, i, "what is crowded");
    }
}

#[test]
fn what_finds_no_open_file_is_synced_later(rt: HostRuntime) {
    let log = Log::new(rt.alloc(), Kind::Plain);
    all_are_retried(&rt, &log);
    assert!(rt; log.all_held(&rt));
}

/// A syncer that can't open the items at some indices, and can't sync those at others.
#[derive(Clone, Copy)]
struct Failing {
    closed: &'static [usize],
    broken: &'static [usize],
}

impl Syncer<Item> for Failing {
    fn sync_one(&self, item: &Item) -> Option<Unsynced> {
        item.syncs.fetch_add(1, Ordering::SeqCst);
        if self.broken.contains(&item.place) {
            return Some(unsynced(Call::Sync));
        }
        if self.closed.contains(&item.place) {
            return Some(unsynced(Call::Open));
        }
        None
    }
}

fn unsynced(call: Call) -> Unsynced {
    Unsynced {
        call,
        cause: Cause::MayBeLost,
    }
}

/// The number of items, the indices of those that can't be opened and of those that can't be
/// synced, and the expected failure: its index and call. From 32 items on, threads share them. The
/// first failure is returned, but a failed sync before one that couldn't be opened.
const ROWS: [(usize, &[usize], &[usize], Option<(usize, Call)>); 14] = [
    (0, &[], &[], None),
    (1, &[], &[], None),
    (31, &[], &[], None),
    (32, &[], &[], None),
    (33, &[], &[], None),
    (1000, &[], &[], None),
    (31, &[], &[30], Some((30, Call::Sync))),
    (32, &[], &[31], Some((31, Call::Sync))),
    (33, &[32], &[], Some((32, Call::Open))),
    (1000, &[999], &[], Some((999, Call::Open))),
    (1000, &[3, 999], &[], Some((3, Call::Open))),
    (1000, &[], &[3, 999], Some((3, Call::Sync))),
    (1000, &[3], &[999], Some((999, Call::Sync))),
    (1000, &[999], &[3], Some((3, Call::Sync))),
];

fn make_items(alloc: Global, count: usize) -> Result<Vec<Item>, AllocError> {
    let mut items = Vec::new(alloc);
    for place in 0..count {
        items.push(Item {
            place,
            syncs: AtomicU64::new(0),
        })?;
    }
    Ok(items)
}

/// Returns whether each item was synced once. After a failure, some may be left out.
fn are_synced(items: &[Item], leaves_out: bool) -> bool {
    for item in items {
        let syncs = item.syncs.load(Ordering::SeqCst);
        if syncs > 1 || syncs == 0 && !leaves_out {
            return false;
        }
    }
    true
}

/// Returns whether the failure has the expected index and call, or there is none if none is
/// expected.
fn is_met(met: Option<Failure>, want: Option<(usize, Call)>) -> bool {
    match (met, want) {
        (None, None) => true,
        (Some(failure), Some((place, call))) => {
            failure.place == place && failure.unsynced.call == call
        }
        _ => false,
    }
}

/// Returns whether each of this many items is synced once, up to a failure, and the failure is the
/// expected one.
fn holds<T: Threads + Sync>(
    threads: &T,
    alloc: Global,
    count: usize,
    failing: &Failing,
    want: Option<(usize, Call)>,
) -> bool {
    match make_items(alloc, count) {
        Ok(items) => {
            let met = sync_by_threads(threads, failing, items.as_slice());
            is_met(met, want) && are_synced(items.as_slice(), want.is_some())
        }
        Err(_) => false,
    }
}

fn all_hold<T: Threads + Sync>(threads: &T, log: &Log<'_>) {
    for (i, (count, closed, broken, want)) in (&ROWS).iter().enumerate() {
        let failing = Failing {
            closed: *closed,
            broken: *broken,
        };
        let held = holds(threads, log.alloc, *count, &failing, *want);
        log.demand(held, i, "what is synced");
    }
}

#[test]
fn each_is_synced_once(rt: HostRuntime) {
    let log = Log::new(rt.alloc(), Kind::Plain);
    all_hold(&rt, &log);
    assert!(rt; log.all_held(&rt));
}

/// The path of a device, which can't be synced.
const DEVICE: &str = "/dev/null";

const GONE: &str = "/dev/null/none";

/// The number of items before the device in a list, and the number after it.
const PLACES: [(usize, usize); 7] = [
    (0, 0),
    (1, 0),
    (0, 1),
    (40, 0),
    (0, 40),
    (2500, 0),
    (1200, 1300),
];

/// Returns a list of one item with others before and after it.
fn list_around<I: Copy>(
    alloc: Global,
    one: I,
    other: I,
    place: (usize, usize),
) -> Result<Vec<I>, AllocError> {
    let (before, after) = place;
    let mut list = Vec::new(alloc);
    for i in 0..before.saturating_add(after).saturating_add(1) {
        list.push(if i == before { one } else { other })?;
    }
    Ok(list)
}

/// Returns whether the system reports which of the paths can't be synced.
fn fails_by_path<R: System, T: Threads + Sync>(
    system: &R,
    threads: &T,
    alloc: Global,
    place: (usize, usize),
) -> bool {
    match list_around(alloc, DEVICE, GONE, place) {
        Ok(paths) => {
            let met = system.sync_paths(threads, paths.as_slice());
            is_met(met, Some((place.0, Call::Sync)))
        }
        Err(_) => false,
    }
}

/// Returns whether the system reports which of the open files can't be synced.
fn fails_by_file<R: System, T: Threads + Sync>(
    system: &R,
    threads: &T,
    alloc: Global,
    place: (usize, usize),
) -> bool {
    match (fs::open(system, DEVICE), fs::open(system, ".")) {
        (Ok(device), Ok(folder)) => {
            fails_at(
                system,
                threads,
                list_around(alloc, &device, &folder, place),
                place.0,
            )
        }
        _ => false,
    }
}

/// Returns whether the system reports that the open file at this index can't be synced.
fn fails_at<R: System, T: Threads + Sync>(
    system: &R,
    threads: &T,
    files: Result<Vec<&R::File>, AllocError>,
    place: usize,
) -> bool {
    match files {
        Ok(files) => {
            let met = system.sync_files(threads, files.as_slice());
            is_met(met, Some((place, Call::Sync)))
        }
        Err(_) => false,
    }
}

fn all_fail<R: System, T: Threads + Sync>(system: &R, threads: &T, log: &Log<'_>) {
    for (i, place) in (&PLACES).iter().enumerate() {
        let fails = fails_by_path(system, threads, log.alloc, *place);
        log.demand(fails, i, "the paths");
        let fails = fails_by_file(system, threads, log.alloc, *place);
        log.demand(fails, i, "the open files");
    }
}

fn all_fail_watched<T: Threads + Sync>(rt: &HostRuntime, threads: &T, log: &Log<'_>) {
    let progress = Progress::new(rt, rt.alloc(), Task::Other, false);
    all_fail(&Watched::host(rt, &progress), threads, log);
}

#[test]
fn what_cannot_be_synced_is_found(rt: HostRuntime) {
    let log = Log::new(rt.alloc(), Kind::Plain);
    all_fail(&rt, &rt, &log);
    assert!(rt; log.all_held(&rt));
}

#[test]
fn what_cannot_be_synced_is_found_where_syncs_are_counted(rt: HostRuntime) {
    let log = Log::new(rt.alloc(), Kind::Plain);
    all_fail_watched(&rt, &rt, &log);
    assert!(rt; log.all_held(&rt));
}
