//! Tales: tests that are texts. Each has lines that are played in order in a directory of its own.
use crate::disk::play_disk;
use crate::fixture::{tells, told_of};
use crate::log::kind_of;
use crate::remote::ask_remote;
use crate::words::pair;
use crate::{Log, Logged, clear, play_lines};
use fp_progress::{Progress, Task, Watched};
use fp_realhost::HostDir;
use fp_realroot::{Access, System};
use std::io::Print;
use std::thread::Threads;

/// Plays each tale of the text, and returns whether all hold. Of each that doesn't, the first wrong
/// line is printed on standard error. README.md describes how tales are written.
pub fn tell<T: System + Threads + Sync>(rt: &HostRuntime, threads: &T, text: &str) -> bool {
    let mut all_held = true;
    for tale in text.split("# ") {
        all_held &= tale.is_empty() || is_so(rt, threads, tale);
    }
    all_held
}

/// Plays the text once for each row of a table, with the row in place of each `{}`. A line of two
/// dashes separates the rows. Returns whether all tales hold.
pub fn tell_each<T: System + Threads + Sync>(
    rt: &HostRuntime,
    threads: &T,
    text: &str,
    rows: &str,
) -> bool {
    let mut all_held = true;
    for row in rows.split("\n--\n") {
        all_held &= match text.replace(rt.alloc(), "{}", row) {
            Ok(text) => tell(rt, threads, &text),
            Err(_) => false,
        };
    }
    all_held
}

/// Plays a tale, and returns whether it holds. Its directory is cleared before and after.
fn is_so<T: System + Threads + Sync>(rt: &HostRuntime, threads: &T, tale: &str) -> bool {
    let Some((head, blocks)) = tale.split_once('\n') else {
        return false;
    };
    let (folder, kind) = pair(head);
    let log = Log::new(rt.alloc(), kind_of(kind));
    clear(rt, folder);
    play_blocks(rt, threads, &log, folder, blocks);
    clear(rt, folder);
    log.all_held(rt)
}

fn play_blocks<T: System + Threads + Sync>(
    rt: &HostRuntime,
    threads: &T,
    log: &Log<'_>,
    folder: &str,
    blocks: &str,
) {
    for block in blocks.split("\n\n") {
        play_block(rt, threads, log, folder, block.trim());
    }
}

/// Plays a block. Its first line names what its other lines are played over.
fn play_block<T: System + Threads + Sync>(
    rt: &HostRuntime,
    threads: &T,
    log: &Log<'_>,
    folder: &str,
    block: &str,
) {
    let (head, lines) = block.split_once('\n').unwrap_or((block, ""));
    let (over, rest) = pair(head);
    match over {
        "" | "--" => (),
        "disk" => play_disk(rt, log, lines),
        "remote" => ask_remote(rt, log, rest, block),
        "look" => run_plain(rt, threads, log, (Access::Look, rest), block),
        "change" => run_plain(rt, threads, log, (Access::Change, rest), block),
        "logged-look" => run_logged(rt, threads, log, (Access::Look, rest), lines),
        "logged" => run_logged(rt, threads, log, (Access::Change, rest), lines),
        "both" => run_both(rt, threads, log, folder, (Access::Change, rest), lines),
        _ => log.demand(false, 0, head),
    }
}

fn run_plain<T: System + Threads + Sync>(
    rt: &HostRuntime,
    threads: &T,
    log: &Log<'_>,
    place: (Access, &str),
    block: &str,
) {
    let (access, root) = place;
    let (front, told) = told_of(block);
    let (_, lines) = front.split_once('\n').unwrap_or((front, ""));
    match HostDir::with_maker(rt, threads, rt, log.alloc, root, access) {
        Ok(mut host) => {
            play_lines(rt, log, &mut host, lines);
            host.finish();
            let is_told = tells(log.alloc, host.faults(), host.last_error(), told);
            log.demand(is_told, 0, told);
        }
        Err(_) => log.demand(false, 0, "memory"),
    }
}

/// Plays the lines over a host on a directory of this system, which also prints what the host
/// prints.
fn run_over<R: System + Print, T: System + Threads + Sync>(
    rt: &HostRuntime,
    system: &R,
    threads: &T,
    log: &Log<'_>,
    place: (Access, &str),
    lines: &str,
) {
    let (access, root) = place;
    match HostDir::new(system, threads, system, log.alloc, root, access) {
        Ok(mut host) => play_lines(rt, log, &mut host, lines),
        Err(_) => log.demand(false, 0, "memory"),
    }
}

fn run_logged<'a, T: System + Threads + Sync>(
    rt: &'a HostRuntime,
    threads: &T,
    log: &'a Log<'_>,
    place: (Access, &str),
    lines: &str,
) {
    let system = Logged { rt, log };
    run_over(rt, &system, threads, log, place, lines);
}

fn run_watched<'a, T: System + Threads + Sync>(
    rt: &'a HostRuntime,
    threads: &T,
    log: &'a Log<'_>,
    place: (Access, &str),
    lines: &str,
) {
    let logged = Logged { rt, log };
    let progress = Progress::new(&logged, log.alloc, Task::Other, false);
    let system = Watched::host(&logged, &progress);
    run_over(rt, &system, threads, log, place, lines);
}

/// Plays the lines over a `Logged` system, and again over one whose progress is watched, as that of
/// a command. The directory is cleared in between.
fn run_both<T: System + Threads + Sync>(
    rt: &HostRuntime,
    threads: &T,
    log: &Log<'_>,
    folder: &str,
    place: (Access, &str),
    lines: &str,
) {
    run_logged(rt, threads, log, place, lines);
    clear(rt, folder);
    log.forget();
    run_watched(rt, threads, log, place, lines);
}
