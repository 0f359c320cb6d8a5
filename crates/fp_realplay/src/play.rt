//! Plays lines over a host: calls, and checks of their outcome.
use crate::Log;
use crate::disk::on_disk;
use crate::fixture::path;
use crate::step::{change, shows};
use crate::words::{number, pair};
use fp_host::{Host, HostError, Stat};

/// Plays the lines over the host. The first that doesn't hold is noted in the log.
pub fn play_lines<H: Host>(rt: &HostRuntime, log: &Log<'_>, host: &mut H, lines: &str) {
    for (i, line) in lines.lines().enumerate() {
        log.demand(play(rt, log, host, line), i, line);
    }
}

/// Plays a line. Returns whether its call was done, or its check holds.
fn play<H: Host>(rt: &HostRuntime, log: &Log<'_>, host: &mut H, line: &str) -> bool {
    let (verb, rest) = pair(line);
    match verb {
        "fails" => change(log, host, rest) == Some(HostError::Failed),
        "shows" => shows(log, host, rest),
        "asks" => log.is_noted(rest),
        "one" => are_one(log, host, rest) == Some(true),
        "two" => are_one(log, host, rest) == Some(false),
        "bytes" => gives(log, host, rest),
        "makes" => makes(log, host, number(rest)),
        "synced" => log.count_synced() == number(rest),
        _ => match on_disk(rt, log.alloc, verb, rest) {
            Some(held) => held,
            None => change(log, host, line).is_none(),
        },
    }
}

fn stat_at<H: Host>(log: &Log<'_>, host: &mut H, at: &str) -> Option<Stat> {
    host.stat(&path(log, at)).ok()
}

/// Returns whether the two paths have the same status, which includes a file's id; none if one of
/// them can't be looked up.
fn are_one<H: Host>(log: &Log<'_>, host: &mut H, names: &str) -> Option<bool> {
    let (a, b) = pair(names);
    match (stat_at(log, host, a), stat_at(log, host, b)) {
        (Some(one), Some(other)) => Some(one == other),
        _ => None,
    }
}

/// Returns whether a read into a buffer of four dots returns this many bytes and leaves this text
/// there. The line has the path, the byte offset, the number of bytes and the text.
fn gives<H: Host>(log: &Log<'_>, host: &mut H, rest: &str) -> bool {
    let (at, rest) = pair(rest);
    let (place, rest) = pair(rest);
    let (count, want) = pair(rest);
    let mut into = *b"....";
    let read = host.read_at(&path(log, at), number(place), &mut into);
    read.ok() == Some(number(count) as usize) && into.as_slice() == want.as_bytes()
}

/// Creates the file with this number, such as `f07`. Returns whether that was done.
fn makes_one<H: Host>(log: &Log<'_>, host: &mut H, number: u64) -> bool {
    match format!(in log.alloc; "create f{number:02} 644") {
        Ok(line) => change(log, host, &line).is_none(),
        Err(_) => false,
    }
}

/// Creates this many numbered files. Returns whether all were created.
fn makes<H: Host>(log: &Log<'_>, host: &mut H, count: u64) -> bool {
    let mut is_done = true;
    for i in 0..count {
        is_done &= makes_one(log, host, i);
    }
    is_done
}
