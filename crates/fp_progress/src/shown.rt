//! The text of a progress line.
use crate::task::Task;
use crate::work::{Phase, Work};
use std::alloc::{AllocError, Global};

/// The most columns of a line.
pub(crate) const COLUMNS: usize = 79;

const KIB: u64 = 1024;

const MIB: u64 = 1024 * KIB;

/// Returns the line of a command, of at most 79 columns.
pub(crate) fn line_of(alloc: Global, work: &Work) -> Result<String, AllocError> {
    let verb = work.task.verb();
    let done = done_in(alloc, work)?;
    let mut line = format!(in alloc; "{verb}")?;
    if !work.id.is_empty() {
        let taken = verb.len().saturating_add(done.len()).saturating_add(2);
        push_fitted(&mut line, work.id.as_str(), COLUMNS.saturating_sub(taken))?;
    }
    write!(line, " {done}")?;
    Ok(line)
}

/// Appends a space and an ASCII name. If there is no room for all of it, appends its end only,
/// after `..`.
fn push_fitted(line: &mut String, name: &str, room: usize) -> Result<(), AllocError> {
    if name.len() <= room {
        return write!(line, " {name}");
    }
    let gone = name.len().saturating_sub(room.saturating_sub(2));
    match name.get(gone..) {
        Some(end) => write!(line, " ..{end}"),
        None => Ok(()),
    }
}

/// Returns how much of the phase is done, and the total if it is known.
fn done_in(alloc: Global, work: &Work) -> Result<String, AllocError> {
    if work.task == Task::Check {
        let objects = counted(alloc, work.count, "object")?;
        let size = size_of(alloc, work.bytes)?;
        return format!(in alloc; "{objects}, {size}");
    }
    match work.phase {
        Phase::Looking => found_in(alloc, work.order.len() as u64),
        Phase::Fetching => fetched_in(alloc, work),
        Phase::Syncing => done_to(alloc, work.count, "file", "synced"),
        Phase::Storing => done_to(alloc, work.count, "object", "stored"),
        Phase::Linking => linked_in(alloc, work),
        Phase::Removing => done_to(alloc, work.count, "file", "removed"),
    }
}

fn found_in(alloc: Global, objects: u64) -> Result<String, AllocError> {
    if objects < 2 {
        "..".to_string(alloc)
    } else {
        done_to(alloc, objects, "object", "found")
    }
}

fn fetched_in(alloc: Global, work: &Work) -> Result<String, AllocError> {
    let taken = grouped(alloc, work.order.taken() as u64)?;
    let objects = counted(alloc, work.order.len() as u64, "object")?;
    let size = size_of(alloc, work.bytes)?;
    format!(in alloc; "{taken} of {objects}, {size}")
}

fn linked_in(alloc: Global, work: &Work) -> Result<String, AllocError> {
    match work.order.files() {
        Some(all) => {
            let linked = grouped(alloc, work.count)?;
            let files = counted(alloc, all as u64, "file")?;
            format!(in alloc; "{linked} of {files} linked")
        }
        None => done_to(alloc, work.count, "file", "linked"),
    }
}

/// Returns a number of things and what was done to them, as in `3 files synced`.
fn done_to(alloc: Global, count: u64, thing: &str, done: &str) -> Result<String, AllocError> {
    let things = counted(alloc, count, thing)?;
    format!(in alloc; "{things} {done}")
}

/// Returns a number of things, in the plural except for 1.
fn counted(alloc: Global, count: u64, thing: &str) -> Result<String, AllocError> {
    let number = grouped(alloc, count)?;
    if count == 1 {
        format!(in alloc; "{number} {thing}")
    } else {
        format!(in alloc; "{number} {thing}s")
    }
}

/// Returns a number of bytes, rounded down to KiB or from 1 MiB on to MiB.
fn size_of(alloc: Global, bytes: u64) -> Result<String, AllocError> {
    if bytes < MIB {
        let kib = bytes / KIB;
        format!(in alloc; "{kib} KiB")
    } else {
        let mib = grouped(alloc, bytes / MIB)?;
        format!(in alloc; "{mib} MiB")
    }
}

/// Returns a number with a comma between each three digits.
fn grouped(alloc: Global, number: u64) -> Result<String, AllocError> {
    let digits = format!(in alloc; "{number}")?;
    let mut text = String::new(alloc);
    for (at, digit) in digits.chars().enumerate() {
        let left = digits.len().saturating_sub(at);
        if at > 0 && left % 3 == 0 {
            text.push(',')?;
        }
        text.push(digit)?;
    }
    Ok(text)
}
