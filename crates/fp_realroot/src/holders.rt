//! The processes that hold a lock, as Linux lists them.
use fp_realsync::System;
use fp_system::known;
use std::alloc::{AllocError, Global};
use std::fs::{self, OpenFile};
use std::os::unix::fs::MetadataExt;
use std::rt::Files;

/// The file in which Linux lists the locks that are held or waited for.
const LOCKS: &str = "/proc/locks";

/// The type of a lock taken by flock(2), in its line.
const FLOCK: &str = "FLOCK";

/// Prints on standard error which processes hold the lock of an open file or directory, if the
/// system reports it.
pub fn tell_holders<R: System>(rt: &R, file: &R::File, at: &str) {
    match find_holders(rt, rt.alloc(), file) {
        Ok(Some(holders)) => {
            let _said = eprintln!(rt; "fpk: still waiting: the lock of {at} is held by {holders}");
        }
        Ok(None) | Err(AllocError) => {
            let _said = eprintln!(rt; "fpk: still waiting for the lock of {at}");
        }
    }
}

/// Returns the processes that hold the lock, with their names, or `None` if the system reports no
/// such process.
fn find_holders<R: System>(
    rt: &R,
    alloc: Global,
    file: &R::File,
) -> Result<Option<String>, AllocError> {
    let Ok(found) = known(file.metadata()) else {
        return Ok(None);
    };
    let Ok(locks) = fs::read_to_string(rt, LOCKS) else {
        return Ok(None);
    };
    let place = place_of(alloc, found.dev(), found.ino())?;
    let processes = holders_at(alloc, &locks, &place)?;
    name_all(rt, alloc, &processes)
}

/// Returns the name of a file in `/proc/locks`: the major and minor numbers of its device in
/// hexadecimal and the number of its inode in decimal, with colons between.
pub fn place_of(alloc: Global, device: u64, inode: u64) -> Result<String, AllocError> {
    let major = device >> 8 & 0xfff;
    let minor = device & 0xff | device >> 12 & 0xfff00;
    format!(in alloc; "{major:02x}:{minor:02x}:{inode}")
}

/// Returns the ids of the processes that hold a lock of this file, in a text as that of
/// `/proc/locks`. Those that wait for one are left out.
pub fn holders_at<'a>(
    alloc: Global,
    locks: &'a str,
    place: &str,
) -> Result<Vec<&'a str>, AllocError> {
    let mut found = Vec::new(alloc);
    for line in locks.lines() {
        if let Some(process) = holder_in(line, place) {
            found.push(process)?;
        }
    }
    Ok(found)
}

/// Returns the process of a line such as `1: FLOCK ADVISORY WRITE 4074 fe:00:131 0 EOF`. The line
/// of a process that waits has `->` as its second word.
fn holder_in<'a>(line: &'a str, place: &str) -> Option<&'a str> {
    let mut words = line.split_ascii_whitespace();
    let _number = words.next()?;
    if words.next()? != FLOCK {
        return None;
    }
    let _kind = words.next()?;
    let _access = words.next()?;
    let process = words.next()?;
    if words.next()? == place {
        Some(process)
    } else {
        None
    }
}

/// Returns the processes with their names, separated by commas, or `None` if the list is empty.
fn name_all<R: Files + AllocGlobal>(
    rt: &R,
    alloc: Global,
    processes: &[&str],
) -> Result<Option<String>, AllocError> {
    let mut text = String::new(alloc);
    for process in processes {
        if !text.is_empty() {
            text.push_str(", ")?;
        }
        push_process(rt, alloc, process, &mut text)?;
    }
    Ok(if text.is_empty() { None } else { Some(text) })
}

fn push_process<R: Files + AllocGlobal>(
    rt: &R,
    alloc: Global,
    process: &str,
    text: &mut String,
) -> Result<(), AllocError> {
    let at = format!(in alloc; "/proc/{process}/comm")?;
    match fs::read_to_string(rt, &at) {
        Ok(name) => {
            let name = name.trim_end().escape_debug();
            write!(text, "process {process} ({name})")
        }
        Err(_) => write!(text, "process {process}"),
    }
}
