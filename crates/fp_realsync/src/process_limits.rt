//! The limits of the process: how many threads create files, and how large a file may get.
use std::fs;
use std::rt::Files;

/// The most threads that create files. A file system's journal commits the syncs of all threads
/// that wait for it together.
const MOST: usize = 64;

/// The file in which Linux lists the limits of the process.
const LIMITS: &str = "/proc/self/limits";

/// The start of the line with the limit of open files.
const OPEN_FILES: &str = "Max open files";

/// The start of the line with the limit of a file's size.
const FILE_SIZE: &str = "Max file size";

/// The assumed limit of open files if the system reports none.
const FEW: usize = 64;

/// Returns the number of threads that may create files, each of which has one open: a quarter of
/// the limit of open files, at least 1 and at most 64.
pub fn most_threads<R: Files + AllocGlobal>(rt: &R) -> usize {
    let files = match fs::read_to_string(rt, LIMITS) {
        Ok(text) => limit_in(&text, OPEN_FILES).unwrap_or(FEW),
        Err(_) => FEW,
    };
    (files / 4).clamp(1, MOST)
}

/// Returns the largest size in bytes of a file that the process may write. Linux ends a process
/// that exceeds it (SIGXFSZ), so the size is checked before each write.
pub fn largest_file<R: Files + AllocGlobal>(rt: &R) -> u64 {
    let bytes = match fs::read_to_string(rt, LIMITS) {
        Ok(text) => limit_in(&text, FILE_SIZE).unwrap_or(usize::MAX),
        Err(_) => usize::MAX,
    };
    bytes as u64
}

/// Returns the soft limit in the line that starts with `begin`, the largest number for `unlimited`,
/// and `None` without such a line.
fn limit_in(limits: &str, begin: &str) -> Option<usize> {
    for line in limits.lines() {
        if let Some(rest) = line.strip_prefix(begin) {
            return first_number(rest);
        }
    }
    None
}

fn first_number(text: &str) -> Option<usize> {
    match text.trim_start().split_once(' ') {
        Some((word, _)) => Some(word.parse().unwrap_or(usize::MAX)),
        None => None,
    }
}
