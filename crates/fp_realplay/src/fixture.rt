//! Paths, URLs and error messages of a test.
use crate::Log;
use crate::words::{number, pair};
use fp_host::Path;
use fp_system::SystemError;
use std::alloc::Global;
use std::fs;

/// Removes the directory and everything below it, which an earlier run of the test may have left.
/// Errors are ignored.
pub fn clear(rt: &HostRuntime, folder: &str) {
    let _ = fs::remove_dir_all(rt, folder);
}

/// Parses a path; `.` and the empty text are the root. If the text is no path, notes that in the
/// log and returns the root.
pub fn path(log: &Log<'_>, text: &str) -> Path {
    if text == "." || text.is_empty() {
        return Path::root(log.alloc);
    }
    match Path::parse(log.alloc, text) {
        Ok(path) => path,
        Err(_) => {
            log.demand(false, 0, text);
            Path::root(log.alloc)
        }
    }
}

/// Returns the `file://` URL of a path below the current directory. If it can't be found out, notes
/// that in the log and returns an empty text.
pub fn url_of(rt: &HostRuntime, log: &Log<'_>, at: &str) -> String {
    match url_below(rt, at) {
        Some(url) => url,
        None => {
            log.demand(false, 0, "the url of a folder");
            String::new(log.alloc)
        }
    }
}

fn url_below(rt: &HostRuntime, at: &str) -> Option<String> {
    let here = std::env::current_dir(rt).ok()?.into_string();
    format!(in rt.alloc(); "file://{here}/{at}").ok()
}

/// Returns whether there is an error with this message. If `want` begins with `..`, the message
/// only has to end with the rest of it.
pub fn is_message(alloc: Global, error: Option<&SystemError>, want: &str) -> bool {
    match error {
        Some(error) => is_text(alloc, error, want),
        None => false,
    }
}

fn is_text(alloc: Global, error: &SystemError, want: &str) -> bool {
    match error.to_string(alloc) {
        Ok(text) => is_such(text.as_str(), want),
        Err(_) => false,
    }
}

fn is_such(text: &str, want: &str) -> bool {
    match want.strip_prefix("..") {
        Some(end) => text.ends_with(end),
        None => text == want,
    }
}

/// Returns the permission bits in octal and the size in bytes, separated by a space; none if memory
/// runs out.
pub(crate) fn bits_and_size(alloc: Global, mode: u32, size: u64) -> Option<String> {
    format!(in alloc; "{mode:o} {size}").ok()
}

/// Splits a block at its last line that begins with `faults `, which is returned without that word.
/// Without such a line, the second part is `0`.
pub(crate) fn told_of(block: &str) -> (&str, &str) {
    match block.rsplit_once("\nfaults ") {
        Some(both) => both,
        None => (block, "0"),
    }
}

/// Returns whether the number of failures is the first word of `told`, and the last error has the
/// message that follows it, if one does.
pub(crate) fn tells(alloc: Global, faults: u64, error: Option<&SystemError>, told: &str) -> bool {
    let (count, last) = pair(told);
    faults == number(count) && (last.is_empty() || is_message(alloc, error, last))
}
