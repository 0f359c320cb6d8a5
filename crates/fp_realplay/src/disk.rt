//! Changes and checks of the disk, as another program would make them.
use crate::Log;
use crate::words::{bits, pair};
use fp_host::PERMISSION_BITS;
use fp_realroot::{Access, System};
use std::alloc::Global;
use std::fs::Permissions;
use std::os::unix::fs::{MetadataExt, PermissionsExt, symlink};
use std::time::{SystemTime, UNIX_EPOCH};
use std::{fs, io};

/// Plays lines for the disk, without a host. The first that doesn't hold is noted in the log.
pub fn play_disk(rt: &HostRuntime, log: &Log<'_>, lines: &str) {
    for (i, line) in lines.lines().enumerate() {
        let (verb, rest) = pair(line);
        log.demand(on_disk(rt, log.alloc, verb, rest) == Some(true), i, line);
    }
}

/// Makes or checks what the line says. Returns whether it was made or holds; none if the verb isn't
/// one for the disk.
pub(crate) fn on_disk(rt: &HostRuntime, alloc: Global, verb: &str, rest: &str) -> Option<bool> {
    let (at, text) = pair(rest);
    match verb {
        "folder" => Some(fs::create_dir_all(rt, at).is_ok()),
        "file" => Some(is_written(rt, alloc, at, text)),
        "leads" => Some(symlink(rt, text, at).is_ok()),
        "bits" => Some(gets_bits(rt, at, bits(text)).is_ok()),
        _ => sees(rt, alloc, verb, at, text),
    }
}

fn gets_bits(rt: &HostRuntime, at: &str, mode: u32) -> io::Result<()> {
    fs::set_permissions(rt, at, Permissions::from_mode(mode))
}

/// Returns the content of a file for a text: each `|` becomes a newline.
fn as_written(alloc: Global, text: &str) -> Option<String> {
    text.replace(alloc, "|", "\n").ok()
}

fn is_written(rt: &HostRuntime, alloc: Global, at: &str, text: &str) -> bool {
    match as_written(alloc, text) {
        Some(text) => fs::write(rt, at, text.as_str()).is_ok(),
        None => false,
    }
}

/// Returns whether the check with this verb holds at the path; none if the verb isn't one of a
/// check.
fn sees(rt: &HostRuntime, alloc: Global, verb: &str, at: &str, text: &str) -> Option<bool> {
    match verb {
        "free" => Some(is_open_to(rt, at, true, true)),
        "shared" => Some(is_open_to(rt, at, true, false)),
        "held" => Some(is_open_to(rt, at, false, false)),
        "mode" => Some(has_bits(rt, at, bits(text))),
        "holds" => Some(has_text(rt, alloc, at, text)),
        "absent" => Some(is_absent(rt, at)),
        "dated" => Some(is_dated(rt, at, text)),
        _ => None,
    }
}

/// Returns whether the lock of a file or directory can be taken with this access; none if it can't
/// be opened or locked.
fn is_free(rt: &HostRuntime, at: &str, access: Access) -> Option<bool> {
    match fs::open(rt, at) {
        Ok(file) => rt.try_lock(&file, access).ok(),
        Err(_) => None,
    }
}

/// Returns whether the lock of a file or directory can be taken shared (`looks`) and exclusively
/// (`changes`), as given.
fn is_open_to(rt: &HostRuntime, at: &str, looks: bool, changes: bool) -> bool {
    is_free(rt, at, Access::Look) == Some(looks) && is_free(rt, at, Access::Change) == Some(changes)
}

fn has_bits(rt: &HostRuntime, at: &str, want: u32) -> bool {
    match fs::metadata(rt, at) {
        Ok(found) => found.mode() & PERMISSION_BITS == want,
        Err(_) => false,
    }
}

fn has_text(rt: &HostRuntime, alloc: Global, at: &str, want: &str) -> bool {
    match (fs::read_to_string(rt, at), as_written(alloc, want)) {
        (Ok(text), Some(want)) => text.as_str() == want.as_str(),
        _ => false,
    }
}

fn is_absent(rt: &HostRuntime, at: &str) -> bool {
    match fs::exists(rt, at) {
        Ok(is_there) => !is_there,
        Err(_) => false,
    }
}

fn modified(rt: &HostRuntime, at: &str) -> Option<SystemTime> {
    match fs::metadata(rt, at) {
        Ok(found) => found.modified().ok(),
        Err(_) => None,
    }
}

/// Returns whether the modification time is 0 (`1970`), or greater (`later`).
fn is_dated(rt: &HostRuntime, at: &str, want: &str) -> bool {
    match modified(rt, at) {
        Some(found) if want == "1970" => found == UNIX_EPOCH,
        Some(found) => want == "later" && found > UNIX_EPOCH,
        None => false,
    }
}
