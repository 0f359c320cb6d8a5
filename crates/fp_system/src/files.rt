//! Opening fpk's own files, even if their permission bits forbid it.
use crate::{Cause, Found, Kind, NO_ENTRY, known, look};
use std::fs;
use std::fs::{OpenOptions, Permissions};
use std::io::ErrorKind;
use std::os::unix::fs::PermissionsExt;
use std::rt::Files;

/// Returns the status of the regular file at the path, without following a symlink. Errs with
/// `NO_ENTRY` if nothing is there and with `NoFile` if something else is.
pub fn find_file<R: Files>(rt: &R, at: &str) -> Result<Found, Cause> {
    match look(rt, at) {
        Ok(found) if found.kind == Kind::File => Ok(found),
        Ok(found) => Err(no_file(found.kind)),
        Err(e) => Err(e),
    }
}

fn no_file(kind: Kind) -> Cause {
    match kind {
        Kind::Absent => Cause::Number(NO_ENTRY),
        _ => Cause::NoFile,
    }
}

/// Opens one of fpk's own files. If its permission bits forbid it, they get the bits 0o600 added
/// while it is opened.
pub fn open_own<R: Files>(rt: &R, how: &OpenOptions, at: &str) -> Result<R::File, Cause> {
    match known(how.open(rt, at)) {
        Err(e) if e.is(ErrorKind::PermissionDenied) => open_denied(rt, how, at, e),
        opened => opened,
    }
}

/// Retries with wider permission bits. Anything but a regular file stays denied.
fn open_denied<R: Files>(
    rt: &R,
    how: &OpenOptions,
    at: &str,
    denied: Cause,
) -> Result<R::File, Cause> {
    match look(rt, at) {
        Ok(found) if found.kind == Kind::File => {
            open_widened(rt, how, at, found.permission_bits())
        }
        Ok(_) => Err(denied),
        Err(e) => Err(e),
    }
}

fn open_widened<R: Files>(
    rt: &R,
    how: &OpenOptions,
    at: &str,
    bits: u32,
) -> Result<R::File, Cause> {
    match set_bits(rt, at, bits | 0o600) {
        Ok(()) => open_narrowed(rt, how, at, bits),
        Err(e) => Err(e),
    }
}

fn open_narrowed<R: Files>(
    rt: &R,
    how: &OpenOptions,
    at: &str,
    bits: u32,
) -> Result<R::File, Cause> {
    let opened = known(how.open(rt, at));
    match set_bits(rt, at, bits) {
        Ok(()) => opened,
        Err(e) => Err(e),
    }
}

/// Sets the permission bits of the file or directory.
pub fn set_bits<R: Files>(rt: &R, at: &str, bits: u32) -> Result<(), Cause> {
    known(fs::set_permissions(rt, at, Permissions::from_mode(bits)))
}

/// Opens one of fpk's own files or directories to read.
pub fn open_to_read<R: Files>(rt: &R, at: &str) -> Result<R::File, Cause> {
    open_own(rt, OpenOptions::new().read(true), at)
}
