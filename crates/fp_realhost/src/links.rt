//! Adding and removing names, other than by moves.
use fp_realnotes::{Made, Notes};
use fp_realroot::{find_file, open_to_read};
use fp_system::{Cause, Found, Kind, NO_ENTRY, create_new, give_bits, known, look};
use std::fs;
use std::io::{ErrorKind, copy};
use std::os::unix;
use std::rt::Files;

/// Makes the second path a hard link of the regular file at the first. If the file system allows no
/// more links of the file (`EMLINK`), the second path becomes a copy, as in OSTree.
pub fn link<R: Files>(rt: &R, from: &str, to: &str, notes: &mut Notes) -> Result<(), Cause> {
    match link_file(rt, from, to, notes) {
        Ok(()) => {
            notes.add_linked(from, to);
            Ok(())
        }
        Err(e) if e.is(ErrorKind::TooManyLinks) => copy_file(rt, from, to, notes),
        Err(e) => Err(e),
    }
}

/// Makes a copy, a new file that waits for a sync. Its bits and length are looked up when they are
/// asked for.
fn copy_file<R: Files>(rt: &R, from: &str, to: &str, notes: &mut Notes) -> Result<(), Cause> {
    match copy_new(rt, from, to) {
        Ok(()) => {
            notes.add_created(to, 0);
            notes.made.doubt_file(to);
            Ok(())
        }
        Err(e) => {
            notes.made.doubt_folder();
            Err(e)
        }
    }
}

/// Copies the file with all its permission bits. Errs if anything, even a symlink, is at the second
/// path by now, and leaves it unchanged.
fn copy_new<R: Files>(rt: &R, from: &str, to: &str) -> Result<(), Cause> {
    match find_file(rt, from) {
        Ok(found) => copy_with(rt, from, to, found.permission_bits()),
        Err(e) => Err(e),
    }
}

fn copy_with<R: Files>(rt: &R, from: &str, to: &str, bits: u32) -> Result<(), Cause> {
    let mut source = open_to_read(rt, from)?;
    let mut file = create_new(rt, to, bits)?;
    known(copy(&mut source, &mut file))?;
    give_bits(&file, bits)
}

fn link_file<R: Files>(rt: &R, from: &str, to: &str, notes: &Notes) -> Result<(), Cause> {
    match check_file(rt, from, notes) {
        Ok(()) => known(fs::hard_link(rt, from, to)),
        Err(e) => Err(e),
    }
}

/// Checks that a regular file is at the path. A file that was found or created before isn't looked
/// up again.
fn check_file<R: Files>(rt: &R, at: &str, notes: &Notes) -> Result<(), Cause> {
    if notes.made.is_file(at) || notes.files.has(at) {
        return Ok(());
    }
    match find_file(rt, at) {
        Ok(_) => Ok(()),
        Err(e) => Err(e),
    }
}

/// Makes a symlink with this text, and notes it.
pub fn symlink<R: Files>(rt: &R, text: &str, at: &str, notes: &mut Notes) -> Result<(), Cause> {
    match known(unix::fs::symlink(rt, text, at)) {
        Ok(()) => {
            notes.add_symlink(at);
            Ok(())
        }
        Err(e) => Err(e),
    }
}

/// Removes a file or a symlink, and notes it.
pub fn unlink<R: Files>(rt: &R, at: &str, notes: &mut Notes) -> Result<(), Cause> {
    match known(fs::remove_file(rt, at)) {
        Ok(()) => {
            notes.add_gone(at);
            Ok(())
        }
        Err(e) => Err(unlink_refusal(rt, at, &notes.made, e)),
    }
}

/// Returns the reason why nothing was removed. On Linux `unlink` doesn't remove a directory, but
/// the errno of some file systems doesn't show that it is one.
fn unlink_refusal<R: Files>(rt: &R, at: &str, made: &Made, refused: Cause) -> Cause {
    match leaf_kind(rt, at, made) {
        Ok(_) => refused,
        Err(e) => e,
    }
}

/// Returns the type of the file, symlink or special file at the path. Errs with `NO_ENTRY` if
/// nothing is there and with `NoLeaf` for a directory.
pub fn leaf_kind<R: Files>(rt: &R, at: &str, made: &Made) -> Result<Kind, Cause> {
    if made.is_file(at) {
        return Ok(Kind::File);
    }
    match find_leaf(rt, at) {
        Ok(found) => Ok(found.kind),
        Err(e) => Err(e),
    }
}

/// Returns the status of the file, symlink or special file at the path. Errs with `NO_ENTRY` if
/// nothing is there and with `NoLeaf` for a directory.
pub fn find_leaf<R: Files>(rt: &R, at: &str) -> Result<Found, Cause> {
    match look(rt, at) {
        Ok(found) if is_leaf(&found) => Ok(found),
        Ok(found) => Err(no_leaf(found.kind)),
        Err(e) => Err(e),
    }
}

/// Returns whether something is there that is no directory.
pub fn is_leaf(found: &Found) -> bool {
    found.is_leaf() || found.kind == Kind::Other
}

fn no_leaf(kind: Kind) -> Cause {
    match kind {
        Kind::Absent => Cause::Number(NO_ENTRY),
        _ => Cause::NoLeaf,
    }
}

/// Removes an empty directory, and notes it.
pub fn remove_folder<R: Files>(rt: &R, at: &str, notes: &mut Notes) -> Result<(), Cause> {
    match known(fs::remove_dir(rt, at)) {
        Ok(()) => {
            notes.add_gone_folder(at);
            Ok(())
        }
        Err(e) => Err(e),
    }
}
