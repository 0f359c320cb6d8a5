//! Making directories.
use fp_realnotes::{Grants, Notes};
use fp_system::{Cause, FOLDER_BITS, known, look};
use std::fs;
use std::fs::{DirBuilder, Permissions};
use std::os::unix::fs::{DirBuilderExt, PermissionsExt};
use std::rt::Files;

/// Makes a directory with the permission bits 0o755, whatever the umask. Errs if the path exists.
pub fn make_dir<R: Files>(rt: &R, at: &str, notes: &mut Notes) -> Result<(), Cause> {
    let done = make(rt, at, &mut notes.grants);
    match done {
        Ok(()) => notes.add_made(at),
        // The directory may exist without its permission bits.
        Err(_) => notes.add_half_made(at),
    }
    done
}

fn make<R: Files>(rt: &R, at: &str, grants: &mut Grants) -> Result<(), Cause> {
    match known(DirBuilder::new().mode(FOLDER_BITS).create(rt, at)) {
        Ok(()) => give_bits(rt, at, grants),
        Err(e) => Err(e),
    }
}

/// Sets the permission bits if the umask cleared some of them.
fn give_bits<R: Files>(rt: &R, at: &str, grants: &mut Grants) -> Result<(), Cause> {
    if grants.has(at, FOLDER_BITS) {
        return Ok(());
    }
    match look(rt, at) {
        Ok(found) if found.permission_bits() == FOLDER_BITS => {
            grants.add(at);
            Ok(())
        }
        Ok(_) => known(fs::set_permissions(rt, at, Permissions::from_mode(FOLDER_BITS))),
        Err(e) => Err(e),
    }
}
