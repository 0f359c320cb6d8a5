//! The root directory of a host and the directories above it.
use fp_realsync::Touched;
use fp_system::{Cause, FOLDER_BITS, has_folder, known, set_bits};
use std::fs::{self, DirBuilder};
use std::os::unix::fs::DirBuilderExt;
use std::rt::Files;

/// Makes a directory with the permission bits 0o755, whatever the umask. Errs if the path exists.
pub fn make_folder<R: Files>(rt: &R, at: &str) -> Result<(), Cause> {
    match known(DirBuilder::new().mode(FOLDER_BITS).create(rt, at)) {
        Ok(()) => set_bits(rt, at, FOLDER_BITS),
        Err(e) => Err(e),
    }
}

/// Makes the directory and those above it, where they are absent, and notes each one that it made.
/// Those above it aren't fpk's and get the permission bits that the umask leaves.
pub fn make_root<R: Files>(rt: &R, touched: &mut Touched, root: &str) -> Result<(), Cause> {
    for end in 1..root.len() {
        if let Some(above) = folder_at(root, end) {
            let made = known(fs::create_dir(rt, above));
            note_made(rt, touched, above, made)?;
        }
    }
    let made = make_folder(rt, root);
    note_made(rt, touched, root, made)
}

/// Returns the directory above the root whose path ends at this byte offset, if a slash is there.
pub fn folder_at(root: &str, end: usize) -> Option<&str> {
    match root.split_at_checked(end) {
        Some((above, rest)) if rest.starts_with('/') => Some(above),
        _ => None,
    }
}

/// Notes a directory that was made. It is no error if a directory was there already, or another
/// process made it first.
fn note_made<R: Files>(
    rt: &R,
    touched: &mut Touched,
    at: &str,
    made: Result<(), Cause>,
) -> Result<(), Cause> {
    match made {
        Ok(()) => {
            touched.add_made(at);
            Ok(())
        }
        Err(e) => must_be_there(rt, at, e),
    }
}

fn must_be_there<R: Files>(rt: &R, at: &str, refused: Cause) -> Result<(), Cause> {
    match has_folder(rt, at) {
        Ok(true) => Ok(()),
        Ok(false) => Err(refused),
        Err(e) => Err(e),
    }
}

/// Returns the directory in which the first element of the root's path is: `/` or `.`.
pub fn above_root(root: &str) -> &str {
    if root.starts_with('/') { "/" } else { "." }
}
