//! The test whether an open file is still at its path.
use fp_system::{Cause, known};
use std::fs::{self, Metadata, OpenFile};
use std::os::unix::fs::MetadataExt;
use std::rt::Files;

/// Returns whether the open file is at the path, without following a symlink.
pub fn stands_at<R: Files>(rt: &R, file: &R::File, at: &str) -> Result<bool, Cause> {
    match known(file.metadata()) {
        Ok(opened) => is_at(rt, &opened, at),
        Err(e) => Err(e),
    }
}

/// Returns whether the path leads to the open directory, following symlinks.
pub fn leads_to<R: Files>(rt: &R, folder: &R::File, at: &str) -> Result<bool, Cause> {
    match known(folder.metadata()) {
        Ok(opened) => is_one_with(&opened, known(fs::metadata(rt, at))),
        Err(e) => Err(e),
    }
}

fn is_at<R: Files>(rt: &R, opened: &Metadata, at: &str) -> Result<bool, Cause> {
    is_one_with(opened, known(fs::symlink_metadata(rt, at)))
}

/// Returns whether both are the same inode of the same device; false if nothing is at the path.
fn is_one_with(opened: &Metadata, found: Result<Metadata, Cause>) -> Result<bool, Cause> {
    match found {
        Ok(found) => Ok(are_one(opened, &found)),
        Err(e) if e.is_absence() => Ok(false),
        Err(e) => Err(e),
    }
}

fn are_one(file: &Metadata, other: &Metadata) -> bool {
    file.ino() == other.ino() && file.dev() == other.dev()
}
