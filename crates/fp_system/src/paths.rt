//! Paths of the file system, as texts.
use crate::cause::Cause;
use std::alloc::AllocError;

/// Replaces the content of `into` with the directory, a slash and the path below it. Errs with
/// `NoMemory`.
pub fn join(folder: &str, below: &str, into: &mut String) -> Result<(), Cause> {
    into.clear();
    match push(folder, below, into) {
        Ok(()) => Ok(()),
        Err(_) => Err(Cause::NoMemory),
    }
}

fn push(folder: &str, below: &str, into: &mut String) -> Result<(), AllocError> {
    into.push_str(folder)?;
    into.push('/')?;
    into.push_str(below)
}

/// Splits a path into its parent directory, `.` if it has no slash, and its name.
pub fn split_name(at: &str) -> (&str, &str) {
    match at.rsplit_once('/') {
        None => (".", at),
        Some(("", name)) => ("/", name),
        Some(parts) => parts,
    }
}

/// Returns the parent directory of a path, `.` if it has no slash.
pub fn folder_of(at: &str) -> &str {
    let (folder, _) = split_name(at);
    folder
}
