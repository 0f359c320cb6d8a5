//! The files and directories that an earlier command may have left unsynced when it crashed.
use crate::gate::LOCK_NAME;
use crate::roots::{above_root, folder_at};
use fp_base::Text;
use fp_realsync::Touched;
use fp_system::{Call, Cause, Kind, OddNames, kind_at, read_names, sync_above};
use std::alloc::Global;
use std::io::ErrorKind;
use std::rt::Files;

/// Syncs the directories above the root, which a crashed command may have made, and notes the root.
/// It is no error if their file system doesn't support a sync.
pub fn sync_above_root<R: Files>(rt: &R, root: &str, touched: &mut Touched) {
    add_above(rt, above_root(root), touched);
    for end in 1..root.len() {
        if let Some(above) = folder_at(root, end) {
            add_above(rt, above, touched);
        }
    }
    touched.add_left(root);
}

/// Syncs a directory above the root. If the sync fails, the next sync of all returns the failure. A
/// directory that could not be opened is noted, and opened again then.
fn add_above<R: Files>(rt: &R, at: &str, touched: &mut Touched) {
    match sync_above(rt, at) {
        Some(unsynced) if unsynced.call == Call::Sync => touched.lose(at, unsynced),
        Some(_) => touched.add_left(at),
        None => {}
    }
}

/// Notes each file and directory of fpk's below the root. Leaves out what can't be looked up or
/// listed for lack of permission, and names that aren't UTF-8, since they aren't fpk's.
pub fn add_below<R: Files + AllocGlobal>(
    rt: &R,
    alloc: Global,
    root: &str,
    names: &[&str],
    touched: &mut Touched,
) -> Result<(), Cause> {
    let mut folders = Vec::new(alloc);
    match add_own(rt, alloc, root, names, &mut folders, touched) {
        Ok(()) => add_folders(rt, alloc, &mut folders, touched),
        Err(e) => Err(e),
    }
}

/// Notes the lock file and what is at fpk's names at the top, and collects the directories among
/// them.
fn add_own<R: Files>(
    rt: &R,
    alloc: Global,
    root: &str,
    names: &[&str],
    folders: &mut Vec<String>,
    touched: &mut Touched,
) -> Result<(), Cause> {
    add_name(rt, alloc, root, LOCK_NAME, folders, touched)?;
    for name in names {
        add_name(rt, alloc, root, name, folders, touched)?;
    }
    Ok(())
}

/// Notes the content of the directories, and of those that are found in them.
fn add_folders<R: Files + AllocGlobal>(
    rt: &R,
    alloc: Global,
    folders: &mut Vec<String>,
    touched: &mut Touched,
) -> Result<(), Cause> {
    for _ in 0..u64::MAX {
        match folders.pop() {
            Some(folder) => add_in(rt, alloc, &folder, folders, touched)?,
            None => break,
        }
    }
    Ok(())
}

fn add_in<R: Files + AllocGlobal>(
    rt: &R,
    alloc: Global,
    folder: &str,
    folders: &mut Vec<String>,
    touched: &mut Touched,
) -> Result<(), Cause> {
    match read_names(rt, alloc, folder, OddNames::LeftOut) {
        Ok(names) => add_named(rt, alloc, folder, &names, folders, touched),
        Err(e) => spare(e),
    }
}

/// Ignores the error of what was removed meanwhile, or can't be read for lack of permission since
/// it isn't fpk's.
fn spare(cause: Cause) -> Result<(), Cause> {
    if cause.is_absence() || cause.is(ErrorKind::PermissionDenied) {
        return Ok(());
    }
    Err(cause)
}

fn add_named<R: Files>(
    rt: &R,
    alloc: Global,
    folder: &str,
    names: &[Text],
    folders: &mut Vec<String>,
    touched: &mut Touched,
) -> Result<(), Cause> {
    for name in names {
        add_name(rt, alloc, folder, name.as_str(), folders, touched)?;
    }
    Ok(())
}

fn add_name<R: Files>(
    rt: &R,
    alloc: Global,
    folder: &str,
    name: &str,
    folders: &mut Vec<String>,
    touched: &mut Touched,
) -> Result<(), Cause> {
    match format!(in alloc; "{folder}/{name}") {
        Ok(at) => add_found(rt, at, folders, touched),
        Err(_) => Err(Cause::NoMemory),
    }
}

/// Notes the file or directory at the path.
fn add_found<R: Files>(
    rt: &R,
    at: String,
    folders: &mut Vec<String>,
    touched: &mut Touched,
) -> Result<(), Cause> {
    match kind_at(rt, &at) {
        Ok(kind) => add_kind(at, kind, folders, touched),
        Err(e) => spare(e),
    }
}

fn add_kind(
    at: String,
    kind: Kind,
    folders: &mut Vec<String>,
    touched: &mut Touched,
) -> Result<(), Cause> {
    if matches!(kind, Kind::Dir | Kind::File) {
        touched.add_left(&at);
    }
    match kind {
        Kind::Dir => push_folder(at, folders),
        _ => Ok(()),
    }
}

fn push_folder(at: String, folders: &mut Vec<String>) -> Result<(), Cause> {
    match folders.push(at) {
        Ok(()) => Ok(()),
        Err(_) => Err(Cause::NoMemory),
    }
}
