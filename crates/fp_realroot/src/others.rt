//! The search in a directory without a lock file for what isn't fpk's.
use crate::layout::Layout;
use fp_base::Text;
use fp_system::{Cause, Kind, OddNames, folder_of, kind_at, read_names};
use std::alloc::Global;
use std::rt::Files;

/// Returns the path of something that isn't fpk's and that a change would remove. Returns `None` if
/// there is nothing, or a file marks the directory as an installation; that is checked again at the
/// end, since another fpk may begin to use it meanwhile. Errs at a name that isn't UTF-8.
pub fn find_others<R: Files + AllocGlobal>(
    rt: &R,
    alloc: Global,
    root: &str,
    layout: &Layout,
) -> Result<Option<String>, Cause> {
    if has_sign(rt, alloc, root, layout)? {
        return Ok(None);
    }
    match find_other(rt, alloc, root, layout)? {
        Some(_) if has_sign(rt, alloc, root, layout)? => Ok(None),
        found => Ok(found),
    }
}

/// Returns whether one of the files that mark an installation exists.
fn has_sign<R: Files>(rt: &R, alloc: Global, root: &str, layout: &Layout) -> Result<bool, Cause> {
    for sign in layout.signs {
        if kind_below(rt, alloc, root, sign)? != Kind::Absent {
            return Ok(true);
        }
    }
    Ok(false)
}

/// Returns the type of what is at a path below the root, without following a symlink.
fn kind_below<R: Files>(rt: &R, alloc: Global, root: &str, path: &str) -> Result<Kind, Cause> {
    match format!(in alloc; "{root}/{path}") {
        Ok(at) => kind_at(rt, &at),
        Err(_) => Err(Cause::NoMemory),
    }
}

/// Returns a path in the directory of exports, or else one in the directory of temporary files that
/// is no new file of fpk's.
fn find_other<R: Files + AllocGlobal>(
    rt: &R,
    alloc: Global,
    root: &str,
    layout: &Layout,
) -> Result<Option<String>, Cause> {
    match find_in(rt, alloc, root, layout.exports, None)? {
        None => find_in(rt, alloc, root, layout.work, Some(layout.new_file)),
        found => Ok(found),
    }
}

/// Returns the path of one name in a directory below the root, leaving out fpk's new files, whose
/// names start with `new_file`. Returns `None` if there is no such name, or no such directory.
fn find_in<R: Files + AllocGlobal>(
    rt: &R,
    alloc: Global,
    root: &str,
    below: &str,
    new_file: Option<&str>,
) -> Result<Option<String>, Cause> {
    if !is_folder_below(rt, alloc, root, below)? {
        return Ok(None);
    }
    let folder = format!(in alloc; "{root}/{below}")?;
    let names = read_names(rt, alloc, &folder, OddNames::Refused)?;
    find_name(rt, alloc, &folder, &names, new_file)
}

/// Returns whether a directory is at a path of one or two elements below the root, and no symlink
/// above it.
fn is_folder_below<R: Files>(
    rt: &R,
    alloc: Global,
    root: &str,
    below: &str,
) -> Result<bool, Cause> {
    let above = folder_of(below);
    if above != "." && kind_below(rt, alloc, root, above)? != Kind::Dir {
        return Ok(false);
    }
    match kind_below(rt, alloc, root, below) {
        Ok(kind) => Ok(kind == Kind::Dir),
        Err(e) => Err(e),
    }
}

fn find_name<R: Files>(
    rt: &R,
    alloc: Global,
    folder: &str,
    names: &[Text],
    new_file: Option<&str>,
) -> Result<Option<String>, Cause> {
    for name in names {
        if !is_new_file(rt, alloc, folder, name.as_str(), new_file)? {
            return path_in(alloc, folder, name.as_str());
        }
    }
    Ok(None)
}

fn path_in(alloc: Global, folder: &str, name: &str) -> Result<Option<String>, Cause> {
    match format!(in alloc; "{folder}/{name}") {
        Ok(at) => Ok(Some(at)),
        Err(_) => Err(Cause::NoMemory),
    }
}

/// Returns whether it is a regular file whose name is `new_file` and a number.
fn is_new_file<R: Files>(
    rt: &R,
    alloc: Global,
    folder: &str,
    name: &str,
    new_file: Option<&str>,
) -> Result<bool, Cause> {
    match new_file {
        Some(begin) if is_numbered(name, begin) => is_file_in(rt, alloc, folder, name),
        _ => Ok(false),
    }
}

fn is_numbered(name: &str, begin: &str) -> bool {
    match name.strip_prefix(begin) {
        Some(number) => !number.is_empty() && number.bytes().all(|byte| byte.is_ascii_digit()),
        None => false,
    }
}

fn is_file_in<R: Files>(rt: &R, alloc: Global, folder: &str, name: &str) -> Result<bool, Cause> {
    match kind_below(rt, alloc, folder, name) {
        Ok(kind) => Ok(kind == Kind::File),
        Err(e) => Err(e),
    }
}
