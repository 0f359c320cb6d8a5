//! Facts for messages that are read from the disk: a remote's directory, the refs of an ID, and bad
//! lines of a key file.
use fl_lines::escape;
use fp_keyfile::{KeyError, KeyFault, KeyFile};
use fp_system::{Kind, OddNames, kind_at, read_names};
use std::alloc::{AllocError, Global};
use std::fs;
use std::rt::Files;

/// Returns the directory of a remote by the installation's `config`, or `None` if that has no
/// `file://` URL for it or can't be read. Errs if memory runs out.
pub fn remote_folder(
    rt: &(impl Files + AllocGlobal),
    alloc: Global,
    installation: &str,
    remote: &str,
) -> Result<Option<String>, AllocError> {
    let at = format!(in alloc; "{installation}/config")?;
    let Ok(config) = fs::read(rt, at.as_str()) else {
        return Ok(None);
    };
    let group = format!(in alloc; "remote \"{remote}\"")?;
    match KeyFile::parse(alloc, config.as_slice()) {
        Ok(file) => folder_in(alloc, &file, group.as_str()),
        Err(_) => Ok(None),
    }
}

/// Returns the directory in the `file://` URL of a group.
fn folder_in(alloc: Global, file: &KeyFile, group: &str) -> Result<Option<String>, AllocError> {
    match file.get(group, "url") {
        Some(url) => match url.strip_prefix("file://") {
            Some(folder) => Ok(Some(folder.to_string(alloc)?)),
            None => Ok(None),
        },
        None => Ok(None),
    }
}

/// Returns whether nothing is at the path.
pub fn is_absent(rt: &impl Files, at: &str) -> bool {
    matches!(kind_at(rt, at), Ok(Kind::Absent))
}

/// Returns the refs below the directory `above` with this kind and ID, separated by commas, in no
/// particular order. With a `mark`, as `/active`, only those in which this path exists. A directory
/// that can't be listed has no refs. Errs if memory runs out.
pub fn refs_below(
    rt: &(impl Files + AllocGlobal),
    alloc: Global,
    above: &str,
    kind_and_id: &str,
    mark: &str,
) -> Result<String, AllocError> {
    let mut found = String::new(alloc);
    let top = format!(in alloc; "{above}/{kind_and_id}")?;
    let Ok(arches) = read_names(rt, alloc, top.as_str(), OddNames::LeftOut) else {
        return Ok(found);
    };
    for arch in &arches {
        let arch = arch.as_str();
        let prefix = format!(in alloc; "{kind_and_id}/{arch}")?;
        push_branches(rt, alloc, &mut found, above, prefix.as_str(), mark)?;
    }
    Ok(found)
}

/// Appends the refs of an architecture.
fn push_branches(
    rt: &(impl Files + AllocGlobal),
    alloc: Global,
    found: &mut String,
    above: &str,
    prefix: &str,
    mark: &str,
) -> Result<(), AllocError> {
    let at = format!(in alloc; "{above}/{prefix}")?;
    let Ok(branches) = read_names(rt, alloc, at.as_str(), OddNames::LeftOut) else {
        return Ok(());
    };
    for branch in &branches {
        let name = branch.as_str();
        let marked = format!(in alloc; "{at}/{name}{mark}")?;
        if !is_absent(rt, marked.as_str()) {
            push_name(alloc, found, prefix, name)?;
        }
    }
    Ok(())
}

/// Appends the name of a ref, after a comma if it isn't the first.
fn push_name(
    alloc: Global,
    found: &mut String,
    prefix: &str,
    branch: &str,
) -> Result<(), AllocError> {
    if !found.is_empty() {
        found.push_str(", ")?;
    }
    let prefix = escape(alloc, prefix)?;
    let branch = escape(alloc, branch)?;
    write!(found, "{prefix}/{branch}")
}

/// Returns the first bad line of a key file and the rule that it breaks, or `None` if all lines are
/// good or the file can't be read.
pub fn bad_line(rt: &(impl Files + AllocGlobal), alloc: Global, at: &str) -> Option<KeyFault> {
    match fs::read(rt, at) {
        Ok(bytes) => match KeyFile::parse(alloc, bytes.as_slice()) {
            Err(KeyError::Fault(fault)) => Some(fault),
            Ok(_) | Err(KeyError::NoMemory) => None,
        },
        Err(_) => None,
    }
}

/// Appends a line with a list, unless the list is empty.
pub fn push_list(text: &mut String, what: &str, found: &str) -> Result<(), AllocError> {
    if found.is_empty() {
        Ok(())
    } else {
        write!(text, "fpk: {what}: {found}\n")
    }
}

/// Returns the mode in a repository's `config`, or `None` if it has no mode or can't be read. Errs
/// if memory runs out.
pub fn mode_at(
    rt: &(impl Files + AllocGlobal),
    alloc: Global,
    config: &str,
) -> Result<Option<String>, AllocError> {
    let Ok(bytes) = fs::read(rt, config) else {
        return Ok(None);
    };
    match KeyFile::parse(alloc, bytes.as_slice()) {
        Ok(file) => match file.get("core", "mode") {
            Some(mode) => Ok(Some(mode.to_string(alloc)?)),
            None => Ok(None),
        },
        Err(_) => Ok(None),
    }
}
