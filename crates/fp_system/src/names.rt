//! Listing the names in a directory.
ghost use Rattle.std.specs.Prelude.{◌≡◌, ◌↔◌, IfOk, IsTrue};
ghost use Rattle.std.specs.List.{list_all};
ghost use Rattle.std.specs.Ordering.{is_lt, nat_cmp};
ghost use Rattle.std.specs.Cmp.Lexicographic.{slice_cmp};
ghost use Rattle.fp_host.specs.Paths.{is_element};
ghost use Rattle.fp_host.specs.Reads.{AreNames, is_ascending};

use crate::{Cause, known};
use fp_base::{Items, Text};
use fp_host::is_element;
use std::alloc::{AllocError, Global};
use std::fs::{self, DirEntry};
use std::io::{self, ErrorKind};
use std::rt::Files;

/// Lists the names in the directory except the hidden one, ascending by their bytes. Names that
/// aren't UTF-8 are left out: no path of a host has one. Errs with `BadName` if another name can't
/// be an element of a path.
pub fn list_names<R: Files + AllocGlobal>(
    rt: &R,
    alloc: Global,
    at: &str,
    hidden: &str,
) -> Result<Items<Text>, Cause>
    ensures { IfOk result AreNames }
{
    match read_names(rt, alloc, at, OddNames::LeftOut) {
        Ok(names) => sorted_names(names, hidden),
        Err(e) => Err(e),
    }
}

/// Sorts the names ascending by their bytes, without the hidden one. Errs with `BadName` if a name
/// can't be an element of a path.
pub fn sorted_names(mut names: Vec<Text>, hidden: &str) -> Result<Items<Text>, Cause>
    ensures { IfOk result AreNames }
{
    names.retain(|name| name.as_str() != hidden);
    names.sort_unstable_by(|a, b| a.as_str().cmp(b.as_str()));
    if are_names(&names) {
        Ok(Items::from_vec(names))
    } else {
        Err(Cause::BadName)
    }
}

/// The treatment of names that aren't UTF-8. No path of a host has one.
#[derive(Clone, Copy, PartialEq, Eq)]
pub enum OddNames {
    /// Such a name is an error.
    Refused,
    /// Such names are left out: they aren't fpk's.
    LeftOut,
}

/// Lists the names in the directory, in no particular order. `odd` is the treatment of names that
/// aren't UTF-8.
pub fn read_names<R: Files + AllocGlobal>(
    rt: &R,
    alloc: Global,
    at: &str,
    odd: OddNames,
) -> Result<Vec<Text>, Cause> {
    let mut names = Vec::new(alloc);
    match known(add_names(rt, alloc, at, odd, &mut names)) {
        Ok(()) => Ok(names),
        Err(e) => Err(e),
    }
}

fn add_names<R: Files + AllocGlobal>(
    rt: &R,
    alloc: Global,
    at: &str,
    odd: OddNames,
    names: &mut Vec<Text>,
) -> io::Result<()> {
    for entry in fs::read_dir(&rt, at)? {
        add_name(alloc, entry, odd, names)?;
    }
    Ok(())
}

fn add_name<R: Files + Drop>(
    alloc: Global,
    entry: io::Result<DirEntry<R>>,
    odd: OddNames,
    names: &mut Vec<Text>,
) -> io::Result<()> {
    match entry {
        Ok(entry) => Ok(push_name(alloc, entry.file_name(), names)?),
        Err(e) if odd == OddNames::LeftOut && e.kind() == ErrorKind::InvalidFilename => Ok(()),
        Err(e) => Err(e),
    }
}

fn push_name(alloc: Global, name: &str, names: &mut Vec<Text>) -> Result<(), AllocError> {
    names.push(Text::from_string(name.to_string(alloc)?))?;
    Ok(())
}

/// Returns whether each name may be an element of a path, and the names ascend strictly.
fn are_names(names: &[Text]) -> bool
    ensures { IsTrue result → AreNames names.now }
{
    are_elements(names) && are_ascending(names)
}

fn are_elements(names: &[Text]) -> bool
    ensures { result ≡ list_all is_element names.now }
{
    names.iter().all(|name| is_element(name.as_str()))
}

fn are_ascending(names: &[Text]) -> bool
    ensures { result ≡ is_ascending names.now }
{
    for i in 1..names.len() {
        if !is_before(&names[i - 1], &names[i]) {
            return false;
        }
    }
    true
}

fn is_before(a: &Text, b: &Text) -> bool
    ensures { result ≡ is_lt (slice_cmp nat_cmp a.now b.now) }
{
    a.as_str() < b.as_str()
}
