//! A host with many deployed refs.
ghost use Rattle.std.specs.Prelude.{◌≤◌, length, IfOk, IsOk, IsErr, IsErrOf};
ghost use Rattle.fp_host.specs.Reads.{AreNames, HasBits};

use fp_base::{Blob, Items, Text};
use fp_host::{Host, HostError, Path, Stat, copy_out};
use fp_system::sorted_names;
use std::alloc::{AllocError, Global};

/// The number of deployed applications, and of overrides.
pub const APPS: u32 = 1_100;

/// The text of each override.
const OVERRIDE: &[u8] = b"[Context]\nshared=network;\n";

/// A host with 1,100 applications, each deployed at the same commit, and 1,100 overrides. What is
/// at a path follows from its first name, its last name and its number of elements. The host
/// doesn't report its content, ignores all changes, and never fails, except that memory may run
/// out.
#[derive(Drop)]
pub struct WideHost {
    /// The hexadecimal digits of the commit, which are the text of each link `active`.
    pub commit: Text,
    /// The bytes of the record `deploy` beside each commit's tree.
    pub record: Blob,
}

/// What is at a path.
#[derive(Clone, Copy)]
enum Place {
    Absent,
    Folder,
    Link,
    Record,
    Override,
}

/// Returns what is at a path of the form `app/ID/ARCH/BRANCH/COMMIT/deploy`, or at one of its
/// ancestors.
fn place_of_app(path: &Path) -> Place {
    match path.len() {
        1..=4 => Place::Folder,
        5 if path.name() == Some("active") => Place::Link,
        5 => Place::Folder,
        6 if path.name() == Some("deploy") => Place::Record,
        _ => Place::Absent,
    }
}

/// Returns what is at the path. There are applications and overrides, and nothing else.
fn place_of(path: &Path) -> Place {
    if path.text().starts_with("app") {
        return place_of_app(path);
    }
    if !path.text().starts_with("overrides") {
        return Place::Absent;
    }
    match path.len() {
        1 => Place::Folder,
        _ => Place::Override,
    }
}

/// Returns the status of a file with these bytes.
fn stat_of(bytes: &[u8]) -> Stat
    ensures { HasBits result }
{
    Stat::File {
        id: 1,
        mode: 0o644,
        size: bytes.len() as u64,
    }
}

/// Returns the name with this number.
fn numbered_name(alloc: Global, number: u32) -> Result<Text, AllocError> {
    Ok(Text::from_string(format!(in alloc; "org.x.A{number}")?))
}

/// Returns the IDs of the applications, which are also the names of the overrides.
fn ids(alloc: Global) -> Result<Vec<Text>, AllocError> {
    let mut names = Vec::new(alloc);
    for number in 0..APPS {
        names.push(numbered_name(alloc, number)?)?;
    }
    Ok(names)
}

/// Returns this one name.
fn one_name(alloc: Global, name: &str) -> Result<Vec<Text>, AllocError> {
    Ok(vec![in alloc; Text::from_str(alloc, name)?]?)
}

/// Returns the names in a directory whose path has this many elements: the IDs below `app` and
/// `overrides`, then the one arch, then the one branch.
fn names_at(alloc: Global, elements: usize) -> Result<Vec<Text>, AllocError> {
    match elements {
        1 => ids(alloc),
        2 => one_name(alloc, "x86_64"),
        _ => one_name(alloc, "1"),
    }
}

impl WideHost {
    /// Returns the status of the path.
    fn stat_at(&self, path: &Path) -> Stat
        ensures { HasBits result }
    {
        match place_of(path) {
            Place::Absent => Stat::Absent,
            Place::Folder => Stat::Dir,
            Place::Link => Stat::Link,
            Place::Record => stat_of(self.record.as_slice()),
            Place::Override => stat_of(OVERRIDE),
        }
    }

    /// Returns the bytes of the file at the path; none if it isn't a file.
    fn bytes_at(&self, path: &Path) -> &[u8] {
        match place_of(path) {
            Place::Record => self.record.as_slice(),
            Place::Override => OVERRIDE,
            Place::Absent | Place::Folder | Place::Link => &[],
        }
    }
}

impl Host for WideHost {
    ghost use Rattle.std.specs.Prelude.{None};
    ghost use Rattle.std.proofs.lemmas.Option.{none-some};

    ghost moments = { λ h. None };

    ghost faults = { λ h. 0 };

    fn stat(&mut self, path: &Path) -> Result<Stat, HostError>
        ensures done { IsOk result }
        ensures bits { IfOk result HasBits }
    {
        Ok(self.stat_at(path))
    }

    fn list(&mut self, alloc: Global, path: &Path) -> Result<Items<Text>, HostError>
        ensures starved { IsErr result → IsErrOf result HostError.NoMemory }
        ensures names { IfOk result AreNames }
    {
        let Ok(names) = names_at(alloc, path.len()) else {
            return Err(HostError::NoMemory);
        };
        match sorted_names(names, "") {
            Ok(names) => Ok(names),
            Err(_) => Err(HostError::NoMemory),
        }
    }

    fn read_at(&mut self, path: &Path, at: u64, into: &mut [u8]) -> Result<usize, HostError>
        ensures done { IsOk result }
        ensures bound { IfOk result (λ n. n ≤ length into.old) }
    {
        Ok(copy_out(self.bytes_at(path), at, into))
    }

    fn read_link(&mut self, _alloc: Global, _path: &Path) -> Result<Text, HostError>
        ensures { IsErr result → IsErrOf result HostError.NoMemory }
    {
        match self.commit.copy() {
            Ok(text) => Ok(text),
            Err(_) => Err(HostError::NoMemory),
        }
    }

    fn make_dir(&mut self, _path: &Path) -> Result<(), HostError>
        ensures { IsOk result }
    {
        Ok(())
    }

    fn create(&mut self, _path: &Path, _mode: u32) -> Result<(), HostError>
        ensures { IsOk result }
    {
        Ok(())
    }

    fn append(&mut self, _path: &Path, _bytes: &[u8]) -> Result<(), HostError>
        ensures { IsOk result }
    {
        Ok(())
    }

    fn link(&mut self, _from: &Path, _to: &Path) -> Result<(), HostError>
        ensures { IsOk result }
    {
        Ok(())
    }

    fn symlink(&mut self, _text: &str, _path: &Path) -> Result<(), HostError>
        ensures { IsOk result }
    {
        Ok(())
    }

    fn rename(&mut self, _from: &Path, _to: &Path) -> Result<(), HostError>
        ensures { IsOk result }
    {
        Ok(())
    }

    fn unlink(&mut self, _path: &Path) -> Result<(), HostError>
        ensures { IsOk result }
    {
        Ok(())
    }

    fn remove_dir(&mut self, _path: &Path) -> Result<(), HostError>
        ensures { IsOk result }
    {
        Ok(())
    }

    fn sync(&mut self) -> Result<(), HostError>
        ensures { IsOk result }
    {
        Ok(())
    }

    fn say(&mut self, _piece: &[u8]) -> Result<(), HostError>
        ensures { IsOk result }
    {
        Ok(())
    }

    ghost is_tree = { λ h m told. absurd (none-some m told) };
}
