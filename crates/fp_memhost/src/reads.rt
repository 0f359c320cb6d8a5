//! The calls that change nothing.
ghost use Rattle.std.specs.Prelude.{◌≡◌, ◌≢◌, ◌↔◌, ◌∷◌, ◌≤◌, ◌-◌, ℕ, List, Some, None, IfOk, IsErrOf, Contains, length, min, take, drop, MatchOption};
ghost use Rattle.std.specs.Option.{option_copied};
ghost use Rattle.fp_host.specs.Paths.{absent, dir, file, link};
ghost use Rattle.fp_host.specs.View.{IsTree};
ghost use Rattle.fp_host.specs.Calls.{IsFile};
ghost use Rattle.fp_host.specs.Reads.{IsStat, HasBits, Reads, IsRead, AreNames};
ghost use Rattle.fp_memhost.specs.Names.{slot_of};
ghost use Rattle.fp_memhost.specs.Stats.{IsOtherStat};
ghost use Rattle.fp_memhost.specs.Scenes.{seen};

use crate::conditions::is_dir;
use crate::files::{Content, file};
use crate::folders::children;
use crate::names::entry;
use crate::scene::Scene;
use fp_base::{Items, Text};
use fp_host::{Entry, HostError, Path, Stat, copy_out};
use std::alloc::Global;

/// Returns the id of the entry's file, or `None` if it isn't a file.
fn file_id(entry: Option<&Entry>) -> Option<u64>
    ensures { MatchOption result (IsFile (slot_of (option_copied entry.entry)) → ⊥)
        (λ id. slot_of (option_copied entry.entry) ≡ file id) }
{
    match entry {
        Some(Entry::File(id)) => Some(*id),
        _ => None,
    }
}

/// Returns the status of an entry that isn't a file.
fn other_stat(entry: Option<&Entry>) -> Stat
    requires { IsFile (slot_of (option_copied entry)) → ⊥ }
    ensures tells { IsOtherStat (slot_of (option_copied entry.entry)) result }
    ensures bits { HasBits result }
{
    match entry {
        None => Stat::Absent,
        Some(Entry::Dir) => Stat::Dir,
        Some(_) => Stat::Link,
    }
}

/// Returns the status of the path.
pub fn stat_of(scene: &Scene, path: &Path) -> Stat
    requires { IsTree (seen scene.now) }
    ensures tells { IsStat (seen scene.now) ((seen scene.now).names path.now) result }
    ensures bits { HasBits result }
{
    let entry = entry(&scene.names, path.text());
    let Some(id) = file_id(entry) else {
        return other_stat(entry);
    };
    match file(&scene.files, id) {
        Some(file) => stat_file(file),
        None => unreachable!(),
    }
}

/// Returns the names directly in the directory. Errs with `Clash` if the path is no directory, and
/// with `NoMemory` if memory runs out.
pub fn list_of(alloc: Global, scene: &Scene, path: &Path) -> Result<Items<Text>, HostError>
    ensures tells { Reads ((seen scene.now).names path.now ≡ dir)
        (λ xs. (x : List ℕ) → Contains xs x ↔ ((seen scene.now).names (x ∷ path.now) ≢ absent))
        result }
    ensures names { IfOk result AreNames }
    ensures no_fault { IsErrOf result HostError.Failed → ⊥ }
{
    if !is_dir(entry(&scene.names, path.text())) {
        return Err(HostError::Clash);
    }
    match children(alloc, &scene.names, path) {
        Ok(names) => Ok(Items::from_vec(names)),
        Err(_) => Err(HostError::NoMemory),
    }
}

/// Returns the text of the symlink. Errs with `Clash` if the path is no symlink, and with
/// `NoMemory` if memory runs out.
pub fn link_of(scene: &Scene, path: &Path) -> Result<Text, HostError>
    ensures tells { Reads ((text : List ℕ) × ((seen scene.now).names path.now ≡ link text))
        (λ text. (seen scene.now).names path.now ≡ link text) result }
    ensures no_fault { IsErrOf result HostError.Failed → ⊥ }
{
    match entry(&scene.names, path.text()) {
        Some(Entry::Link(text)) => match text.copy() {
            Ok(text) => Ok(text),
            Err(_) => Err(HostError::NoMemory),
        },
        _ => Err(HostError::Clash),
    }
}

/// Reads bytes of the file from the byte offset `at` on, as many as fit or are left, and returns
/// their number. Errs with `Clash` if the path is no file.
pub fn read_of(scene: &Scene, path: &Path, at: u64, into: &mut [u8]) -> Result<usize, HostError>
    requires { IsTree (seen scene.now) }
    ensures tells { Reads (IsFile ((seen scene.now).names path.now))
        (λ n. IsRead (seen scene.now) ((seen scene.now).names path.now) at into.new n) result }
    ensures bound { IfOk result (λ n. n ≤ length into.old) }
    ensures answers { (IsErrOf result HostError.Failed → ⊥) ×
        (IsErrOf result HostError.NoMemory → ⊥) }
{
    let Some(id) = file_id(entry(&scene.names, path.text())) else {
        return Err(HostError::Clash);
    };
    match file(&scene.files, id) {
        Some(file) => Ok(copy_out(&file.bytes, at, into)),
        None => unreachable!(),
    }
}

/// Returns the status of a file: its id, its mode and its length in bytes.
fn stat_file(file: &Content) -> Stat
    ensures { result ≡ Stat.File file.now.id file.now.mode (length file.now.bytes.items) }
{
    Stat::File {
        id: file.id,
        mode: file.mode,
        size: file.bytes.len() as u64,
    }
}
