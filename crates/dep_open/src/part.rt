//! Parts of the state, and their damaged paths.
ghost use Rattle.std.specs.Prelude.{◌≡◌, Some, OnOk};
ghost use Rattle.dep_open.specs.Parts.{lesser, seen_in, Puts, Adds};

use fp_host::Path;
use std::alloc::{AllocError, Global};
use std::collections::BTreeMap;

/// The result of reading one part of the state.
#[derive(Drop)]
pub(crate) enum Seen<T> {
    /// The part is absent.
    Away,
    /// The part can't be read.
    Bad,
    /// The part that was read.
    There(T),
}

/// A part of the state, and the first of its damaged paths by the bytes of their texts. The part is
/// used only if no path is damaged.
#[derive(Drop)]
pub(crate) struct Part<T> {
    /// The part, without what is damaged.
    pub found: T,
    /// The first damaged path, if any.
    pub damaged: Option<Path>,
}

/// Returns the first of two paths by the bytes of their texts. If one is `None`, returns the other
/// one.
pub(crate) fn lesser(first: Option<Path>, second: Option<Path>) -> Option<Path>
    ensures { result ≡ lesser first second }
{
    match (first, second) {
        (Some(first), Some(second)) => Some(lesser_path(first, second)),
        (Some(path), None) => Some(path),
        (None, path) => path,
    }
}

/// Returns the first of two paths by the bytes of their texts.
fn lesser_path(first: Path, second: Path) -> Path
    ensures { Some result ≡ lesser (Some first) (Some second) }
{
    if second.text() < first.text() {
        second
    } else {
        first
    }
}

/// Adds what was read at a path: its row, or the path itself if it can't be read and is before the
/// first damaged path so far.
pub(crate) fn add<T: Drop>(
    alloc: Global,
    key: &str,
    path: Path,
    seen: Seen<T>,
    rows: &mut BTreeMap<String, T>,
    damaged: &mut Option<Path>,
) -> Result<(), AllocError>
    ensures { OnOk result (Adds key.now path (seen_in seen) rows.old.entries damaged.old
        rows.new.entries damaged.new) }
{
    match seen {
        Seen::Away => Ok(()),
        Seen::Bad => {
            *damaged = lesser(damaged.take(), Some(path));
            Ok(())
        }
        Seen::There(row) => put(alloc, key, row, rows),
    }
}

/// Adds a row under its key.
fn put<T: Drop>(
    alloc: Global,
    key: &str,
    row: T,
    rows: &mut BTreeMap<String, T>,
) -> Result<(), AllocError>
    ensures { OnOk result (Puts key.now row rows.old.entries rows.new.entries) }
{
    let key = String::from_str(alloc, key)?;
    rows.insert(key, row)?;
    Ok(())
}
