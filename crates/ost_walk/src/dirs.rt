//! Directories that are still to be walked.
ghost use Rattle.std.specs.Prelude.{◌≡◌, ◌++◌, map, reverse, OnOk};
ghost use Rattle.ost_object.specs.Views.{dir_row as row_of};
ghost use Rattle.ost_walk.specs.Dirs.{child};

use fp_name::Digest;
use ost_object::DirEntry;
use std::alloc::AllocError;

/// A directory in a work list.
#[derive(Clone, Copy)]
pub struct Dir {
    /// The digest of the directory's dirtree.
    pub tree: Digest,
    /// The digest of the directory's dirmeta.
    pub meta: Digest,
    /// The number of levels below the root, whose own depth is 0.
    pub depth: u32,
}

/// Returns the directory of an entry at this depth below the root.
pub(crate) fn child(entry: &DirEntry, depth: u32) -> Dir
    ensures { result ≡ child depth (row_of entry.now) }
{
    Dir {
        tree: entry.tree,
        meta: entry.meta,
        depth,
    }
}

/// Adds the directories of these entries to the end of a work list in reverse order, so that the
/// first of them is walked next.
pub(crate) fn add_dirs(
    entries: &[DirEntry],
    depth: u32,
    left: &mut Vec<Dir>,
) -> Result<(), AllocError>
    ensures { OnOk result (left.new.items ≡ left.old.items ++ reverse
        (map (child depth) (map row_of entries.now))) }
{
    let mut i = entries.len();
    while i > 0 {
        i -= 1;
        left.push(child(&entries[i], depth))?;
    }
    Ok(())
}
