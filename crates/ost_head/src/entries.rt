//! Looking up the entries of a dirtree.
ghost use Rattle.std.specs.Prelude.{◌≡◌, Some, map, is_some};
ghost use Rattle.ost_model.specs.Look.{find_dir, entry_in, file_in};
ghost use Rattle.ost_object.specs.Views.{dir_row, tree_view};
ghost use Rattle.ost_head.specs.Heads.{is_nothing};

use fp_name::Digest;
use ost_object::{DirEntry, DirTree};
use ost_walk::find_file;

/// Returns whether a directory has this name.
fn has_dir(dirs: &[DirEntry], name: &str) -> bool
    ensures { result ≡ is_some (find_dir name.now (map dir_row dirs.now)) }
{
    for dir in dirs {
        if dir.name.as_str() == name {
            return true;
        }
    }
    false
}

/// Returns the digest of the file or symlink with this name, or `None` if a directory or nothing
/// has the name.
#[tactic(auto, using(crate::proofs::Entered::dir_there, crate::proofs::Entered::no_dir))]
pub(crate) fn file_in(tree: &DirTree, name: &str) -> Option<Digest>
    ensures { result ≡ file_in (entry_in name.now (Some (tree_view tree.now))) }
{
    if has_dir(tree.dirs.as_slice(), name) {
        return None;
    }
    find_file(tree.files.as_slice(), name)
}

/// Returns whether neither a file, a symlink nor a directory has this name.
#[tactic(auto, using(crate::proofs::Entered::none_with_dir, crate::proofs::Entered::none_without_dir))]
pub(crate) fn has_none(tree: &DirTree, name: &str) -> bool
    ensures { result ≡ is_nothing (entry_in name.now (Some (tree_view tree.now))) }
{
    if has_dir(tree.dirs.as_slice(), name) {
        return false;
    }
    find_file(tree.files.as_slice(), name).is_none()
}
