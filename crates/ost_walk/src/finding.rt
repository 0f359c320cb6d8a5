//! Looking up names in a directory.
ghost use Rattle.std.specs.Prelude.{◌≡◌, map, option_map};
ghost use Rattle.ost_model.specs.Look.{find_dir, find_file};
ghost use Rattle.ost_object.specs.Views.{dir_row as row_of, file_row};
ghost use Rattle.ost_walk.specs.Dirs.{child};
ghost use Rattle.ost_walk.specs.Looked.{file_digest};

use crate::dirs::{Dir, child};
use fp_name::Digest;
use ost_object::{DirEntry, FileEntry};

/// Returns the directory with this name, or `None` if there is none. `depth` is its depth below the
/// root.
pub(crate) fn find_dir(entries: &[DirEntry], name: &str, depth: u32) -> Option<Dir>
    ensures { result ≡ option_map (child depth) (find_dir name.now (map row_of entries.now)) }
{
    for entry in entries {
        if entry.name.as_str() == name {
            return Some(child(entry, depth));
        }
    }
    None
}

/// Returns the digest of the file or symlink with this name, or `None` if there is none.
pub fn find_file(files: &[FileEntry], name: &str) -> Option<Digest>
    ensures { result ≡ option_map file_digest (find_file name.now (map file_row files.now)) }
{
    for file in files {
        if file.name.as_str() == name {
            return Some(file.digest);
        }
    }
    None
}
