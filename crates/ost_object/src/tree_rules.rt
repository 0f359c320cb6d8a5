//! The rules for the names in a dirtree.
ghost use Rattle.std.specs.Prelude.{◌≡◌, true};
ghost use Rattle.std.specs.List.{list_all};
ghost use Rattle.fp_host.specs.Paths.{is_element as is_name};
ghost use Rattle.fp_host.specs.Reads.{is_ascending};
ghost use Rattle.ost_model.specs.Readers.{first_broken, name_tests, shares};
ghost use Rattle.ost_object.specs.Views.{names_of_files, names_of_dirs, rows_view};

use crate::dirtree::{DirEntry, FileEntry};
use fp_base::Rule;
use fp_host::is_element;
use std::cmp::Ordering;

/// Returns the first of the rules `Name`, `Order` and `Both` that a dirtree breaks.
pub fn broken_name(files: &[FileEntry], dirs: &[DirEntry]) -> Option<Rule>
    ensures { result ≡ first_broken (name_tests (rows_view files.now dirs.now)) }
{
    if !(are_file_names(files) && are_dir_names(dirs)) {
        return Some(Rule::Name);
    }
    if !(files_ascend(files) && dirs_ascend(dirs)) {
        return Some(Rule::Order);
    }
    if share_a_name(files, dirs) {
        return Some(Rule::Both);
    }
    None
}

/// Returns whether each file's name can be a file name.
fn are_file_names(files: &[FileEntry]) -> bool
    ensures { result ≡ list_all is_name (names_of_files files.now) }
{
    for file in files {
        if !is_element(file.name.as_str()) {
            return false;
        }
    }
    true
}

/// Returns whether each directory's name can be a file name.
fn are_dir_names(dirs: &[DirEntry]) -> bool
    ensures { result ≡ list_all is_name (names_of_dirs dirs.now) }
{
    for dir in dirs {
        if !is_element(dir.name.as_str()) {
            return false;
        }
    }
    true
}

/// Returns whether the names of the files are strictly ascending by their bytes.
fn files_ascend(files: &[FileEntry]) -> bool
    ensures { result ≡ is_ascending (names_of_files files.now) }
{
    for i in 1..files.len() {
        if files[i - 1].name.as_str() >= files[i].name.as_str() {
            return false;
        }
    }
    true
}

/// Returns whether the names of the directories are strictly ascending by their bytes.
fn dirs_ascend(dirs: &[DirEntry]) -> bool
    ensures { result ≡ is_ascending (names_of_dirs dirs.now) }
{
    for i in 1..dirs.len() {
        if dirs[i - 1].name.as_str() >= dirs[i].name.as_str() {
            return false;
        }
    }
    true
}

/// Returns whether a name is in both lists. Both are in ascending order, so one pass over them is
/// enough.
fn share_a_name(files: &[FileEntry], dirs: &[DirEntry]) -> bool
    requires files { is_ascending (names_of_files files.now) ≡ true }
    requires dirs { is_ascending (names_of_dirs dirs.now) ≡ true }
    ensures { result ≡ shares (names_of_files files.now) (names_of_dirs dirs.now) }
{
    let mut i = 0;
    let mut j = 0;
    while i < files.len() && j < dirs.len() {
        match files[i].name.as_str().cmp(dirs[j].name.as_str()) {
            Ordering::Equal => return true,
            Ordering::Less => i += 1,
            Ordering::Greater => j += 1,
        }
    }
    false
}
