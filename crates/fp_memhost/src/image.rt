//! Images of disks, and the choices among those that a crash may leave.
ghost use Rattle.std.specs.Prelude.{◌≡◌, ◌↔◌, IsTrue};
ghost use Rattle.std.specs.Option.{option_copied};
ghost use Rattle.fp_memhost.specs.Names.{slot_of};
ghost use Rattle.fp_memhost.specs.Images.{slots_of, rows_of, IsImage};
ghost use Rattle.fp_memhost.specs.Soundness.{row_in, is_good_slot, is_good_row, are_good_names, are_good_rows};

use crate::opening::listed_entry;
use fp_base::{Blob, Items};
use fp_host::{Entry, PERMISSION_BITS, Path, is_link_text};

/// A file of an image.
#[derive(Debug, Drop)]
pub struct FileRow {
    /// The id by which directory entries refer to the file.
    pub id: u64,
    /// The file's permission bits.
    pub mode: u32,
    /// The file's bytes.
    pub bytes: Blob,
}

/// The content of a disk. The root is a directory, listed or not. If a path or an id is listed
/// twice, the first counts.
#[derive(Drop)]
pub struct Image {
    /// The paths that exist, each with its entry.
    pub names: Items<(Path, Entry)>,
    /// The files that the entries refer to.
    pub files: Items<FileRow>,
}

/// A choice of one image among those that a crash may leave. Entry 0 of a name is its present one,
/// and entry n the n-th earlier one, the oldest first. A name that isn't listed has its entry 0,
/// and a file that isn't listed has its own bytes. If a path or an id is listed twice, the first
/// counts.
#[derive(Drop)]
pub struct Choice {
    /// Names, each with the number of its entry.
    pub names: Items<(Path, u64)>,
    /// Files by their ids, each with its bytes.
    pub files: Items<(u64, Blob)>,
}

/// Returns the first file with this id.
fn row(files: &[FileRow], id: u64) -> Option<&FileRow>
    ensures { row_in (option_copied result) ≡ rows_of files.now id }
{
    for file in files {
        if id == file.id {
            return Some(file);
        }
    }
    None
}

/// Returns whether an entry is valid in an image with these files: a file is listed, and a
/// symlink's text is valid.
fn is_good_entry(files: &[FileRow], entry: Option<&Entry>) -> bool
    ensures { result ≡ is_good_slot (rows_of files.now) (slot_of (option_copied entry.entry)) }
{
    match entry {
        Some(Entry::File(id)) => row(files, *id).is_some(),
        Some(Entry::Link(text)) => is_link_text(text.as_str()),
        _ => true,
    }
}

impl Image {
    /// Returns whether the first listed entry of the path is valid.
    fn is_good_at(&self, path: &Path) -> bool
        ensures { result ≡ is_good_slot (rows_of self.now.files)
            (slots_of self.now.names path.now) }
    {
        if path.is_root() {
            return true;
        }
        is_good_entry(
            self.files.as_slice(),
            listed_entry(self.names.as_slice(), path.text()),
        )
    }

    /// Returns whether the entries of all listed names are valid.
    fn are_good_names(&self) -> bool
        ensures { result ≡ are_good_names self.now self.now.names }
    {
        for (path, _) in self.names.as_slice() {
            if !self.is_good_at(path) {
                return false;
            }
        }
        true
    }

    /// Returns whether the first file with this id has a mode of at most 0o7777.
    fn has_bits(&self, id: u64) -> bool
        ensures { result ≡ is_good_row (rows_of self.now.files id) }
    {
        match row(self.files.as_slice(), id) {
            Some(file) => file.mode <= PERMISSION_BITS,
            None => true,
        }
    }

    /// Returns whether all listed files have modes of at most 0o7777.
    fn are_good_files(&self) -> bool
        ensures { result ≡ are_good_rows self.now self.now.files }
    {
        for file in self.files.as_slice() {
            if !self.has_bits(file.id) {
                return false;
            }
        }
        true
    }

    /// Returns whether a host may start with the image: each file that an entry refers to is
    /// listed, the texts of symlinks are valid, and permission bits are at most 0o7777.
    pub fn is_good(&self) -> bool
        ensures { IsTrue result ↔ IsImage self.now }
    {
        self.are_good_names() && self.are_good_files()
    }
}
